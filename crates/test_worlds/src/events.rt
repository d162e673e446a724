//! Events that drawn worlds have to come to often enough, besides each kind of outcome.

use crate::history::{Call, History, Ordered, UnknownProcedure};
use crate::procedures::is_of_catalogue;
use log_model::{Identifier, RequestId, Verdict};
use plain_replayer::ItemReport;
use test_programs::digit_of;

/// An event that is counted.
#[derive(Clone, Copy)]
enum Event {
    /// A call repeats another, and its snapshot is within the window.
    RepeatedWithin,
    /// A call repeats another, and its snapshot is too old.
    RepeatedPast,
    /// A call repeats another, and its own reply isn't the reply that is told.
    RepeatedReply,
    /// A call commits whose request an earlier call carried that was in conflict.
    CommittedAfterConflict,
    /// A call commits whose request an earlier call carried that was stale.
    CommittedAfterStale,
    /// A call of a procedure that was added commits.
    AddedCommitted,
    /// The name and the number of an addition are both taken, by two procedures.
    BothTaken,
    /// No call begins, as its procedure is added behind the position of its replica.
    BehindReplica,
    /// No call begins, as its procedure is added behind the position of its replica, which is stopped.
    BehindStoppedReplica,
    /// A replica finds no memory for an addition.
    AdditionWithoutMemory,
}

const EVENTS: usize = 10;

/// The number of times that each event came, of those that need several steps of a world.
#[derive(Clone, Copy, Debug)]
pub struct Events {
    counts: [u32; EVENTS],
}

impl Events {
    /// Makes the counts of no events.
    pub fn new() -> Events {
        Events {
            counts: [0; EVENTS],
        }
    }

    fn count(&mut self, event: Event) {
        self.add(event, 1);
    }

    fn add(&mut self, event: Event, times: u32) {
        if let Some(count) = self.counts.get_mut(event as usize) {
            *count = count.wrapping_add(times);
        }
    }

    /// Tells whether each event came more often than this.
    pub fn all_above(&self, least: u32) -> bool {
        self.counts.iter().all(|count| *count > least)
    }
}

/// Tells whether a call that was refused before carried this request: in conflict, and stale.
fn refused_before(past: &[ItemReport], request: Option<RequestId>) -> (bool, bool) {
    let (mut conflict, mut stale) = (false, false);
    for report in past {
        if report.request() == request {
            match report.verdict() {
                Verdict::Conflict(_) => conflict = true,
                Verdict::Stale => stale = true,
                _ => {}
            }
        }
    }
    (conflict && request.is_some(), stale && request.is_some())
}

/// Tells whether an ordered item is an addition that committed, with this name and this number where they are given.
fn is_added(
    ordered: &Ordered,
    report: &ItemReport,
    name: Option<&str>,
    number: Option<u16>,
) -> bool {
    match ordered {
        Ordered::Addition {
            name: own,
            number: n,
        } => {
            report.verdict() == Verdict::Commit
                && name.is_none_or(|name| own.as_str() == name)
                && number.is_none_or(|number| *n == number)
        }
        Ordered::Call(_) => false,
    }
}

/// Tells whether the catalogue has a number, or one of these additions committed with it.
fn is_number_taken(ordered: &[Ordered], past: &[ItemReport], number: u16) -> bool {
    let mut items = ordered.iter().zip(past);
    is_of_catalogue(number) || items.any(|(it, report)| is_added(it, report, None, Some(number)))
}

/// Tells whether name and number are those of one procedure: of the catalogue's, whose name is its number, or of an
/// addition that committed.
fn is_one(ordered: &[Ordered], past: &[ItemReport], name: &str, number: u16) -> bool {
    let mut items = ordered.iter().zip(past);
    let own = is_of_catalogue(number) && name.as_bytes() == digit_of(number).as_slice();
    own || items.any(|(it, report)| is_added(it, report, Some(name), Some(number)))
}

impl Events {
    /// Counts what became of a call, with what was ordered before.
    fn count_call(&mut self, call: &Call, window: u32, past: &[ItemReport], report: &ItemReport) {
        match report.verdict() {
            Verdict::Repeated(_) => {
                let since = past.len().saturating_sub(call.snapshot as usize);
                self.count(if since > window as usize {
                    Event::RepeatedPast
                } else {
                    Event::RepeatedWithin
                });
                if report.told_reply() != Some(report.reply()) {
                    self.count(Event::RepeatedReply);
                }
            }
            Verdict::Commit => {
                let (conflict, stale) = refused_before(past, call.request);
                self.count_if(conflict, Event::CommittedAfterConflict);
                self.count_if(stale, Event::CommittedAfterStale);
                self.count_if(!is_of_catalogue(call.procedure), Event::AddedCommitted);
            }
            _ => {}
        }
    }

    fn count_if(&mut self, holds: bool, event: Event) {
        if holds {
            self.count(event);
        }
    }

    /// Counts what became of all that was ordered, by the replay's reports, and of what wasn't.
    pub fn count_all(&mut self, history: &History, window: u32, reports: &[ItemReport]) {
        for (place, ordered) in history.ordered.iter().enumerate() {
            let (past, later) = reports.split_at(place.min(reports.len()));
            let Some(report) = later.first() else {
                return;
            };
            match ordered {
                Ordered::Call(number) => {
                    if let Some(call) = history.call(*number) {
                        self.count_call(call, window, past, report);
                    }
                }
                Ordered::Addition { name, number } => {
                    let named = report.verdict() == Verdict::Taken(Identifier::Name);
                    let taken = is_number_taken(&history.ordered, past, *number);
                    let one = is_one(&history.ordered, past, name, *number);
                    self.count_if(named && taken && !one, Event::BothTaken);
                }
            }
        }
        for unknown in &history.unknown {
            self.count_unknown(unknown, &history.ordered, reports);
        }
        self.add(
            Event::AdditionWithoutMemory,
            history.additions_without_memory,
        );
    }

    /// Counts a call that didn't begin, where its procedure is added behind the position of its replica.
    fn count_unknown(
        &mut self,
        unknown: &UnknownProcedure,
        ordered: &[Ordered],
        reports: &[ItemReport],
    ) {
        let mut later = ordered.iter().zip(reports).skip(unknown.position as usize);
        let added = later.any(|(it, report)| is_added(it, report, None, Some(unknown.number)));
        self.count_if(added, Event::BehindReplica);
        self.count_if(added && unknown.stopped, Event::BehindStoppedReplica);
    }
}
