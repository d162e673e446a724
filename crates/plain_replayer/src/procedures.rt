//! The procedures after some items: those of the catalogue, and behind them those that were added.

ghost use Rattle.std.specs.Prelude.{◌≡◌, ◌==◌, option_map, slice_get, Some, None, if◌then◌else◌};
ghost use Rattle.std.specs.Str.{bytes_eq};
ghost use Rattle.log_model.specs.Log.{by_name, by_number, is_commit, verdict_on_addition};
ghost use Rattle.plain_replayer.specs.Replay.{added_by, added_from, passes, procedures_at, procedures_of};

use crate::item::{PlainCall, PlainItem, PlainItemKind};
use crate::report::ItemReport;
use crate::setting::{PlainProcedure, PlainSetting};
use crate::verdicts::is_commit;
use log_model::{Identifier, Verdict};
use std::alloc::Allocator;

/// The procedure of a number after the items on which there are reports, the first of the log.
pub fn procedure_by_number<'a, A: Allocator, B: Allocator>(
    setting: &'a PlainSetting<B>,
    log: &'a [PlainItem<B>],
    reports: &[ItemReport<A>],
    number: u16,
) -> Option<&'a PlainProcedure<B>>
    ensures { option_map (λ p. p.now) result
        ≡ by_number (procedures_of setting.now log.now reports.now) number }
{
    match setting.procedure(number) {
        Some(procedure) => Some(procedure),
        None => added_by_number(log, reports, number),
    }
}

/// The procedure of a name after the items on which there are reports, the first of the log.
pub fn procedure_by_name<'a, A: Allocator, B: Allocator>(
    setting: &'a PlainSetting<B>,
    log: &'a [PlainItem<B>],
    reports: &[ItemReport<A>],
    name: &[u8],
) -> Option<&'a PlainProcedure<B>>
    ensures { option_map (λ p. p.now) result
        ≡ by_name (procedures_of setting.now log.now reports.now) name.now }
{
    match setting.procedure_named(name) {
        Some(procedure) => Some(procedure),
        None => added_by_name(log, reports, name),
    }
}

/// The procedure of a call, among the procedures of its snapshot.
pub(crate) fn procedure_of_call<'a, A: Allocator, B: Allocator>(
    setting: &'a PlainSetting<B>,
    log: &'a [PlainItem<B>],
    past: &[ItemReport<A>],
    call: &PlainCall<B>,
) -> Option<&'a PlainProcedure<B>>
    ensures { option_map (λ p. p.now) result
        ≡ by_number (procedures_at setting.now log.now past.now call.now.snapshot) call.now.procedure }
{
    let snapshot = call.snapshot();
    if snapshot <= past.len() {
        let (before, _) = past.split_at(snapshot);
        procedure_by_number(setting, log, before, call.procedure())
    } else {
        None
    }
}

/// The verdict on an addition as the next item.
pub(crate) fn verdict_on_addition<A: Allocator, B: Allocator>(
    setting: &PlainSetting<B>,
    log: &[PlainItem<B>],
    past: &[ItemReport<A>],
    procedure: &PlainProcedure<B>,
) -> Verdict
    ensures { result
        ≡ verdict_on_addition (procedures_of setting.now log.now past.now) procedure.now }
{
    if procedure_by_name(setting, log, past, procedure.name()).is_some() {
        Verdict::Taken(Identifier::Name)
    } else if procedure_by_number(setting, log, past, procedure.number()).is_some() {
        Verdict::Taken(Identifier::Number)
    } else {
        Verdict::Commit
    }
}

/// The first procedure of a number that the items add.
fn added_by_number<'a, A: Allocator, B: Allocator>(
    log: &'a [PlainItem<B>],
    reports: &[ItemReport<A>],
    number: u16,
) -> Option<&'a PlainProcedure<B>>
    ensures { option_map (λ p. p.now) result ≡ by_number (added_from log.now 0 reports.now) number }
{
    for (place, report) in reports.iter().enumerate() {
        let added = added_at(log, place, report.verdict());
        if has_number(added, number) {
            return added;
        }
    }
    None
}

/// The first procedure of a name that the items add.
fn added_by_name<'a, A: Allocator, B: Allocator>(
    log: &'a [PlainItem<B>],
    reports: &[ItemReport<A>],
    name: &[u8],
) -> Option<&'a PlainProcedure<B>>
    ensures { option_map (λ p. p.now) result ≡ by_name (added_from log.now 0 reports.now) name.now }
{
    for (place, report) in reports.iter().enumerate() {
        let added = added_at(log, place, report.verdict());
        if has_name(added, name) {
            return added;
        }
    }
    None
}

fn has_number<A: Allocator>(procedure: Option<&PlainProcedure<A>>, number: u16) -> bool
    ensures { result ≡ passes (λ p. p.number == number) (option_map (λ p. p.now) procedure.entry) }
{
    match procedure {
        Some(procedure) => procedure.number() == number,
        None => false,
    }
}

fn has_name<A: Allocator>(procedure: Option<&PlainProcedure<A>>, name: &[u8]) -> bool
    ensures { result ≡ passes (λ p. bytes_eq p.name name.now) (option_map (λ p. p.now) procedure.entry) }
{
    match procedure {
        Some(procedure) => procedure.name() == name,
        None => false,
    }
}

/// The procedure that the item at a place adds, where it has this verdict.
fn added_at<A: Allocator>(
    log: &[PlainItem<A>],
    place: usize,
    verdict: Verdict,
) -> Option<&PlainProcedure<A>>
    ensures { option_map (λ p. p.now) result ≡ added_by (slice_get log.now place) verdict }
{
    match log.get(place) {
        Some(item) => added_by(item, verdict),
        None => None,
    }
}

/// The procedure that an item adds, where it has this verdict.
fn added_by<A: Allocator>(item: &PlainItem<A>, verdict: Verdict) -> Option<&PlainProcedure<A>>
    ensures { option_map (λ p. p.now) result ≡ added_by (Some item.now) verdict }
{
    match &item.kind {
        PlainItemKind::Addition(procedure) => where_committed(procedure, verdict),
        PlainItemKind::Call(_) => None,
    }
}

fn where_committed<A: Allocator>(
    procedure: &PlainProcedure<A>,
    verdict: Verdict,
) -> Option<&PlainProcedure<A>>
    ensures { option_map (λ p. p.now) result
        ≡ (if is_commit verdict then Some procedure.now else None) }
{
    if is_commit(verdict) {
        Some(procedure)
    } else {
        None
    }
}
