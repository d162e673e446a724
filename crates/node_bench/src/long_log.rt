//! The replay of a long log, which keeps the rows of the last positions alone.
//!
//! What becomes of each call is what `plain_replayer` says; a soak of few calls compares the two.

use log_model::{RequestId, Verdict};
use plain_replayer::{PlainCall, PlainItem, PlainItemKind, PlainSetting, Row};
use plain_runner::{CompletedRun, KeyMap, run_program};
use schema::Look;
use std::alloc::Global;
use std::collections::BTreeMap;

/// A call that was replayed, and the rows after the call.
#[derive(Drop)]
struct Passed {
    /// The call's position; 0 stands for the beginning, before any call.
    position: usize,
    verdict: Verdict,
    /// The run on the rows of the call's snapshot, where the verdict needs one.
    run: Option<CompletedRun>,
    rows: Vec<Row>,
}

impl Passed {
    /// Tells whether the call committed and wrote a key that one of the looks covers.
    fn conflicts(&self, looks: &[Look]) -> bool {
        let Some(run) = &self.run else {
            return false;
        };
        self.verdict == Verdict::Commit
            && run.writes().iter().any(|write| {
                looks
                    .iter()
                    .any(|look| look.covers(write.table(), write.key()))
            })
    }
}

/// The calls that were replayed so far.
#[derive(Drop)]
pub(crate) struct LongReplay {
    verdicts: Vec<Verdict>,
    /// The last calls, one more than the window: each at the place of its position modulo their number.
    recent: Vec<Passed>,
    /// The position of the committed call of each request, by session and number.
    requests: BTreeMap<(u32, u32), u32>,
}

/// The session and the number of a request.
fn numbers_of(request: RequestId) -> (u32, u32) {
    (request.session, request.sequence)
}

/// A copy of rows. Returns `None` where memory is wanting.
fn copied(alloc: Global, rows: &[Row]) -> Option<Vec<Row>> {
    KeyMap::from_rows(alloc, rows).ok()?.into_list(alloc).ok()
}

impl LongReplay {
    /// Replays a log of calls. Returns `None` where memory is wanting, an item is an addition, or a call is of no procedure
    /// of the setting.
    pub(crate) fn new(
        alloc: Global,
        setting: &PlainSetting,
        items: &[PlainItem],
    ) -> Option<LongReplay> {
        let mut replay = LongReplay {
            verdicts: Vec::new(alloc),
            recent: Vec::new(alloc),
            requests: BTreeMap::new(alloc),
        };
        let beginning = Passed {
            position: 0,
            verdict: Verdict::Stale,
            run: None,
            rows: Vec::new(alloc),
        };
        replay.keep(setting, beginning)?;
        for item in items {
            let PlainItemKind::Call(call) = &item.kind else {
                return None;
            };
            replay.add(alloc, setting, call)?;
        }
        Some(replay)
    }

    /// The verdict on each call, in the order of the log.
    pub(crate) fn verdicts(&self) -> &[Verdict] {
        &self.verdicts
    }

    /// The rows after the last call.
    pub(crate) fn rows(&self, setting: &PlainSetting) -> Option<&[Row]> {
        Some(&self.at(setting, self.verdicts.len())?.rows)
    }

    /// The place of a position among the last calls.
    fn place(setting: &PlainSetting, position: usize) -> usize {
        let kept = (setting.window() as usize).wrapping_add(1);
        position.checked_rem(kept).unwrap_or(0)
    }

    /// Returns the call at a position, where the replay still has the call.
    fn at(&self, setting: &PlainSetting, position: usize) -> Option<&Passed> {
        let passed = self.recent.get(LongReplay::place(setting, position))?;
        (passed.position == position).then_some(passed)
    }

    /// Keeps a call in the place of the one that came a window and one before.
    fn keep(&mut self, setting: &PlainSetting, passed: Passed) -> Option<()> {
        let place = LongReplay::place(setting, passed.position);
        match self.recent.get_mut(place) {
            Some(earlier) => *earlier = passed,
            None => self.recent.push(passed).ok()?,
        }
        Some(())
    }

    /// Runs a call on the rows after a position.
    fn run_at(
        &self,
        alloc: Global,
        setting: &PlainSetting,
        call: &PlainCall,
        position: usize,
    ) -> Option<CompletedRun> {
        let rows = &self.at(setting, position)?.rows;
        let code = setting.procedure(call.procedure())?.code();
        run_program(alloc, code, setting.schema(), call.args(), rows).ok()?
    }

    /// Returns the verdict on the next call, which is neither repeated nor stale, by its looks.
    fn verdict_by(&self, setting: &PlainSetting, snapshot: usize, looks: &[Look]) -> Verdict {
        for position in snapshot.wrapping_add(1)..=self.verdicts.len() {
            let conflicts = self
                .at(setting, position)
                .is_some_and(|it| it.conflicts(looks));
            if conflicts {
                return Verdict::Conflict(u32::try_from(position).unwrap_or(u32::MAX));
            }
        }
        Verdict::Commit
    }

    /// Returns the position of the committed call that carries a request.
    fn first_of(&self, request: Option<RequestId>) -> Option<u32> {
        self.requests.get(&numbers_of(request?)).copied()
    }

    /// Returns the verdict on the next call, and the run on the rows of its snapshot, where the verdict needs one.
    fn judge(
        &self,
        alloc: Global,
        setting: &PlainSetting,
        call: &PlainCall,
    ) -> Option<(Verdict, Option<CompletedRun>)> {
        if let Some(first) = self.first_of(call.request()) {
            return Some((Verdict::Repeated(first), None));
        }
        let since = self.verdicts.len().saturating_sub(call.snapshot());
        if since > setting.window() as usize {
            return Some((Verdict::Stale, None));
        }
        let run = self.run_at(alloc, setting, call, call.snapshot())?;
        let verdict = self.verdict_by(setting, call.snapshot(), run.looks());
        Some((verdict, Some(run)))
    }

    /// Replays the next call.
    fn add(&mut self, alloc: Global, setting: &PlainSetting, call: &PlainCall) -> Option<()> {
        let before = self.verdicts.len();
        let position = before.wrapping_add(1);
        let (verdict, run) = self.judge(alloc, setting, call)?;
        let rows = if verdict == Verdict::Commit {
            if let Some(request) = call.request() {
                let number = u32::try_from(position).ok()?;
                self.requests.insert(numbers_of(request), number).ok()?;
            }
            self.run_at(alloc, setting, call, before)?.into_rows()
        } else {
            copied(alloc, &self.at(setting, before)?.rows)?
        };
        self.verdicts.push(verdict).ok()?;
        self.keep(
            setting,
            Passed {
                position,
                verdict,
                run,
                rows,
            },
        )
    }
}
