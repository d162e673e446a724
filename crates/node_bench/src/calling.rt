//! The calls of callers, drawn from a seed, and the counts of their answers.

use crate::procedures::{
    ACCOUNTS, ADD_NUMBER, BALANCE_NUMBER, COUNT_NUMBER, LONG_NUMBER, MONEY, NEXT_NUMBER,
    ONE_NUMBER, PUT_NUMBER, TRANSFER_NUMBER,
};
use locked_replica::LogSetting;
use log_model::RequestId;
use node::{CallRequest, Desk};
use node_calls::{Answer, OpenGate};
use rand_core::utils::NextWord;
use rand_pcg::Pcg32;
use session::Session;
use std::alloc::{AllocError, Global};
use std::sync::Wait;
use std::thread;
use std::thread::Threads;
use tallies::{Counts, Ledgers};

/// The work of callers.
#[derive(Clone, Copy, Debug, PartialEq, Eq)]
pub(crate) enum Work {
    /// Calls of all kinds between accounts.
    Soak,
    /// Additions of 1 to the row at one of the keys.
    Write,
    /// Calls that reply the row at one of the keys.
    Read,
    /// Calls of 4,000 instructions that look at no row.
    Long,
    /// No calls.
    Start,
}

impl Work {
    pub(crate) fn from_word(word: &str) -> Option<Work> {
        match word {
            "soak" => Some(Work::Soak),
            "write" => Some(Work::Write),
            "read" => Some(Work::Read),
            "long" => Some(Work::Long),
            "start" => Some(Work::Start),
            _ => None,
        }
    }
}

/// An amount that is more than any account has.
const FORTUNE: u64 = 1_000_000;

/// The load of a node: how many calls are made, of whom and where.
#[derive(Clone, Copy)]
pub(crate) struct Load {
    pub(crate) work: Work,
    pub(crate) replicas: u32,
    /// The number of executing threads a replica.
    pub(crate) executors: u32,
    /// The number of calls that are answered with their outcome. A call that is in conflict or stale is made anew, but in
    /// a soak.
    pub(crate) calls: u32,
    /// The number of callers in all.
    pub(crate) callers: u32,
    /// The number of calls that each caller has under way. In a soak each has one.
    pub(crate) depth: u32,
    /// The number of keys where calls are measured.
    pub(crate) keys: u32,
    /// The number of entries that are kept, few in a soak, so that some calls are stale.
    pub(crate) window: u32,
    pub(crate) seed: u64,
}

/// A caller.
#[derive(Drop)]
struct Caller {
    /// The caller's number, from 1 on.
    number: u32,
    /// The number of calls with a request that the caller has made.
    requests: u32,
    generator: Pcg32,
}

/// A drawn call. Its arguments are the first `count` words, as many as the procedure takes.
#[derive(Clone, Copy)]
struct DrawnCall {
    procedure: u16,
    words: [u64; 3],
    count: usize,
}

impl DrawnCall {
    /// The bytes of all words.
    fn bytes(&self) -> [u8; 24] {
        let mut bytes = [0u8; 24];
        for (place, word) in bytes.chunks_exact_mut(8).zip(&self.words) {
            place.copy_from_slice(&word.to_le_bytes());
        }
        bytes
    }

    /// The number of bytes of the arguments.
    fn len(&self) -> usize {
        self.count.wrapping_mul(8)
    }
}

impl Caller {
    /// Draws a number below `end`.
    fn draw(&mut self, end: u32) -> u32 {
        self.generator.next_word().checked_rem(end).unwrap_or(0)
    }

    fn draw_account(&mut self) -> u64 {
        u64::from(self.draw(ACCOUNTS))
    }

    /// A key at which only this caller puts rows, and no account.
    fn own_key(&self) -> u64 {
        u64::from(ACCOUNTS).wrapping_add(u64::from(self.number))
    }

    fn draw_transfer(&mut self, amount: u64) -> DrawnCall {
        DrawnCall {
            procedure: TRANSFER_NUMBER,
            words: [self.draw_account(), self.draw_account(), amount],
            count: 3,
        }
    }

    /// Draws a search over some accounts, whose result stands at a key of the caller's own.
    fn draw_search(&mut self, procedure: u16) -> DrawnCall {
        let lo = self.draw_account();
        DrawnCall {
            procedure,
            words: [lo, lo.wrapping_add(4), self.own_key()],
            count: 3,
        }
    }

    /// Draws one of sixteen calls: ten are transfers, two count, two search, one cancels and one writes nothing.
    fn draw_mixed(&mut self) -> DrawnCall {
        match self.draw(16) {
            0 | 1 => self.draw_search(COUNT_NUMBER),
            2 | 3 => self.draw_search(NEXT_NUMBER),
            4 => self.draw_transfer(FORTUNE),
            5 => DrawnCall {
                procedure: ONE_NUMBER,
                words: [0; 3],
                count: 0,
            },
            _ => {
                let amount = u64::from(self.draw(9)).wrapping_add(1);
                self.draw_transfer(amount)
            }
        }
    }

    /// Draws a call of a work, at one of so many keys where the call is measured.
    fn draw_call(&mut self, work: Work, keys: u32) -> DrawnCall {
        let (procedure, count) = match work {
            Work::Soak => return self.draw_mixed(),
            Work::Write => (ADD_NUMBER, 2),
            Work::Read | Work::Start => (BALANCE_NUMBER, 1),
            Work::Long => (LONG_NUMBER, 0),
        };
        DrawnCall {
            procedure,
            words: [u64::from(self.draw(keys)), 1, 0],
            count,
        }
    }

    /// The request of the next call of a soak. An eighth of the calls has a new request, and an eighth has that of the
    /// call before.
    fn draw_request(&mut self, work: Work) -> Option<RequestId> {
        if work != Work::Soak {
            return None;
        }
        match self.draw(8) {
            0 => self.requests = self.requests.saturating_add(1),
            1 if self.requests > 0 => {}
            _ => return None,
        }
        Some(RequestId {
            session: self.number,
            sequence: self.requests,
        })
    }

    /// Makes a call of a soak at a replica.
    fn call<J: LogSetting + Ledgers + Send + Sync + 'static, R: Wait>(
        &mut self,
        rt: &R,
        session: &mut Session<'_, J, OpenGate>,
        replica: u32,
    ) -> Answer {
        let drawn = self.draw_call(Work::Soak, ACCOUNTS);
        let bytes = drawn.bytes();
        let args = bytes.get(..drawn.len()).unwrap_or(&[]);
        match self.draw_request(Work::Soak) {
            Some(request) => {
                session
                    .call_numbered(rt, replica, drawn.procedure, args, request)
                    .0
            }
            None => session.call(rt, replica, drawn.procedure, args).0,
        }
    }

    /// Makes the calls of a soak at a replica, one behind the other. The first caller at a replica has the replica made
    /// anew where the replica has stopped. Returns what was told.
    fn soak<J: LogSetting + Ledgers + Send + Sync + 'static, R: Wait>(
        &mut self,
        rt: &R,
        desk: &Desk<J, OpenGate>,
        replica: u32,
        calls: u32,
    ) -> AnswerCounts {
        let mut session = Session::new(desk);
        let mut told = AnswerCounts::new();
        for _ in 0..calls {
            let answer = self.call(rt, &mut session, replica);
            told.count(answer);
            if self.number == replica && matches!(answer, Answer::Stopped { .. }) {
                // Where a rebuild finds no memory, the caller tries again at the next such answer.
                let _ = desk.rebuild(rt, replica);
            }
        }
        told
    }

    /// Makes some calls at a replica together. Returns the number that were answered with their outcome. The error is
    /// want of memory.
    fn call_together<J: LogSetting + Ledgers + Send + Sync + 'static, R: Wait>(
        &mut self,
        rt: &R,
        alloc: Global,
        desk: &Desk<J, OpenGate>,
        load: Load,
        replica: u32,
        together: u32,
        told: &mut AnswerCounts,
    ) -> Result<u32, AllocError> {
        let mut drawn = Vec::with_capacity(alloc, together as usize)?;
        for _ in 0..together {
            let call = self.draw_call(load.work, load.keys);
            drawn.push((call.procedure, call.bytes(), call.len()))?;
        }
        let mut requests = Vec::with_capacity(alloc, drawn.len())?;
        for (procedure, bytes, len) in &drawn {
            requests.push(CallRequest {
                least: 0,
                procedure: *procedure,
                args: bytes.get(..*len).unwrap_or(&[]),
                request: None,
            })?;
        }
        let mut done = 0u32;
        for (answer, _) in desk.execute_many(rt, replica, &requests)?.iter() {
            told.count(*answer);
            if !matches!(answer, Answer::Conflict { .. } | Answer::Stale) {
                done = done.wrapping_add(1);
            }
        }
        Ok(done)
    }

    /// Makes calls at a replica, as many together as the load says. Returns what was told.
    fn call_many<J: LogSetting + Ledgers + Send + Sync + 'static, R: Wait>(
        &mut self,
        rt: &R,
        alloc: Global,
        desk: &Desk<J, OpenGate>,
        load: Load,
        replica: u32,
        calls: u32,
    ) -> Result<AnswerCounts, AllocError> {
        let mut told = AnswerCounts::new();
        let mut left = calls;
        for _ in rt.forever() {
            if left == 0 {
                break;
            }
            let together = load.depth.min(left);
            let done = self.call_together(rt, alloc, desk, load, replica, together, &mut told)?;
            left = left.saturating_sub(done);
        }
        Ok(told)
    }
}

/// What callers were told.
#[derive(Clone, Copy)]
pub(crate) struct AnswerCounts {
    /// The number of answers of each kind.
    pub(crate) counts: Counts,
    /// The number of calls that were ordered, and of which their replica has no verdict. They are among the others.
    pub(crate) stopped: u64,
}

impl AnswerCounts {
    /// Nothing that was told.
    pub(crate) fn new() -> AnswerCounts {
        AnswerCounts {
            counts: Counts::new(),
            stopped: 0,
        }
    }

    /// Counts an answer.
    fn count(&mut self, answer: Answer) {
        let counts = &mut self.counts;
        let count = match answer {
            Answer::Committed { .. } => &mut counts.committed,
            Answer::Read { .. } => &mut counts.read,
            Answer::Cancelled { .. } => &mut counts.cancelled,
            Answer::Conflict { .. } => &mut counts.conflict,
            Answer::Stale => &mut counts.stale,
            Answer::Repeated { .. } => &mut counts.repeated,
            _ => &mut counts.other,
        };
        *count = count.wrapping_add(1);
        if matches!(answer, Answer::Stopped { .. }) {
            self.stopped = self.stopped.wrapping_add(1);
        }
    }

    /// What was told to these and to others.
    pub(crate) fn plus(self, others: AnswerCounts) -> AnswerCounts {
        AnswerCounts {
            counts: self
                .counts
                .checked_add(others.counts)
                .unwrap_or(Counts::new()),
            stopped: self.stopped.wrapping_add(others.stopped),
        }
    }
}

/// Returns the number of answers.
pub(crate) fn all(counts: &Counts) -> u64 {
    [
        counts.committed,
        counts.read,
        counts.cancelled,
        counts.conflict,
        counts.stale,
        counts.repeated,
        counts.other,
    ]
    .iter()
    .fold(0u64, |sum, count| sum.wrapping_add(*count))
}

/// Runs a caller, by its place from 0 on: makes its share of the calls, at one replica. Returns what was told.
fn call_from<J: LogSetting + Ledgers + Send + Sync + 'static, R: Wait>(
    rt: &R,
    alloc: Global,
    desk: &Desk<J, OpenGate>,
    load: Load,
    place: usize,
) -> Result<AnswerCounts, AllocError> {
    let number = u32::try_from(place).unwrap_or(0);
    let replica = number
        .checked_rem(load.replicas)
        .unwrap_or(0)
        .wrapping_add(1);
    let mut caller = Caller {
        number: number.wrapping_add(1),
        requests: 0,
        generator: Pcg32::new(load.seed, u64::from(number)),
    };
    let rest = load.calls.checked_rem(load.callers).unwrap_or(0);
    let share = load.calls.checked_div(load.callers).unwrap_or(0);
    let share = share.saturating_add(u32::from(number < rest));
    match load.work {
        Work::Start => Ok(AnswerCounts::new()),
        Work::Soak => Ok(caller.soak(rt, desk, replica, share)),
        Work::Write | Work::Read | Work::Long => caller.call_many(
            rt, alloc, desk, load, replica, share,
        ),
    }
}

/// Makes the calls of a load. Returns what was told. The error is want of memory.
pub(crate) fn call_all<J: LogSetting + Ledgers + Send + Sync + 'static, R: Threads + Wait + Sync>(
    rt: &R,
    alloc: Global,
    desk: &Desk<J, OpenGate>,
    load: Load,
) -> Result<AnswerCounts, AllocError> {
    let asked = thread::map_indices(
        rt,
        alloc,
        load.callers as usize,
        &|place: usize| call_from(rt, alloc, desk, load, place),
    )?;
    let mut told = AnswerCounts::new();
    for answered in asked.iter() {
        told = told.plus((*answered)?);
    }
    Ok(told)
}

/// The number of rebuilds beside the calls of a soak.
const REBUILDS: u32 = 16;

/// Makes drawn replicas anew while others call, from time to time, where the load is a soak. Returns how often memory
/// was wanting for a rebuild.
pub(crate) fn rebuild_some<J: LogSetting + Ledgers + Send + Sync + 'static, R: Wait>(
    rt: &R,
    desk: &Desk<J, OpenGate>,
    load: Load,
) -> u32 {
    let mut wanting = 0u32;
    if load.work != Work::Soak {
        return wanting;
    }
    let mut generator = Pcg32::new(load.seed, u64::from(load.callers));
    // An eighth of a soak's calls and more are ordered, so that each of these positions is reached.
    let step = load.calls / 8 / REBUILDS;
    for count in 0..REBUILDS {
        let drawn = generator
            .next_word()
            .checked_rem(load.replicas)
            .unwrap_or(0);
        let replica = drawn.wrapping_add(1);
        let _ = desk.wait(rt, replica, step.wrapping_mul(count));
        if desk.rebuild(rt, replica).is_err() {
            wanting = wanting.wrapping_add(1);
        }
    }
    wanting
}

/// The number of times that a stopped replica is tried to be made anew.
const TRIES: u32 = 100;

/// Has each replica that has stopped made anew. Returns how many had.
pub(crate) fn rebuild_stopped<J: LogSetting + Ledgers + Send + Sync + 'static, R: Wait>(
    rt: &R,
    desk: &Desk<J, OpenGate>,
    replicas: u32,
) -> u32 {
    let mut found = 0u32;
    for place in 0..replicas {
        let replica = place.wrapping_add(1);
        if !desk.status(rt, replica).is_some_and(|it| it.stopped) {
            continue;
        }
        found = found.wrapping_add(1);
        for _ in 0..TRIES {
            if desk.rebuild(rt, replica).is_ok() {
                break;
            }
        }
    }
    found
}

/// Gives each account its money, at replica 1. Returns what was told.
pub(crate) fn open_accounts<J: LogSetting + Ledgers + Send + Sync + 'static, R: Wait>(
    rt: &R,
    desk: &Desk<J, OpenGate>,
) -> AnswerCounts {
    let mut told = AnswerCounts::new();
    let mut session = Session::new(desk);
    for account in 0..ACCOUNTS {
        let mut args = [0u8; 16];
        let (key, row) = args.split_at_mut(8);
        key.copy_from_slice(&u64::from(account).to_le_bytes());
        row.copy_from_slice(&MONEY.to_le_bytes());
        told.count(session.call(rt, 1, PUT_NUMBER, &args).0);
    }
    told
}
