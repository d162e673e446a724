//! The callers.

use crate::asked::{Addition, Asked, AskedCall, Asking, Stray, Told, Words};
use crate::gate::{Hold, HoldingGate};
use locked_replica::LogSetting;
use log_model::Verdict;
use node::{CallRequest, Desk};
use node_calls::Answer;
use schema::Look;
use session::Session;
use std::alloc::Global;
use std::sync::Wait;
use std::thread;
use std::thread::Threads;
use tallies::Ledgers;

/// The most questions of a caller.
const MOST: usize = 10_000;

/// The number of times that a loop yields before it gives up.
const TURNS: u32 = 1_000_000;

/// The argument block of as many words as there are, each least byte first.
#[derive(Clone, Copy)]
struct Block {
    bytes: [u8; 16],
    count: usize,
}

impl Block {
    fn new(words: Words) -> Block {
        let Words {
            count,
            first,
            second,
        } = words;
        Block {
            bytes: [first, 0, 0, 0, 0, 0, 0, 0, second, 0, 0, 0, 0, 0, 0, 0],
            count,
        }
    }

    fn args(&self) -> &[u8] {
        let len = self.count.wrapping_mul(8);
        self.bytes.get(..len).unwrap_or(&self.bytes)
    }
}

fn answer_of<J: LogSetting + Ledgers + Send + Sync + 'static, R: Wait>(
    rt: &R,
    desk: &Desk<J, HoldingGate>,
    replica: u32,
    least: u32,
    call: AskedCall,
) -> Answer {
    let (procedure, block) = (call.procedure, Block::new(call.words));
    let (answer, _) = match call.request {
        None => desk.execute(rt, replica, least, procedure, block.args()),
        Some(it) => desk.execute_numbered(rt, replica, least, procedure, block.args(), it),
    };
    answer
}

/// The call as it is asked for, with the bytes of its arguments.
fn request_of(call: AskedCall, block: &Block) -> CallRequest<'_> {
    CallRequest {
        least: 0,
        procedure: call.procedure,
        args: block.args(),
        request: call.request,
    }
}

/// Asks for calls at a replica together. Returns the answers, in the order of the calls.
fn answers_of<J: LogSetting + Ledgers + Send + Sync + 'static, R: Wait>(
    rt: &R,
    desk: &Desk<J, HoldingGate>,
    replica: u32,
    calls: [AskedCall; 3],
) -> Option<[Answer; 3]> {
    let [one, two, three] = calls;
    let blocks = [
        Block::new(one.words),
        Block::new(two.words),
        Block::new(three.words),
    ];
    let requests = [
        request_of(one, &blocks[0]),
        request_of(two, &blocks[1]),
        request_of(three, &blocks[2]),
    ];
    let answers = desk.ask(rt, replica, &requests).ok()?.hear(rt);
    if answers.len() != requests.len() {
        return None;
    }
    Some([answers.get(0)?.0, answers.get(1)?.0, answers.get(2)?.0])
}

fn answer_in<J: LogSetting + Ledgers + Send + Sync + 'static, R: Wait>(
    rt: &R,
    session: &mut Session<'_, J, HoldingGate>,
    replica: u32,
    call: AskedCall,
) -> Answer {
    let (procedure, block) = (call.procedure, Block::new(call.words));
    let (answer, _) = match call.request {
        None => session.call(rt, replica, procedure, block.args()),
        Some(it) => session.call_numbered(rt, replica, procedure, block.args(), it),
    };
    answer
}

fn verdict_of<J: LogSetting + Ledgers + Send + Sync + 'static, R: Wait>(
    rt: &R,
    desk: &Desk<J, HoldingGate>,
    replica: u32,
    position: u32,
) -> Option<(Verdict, u32)> {
    let (verdict, seen) = desk.verdict(rt, replica, position)?;
    Some((verdict, seen.len()))
}

/// Waits for a verdict, as long as a loop goes.
fn await_verdict<J: LogSetting + Ledgers + Send + Sync + 'static, R: Wait>(
    rt: &R,
    desk: &Desk<J, HoldingGate>,
    replica: u32,
    position: u32,
) -> Option<(Verdict, u32)> {
    for _ in 0..TURNS {
        let found = verdict_of(rt, desk, replica, position);
        if found.is_some() {
            return found;
        }
        thread::yield_now();
    }
    None
}

fn added<J: LogSetting + Ledgers + Send + Sync + 'static, R: Wait>(
    rt: &R,
    desk: &Desk<J, HoldingGate>,
    addition: Addition<'_>,
) -> Told {
    let Addition {
        name,
        number,
        args_len,
        bytes,
    } = addition;
    let (added, seen) = desk.add(rt, name, number, args_len, bytes);
    Told::Added(added, seen.is_some())
}

fn waited<J: LogSetting + Ledgers + Send + Sync + 'static, R: Wait>(
    rt: &R,
    desk: &Desk<J, HoldingGate>,
    replica: u32,
    position: u32,
) -> Told {
    match desk.wait(rt, replica, position) {
        Ok(seen) => Told::Waited(Ok(seen.len())),
        Err(fault) => Told::Waited(Err(fault)),
    }
}

fn status_of<J: LogSetting + Ledgers + Send + Sync + 'static, R: Wait>(
    rt: &R,
    desk: &Desk<J, HoldingGate>,
    replica: u32,
) -> Told {
    match desk.status(rt, replica) {
        Some(status) => Told::Status(Some((status.position, status.stopped))),
        None => Told::Status(None),
    }
}

fn tried<J: LogSetting + Ledgers + Send + Sync + 'static, R: Wait>(
    rt: &R,
    desk: &Desk<J, HoldingGate>,
    replica: u32,
    call: AskedCall,
) -> Told {
    let block = Block::new(call.words);
    match desk.try_execute(rt, replica, &request_of(call, &block)) {
        Ok((answer, _)) => Told::Tried(Some(answer)),
        Err(_) => Told::Tried(None),
    }
}

fn forget<J: LogSetting + Ledgers + Send + Sync + 'static, R: Wait>(
    rt: &R,
    desk: &Desk<J, HoldingGate>,
    replica: u32,
    call: AskedCall,
    times: u32,
) {
    let block = Block::new(call.words);
    let requests = [request_of(call, &block)];
    for _ in 0..times {
        let _asked = desk.ask(rt, replica, &requests);
    }
}

fn scanned<J: LogSetting + Ledgers + Send + Sync + 'static, R: Wait>(
    rt: &R,
    desk: &Desk<J, HoldingGate>,
    replica: u32,
    most: u32,
) -> Told {
    let look = Look {
        table: 1,
        lo: 0,
        hi: u64::MAX,
    };
    match desk.scan(rt, replica, look, most) {
        Ok(scanned) => {
            let greatest = scanned.rows.iter().map(|row| row.key()).max();
            Told::Scanned(Ok((scanned.rows.len(), greatest.unwrap_or(0))))
        }
        Err(fault) => Told::Scanned(Err(fault)),
    }
}

/// Asks a question, and returns what the caller is told.
fn told<J: LogSetting + Ledgers + Send + Sync + 'static, R: Wait, A: Asked>(
    rt: &R,
    desk: &Desk<J, HoldingGate>,
    session: &mut Session<'_, J, HoldingGate>,
    hold: &Hold,
    asked: &A,
    asking: Asking,
) -> Told {
    match asking {
        Asking::Call {
            replica,
            least,
            call,
        } => Told::Answer(answer_of(rt, desk, replica, least, call)),
        Asking::Together { replica, calls } => {
            Told::Together(answers_of(rt, desk, replica, calls))
        }
        Asking::InSession { replica, call } => {
            Told::Answer(answer_in(rt, session, replica, call))
        }
        Asking::Position => Told::Position(session.position()),
        Asking::Verdict { replica, position } => {
            Told::Verdict(verdict_of(rt, desk, replica, position))
        }
        Asking::AwaitVerdict { replica, position } => {
            Told::Verdict(await_verdict(rt, desk, replica, position))
        }
        Asking::Add(index) => match asked.addition(index) {
            Some(addition) => added(rt, desk, addition),
            None => Told::Nothing,
        },
        Asking::Rebuild(replica) => Told::Rebuilt(desk.rebuild(rt, replica)),
        Asking::Wait { replica, position } => waited(rt, desk, replica, position),
        Asking::Status(replica) => status_of(rt, desk, replica),
        Asking::Try { replica, call } => tried(rt, desk, replica, call),
        Asking::Forget {
            replica,
            call,
            times,
        } => {
            forget(rt, desk, replica, call, times);
            Told::Nothing
        }
        Asking::Scan { replica, most } => scanned(rt, desk, replica, most),
        Asking::AwaitHeld => {
            hold.await_held();
            Told::Nothing
        }
        Asking::Release => {
            hold.release();
            Told::Nothing
        }
    }
}

/// Has the caller of a place ask to the end, so that whoever waits for it is let go. Returns the index of the first
/// question that was answered as it may not be, and none where there is none.
fn ask_as<J: LogSetting + Ledgers + Send + Sync + 'static, R: Wait, A: Asked>(
    rt: &R,
    desk: &Desk<J, HoldingGate>,
    hold: &Hold,
    asked: &A,
    place: usize,
) -> Option<usize> {
    let mut session = Session::new(desk);
    let mut stray = None;
    for index in 0..MOST {
        let Some(asking) = asked.asking(place, index) else {
            return stray;
        };
        let told = told(rt, desk, &mut session, hold, asked, asking);
        if stray.is_none() && !asked.is_told(place, index, &told) {
            stray = Some(index);
        }
    }
    Some(MOST)
}

/// Returns the first of all callers' strays.
fn first_of(strays: &[Option<usize>]) -> Option<Stray> {
    for (place, stray) in strays.iter().enumerate() {
        if let Some(index) = stray {
            return Some(Stray::Told {
                place,
                index: *index,
            });
        }
    }
    None
}

/// Has all callers of a node ask at once, who hear of held calls and let them go here. Returns what wasn't as it should
/// have been, and none where all was.
pub fn ask_all<
    J: LogSetting + Ledgers + Send + Sync + 'static,
    R: Threads + Wait + Sync,
    A: Asked + Sync,
>(rt: &R, alloc: Global, desk: &Desk<J, HoldingGate>, hold: &Hold, asked: &A) -> Option<Stray> {
    let strays = thread::map_indices(
        rt,
        alloc,
        asked.callers(),
        &|place: usize| ask_as(rt, desk, hold, asked, place),
    );
    match strays {
        Ok(strays) => first_of(&strays),
        Err(_) => Some(Stray::NoMemory),
    }
}
