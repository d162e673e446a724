//! Threads that move money between accounts.

use crate::database::{OPEN, TRANSFER};
use locked_replica::LogSetting;
use node::Desk;
use node_calls::{Answer, OpenGate};
use session::Session;
use std::alloc::Global;
use std::sync::Wait;
use std::thread;
use std::thread::Threads;
use tallies::Ledgers;

const ACCOUNTS: u8 = 8;

const THREADS: usize = 4;

/// The number of transfers of each thread.
const TRANSFERS: u8 = 25;

/// The transfers that were asked for, and those that were answered: with a commit, or with a cancel since an account has
/// too little.
#[derive(Clone, Copy)]
pub(crate) struct Moved {
    pub(crate) asked: u32,
    pub(crate) answered: u32,
}

/// Opens all accounts, with 100 each. Tells whether that was done.
pub(crate) fn open_accounts<J: LogSetting + Ledgers + Send + Sync + 'static, R: Wait>(
    rt: &R,
    desk: &Desk<J, OpenGate>,
) -> bool {
    let mut session = Session::new(desk);
    let mut opened = true;
    for account in 0..ACCOUNTS {
        let args = [account, 0, 0, 0, 0, 0, 0, 0, 100, 0, 0, 0, 0, 0, 0, 0];
        let (answer, _) = session.call(rt, 1, OPEN, &args);
        opened = opened && matches!(answer, Answer::Committed { .. });
    }
    opened
}

/// The most times that a transfer is asked for.
const TRIES: u32 = 100_000;

/// Makes a transfer at a replica. Asks again as long as another call came between. Tells whether the transfer was
/// answered.
fn transfer<J: LogSetting + Ledgers + Send + Sync + 'static, R: Wait>(
    rt: &R,
    session: &mut Session<'_, J, OpenGate>,
    replica: u32,
    args: &[u8],
) -> bool {
    for _ in 0..TRIES {
        match session.call(rt, replica, TRANSFER, args).0 {
            Answer::Committed { .. } | Answer::Cancelled { .. } => return true,
            Answer::Conflict { .. } | Answer::Stale | Answer::Behind => thread::yield_now(),
            _ => return false,
        }
    }
    false
}

/// The arguments of a transfer: from an account to the next, at most 9.
fn args_of(thread: u8, index: u8) -> [u8; 24] {
    let from = thread.wrapping_mul(3).wrapping_add(index) % ACCOUNTS;
    let to = from.wrapping_add(1) % ACCOUNTS;
    let mut args = [0; 24];
    args[0] = from;
    args[8] = to;
    args[16] = index % 9 + 1;
    args
}

/// Makes the transfers of a thread, in a session of its own. Returns the number that were answered.
fn move_some<J: LogSetting + Ledgers + Send + Sync + 'static, R: Wait>(
    rt: &R,
    desk: &Desk<J, OpenGate>,
    place: usize,
) -> u32 {
    let thread = u8::try_from(place).unwrap_or(0);
    let replica = u32::from(thread % 3) + 1;
    let mut session = Session::new(desk);
    let mut answered = 0u32;
    for index in 0..TRANSFERS {
        if transfer(rt, &mut session, replica, &args_of(thread, index)) {
            answered = answered.wrapping_add(1);
        }
    }
    answered
}

/// Has threads move money. Returns `None` where memory is wanting.
pub(crate) fn move_money<J: LogSetting + Ledgers + Send + Sync + 'static, R: Threads + Wait + Sync>(
    rt: &R,
    alloc: Global,
    desk: &Desk<J, OpenGate>,
) -> Option<Moved> {
    let moved = thread::map_indices(
        rt,
        alloc,
        THREADS,
        &|place: usize| move_some(rt, desk, place),
    );
    let answered = moved
        .ok()?
        .iter()
        .fold(0u32, |sum, answered| sum.wrapping_add(*answered));
    Some(Moved {
        asked: THREADS as u32 * u32::from(TRANSFERS),
        answered,
    })
}
