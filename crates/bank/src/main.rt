//! A small bank at a node of its own: four threads move money between accounts while a replica is made anew. Then all
//! accounts are read at one position, and the node is stopped. docs/EMBEDDING.md goes through it.
#![tactic(auto)]

ghost use Rattle.std.specs.Prelude.{◌≡◌};
ghost use Rattle.tallies.specs.Tallies.{names_by_place};
ghost use Rattle.catalogue.specs.Catalogue.{system_setting};

mod database;
mod moving;

use crate::database::database;
use crate::moving::{Moved, move_money, open_accounts};
use catalogue::Catalogue;
use locked_replica::LogSetting;
use node::{Desk, Ended, Node, Options};
use node_calls::OpenGate;
use order_log::GroupCells;
use schema::Look;
use std::alloc::Global;
use std::marker::Brand;
use std::process::ExitCode;
use std::sync::Wait;
use std::thread;
use std::thread::Threads;
use tallies::{Blanks, Ledgers};

/// Every key of table 1, where the accounts are.
const ACCOUNTS: Look = Look {
    table: 1,
    lo: 0,
    hi: u64::MAX,
};

/// The outcome of a day at the bank.
#[derive(Clone, Copy)]
struct Day {
    moved: Moved,
    /// The number of accounts, and the money in all of them.
    accounts: usize,
    money: u64,
    /// True where the accounts were opened, the replica was made anew, and all replicas ran to the end and have
    /// delivered the same.
    sound: bool,
}

/// Reads all accounts at a replica, once the replica has come as far as another. Returns their number, and the money in
/// all of them.
fn read_accounts<J: LogSetting + Ledgers + Send + Sync + 'static, R: Wait>(
    rt: &R,
    desk: &Desk<J, OpenGate>,
    replica: u32,
    other: u32,
) -> Option<(usize, u64)> {
    let position = desk.status(rt, other)?.position;
    desk.wait(rt, replica, position).ok()?;
    let scanned = desk.scan(rt, replica, ACCOUNTS, 1_000).ok()?;
    let mut money = 0u64;
    for row in &scanned.rows {
        money = money.wrapping_add(u64::from_le_bytes(row.bytes().try_into().ok()?));
    }
    Some((scanned.rows.len(), money))
}

/// Tells whether all replicas ran to the end, and have delivered the same.
fn is_sound<J: LogSetting>(ended: &Ended<J>) -> bool {
    let mut sound = ended.agreement;
    let mut position = None;
    for replica in &ended.replicas {
        sound = sound && !replica.stopped;
        sound = sound && position.is_none_or(|position| position == replica.position);
        position = Some(replica.position);
    }
    sound
}

/// Opens a node and its accounts, has threads move money while replica 2 is made anew, reads all accounts at replica 3,
/// and stops the node.
fn use_node<
    J: LogSetting + Ledgers + Send + Sync + 'static,
    R: Threads + Wait + Copy + Send + Sync + 'static,
>(
    rt: &R,
    alloc: Global,
    cells: GroupCells,
    blanks: Blanks,
    options: Options,
    catalogue: Catalogue,
) -> Option<Day>
    requires cells { cells ≡ J.groups }
    requires ledgers { J.names ≡ names_by_place blanks }
    requires setting { J.setting ≡ system_setting catalogue options.window }
{
    let started = Node::<J, OpenGate>::start_with(
        rt, alloc, cells, blanks, options, catalogue, OpenGate,
    );
    let node = started.ok()?;
    let desk = node.desk();
    let opened = open_accounts(rt, desk);
    let (moved, rebuilt) = thread::join(rt, || move_money(rt, alloc, desk), || desk.rebuild(rt, 2));
    let read = read_accounts(rt, desk, 3, 1);
    let ended = node.stop(rt);
    let (accounts, money) = read?;
    Some(Day {
        moved: moved?,
        accounts,
        money,
        sound: opened && rebuilt.is_ok() && is_sound(&ended),
    })
}

fn main(rt: HostRuntime) -> ExitCode {
    let alloc = rt.alloc();
    let (Some(catalogue), Ok(cells)) = (database(alloc), GroupCells::new(alloc)) else {
        return ExitCode::FAILURE;
    };
    let mut options = Options::default();
    options.executors = 4;
    let day = use_node::<Brand, _>(&rt, alloc, cells, Blanks::new(), options, catalogue);
    let Some(day) = day else {
        let _ = eprintln!(rt; "bank: memory or a thread is wanting");
        return ExitCode::FAILURE;
    };
    let sound = if day.sound { "yes" } else { "no" };
    let printed = println!(rt;
        "transfers {} of {}, accounts {} with {}, all sound: {sound}",
        day.moved.answered, day.moved.asked, day.accounts, day.money
    );
    if day.sound && day.moved.answered == day.moved.asked && printed.is_ok() {
        ExitCode::SUCCESS
    } else {
        ExitCode::FAILURE
    }
}
