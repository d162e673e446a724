//! The end of a node, as plain data.

use crate::asked::Stray;
use crate::gate::HoldingGate;
use locked_replica::LogSetting;
use node::{EndedReplica, Finish};
use std::alloc::Global;
use std::sync::Wait;
use tallies::{Counts, Ledgers};
use txn_view::Store;

/// The end of a node.
#[derive(Drop)]
pub struct Ending {
    /// The first thing that wasn't as it should have been, and none where all was.
    pub stray: Option<Stray>,
    /// The number of answers of each kind.
    pub totals: Counts,
    /// True where, for each two replicas, what was delivered to one is a prefix of what was delivered to the other.
    pub agreement: bool,
    /// The ends of the replicas, in the order of their numbers.
    pub replicas: Vec<ReplicaEnding>,
}

/// The end of a replica.
#[derive(Clone, Copy, Drop)]
pub struct ReplicaEnding {
    pub position: u32,
    pub commits: u32,
    pub stopped: bool,
    /// The row of 8 bytes at the key of table 1 that was asked for, least byte first, and 0 where there is none.
    pub number: u64,
}

/// The row of 8 bytes at a key of table 1, as a number, and 0 where there is none.
fn number_of(store: &impl Store, key: u64) -> u64 {
    match store.get(1, key) {
        Ok(Some(row)) => u64::from_le_bytes(row.try_into().unwrap_or([0u8; 8])),
        _ => 0,
    }
}

/// The row at a key of the replica of a number, as a number. Returns `None` where there is no such replica.
fn number_at<J: LogSetting + Ledgers, R: Wait>(
    rt: &R,
    finish: &Finish<J, HoldingGate>,
    replica: u32,
    key: u64,
) -> Option<u64> {
    let locked = finish.replica(replica)?.read(rt);
    let seen = locked.seen();
    Some(number_of(&locked.at(&seen), key))
}

/// Returns the end of a replica, whose row this is.
fn replica_ending<J: LogSetting>(replica: &EndedReplica<J>, number: u64) -> ReplicaEnding {
    ReplicaEnding {
        position: replica.position,
        commits: replica.commits,
        stopped: replica.stopped,
        number,
    }
}

/// Returns the ends of all replicas, with their rows at a key. Returns `None` where memory is wanting.
fn replica_endings<J: LogSetting + Ledgers, R: Wait>(
    rt: &R,
    alloc: Global,
    finish: &Finish<J, HoldingGate>,
    key: u64,
) -> Option<Vec<ReplicaEnding>> {
    let mut endings = Vec::new(alloc);
    let mut number = 0u32;
    for replica in &finish.replicas {
        number = number.wrapping_add(1);
        let row = number_at(rt, finish, number, key)?;
        endings.push(replica_ending(replica, row)).ok()?;
    }
    Some(endings)
}

/// Returns the end of a node that answered so, with its replicas' rows at a key. Returns `None` where memory is
/// wanting.
pub(crate) fn ending_of<J: LogSetting + Ledgers, R: Wait>(
    rt: &R,
    alloc: Global,
    finish: &Finish<J, HoldingGate>,
    key: u64,
    stray: Option<Stray>,
) -> Option<Ending> {
    Some(Ending {
        stray,
        totals: finish.totals,
        agreement: finish.agreement,
        replicas: replica_endings(rt, alloc, finish, key)?,
    })
}
