//! The ends of a node's replicas.

ghost use Rattle.std.specs.Prelude.{◌≡◌, length};
ghost use Rattle.log_model.specs.Entries.{items_of};
ghost use Rattle.replica.specs.Replica.{AreEntriesOf, entries_of};
ghost use Rattle.locked_replica.specs.Commits.{commits_of};
ghost use Rattle.node.specs.Agreement.{OneBegins, AgreeBy};

use locked_replica::{LockedReplica, LogSetting};
use order_log::{LogIdentity, Seen};
use std::alloc::{Allocator, Global};

/// The end of a replica, beside what was delivered to it.
#[derive(Drop)]
pub struct EndedReplica<J: LogSetting, P: Allocator + Copy = Global> {
    pub position: u32,
    pub commits: u32,
    pub stopped: bool,
    pub seen: Seen<J, P>,
    ghost far: { position ≡ length seen },
    ghost committed: { commits ≡ commits_of J.setting (items_of (entries_of seen)) },
}

impl<J: LogSetting, P: Allocator + Copy> EndedReplica<J, P> {
    /// Returns the end of a replica.
    pub fn of<A: Allocator + Copy>(replica: &LockedReplica<J, A, P>) -> EndedReplica<J, P>
        ensures seen { result.seen ≡ replica.now.entries }
        ensures stopped { result.stopped ≡ replica.now.replica.stopped }
        ensures entries { AreEntriesOf J.setting (entries_of result.seen) }
    {
        replica.keeps_what_was_delivered();
        EndedReplica {
            position: replica.position(),
            commits: replica.commits(),
            stopped: replica.stopped(),
            seen: replica.seen(),
        }
    }
}

/// The shorter of two beginnings of one log is a prefix of the longer. Nothing is done at run time.
fn agree_two<J: LogIdentity, P: Allocator + Copy>(one: &Seen<J, P>, other: &Seen<J, P>)
    ensures { OneBegins one.now other.now }
{
    one.agrees(other);
    other.agrees(one);
}

/// The shorter of what was delivered to two replicas is a prefix of the longer, for each two of them.
pub(crate) fn agree_all<J: LogSetting, P: Allocator + Copy, A: Allocator>(
    all: &Vec<EndedReplica<J, P>, A>,
)
    ensures { AgreeBy (λ e. e.seen) all.now.items }
{
    for one in all {
        for other in all {
            agree_two(&one.seen, &other.seen);
        }
    }
}
