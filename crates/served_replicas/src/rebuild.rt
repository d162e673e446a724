//! A replica is made anew.

ghost use Rattle.std.specs.Prelude.{◌≡◌, ◌≤◌, ◌↔◌, Err, IfOk, IfSome, length};
ghost use Rattle.served_replicas.specs.Replicas.{IsNoReplica};
ghost use Rattle.served_replicas.specs.declared.rebuild.RebuildFault.TheVariants.{NoReplica};

use crate::shared::{ReplicaInMemory, Shared};
use locked_replica::{Delivery, LockedReplica, LogSetting, OrderedEntries};
use node_calls::Gate;
use order_log::{Fact, OrderLog};
use std::alloc::{AllocError, Allocator};
use std::fmt;
use std::sync::{RwLock, Wait};

/// A cause for which a replica isn't rebuilt.
#[derive(Clone, Copy, Debug, PartialEq, Eq, Drop)]
pub enum RebuildFault {
    /// The number has no replica.
    NoReplica,
    /// Memory is wanting. The replica is as it was.
    NoMemory,
}

/// Delivers all that the log shows.
fn deliver_to_the_end<J: LogSetting, A: Allocator + Copy, P: Allocator + Copy, R: Wait>(
    rt: &R,
    fresh: &mut LockedReplica<J, A, P>,
    log: &OrderLog<J, OrderedEntries<J>, P>,
) -> Result<(), AllocError> {
    for _ in rt.forever() {
        match fresh.deliver(log) {
            Delivery::Delivered(_) => {}
            Delivery::Nothing => break,
            Delivery::Stopped => return Err(AllocError),
        }
    }
    Ok(())
}

/// Puts a replica that was made anew in a replica's place, unless the old one has come farther. Returns the position
/// there then.
fn put_in_place<J: LogSetting, A: Allocator + Copy, P: Allocator + Copy, R: Wait>(
    rt: &R,
    replica: &RwLock<LockedReplica<J, A, P>>,
    fresh: &mut LockedReplica<J, A, P>,
) -> Option<u32>
    ensures { IfSome result (λ position. position ≡ length fresh.old.entries) }
{
    let mut locked = replica.write(rt);
    if !locked.exchange(fresh) {
        return None;
    }
    Some(locked.position())
}

/// Delivers all that the log shows to a replica that was made anew, until it takes a replica's place. Returns the
/// position there then.
fn catch_up_and_replace<J: LogSetting, A: Allocator + Copy, P: Allocator + Copy, R: Wait>(
    rt: &R,
    replica: &RwLock<LockedReplica<J, A, P>>,
    fresh: &mut LockedReplica<J, A, P>,
    log: &OrderLog<J, OrderedEntries<J>, P>,
) -> Result<u32, AllocError> {
    for _ in rt.forever() {
        deliver_to_the_end(rt, fresh, log)?;
        if let Some(position) = put_in_place(rt, replica, fresh) {
            return Ok(position);
        }
    }
    unreachable!()
}

impl<J: LogSetting, A: Allocator + Copy, P: Allocator + Copy, G: Gate> Shared<J, A, P, G> {
    /// Makes the replica of a number anew from the log. It then delivers again where it had stopped. Calls go on at the
    /// old replica until the new one, which has come no less far, is in its place. Returns the new one's position then.
    pub fn rebuild<R: Wait>(&self, rt: &R, replica: u32) -> Result<u32, RebuildFault>
        ensures none { (result ≡ Err NoReplica) ↔ IsNoReplica self.now.replicas replica }
        ensures some { IfOk result (λ _. (1 ≤ replica) × (replica ≤ self.now.replicas)) }
    {
        let Some(served) = self.replica(replica) else {
            return Err(RebuildFault::NoReplica);
        };
        let Ok(position) = self.exchange(rt, served) else {
            return Err(RebuildFault::NoMemory);
        };
        served.served.ring();
        if let Some(bell) = self.bell(replica) {
            bell.notify_all();
        }
        Ok(position)
    }

    /// Makes a replica anew, and puts it in a replica's place. The old one is dropped when no lock is held.
    fn exchange<R: Wait>(
        &self,
        rt: &R,
        served: &ReplicaInMemory<J, A, P>,
    ) -> Result<u32, AllocError> {
        let mut fresh = LockedReplica::new(
            served.alloc,
            self.catalogue.window(),
            self.catalogue.get(),
        )?;
        catch_up_and_replace(rt, &served.served.replica, &mut fresh, &self.log)
    }
}
