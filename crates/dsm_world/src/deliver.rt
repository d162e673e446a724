//! A delivery to a replica.

ghost use Rattle.std.specs.Prelude.{◌≡◌};
ghost use Rattle.dsm_model.specs.World.{Deliver, IsStep};
ghost use Rattle.dsm_world.specs.System.{setting_of, world_of};

use crate::numbers::index_of;
use crate::world::World;
use dsm_model::{Outcome, StepRefusal, steps_keep_a_world};
use log_model::{a_log_only_grows, each_call_has_a_verdict};
use replica::tables_take_the_schemas_writes;
use std::alloc::Allocator;

impl<A: Allocator + Copy> World<A> {
    /// Delivers the next entry to a replica.
    pub(crate) fn deliver(&mut self, replica: u32) -> Outcome
        ensures step { IsStep (setting_of self.old) (world_of self.old) (Deliver replica) result (world_of self.new) }
        ensures setting { setting_of self.new ≡ setting_of self.old }
    {
        // Laws:
        a_log_only_grows();
        each_call_has_a_verdict();
        steps_keep_a_world();
        tables_take_the_schemas_writes();
        let Some(at) = index_of(replica, self.replicas.len()) else {
            return Outcome::Refused(StepRefusal::NoReplica);
        };
        let replica = &self.replicas[at];
        let position = replica.position();
        let Some(entry) = self.entries.get(position as usize) else {
            return Outcome::Refused(StepRefusal::NothingToDeliver);
        };
        if replica.stopped() {
            return Outcome::Refused(StepRefusal::ReplicaStopped);
        }
        let Ok(verdict) = self.replicas[at].deliver(entry) else {
            return Outcome::Refused(StepRefusal::NoMemory);
        };
        Outcome::Delivered {
            position: position + 1,
            verdict,
        }
    }
}
