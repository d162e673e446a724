//! A replica is made anew.

ghost use Rattle.std.specs.Prelude.{◌≡◌};
ghost use Rattle.dsm_model.specs.World.{Rebuild, IsStep};
ghost use Rattle.dsm_world.specs.System.{setting_of, world_of};

use crate::numbers::index_of;
use crate::world::World;
use dsm_model::{Outcome, StepRefusal, steps_keep_a_world};
use std::alloc::Allocator;

impl<A: Allocator + Copy> World<A> {
    /// Makes a replica anew from all entries.
    pub(crate) fn rebuild(&mut self, replica: u32) -> Outcome
        ensures step { IsStep (setting_of self.old) (world_of self.old) (Rebuild replica) result (world_of self.new) }
        ensures setting { setting_of self.new ≡ setting_of self.old }
    {
        // Laws:
        steps_keep_a_world();
        let Some(at) = index_of(replica, self.replicas.len()) else {
            return Outcome::Refused(StepRefusal::NoReplica);
        };
        let Ok(position) = self.replicas[at].rebuild(&self.catalogue, &self.entries) else {
            return Outcome::Refused(StepRefusal::NoMemory);
        };
        Outcome::Rebuilt { position }
    }
}
