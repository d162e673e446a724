//! Laws about what a line does.

ghost use Rattle.std.specs.Prelude.{◌≡◌, ℕ, List, slice_get, Some, false};
ghost use Rattle.dsm_model.specs.declared.outcome.Outcome.{Outcome};
ghost use Rattle.dsm_model.specs.World.{World as ModelWorld, Turn};
ghost use Rattle.dsm_world.specs.System.{setting_of, world_of};
ghost use Rattle.replica.specs.Replica.{Replica as ReplicaState};
ghost use Rattle.catalogue.specs.Stored.{AreStored};
ghost use Rattle.script.specs.declared.statements.Action.TheVariants as action;
ghost use Rattle.script_replay.specs.Printed.{step_text};
ghost use Rattle.script_replay.specs.Actions.{Does, is_more};

use bpf_semantics::runs_are_short;
use catalogue::stored_procedures_are_consistent;
use dsm_model::{open_calls_are_sound, steps_keep_a_world, turns_follow_the_run};
use dsm_world::World;
use log_model::procedures_are_never_lost;
use replica::Replica;
use std::alloc::Allocator;

/// A call that is executed comes to its end, since no program runs more instructions than it has slots. Its line is
/// never that there is more.
pub fn executions_end<A: Allocator + Copy>(world: &World<A>)
    ensures { (call : ℕ) (text : List ℕ) (after : ModelWorld)
        → Does (setting_of world.now) (world_of world.now) (action.Exec call) text after
        → (outcome : Outcome) × (is_more outcome ≡ false)
        × (text ≡ step_text (setting_of world.now) after.log (Turn call) outcome) }
{
    // Laws:
    turns_follow_the_run();
    open_calls_are_sound();
    steps_keep_a_world();
    runs_are_short();
    procedures_are_never_lost();
    procedures_are_stored(world.replicas());
    world.keeps_what_was_delivered();
}

/// The laws of all stored procedures hold of the procedures of each replica.
fn procedures_are_stored<A: Allocator + Copy>(replicas: &[Replica<A>])
    ensures { (k : ℕ) (r : ReplicaState) → slice_get replicas.now k ≡ Some r → AreStored r.procedures }
{
    for replica in replicas {
        stored_procedures_are_consistent(replica.procedures());
    }
}
