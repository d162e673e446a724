//! A call is ordered.

ghost use Rattle.std.specs.Prelude.{◌≡◌, ◌⊎◌, ◌++◌, [], ◌∷◌};
ghost use Rattle.dsm_model.specs.World.{Order, IsStep};
ghost use Rattle.dsm_world.specs.System.{setting_of, world_of};
ghost use Rattle.log_model.specs.Entries.{CallEntry};
ghost use Rattle.log_entry.specs.declared.entry.Entry.TheVariants.{Call as LogCall};
ghost use Rattle.replica.specs.Replica.{entries_of};
ghost use Rattle.dsm_world.specs.Turned.{IsAppended};

use crate::begin::MAX_CALLS;
use crate::calls::{end_call, put_call, take_call};
use crate::world::World;
use dsm_model::{Outcome, StepRefusal, steps_keep_a_world};
use log_entry::{Entry, ExecutedCall};
use log_model::{a_log_only_grows, one_more_entry_carries_its_run};
use std::alloc::Allocator;
use world_calls::Completion;

impl<A: Allocator + Copy> World<A> {
    /// Orders a call that is at its end.
    pub(crate) fn order(&mut self, call: u32) -> Outcome
        ensures step { IsStep (setting_of self.old) (world_of self.old) (Order call) result (world_of self.new) }
        ensures setting { setting_of self.new ≡ setting_of self.old }
    {
        // Laws:
        a_log_only_grows();
        one_more_entry_carries_its_run();
        steps_keep_a_world();
        let Some((at, open_call)) = take_call(&mut self.calls, call) else {
            return Outcome::Refused(StepRefusal::NoCall);
        };
        let Some(_reply) = open_call.reply() else {
            put_call(&mut self.calls, at, open_call);
            return Outcome::Refused(StepRefusal::NotAtExit);
        };
        let call = match end_call(&mut self.spare, self.alloc, open_call) {
            Completion::Cancelled { snapshot, code } => {
                return Outcome::Cancelled { snapshot, code };
            }
            Completion::Read { snapshot, reply } => return Outcome::Read { snapshot, reply },
            Completion::Wrote(call) => call,
        };
        append(&mut self.entries, call)
    }
}

/// Puts a call behind the other entries.
fn append<A: Allocator + Copy>(entries: &mut Vec<Entry<A>, A>, call: ExecutedCall<A>) -> Outcome
    ensures appended { IsAppended (entries_of entries.old.items) (CallEntry call) result
        (entries_of entries.new.items) }
    ensures left { (entries.new.items ≡ entries.old.items)
        ⊎ (entries.new.items ≡ entries.old.items ++ LogCall call ∷ []) }
{
    if entries.len() >= MAX_CALLS {
        return Outcome::Refused(StepRefusal::LogFull);
    }
    let position = entries.len() as u32 + 1;
    if entries.push(Entry::Call(call)).is_err() {
        return Outcome::Refused(StepRefusal::NoMemory);
    }
    Outcome::Ordered { position }
}
