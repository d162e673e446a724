//! A procedure is added.

ghost use Rattle.std.specs.Prelude.{◌≡◌, ◌++◌, [], ◌∷◌, OnOk, OnErr};
ghost use Rattle.dsm_model.specs.Sound.{IsGiven};
ghost use Rattle.dsm_model.specs.World.{Add, IsStep};
ghost use Rattle.log_entry.specs.declared.entry.Entry.TheVariants.{Addition};
ghost use Rattle.program_checks.specs.Check.{check_of};
ghost use Rattle.dsm_world.specs.System.{setting_of, world_of};

use crate::begin::MAX_CALLS;
use crate::world::World;
use catalogue::{accepted_procedures_are_safe, each_catalogue_is_consistent};
use dsm_model::{Outcome, StepRefusal, steps_keep_a_world};
use log_entry::{AddedProcedure, Entry, NamedProgram, check_addition};
use log_model::{a_log_only_grows, one_more_entry_carries_its_run};
use schema::{MAX_ARGUMENTS, OrNoMemory};
use std::alloc::{AllocError, Allocator};

impl<A: Allocator + Copy> World<A> {
    /// Appends a procedure to the log, where its program is accepted for the tables.
    pub(crate) fn add(&mut self, name: &[u8], number: u16, args_len: u16, bytes: &[u8]) -> Outcome
        ensures step { IsStep (setting_of self.old) (world_of self.old)
            (Add name.now number args_len (check_of self.old.catalogue.tables args_len bytes.now))
            result (world_of self.new) }
        ensures setting { setting_of self.new ≡ setting_of self.old }
        ensures given { IsGiven (setting_of self.old)
            (Add name.now number args_len (check_of self.old.catalogue.tables args_len bytes.now)) result }
    {
        // Laws:
        a_log_only_grows();
        accepted_procedures_are_safe();
        each_catalogue_is_consistent(&self.catalogue);
        // Laws:
        one_more_entry_carries_its_run();
        steps_keep_a_world();
        if self.calls.len() + self.additions as usize >= MAX_CALLS {
            return Outcome::Refused(StepRefusal::TooManyCalls);
        }
        if args_len > MAX_ARGUMENTS {
            return Outcome::Refused(StepRefusal::ArgumentsLimit);
        }
        let named = NamedProgram {
            number,
            args_len,
            name,
            program: bytes,
        };
        let added = match check_addition(self.alloc, named, self.catalogue.schema()) {
            Ok(added) => added,
            Err(OrNoMemory::NoMemory) => return Outcome::Refused(StepRefusal::NoMemory),
            Err(OrNoMemory::Fault(fault)) => return Outcome::Refused(StepRefusal::from(fault)),
        };
        let position = self.entries.len() as u32 + 1;
        let Ok(()) = append(&mut self.entries, added) else {
            return Outcome::Refused(StepRefusal::NoMemory);
        };
        self.additions += 1;
        Outcome::Added { position }
    }
}

/// Puts a procedure that is added behind the other entries.
fn append<A: Allocator + Copy>(
    entries: &mut Vec<Entry<A>, A>,
    added: AddedProcedure<A>,
) -> Result<(), AllocError>
    ensures appended { OnOk result (entries.new.items ≡ entries.old.items ++ Addition added ∷ []) }
    ensures unchanged { OnErr result (entries.new.items ≡ entries.old.items) }
{
    entries.push(Entry::Addition(added))?;
    Ok(())
}
