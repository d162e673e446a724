//! Plain instructions one after another.

ghost use Rattle.std.specs.Prelude.{◌≡◌, IfSome, IfNone};
ghost use Rattle.schema.specs.Schema.{Tables};
ghost use Rattle.bpf_code.specs.Program.{instruction_at};
ghost use Rattle.bpf_semantics.specs.State.{State};
ghost use Rattle.flat_code.specs.Flat.{LaidOut};
ghost use Rattle.vm_state.specs.Words.{Holds};
ghost use Rattle.vm_state.specs.Access.{at_slot, RunsOn};
ghost use Rattle.vm_state.specs.Plain.{IsStop, IsNeverStuck, CanRunOn, Reaches};

use crate::state::WordState;
use bpf_code::Code;
use flat_code::FlatInstruction;
use std::alloc::Allocator;

impl WordState {
    /// Runs on by the program's layout, up to the next call, long jump or end, and returns the number of instructions
    /// that were run. The call, long jump or end is left to be run. Some state that these words stand for must never
    /// get stuck. For each such state the words stand for the reached state afterwards.
    #[inline(never)]
    pub fn run_plain<A: Allocator>(&mut self, code: &Code<A>, layout: &[FlatInstruction]) -> u32
        requires layout { LaidOut code.now layout.now }
        requires can { CanRunOn code.now self.old }
        ensures reaches { (tables : Tables) (s : State) → Holds s self.old → IsNeverStuck code.now tables s
            → Reaches code.now tables s result self.new }
        ensures stops { IsStop (instruction_at code.now self.new.slot) }
    {
        let mut at = self.slot();
        let mut count = 0;
        code.known();
        // Two a turn: with two jumps by kind, taken in turn, the loop was measured to be faster than with one.
        loop {
            let Some(second) = self.execute_at(code, layout, at) else {
                self.set_slot(at);
                return count;
            };
            let Some(to) = self.execute_at(code, layout, second) else {
                self.set_slot(second);
                return count + 1;
            };
            at = to;
            count += 2;
        }
    }

    /// Runs the instruction at this slot of the layout, and returns the next slot; does nothing, and returns none,
    /// where the instruction isn't plain.
    #[inline(always)]
    fn execute_at<A: Allocator>(
        &mut self,
        code: &Code<A>,
        layout: &[FlatInstruction],
        at: usize,
    ) -> Option<usize>
        requires layout { LaidOut code.now layout.now }
        requires can { CanRunOn code.now (at_slot at self.old) }
        ensures runs_on { IfSome result (λ to. RunsOn code.now at self.old to self.new) }
        ensures stops { IfNone result (IsStop (instruction_at code.now at)) }
        ensures same { IfNone result (self.new ≡ self.old) }
    {
        code.known();
        self.execute_flat(at, at + 1, &layout[at])
    }
}
