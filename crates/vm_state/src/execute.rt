//! The instructions but CALL and EXIT, one at a time.

ghost use Rattle.std.specs.Prelude.{◌≡◌, ◌≢◌, ◌^◌, ◌<◌, ℤ};
ghost use Rattle.schema.specs.Schema.{Tables};
ghost use Rattle.bpf_code.specs.declared.instruction.Instruction.TheVariants.{Call, Exit, LongJump};
ghost use Rattle.bpf_semantics.specs.State.{State};
ghost use Rattle.bpf_semantics.specs.Step.{execute};
ghost use Rattle.vm_state.specs.Words.{Holds, HoldsNext, CanRun};
ghost use Rattle.vm_state.specs.Plain.{IsPlain};

use crate::state::WordState;
use bpf_code::Instruction;
use flat_code::FlatInstruction;

impl WordState {
    /// Runs an instruction that is no call and doesn't end the program. Some state that these words stand for must have
    /// a step. For each such state the words stand for the next state afterwards.
    #[inline(always)]
    pub fn execute(&mut self, instruction: Instruction)
        requires slot { self.old.slot < 2 ^ 32 }
        requires no_call { (helper : ℤ) → instruction ≢ Call helper }
        requires no_exit { instruction ≢ Exit }
        requires can { CanRun instruction self.old }
        ensures { (tables : Tables) (s : State) → Holds s self.old
            → HoldsNext (execute tables instruction s) self.new }
    {
        match instruction {
            Instruction::LongJump { distance } => self.long_jump(distance),
            _ => self.execute_plain(instruction),
        }
    }

    /// Jumps to the slot this far past the next one. No program jumps backwards.
    fn long_jump(&mut self, distance: i32)
        requires { self.old.slot < 2 ^ 32 }
        ensures { (tables : Tables) (s : State) → Holds s self.old
            → HoldsNext (execute tables (LongJump distance) s) self.new }
    {
        self.advance(1 + distance.cast_unsigned() as usize);
    }

    #[inline(always)]
    fn execute_plain(&mut self, instruction: Instruction)
        requires slot { self.old.slot < 2 ^ 32 }
        requires plain { IsPlain instruction }
        requires can { CanRun instruction self.old }
        ensures { (tables : Tables) (s : State) → Holds s self.old
            → HoldsNext (execute tables instruction s) self.new }
    {
        let at = self.slot();
        let flat = FlatInstruction::of(instruction);
        let Some(to) = self.execute_flat(at, at + 1, &flat) else {
            unreachable!();
        };
        self.set_slot(to);
    }
}
