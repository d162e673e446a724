//! The laws of words that hold a state.

ghost use Rattle.std.specs.Prelude.{◌≡◌, ◌≢◌, ℕ, Some, None};
ghost use Rattle.bpf_code.specs.declared.instruction.Register.{Register};
ghost use Rattle.bpf_code.specs.declared.instruction.Register.TheVariants.{R0};
ghost use Rattle.bpf_code.specs.declared.instruction.Instruction.TheVariants.{Exit};
ghost use Rattle.schema.specs.Schema.{Tables};
ghost use Rattle.bpf_semantics.specs.declared.value.Value.{Value};
ghost use Rattle.bpf_semantics.specs.State.{State, register, number};
ghost use Rattle.bpf_semantics.specs.Step.{Ended, execute};
ghost use Rattle.bpf_semantics.specs.Helpers.{buffer_of};
ghost use Rattle.vm_state.specs.Words.{Words, Holds, IsWordOf, word};
ghost use Rattle.vm_state.specs.Access.{InStack};

/// The word in a register is the word of the state's value there, and the word of a number is the number.
#[tactic(auto, using(crate::proofs::Holding::word_holds))]
pub fn registers_are_held()
    ensures register { (s : State) (m : Words) (r : Register) → Holds s m
        → IsWordOf (register s r) (word m r) }
    ensures number { (v : Value) (w n : ℕ) → IsWordOf v w → number v ≡ Some n → w ≡ n }
{}

/// EXIT replies the word in r0.
#[tactic(auto, using(crate::proofs::Holding::exit_replies))]
pub fn the_reply_is_r0()
    ensures { (tables : Tables) (s t : State) (m : Words) (reply : ℕ) → Holds s m
        → execute tables Exit s ≡ Ended reply t → word m R0 ≡ reply }
{}

/// The word of a buffer lies in the stack, where the definition finds the buffer whole inside the stack.
pub fn buffers_lie_in_the_stack()
    ensures { (v : Value) (w count : ℕ) → IsWordOf v w → buffer_of v count ≢ None → InStack w count }
{}

/// The slot, the registers, the stack and the arguments alone decide whether words hold a state.
pub fn holding_speaks_of_words_alone()
    ensures { (s t : State) (m : Words) → t.slot ≡ s.slot → t.registers ≡ s.registers
        → t.stack ≡ s.stack → t.args ≡ s.args → Holds s m → Holds t m }
{}
