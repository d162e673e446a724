//! The laws of held states, in one piece. A call of a law does nothing: its clause is then known.

ghost use Rattle.bpf_vm.specs.Held.{HeldLaws};

use vm_state::{buffers_lie_in_the_stack, holding_speaks_of_words_alone, registers_are_held};

/// A held state tells of registers and of buffers in the stack, and depends on words alone.
pub fn held_laws()
    ensures { HeldLaws }
{
    // Laws:
    registers_are_held();
    buffers_lie_in_the_stack();
    holding_speaks_of_words_alone();
}
