//! Faults of calls that may find no memory.

use std::alloc::AllocError;

/// The cause for which a call has no answer: memory is wanting, or the call has a fault of its own.
#[derive(Clone, Copy, Debug, PartialEq, Eq, Drop)]
pub enum OrNoMemory<E> {
    NoMemory,
    Fault(E),
}

impl<E> From<AllocError> for OrNoMemory<E> {
    ghost use Rattle.std.specs.Prelude.{◌≡◌};
    ghost use Rattle.schema.specs.declared.or_no_memory.OrNoMemory.TheVariants.{NoMemory};

    ghost from_gives = { λ _ fault. fault ≡ NoMemory };

    fn from(_error: AllocError) -> OrNoMemory<E> {
        OrNoMemory::NoMemory
    }
}
