//! The refusals of procedures.
use abs_step::Cause;
use std::error::Error;
use std::fmt;

/// The refusal of a procedure, which says why the procedure isn't accepted.
#[derive(Clone, Copy, Debug, PartialEq, Eq)]
pub enum Refusal {
    /// The lowest slot, counted from 0, whose instruction is refused, and its lowest cause.
    At { slot: u16, cause: Cause },
    NoMemory,
}

impl fmt::Display for Refusal {
    ghost use Rattle.bpf_verify.specs.Refusal.{refusal_text};
    ghost use Rattle.std.specs.Prelude.{Some};

    ghost output = { λ refusal. Some (refusal_text refusal) };

    fn fmt<W: fmt::Write>(&self, f: &mut fmt::Formatter<W>) -> fmt::Result {
        let (number, slot) = match self {
            Refusal::At { slot, cause } => (cause.number(), *slot),
            Refusal::NoMemory => (12, 0),
        };
        write!(f, "V{number} slot {slot}")
    }
}

impl Error for Refusal {}
