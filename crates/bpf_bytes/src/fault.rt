//! The faults of bytes that are no program.

ghost use Rattle.std.specs.Prelude.{◌≡◌};
ghost use Rattle.bpf_bytes.specs.Fault.{number_of_cause};

use std::error::Error;
use std::fmt;

/// The cause of a fault. The causes stand in the order in which one slot's faults count.
#[derive(Clone, Copy, Debug, PartialEq, Eq)]
pub enum DecodeCause {
    /// The number of bytes is 0, or makes no whole number of slots.
    Length,
    /// The slots are more than a program may have.
    TooManySlots,
    UnknownOpcode,
    /// A register's number is above 10.
    RegisterNumber,
    /// A field that the opcode doesn't use isn't zero.
    UnusedField,
    /// A field holds a value that isn't defined for the opcode.
    UndefinedValue,
    /// The program ends within a wide load.
    CutShort,
    JumpBackwards,
    JumpPastEnd,
    /// A jump lands on the second half of a wide load.
    JumpIntoWideLoad,
    /// The last instruction isn't EXIT.
    NoExit,
    NoMemory,
}

impl DecodeCause {
    /// The number after the letter B in printed refusals, 1 to 12.
    pub fn number(self) -> u8
        ensures { result ≡ number_of_cause self }
    {
        match self {
            DecodeCause::Length => 1,
            DecodeCause::TooManySlots => 2,
            DecodeCause::UnknownOpcode => 3,
            DecodeCause::RegisterNumber => 4,
            DecodeCause::UnusedField => 5,
            DecodeCause::UndefinedValue => 6,
            DecodeCause::CutShort => 7,
            DecodeCause::JumpBackwards => 8,
            DecodeCause::JumpPastEnd => 9,
            DecodeCause::JumpIntoWideLoad => 10,
            DecodeCause::NoExit => 11,
            DecodeCause::NoMemory => 12,
        }
    }
}

/// The cause for which bytes were not decoded, and the slot, counted from 0.
#[derive(Clone, Copy, Debug, PartialEq, Eq)]
pub struct DecodeFault {
    pub cause: DecodeCause,
    pub slot: u16,
}

impl fmt::Display for DecodeFault {
    ghost use Rattle.bpf_bytes.specs.Fault.{fault_text};
    ghost use Rattle.std.specs.Prelude.{Some};

    ghost output = { λ fault. Some (fault_text fault) };

    fn fmt<W: fmt::Write>(&self, f: &mut fmt::Formatter<W>) -> fmt::Result {
        let number = self.cause.number();
        let slot = self.slot;
        write!(f, "B{number} slot {slot}")
    }
}

impl Error for DecodeFault {}
