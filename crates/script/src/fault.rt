//! The faults of a line.

ghost use Rattle.std.specs.Prelude.{◌≡◌};
ghost use Rattle.script.specs.Fault.{number_of_line_fault};
ghost use Rattle.script.specs.declared.fault.LineFault.TheVariants.{NoMemory};

use std::alloc::AllocError;

/// A fault of a line, in the order in which a line's faults count.
#[derive(Clone, Copy, Debug, PartialEq, Eq)]
pub enum LineFault {
    /// A byte isn't printable ASCII, or there are more bytes than a line may have.
    Bytes,
    /// The first word isn't a word of the language.
    Word,
    /// The word asks for more fields, or for fewer.
    FieldCount,
    /// A field can't be read, or is outside its limits.
    Field,
    NoMemory,
}

impl LineFault {
    /// The number after the letter L in printed faults: 1 to 4, or 9.
    pub fn number(self) -> u8
        ensures { result ≡ number_of_line_fault self }
    {
        match self {
            LineFault::Bytes => 1,
            LineFault::Word => 2,
            LineFault::FieldCount => 3,
            LineFault::Field => 4,
            LineFault::NoMemory => 9,
        }
    }
}

impl From<AllocError> for LineFault {
    ghost from_gives = { λ _ fault. fault ≡ NoMemory };

    fn from(_error: AllocError) -> LineFault {
        LineFault::NoMemory
    }
}
