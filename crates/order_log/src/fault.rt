ghost use Rattle.std.specs.Prelude.{◌≡◌};
ghost use Rattle.order_log.specs.Fault.{number_of_fault};

use std::error::Error;
use std::fmt;

/// A cause for which an entry was not appended.
#[derive(Clone, Copy, Debug, PartialEq, Eq)]
pub enum AppendFault {
    /// The log takes no more entries.
    Full,
    NoMemory,
    /// The snapshot of a call is past the entries that were seen.
    SnapshotUnseen,
}

impl AppendFault {
    /// The number after the letter O in printed refusals, 1 to 3.
    pub fn number(self) -> u8
        ensures { result ≡ number_of_fault self }
    {
        match self {
            AppendFault::Full => 1,
            AppendFault::NoMemory => 2,
            AppendFault::SnapshotUnseen => 3,
        }
    }
}

impl fmt::Display for AppendFault {
    ghost use Rattle.order_log.specs.Fault.{fault_text};
    ghost use Rattle.std.specs.Prelude.{Some};

    ghost output = { λ fault. Some (fault_text fault) };

    fn fmt<W: fmt::Write>(&self, f: &mut fmt::Formatter<W>) -> fmt::Result {
        let number = self.number();
        write!(f, "O{number}")
    }
}

impl Error for AppendFault {}
