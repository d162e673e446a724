//! The faults of pairs of tables and widths that make no schema.

ghost use Rattle.std.specs.Prelude.{◌≡◌};
ghost use Rattle.schema.specs.Schema.{number_of_fault};
ghost use Rattle.schema.specs.declared.fault.SchemaFault.TheVariants.{NoMemory};

use std::alloc::AllocFailed;
use std::error::Error;
use std::fmt;

/// A fault of a pair of a table and a width. The faults stand in the order in which one pair's faults count.
#[derive(Clone, Copy, Debug, PartialEq, Eq)]
pub enum SchemaFault {
    /// The table's number is outside 1 to 64.
    TableNumber,
    /// The width is outside 1 to 128.
    Width,
    /// An earlier pair has the same table.
    RepeatedTable,
    NoMemory,
}

impl SchemaFault {
    /// The number after the letter S in printed refusals, 1 to 4.
    pub fn number(self) -> u8
        ensures { result ≡ number_of_fault self }
    {
        match self {
            SchemaFault::TableNumber => 1,
            SchemaFault::Width => 2,
            SchemaFault::RepeatedTable => 3,
            SchemaFault::NoMemory => 4,
        }
    }
}

impl fmt::Display for SchemaFault {
    ghost use Rattle.schema.specs.Schema.{fault_text};
    ghost use Rattle.std.specs.Prelude.{Some};

    ghost output = { λ fault. Some (fault_text fault) };

    fn fmt<W: fmt::Write>(&self, f: &mut fmt::Formatter<W>) -> fmt::Result {
        let number = self.number();
        write!(f, "S{number}")
    }
}

impl Error for SchemaFault {}

impl<T: Drop> From<AllocFailed<T>> for SchemaFault {
    ghost from_gives = { λ _ fault. fault ≡ NoMemory };

    fn from(_error: AllocFailed<T>) -> SchemaFault {
        SchemaFault::NoMemory
    }
}
