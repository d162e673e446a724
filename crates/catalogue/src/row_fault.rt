//! The faults of rows that can't be put.

use std::error::Error;
use std::fmt;

/// The fault of a row that can't be put; where several hold, the lowest is given.
#[derive(Clone, Copy, Debug, PartialEq, Eq)]
pub enum RowFault {
    /// There is no table of this number.
    NoTable,
    /// The row isn't as wide as its table.
    Width,
    /// The key isn't behind that of the row before, in the order of tables and keys.
    Order,
}

/// Writes the letter D and the number, 1 to 3.
impl fmt::Display for RowFault {
    ghost use Rattle.catalogue.specs.Fault.{row_fault_text};
    ghost use Rattle.std.specs.Prelude.{Some};

    ghost output = { λ fault. Some (row_fault_text fault) };

    fn fmt<W: fmt::Write>(&self, f: &mut fmt::Formatter<W>) -> fmt::Result {
        match self {
            RowFault::NoTable => write!(f, "D1"),
            RowFault::Width => write!(f, "D2"),
            RowFault::Order => write!(f, "D3"),
        }
    }
}

impl Error for RowFault {}
