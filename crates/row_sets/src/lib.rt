//! The values that rows and writes are, what a call has looked at and what it has written, and whether these share a
//! key.
#![tactic(auto)]

pub use first_rows::FirstRows;
pub use flat_rows::{FirstRow, FirstRowsLeft};
pub use read_set::ReadSet;
pub use row::{Bytes, Keyed, Row, Write};
pub use share::shares_key;
pub use write_set::WriteSet;

mod first_rows;
mod flat_rows;
mod read_set;
mod room;
mod row;
mod share;
mod sorted;
mod write_set;
