//! The rows that a look covers, one after another in the order of their keys.
#![tactic(auto)]

pub use scan::RowScan;

mod scan;
