//! `views.rt` reads and writes through a view, `sets.rt` has the sets alone.

use std::fmt::Debug;
use std::process::Abort;

mod sets;
mod views;

/// Asserts that a value is the one that is wanted. The assertion stands in a function of its own, since a proof of many
/// comparisons in one function beside values to be dropped takes long.
fn same<T: PartialEq + Debug + Copy>(rt: &impl Abort, case: &str, found: T, wanted: T) {
    assert_eq!(rt; found, wanted, "{case}");
}
