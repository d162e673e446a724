//! `forms.rt` has each form of instruction and `calls.rt` each helper: where it steps, and for each reason one state
//! where it doesn't; `schemas.rt` has tables, faults and helpers.

use std::fmt::Debug;
use std::process::Abort;

mod assembly;
mod calls;
mod forms;
mod schemas;

/// Asserts that a value is the one that is wanted. The assertion stands in a function of its own, since a proof of many
/// comparisons in one function beside values to be dropped takes long.
fn same<T: PartialEq + Debug + Copy>(rt: &impl Abort, case: &str, found: T, wanted: T) {
    assert_eq!(rt; found, wanted, "{case}");
}
