//! The test programs that are there at first.

use crate::rows::{ADD, COUNT, DELETE, NEXT, PUT, SKEW};

/// The test programs that are there at first: each with its number and the number of words that it takes.
pub static PROCEDURES: [(u16, &str, usize); 6] = [
    (1, ADD, 2),
    (2, SKEW, 2),
    (3, PUT, 2),
    (4, COUNT, 3),
    (5, NEXT, 3),
    (6, DELETE, 1),
];
