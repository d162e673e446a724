//! The procedures that calls of drawn worlds are of, and the programs of those that are added.

use test_programs::{PROCEDURES, PUT_AND_CANCEL, READ};

/// The code with which `PUT_AND_CANCEL` cancels.
pub(crate) const CANCEL_CODE: u64 = 9;

/// The procedures of the catalogue: their numbers, each with its program and the number of words that it takes. Those
/// of `test_programs` come first. The last two are never ordered.
pub fn procedures() -> [(u16, &'static str, usize); 8] {
    let [add, skew, put, count, next, delete] = PROCEDURES;
    let (read, cancel) = ((8, READ, 1), (9, PUT_AND_CANCEL, 2));
    [add, skew, put, count, next, delete, read, cancel]
}

/// The place in the catalogue of the procedure that only reads.
pub(crate) const READ_PLACE: usize = 6;

/// The place in the catalogue of the procedure that cancels.
pub(crate) const CANCEL_PLACE: usize = 7;

/// The place in the catalogue of the procedure of a number.
fn catalogue_place(number: u16) -> Option<usize> {
    procedures()
        .iter()
        .position(|procedure| procedure.0 == number)
}

/// Tells whether the catalogue has a procedure of a number.
pub fn is_of_catalogue(number: u16) -> bool {
    catalogue_place(number).is_some()
}

/// The place of the procedure whose program a number has. A number of the catalogue has its own program, any other has
/// one of the programs in turn. So a number tells the program of an added procedure too.
pub(crate) fn place_of(number: u16) -> usize {
    catalogue_place(number).unwrap_or(usize::from(number % 8))
}

/// Returns the number of words that the program of a number takes, and the program.
pub fn program_of(number: u16) -> (usize, &'static str) {
    match procedures().get(place_of(number)) {
        Some((_number, program, words)) => (*words, *program),
        None => (0, ""),
    }
}
