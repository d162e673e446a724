use crate::alone::ONE;
use crate::bytes::bytes_of;
use crate::setting::digit_of;
use bpf_bytes::decode;
use bpf_verify::{Accepted, verify};
use catalogue::Catalogue;
use schema::Schema;
use std::alloc::{Allocator, Global};

/// A program that takes `words` words, as it is accepted. The answer is none, here and below, where memory is wanting
/// or the program isn't accepted.
pub(crate) fn accepted_of<A: Allocator + Copy>(
    alloc: A,
    schema: &Schema<A>,
    program: &str,
    words: usize,
) -> Option<Accepted<A, A>> {
    let code = decode(alloc, &bytes_of(alloc, program)?).ok()?;
    let args_len = u16::try_from(words).unwrap_or(0).wrapping_mul(8);
    verify(alloc, code, schema, args_len.min(256)).ok()
}

fn add_to<A: Allocator + Copy>(
    alloc: A,
    catalogue: &mut Catalogue<A>,
    number: u16,
    program: &str,
    words: usize,
) -> Option<()> {
    let accepted = accepted_of(alloc, catalogue.schema(), program, words)?;
    catalogue.add(&digit_of(number), number, accepted).ok()
}

/// A catalogue for these tables, in which each procedure has its digit as its name. A procedure is given by its number,
/// its program and the number of words that the program takes.
pub fn catalogue_of<A: Allocator + Copy>(
    alloc: A,
    tables: &[(u8, u16)],
    procedures: &[(u16, &str, usize)],
) -> Option<Catalogue<A>> {
    let schema = Schema::new(alloc, tables).ok()?;
    let mut catalogue = Catalogue::new(alloc, schema);
    for (number, program, words) in procedures {
        add_to(alloc, &mut catalogue, *number, program, *words)?;
    }
    Some(catalogue)
}

/// A catalogue for table 1 of rows of one byte, with a procedure `1` of number 1.
pub fn small_catalogue(alloc: Global) -> Option<Catalogue> {
    catalogue_of(alloc, &[(1, 1)], &[(1, ONE, 0)])
}
