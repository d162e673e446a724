//! The bytes of programs.

use std::alloc::Allocator;

/// The bytes of a program that is given by its slots in hex. The answer is none where memory is wanting, or where the
/// slots are no hex.
pub fn bytes_of<A: Allocator + Copy>(alloc: A, program: &str) -> Option<Vec<u8, A>> {
    let mut bytes = Vec::new(alloc);
    for slots in program.split_whitespace() {
        let slots = hex::decode(alloc, slots).ok()?;
        bytes.extend_from_slice(&slots).ok()?;
    }
    Some(bytes)
}
