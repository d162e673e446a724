//! The bytes of a line.

ghost use Rattle.std.specs.Prelude.{◌≡◌, IfOk};
ghost use Rattle.report.specs.Lines.{line_text};

use crate::parts::{LineParts, parts};
use crate::printed::Line;
use std::alloc::{AllocError, Allocator};

/// The bytes of a line, with the LF at its end. An error is want of memory.
pub fn line<A: Allocator + Copy>(alloc: A, line: &Line) -> Result<Vec<u8, A>, AllocError>
    ensures { IfOk result (λ text. text.items ≡ line_text line.now) }
{
    let LineParts { words, bytes, rest } = parts(line);
    let digits = hex::encode(alloc, bytes)?;
    let mut text = Vec::with_capacity(alloc, words.len() + digits.len() + rest.len())?;
    text.extend_from_slice(&words)?;
    text.extend_from_slice(digits.as_bytes())?;
    text.extend_from_slice(&rest)?;
    Ok(text)
}
