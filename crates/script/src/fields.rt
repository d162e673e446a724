//! A line's text and its fields.

ghost use Rattle.std.specs.Prelude.{◌≡◌, ◌⊎◌, false, true, map, option_map, Ok, Err, IfOk, IfErr, IfSome, IfNone};
ghost use Rattle.std.specs.List.{list_all};
ghost use Rattle.script.specs.Line.{fields_said};
ghost use Rattle.script.specs.Text.{fields_of, is_printable, is_readable, is_skipped};
ghost use Rattle.script.specs.declared.fault.LineFault.TheVariants.{NoMemory};

use crate::fault::LineFault;
use row_sets::Bytes;
use std::alloc::{AllocError, Allocator};

/// Reads the fields of a line that may have `most` bytes, given without its LF: none where the line is empty or a
/// comment.
pub fn line_fields<A: Allocator>(
    alloc: A,
    line: &[u8],
    most: usize,
) -> Result<Option<Vec<&str, A>>, LineFault>
    ensures exact { IfOk result (λ fields. fields_said most line.now
        ≡ Ok (option_map (λ fields. map (λ field. field.now) fields.items) fields)) }
    ensures fault { IfErr result (λ fault. (fault ≡ NoMemory) ⊎ (fields_said most line.now ≡ Err fault)) }
{
    let Some(text) = readable_text(line, most) else {
        return Err(LineFault::Bytes);
    };
    if is_skipped(line) {
        return Ok(None);
    }
    let fields = fields(alloc, text)?;
    Ok(Some(fields))
}

/// A line's text, where the line is one: printable, and of at most `most` bytes.
fn readable_text(line: &[u8], most: usize) -> Option<&str>
    ensures text { IfSome result (λ text. text.now ≡ line.now) }
    ensures readable { IfSome result (λ _. is_readable most line.now ≡ true) }
    ensures unreadable { IfNone result (is_readable most line.now ≡ false) }
{
    if line.len() > most || !are_printable(line) {
        return None;
    }
    match str::from_utf8(line) {
        Ok(text) => Some(text),
        Err(_) => None,
    }
}

fn are_printable(line: &[u8]) -> bool
    ensures { result ≡ list_all is_printable line.now }
{
    line.iter().all(|byte| is_printable(*byte))
}

fn is_printable(byte: u8) -> bool
    ensures { result ≡ is_printable byte }
{
    byte >= 0x20 && byte <= 0x7e
}

/// Tells whether a line is empty or a comment.
fn is_skipped(line: &[u8]) -> bool
    ensures { result ≡ is_skipped line.now }
{
    line.is_empty() || line[0] == b'#'
}

/// Returns the fields between the spaces of a text. An error is want of memory.
fn fields<A: Allocator>(alloc: A, text: &str) -> Result<Vec<&str, A>, AllocError>
    ensures { IfOk result (λ fields. map (λ field. field.now) fields.items ≡ fields_of text.now) }
{
    text.split(' ').collect(alloc)
}

/// Reads the bytes of a name.
pub fn read_name<A: Allocator>(alloc: A, name: &str) -> Result<Bytes<A>, AllocError>
    ensures { IfOk result (λ bytes. bytes ≡ name.now) }
{
    let bytes = Vec::from_slice(alloc, name.as_bytes())?;
    Ok(Bytes::new(bytes))
}
