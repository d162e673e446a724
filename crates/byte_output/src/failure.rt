//! The line that reports the failure of a stream.

ghost use Rattle.std.specs.Prelude.{◌≡◌, ℕ, List};
ghost use Rattle.byte_output.specs.Writes.{WritesText};
ghost use Rattle.byte_output.specs.Failure.{failure_line};

use crate::line::LineBuffer;
use crate::put;
use std::io;
use std::io::Write;

/// Writes a line with what a stream says of its failure, as far as a line has room for it.
pub fn put_error<E: Write>(faults: &mut E, error: &io::Error) -> io::Result<()>
    ensures { (message : List ℕ) × WritesText (E.contents faults.old) (E.contents faults.new) result
        (failure_line message) }
{
    let mut message = LineBuffer::new();
    let _ = write!(message, "{error}");
    put(faults, b"dsmdb: ")?;
    put(faults, &message)?;
    put(faults, b"\n")
}
