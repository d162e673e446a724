//! Writing bytes to an output, with what stands there where a write fails.
#![tactic(auto)]

ghost use Rattle.std.specs.Prelude.{◌≤◌, length, IfOk};
ghost use Rattle.std.specs.Io.KnownBytes.{WriteAppends};
ghost use Rattle.byte_output.specs.Writes.{WritesText};

pub use failure::put_error;
pub use output_sink::{OutputSink, finish};
pub use status::FAILED;
use std::io;
use std::io::{ErrorKind, Write};

mod failure;
pub mod line;
mod output_sink;
pub mod paged;
pub mod sink;
mod status;

/// Makes one write, and returns the number of bytes that were taken from the front. An interrupted write takes 0; a
/// write that takes 0 by itself is an error.
fn write_some<W: Write>(output: &mut W, bytes: &[u8]) -> io::Result<usize>
    ensures bound { IfOk result (λ n. n ≤ length bytes.now) }
    ensures appended { WriteAppends (W.contents output.old) (W.contents output.new) result bytes.now }
{
    match output.write(bytes) {
        Ok(0) => Err(io::Error::from(ErrorKind::WriteZero)),
        Ok(n) => Ok(n),
        Err(error) if matches!(error.kind(), ErrorKind::Interrupted) => Ok(0),
        Err(error) => Err(error),
    }
}

/// Writes the bytes, by as many writes as it takes. A write that was interrupted is made again; a write that fails, or
/// takes nothing, ends the call.
pub fn put<W: Write>(output: &mut W, bytes: &[u8]) -> io::Result<()>
    // At `Ok` the bytes are appended, at `Err` some of them from the front.
    ensures { WritesText (W.contents output.old) (W.contents output.new) result bytes.now }
{
    let mut rest = bytes;
    for _ in 0..u64::MAX {
        if rest.is_empty() {
            return Ok(());
        }
        let taken = write_some(output, rest)?;
        (_, rest) = rest.split_at(taken);
    }
    Err(io::Error::from(ErrorKind::Interrupted))
}
