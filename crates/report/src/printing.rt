//! Lines that are given to an output without memory.

ghost use Rattle.std.specs.Prelude.{◌≡◌, [], OnErr};
ghost use Rattle.hex.specs.Hex.{encode_lower};
ghost use Rattle.byte_output.specs.Pending.{output_of, pending_of, Takes};
ghost use Rattle.report.specs.Lines.{bytes_label, line_text};

use crate::parts::{LineParts, bytes_label, parts};
use crate::printed::Line;
use byte_output::paged::PagedOutput;
use std::io;
use std::io::Write;

/// Gives a line to an output, with the LF at its end. Takes no memory.
pub fn put_line<W: Write>(output: &mut PagedOutput<'_, W>, line: &Line) -> io::Result<()>
    ensures same_output { (output_of output.new).ghost_name ≡ (output_of output.old).ghost_name }
    ensures bytes { Takes W.contents output.old output.new result (line_text line.now) }
    ensures given_up { OnErr result (pending_of output.new ≡ []) }
{
    let LineParts { words, bytes, rest } = parts(line);
    output.put(&words)?;
    put_hex(output, bytes)?;
    output.put(&rest)
}

/// Gives the label in front of an entry's bytes in its line. Takes no memory.
pub fn put_bytes_label<W: Write>(output: &mut PagedOutput<'_, W>, position: u32) -> io::Result<()>
    ensures same_output { (output_of output.new).ghost_name ≡ (output_of output.old).ghost_name }
    ensures bytes { Takes W.contents output.old output.new result (bytes_label position) }
    ensures given_up { OnErr result (pending_of output.new ≡ []) }
{
    output.put(&bytes_label(position))
}

/// Gives bytes in hex to an output, two digits each. Takes no memory.
pub fn put_hex<W: Write>(output: &mut PagedOutput<'_, W>, bytes: &[u8]) -> io::Result<()>
    ensures same_output { (output_of output.new).ghost_name ≡ (output_of output.old).ghost_name }
    ensures bytes { Takes W.contents output.old output.new result (encode_lower bytes.now) }
    ensures given_up { OnErr result (pending_of output.new ≡ []) }
{
    for byte in bytes {
        let mut digits = [0u8; 2];
        let _ = hex::encode_to_slice(&[*byte], &mut digits);
        output.put(&digits)?;
    }
    Ok(())
}
