//! The giving of lines to an output.

ghost use Rattle.std.specs.Prelude.{◌≡◌};
ghost use Rattle.byte_output.specs.Pending.{output_of};
ghost use Rattle.hex.specs.Hex.{encode_lower};
ghost use Rattle.report.specs.Lines.{bytes_label, line_text};
ghost use Rattle.report.specs.Answers.{text_of};
ghost use Rattle.script_replay.specs.Acting.{Gives};

use byte_output::paged::PagedOutput;
use report::Line;
use std::io;
use std::io::Write;

/// Gives a line to the output.
pub(crate) fn put_line<W: Write>(output: &mut PagedOutput<'_, W>, said: &Line) -> io::Result<()>
    ensures same_output { (output_of output.new).ghost_name ≡ (output_of output.old).ghost_name }
    ensures given { Gives W.contents output.old output.new result (line_text said.now) }
{
    report::put_line(output, said)
}

/// Gives the line of an answer to the output, where it has one.
pub(crate) fn put_answer<W: Write>(
    output: &mut PagedOutput<'_, W>,
    said: Option<Line<'static>>,
) -> io::Result<()>
    ensures same_output { (output_of output.new).ghost_name ≡ (output_of output.old).ghost_name }
    ensures given { Gives W.contents output.old output.new result (text_of said.entry) }
{
    match said {
        Some(said) => put_line(output, &said),
        None => Ok(()),
    }
}

/// Gives the label in front of an entry's bytes to the output.
pub(crate) fn put_bytes_label<W: Write>(
    output: &mut PagedOutput<'_, W>,
    position: u32,
) -> io::Result<()>
    ensures same_output { (output_of output.new).ghost_name ≡ (output_of output.old).ghost_name }
    ensures given { Gives W.contents output.old output.new result (bytes_label position) }
{
    report::put_bytes_label(output, position)
}

/// Gives a text to the output.
pub(crate) fn put_text<W: Write>(output: &mut PagedOutput<'_, W>, text: &[u8]) -> io::Result<()>
    ensures same_output { (output_of output.new).ghost_name ≡ (output_of output.old).ghost_name }
    ensures given { Gives W.contents output.old output.new result text.now }
{
    output.put(text)
}

/// Gives bytes to the output in hex.
pub(crate) fn put_digits<W: Write>(output: &mut PagedOutput<'_, W>, bytes: &[u8]) -> io::Result<()>
    ensures same_output { (output_of output.new).ghost_name ≡ (output_of output.old).ghost_name }
    ensures given { Gives W.contents output.old output.new result (encode_lower bytes.now) }
{
    report::put_hex(output, bytes)
}
