//! The reading of lines to their end.

ghost use Rattle.std.specs.Prelude.{◌≡◌, ◌⊎◌, ◌<◌, ℕ, List, length, Some, Result, Ok, Err, IfOk, IfErr, OnOk};
ghost use Rattle.script.specs.Text.{lines_of, max_line};
ghost use Rattle.script.specs.Said.{IsStopOf, said_from};
ghost use Rattle.script.specs.declared.cause.FaultCause.{FaultCause};
ghost use Rattle.script.specs.declared.cause.FaultCause.TheVariants.{Line, NoMemory};
ghost use Rattle.script.specs.declared.cause.ScriptFault.{ScriptFault};
ghost use Rattle.script.specs.declared.fault.LineFault.TheVariants.{Bytes};

use crate::cause::{FaultCause, ScriptFault};
use crate::fault::LineFault;
use crate::input::{MAX_LINE, Next, next_line};
use crate::stop::{Stop, fault_at, out_of_memory};
use std::alloc::{AllocError, Allocator};
use std::io;
use std::io::{BufRead, ErrorKind};

/// A reader that takes lines, one after another.
pub trait LineReader<A: Allocator + Copy>: Drop {
    /// What lines come to that were read to their end.
    type Whole: Drop;

    /// What lines come to.
    ghost Meaning: { Type 0 };

    /// What no lines come to.
    ghost nothing_read: { Meaning };

    /// What the lines taken so far come to.
    ghost read_so_far: { Self → Meaning };

    /// What lines come to with one more line, or why they come to nothing.
    ghost with_next: { Meaning → List ℕ → Result Meaning FaultCause };

    /// What lines mean that were read to their end.
    ghost WholeMeaning: { Type 0 };

    /// The meaning of such lines.
    ghost meant_by: { Self.Whole → WholeMeaning };

    /// What lines mean that end here, or why they come to nothing.
    ghost at_end: { Meaning → Result WholeMeaning ScriptFault };

    /// What is known of the numbers of lines that were read to their end.
    ghost IsWithin: { Self.Whole → Type 0 };

    /// Makes a reader of no lines.
    fn new(alloc: A) -> Result<Self, AllocError>
        ensures { IfOk result (λ reader. read_so_far reader ≡ nothing_read) };

    /// Takes one more line, given without its LF.
    fn take_line(&mut self, alloc: A, line: &[u8]) -> Result<(), FaultCause>
        ensures ok { OnOk result (with_next (read_so_far self.old) line.now ≡ Ok (read_so_far self.new)) }
        ensures fault { IfErr result (λ cause. (cause ≡ NoMemory)
            ⊎ (with_next (read_so_far self.old) line.now ≡ Err cause)) };

    /// Returns what the lines taken come to, where no more follow.
    fn into_whole(self) -> Result<Self::Whole, ScriptFault>
        ensures exact { IfOk result (λ whole. at_end (read_so_far self) ≡ Ok (meant_by whole)) }
        ensures fault { IfErr result (λ fault. at_end (read_so_far self) ≡ Err fault) }
        ensures limits { IfOk result IsWithin };

    /// A line that is too long is at fault for its bytes, whatever they are.
    ghost too_long: { (before : Meaning) (line : List ℕ) → max_line < length line
        → with_next before line ≡ Err (Line Bytes) };
}

/// Has a reader take the lines of the input to their end, or to the first fault.
pub fn read_lines<A: Allocator + Copy, R: BufRead, L: LineReader<A>>(
    alloc: A,
    input: &mut R,
) -> Result<L::Whole, Stop>
    ensures exact { IfOk result (λ whole. (bytes : List ℕ) → R.remaining input.old ≡ Some bytes
        → said_from L.with_next L.at_end L.nothing_read 1 (lines_of bytes) ≡ Ok (L.meant_by whole)) }
    // The stop is at the first fault, or memory is wanting at a line or before the first, or the input failed.
    ensures stop { IfErr result (λ stop. (bytes : List ℕ) → R.remaining input.old ≡ Some bytes
        → IsStopOf (said_from L.with_next L.at_end L.nothing_read 1 (lines_of bytes)) (length (lines_of bytes)) stop) }
    ensures limits { IfOk result L.IsWithin }
{
    let Ok(mut reader) = L::new(alloc) else {
        return Err(out_of_memory(0));
    };
    let Ok(mut line) = Vec::with_capacity(alloc, MAX_LINE) else {
        return Err(out_of_memory(0));
    };
    for number in 1..u64::MAX {
        match next_line(input, &mut line) {
            Ok(Next::Line) => {}
            Ok(Next::AtEnd) => return reader.into_whole().map_err(Stop::Fault),
            Ok(Next::TooLong) => {
                return Err(fault_at(number, FaultCause::Line(LineFault::Bytes)));
            }
            Err(error) => return Err(Stop::Input(error)),
        }
        if let Err(cause) = reader.take_line(alloc, &line) {
            return Err(fault_at(number, cause));
        }
    }
    Err(Stop::Input(io::Error::from(ErrorKind::Interrupted)))
}
