//! The requests of lines.

ghost use Rattle.std.specs.Prelude.{◌≡◌, ◌⊎◌, Ok, Err, IfOk, IfErr, IfSome};
ghost use Rattle.site_service.specs.Lines.{IsWithinLimits, line_says};
ghost use Rattle.script.specs.declared.fault.LineFault.TheVariants.{NoMemory};

use crate::input::MAX_SITE_LINE;
use crate::word::Word;
use row_sets::Bytes;
use script::{LineResult, ProcedureFields, read_line};
use std::alloc::Allocator;

/// The rows that a scan asks for.
#[derive(Clone, Copy)]
pub struct Scan {
    pub table: u8,
    /// The least key.
    pub lo: u64,
    /// The greatest key.
    pub hi: u64,
    /// The greatest number of rows, at least one.
    pub most: u32,
}

/// A request of a line to a site. Names, arguments, programs and entries are a `B`.
#[derive(Drop)]
pub enum SiteLine<B> {
    /// A call, with a session and a number within it; 0 and 0 for none. A line where exactly one of them is 0 is not at
    /// fault.
    Call {
        name: B,
        args: B,
        session: u32,
        sequence: u32,
    },
    /// A procedure that is to be added.
    Add(ProcedureFields<B>),
    /// The byte string at the next position of the order.
    Entry {
        bytes: B,
    },
    /// Every row.
    Rows,
    /// The first rows of a table from a key to another.
    Scan(Scan),
    /// The settings of a database that goes on from the last position.
    Dump,
    Position,
}

/// Reads what a line, given without its LF, says: a request, or nothing where it is empty or a comment.
pub fn site_line<A: Allocator + Copy>(alloc: A, line: &[u8]) -> LineResult<SiteLine<Bytes<A>>>
    ensures exact { IfOk result (λ said. line_says line.now ≡ Ok said) }
    // The fault is the first of several, or memory is wanting.
    ensures fault { IfErr result (λ fault. (fault ≡ NoMemory) ⊎ (line_says line.now ≡ Err fault)) }
    ensures limits { IfOk result (λ said. IfSome said IsWithinLimits) }
{
    read_line::<A, Word, SiteLine<Bytes<A>>>(alloc, line, MAX_SITE_LINE)
}
