//! The verdict on a program, and how it is printed.

ghost use Rattle.std.specs.Prelude.{◌≡◌};
ghost use Rattle.program_commands.specs.Checking.{verdict_text, verdict_status};

use crate::list::refused_line;
use bpf_bytes::DecodeFault;
use bpf_verify::Cause;
use byte_output::line::{LineBuffer, push, push_unsigned};
use schema::SchemaFault;

/// The verdict on a program's bytes, with the tables and the length of its arguments.
#[derive(Clone, Copy, Debug, PartialEq, Eq)]
pub enum CheckVerdict {
    /// The program is accepted. It has `slots` slots, and runs at most `bound` instructions.
    Accepted { slots: usize, bound: u32 },
    /// The tables are no schema.
    NoSchema(SchemaFault),
    /// The bytes are no program.
    NoProgram(DecodeFault),
    /// The program is refused. The slot is the lowest, counted from 0, whose instruction is refused; the cause is its
    /// lowest.
    Refused { slot: u16, cause: Cause },
}

impl CheckVerdict {
    /// The exit status: 0 where the program is accepted, and else 1.
    pub fn status(self) -> u8
        ensures { result ≡ verdict_status self }
    {
        match self {
            CheckVerdict::Accepted { .. } => 0,
            _ => 1,
        }
    }

    /// The line that is printed.
    pub(crate) fn line(self) -> LineBuffer
        ensures { result.items ≡ verdict_text self }
    {
        match self {
            CheckVerdict::Accepted { slots, bound } => accepted_line(slots, bound),
            CheckVerdict::NoSchema(fault) => schema_line(fault),
            CheckVerdict::NoProgram(fault) => refused_line(fault),
            CheckVerdict::Refused { slot, cause } => cause_line(slot, cause),
        }
    }
}

/// Makes a line such as `accepted slots 17 bound 17`.
fn accepted_line(slots: usize, bound: u32) -> LineBuffer
    ensures { result.items ≡ verdict_text (CheckVerdict.Accepted slots bound) }
{
    let mut line = LineBuffer::new();
    push_unsigned(&mut line, "accepted slots ", slots as u64);
    push_unsigned(&mut line, " bound ", u64::from(bound));
    push(&mut line, b"\n");
    line
}

/// Makes a line such as `refused S3`.
fn schema_line(fault: SchemaFault) -> LineBuffer
    ensures { result.items ≡ verdict_text (CheckVerdict.NoSchema fault) }
{
    let mut line = LineBuffer::new();
    push_unsigned(&mut line, "refused S", u64::from(fault.number()));
    push(&mut line, b"\n");
    line
}

/// Makes a line such as `refused V4 slot 1`.
fn cause_line(slot: u16, cause: Cause) -> LineBuffer
    ensures { result.items ≡ verdict_text (CheckVerdict.Refused slot cause) }
{
    let mut line = LineBuffer::new();
    push_unsigned(&mut line, "refused V", u64::from(cause.number()));
    push_unsigned(&mut line, " slot ", u64::from(slot));
    push(&mut line, b"\n");
    line
}
