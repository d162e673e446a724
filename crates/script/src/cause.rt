//! The causes that end a script.

ghost use Rattle.std.specs.Prelude.{◌≡◌};
ghost use Rattle.script.specs.SettingsFault.{cause_of_line_fault};
ghost use Rattle.script.specs.declared.cause.FaultCause.TheVariants.{NoMemory};

use crate::fault::LineFault;
use bpf_bytes::DecodeFault;
use bpf_verify::Refusal;
use catalogue::{CatalogueFault, RequestFault, RowFault};
use schema::SchemaFault;
use std::alloc::AllocError;
use std::error::Error;
use std::fmt;

/// A cause for which a script ends, in the order of the printed numbers.
#[derive(Clone, Copy, Debug)]
pub enum FaultCause {
    /// The line says nothing.
    Line(LineFault),
    /// The line doesn't stand where it may.
    Place,
    /// The schema's rules refuse the table.
    Table(SchemaFault),
    /// The bytes of a procedure are no program.
    Program(DecodeFault),
    /// The program isn't accepted.
    Refused(Refusal),
    /// The procedure can't be stored.
    Procedure(CatalogueFault),
    NoMemory,
    /// The row can't be put.
    Row(RowFault),
    /// The request that was done can't be put.
    Request(RequestFault),
    /// The session of the request that was done has a greater number than the sessions of the origin.
    Session,
}

impl fmt::Display for FaultCause {
    ghost use Rattle.script.specs.SettingsFault.{cause_text};
    ghost use Rattle.std.specs.Prelude.{Some};

    ghost output = { λ cause. Some (cause_text cause) };

    fn fmt<W: fmt::Write>(&self, f: &mut fmt::Formatter<W>) -> fmt::Result {
        match self {
            FaultCause::Line(fault) => {
                let number = fault.number();
                write!(f, "L{number}")
            }
            FaultCause::Place => write!(f, "L5"),
            FaultCause::Table(fault) => write!(f, "L6 {fault}"),
            FaultCause::Program(fault) => write!(f, "L7 {fault}"),
            FaultCause::Refused(refusal) => write!(f, "L7 {refusal}"),
            FaultCause::Procedure(fault) => write!(f, "L8 {fault}"),
            FaultCause::NoMemory => write!(f, "L9"),
            FaultCause::Row(fault) => write!(f, "L10 {fault}"),
            FaultCause::Request(fault) => write!(f, "L11 {fault}"),
            FaultCause::Session => write!(f, "L11 Q2"),
        }
    }
}

impl Error for FaultCause {}

impl From<LineFault> for FaultCause {
    ghost from_gives = { λ fault cause. cause ≡ cause_of_line_fault fault };

    fn from(fault: LineFault) -> FaultCause {
        match fault {
            LineFault::NoMemory => FaultCause::NoMemory,
            fault => FaultCause::Line(fault),
        }
    }
}

impl From<AllocError> for FaultCause {
    ghost from_gives = { λ _ cause. cause ≡ NoMemory };

    fn from(_error: AllocError) -> FaultCause {
        FaultCause::NoMemory
    }
}

/// The cause for which a script ends, and the line at which it ends.
#[derive(Clone, Copy, Debug)]
pub struct ScriptFault {
    /// The line's number, counted from 1. 0 stands for the script as a whole.
    pub line: u64,
    pub cause: FaultCause,
}

impl fmt::Display for ScriptFault {
    ghost use Rattle.script.specs.SettingsFault.{script_fault_text};
    ghost use Rattle.std.specs.Prelude.{Some};

    ghost output = { λ fault. Some (script_fault_text fault) };

    fn fmt<W: fmt::Write>(&self, f: &mut fmt::Formatter<W>) -> fmt::Result {
        let line = self.line;
        let cause = self.cause;
        write!(f, "line {line}: {cause}")
    }
}

impl Error for ScriptFault {}
