//! A procedure is added through the log.

ghost use Rattle.std.specs.Prelude.{IfOk, IfErr};
ghost use Rattle.served_replicas.specs.Added.{IsAskedFor, IsNotAdded, IsAddedAnswer};

use crate::shared::Shared;
use locked_replica::LogSetting;
use log_entry::{AddedProcedure, Entry, NamedProgram, check_addition};
use node_calls::Gate;
use order_log::{AppendFault, OrderLog, Seen};
use program_checks::{AdditionFault, ProgramFault};
use schema::{MAX_ARGUMENTS, OrNoMemory};
use std::alloc::Allocator;
use std::sync::Wait;

/// A cause for which a program isn't added.
#[derive(Clone, Copy, Debug, PartialEq, Eq, Drop)]
pub enum ProgramRefusal {
    /// The program's arguments would have more than 256 bytes.
    ArgumentsLimit,
    /// The bytes are no program, or the verifier refuses the program.
    Fault(ProgramFault),
}

/// The answer to an addition.
#[derive(Clone, Copy, Debug, PartialEq, Eq, Drop)]
pub enum Added {
    /// The addition is the entry at this position of the log, from 1 on.
    Ordered(u32),
    /// The log is full.
    Full,
    /// Memory is wanting, and the addition isn't ordered.
    NoMemory,
    Program(ProgramRefusal),
    /// The program is accepted; the name isn't 1 to 32 letters, digits or `_`.
    Name,
}

impl<J: LogSetting, A: Allocator + Copy, P: Allocator + Copy, G: Gate> Shared<J, A, P, G> {
    /// Appends a procedure to the log, where its program is accepted for the tables, and wakes the delivering threads.
    /// Returns what was seen of the log then, where the procedure was appended.
    pub fn add<R: Wait>(
        &self,
        rt: &R,
        name: &[u8],
        number: u16,
        args_len: u16,
        bytes: &[u8],
    ) -> (Added, Option<Seen<J, P>>)
        ensures { IsAddedAnswer J.setting
            (record { name = name.now; number = number; args_len = args_len; bytes = bytes.now }) result.0 result.1 }
    {
        let addition = match self.accepted(name, number, args_len, bytes) {
            Ok(addition) => addition,
            Err(refused) => return (refused, None),
        };
        let mut seen = self.delivered(rt);
        match self.log.append(&mut seen, Entry::Addition(addition)) {
            Ok(position) => {
                self.bells.ring();
                (Added::Ordered(position), Some(seen))
            }
            Err(AppendFault::Full) => (Added::Full, None),
            Err(AppendFault::NoMemory) => (Added::NoMemory, None),
            Err(AppendFault::SnapshotUnseen) => unreachable!(),
        }
    }

    /// Returns a procedure that may be appended, or the answer where it may not.
    fn accepted(
        &self,
        name: &[u8],
        number: u16,
        args_len: u16,
        bytes: &[u8],
    ) -> Result<AddedProcedure<P>, Added>
        ensures accepted { IfOk result (IsAskedFor J.setting.tables
            (record { name = name.now; number = number; args_len = args_len; bytes = bytes.now })) }
        ensures refused { IfErr result (IsNotAdded J.setting
            (record { name = name.now; number = number; args_len = args_len; bytes = bytes.now })) }
    {
        if args_len > MAX_ARGUMENTS {
            return Err(Added::Program(ProgramRefusal::ArgumentsLimit));
        }
        let named = NamedProgram {
            number,
            args_len,
            name,
            program: bytes,
        };
        match check_addition(self.alloc, named, self.catalogue.schema()) {
            Ok(addition) => Ok(addition),
            Err(OrNoMemory::NoMemory) => Err(Added::NoMemory),
            Err(OrNoMemory::Fault(AdditionFault::Program(fault))) => {
                Err(Added::Program(ProgramRefusal::Fault(fault)))
            }
            Err(OrNoMemory::Fault(AdditionFault::Name)) => Err(Added::Name),
        }
    }

    /// Returns what a replica has delivered, so that an append doesn't go through all of the log.
    fn delivered<R: Wait>(&self, rt: &R) -> Seen<J, P> {
        match self.replica(1) {
            Some(served) => served.served.replica.read(rt).seen(),
            None => self.log.seen(),
        }
    }
}
