//! The commands, and the causes for which words are none.

ghost use Rattle.std.specs.Prelude.{◌≡◌};
ghost use Rattle.command_line.specs.Fault.{fault_status, kind_status};

use crate::explanation::Explanation;
use byte_output::FAILED;
use clap::error::ErrorKind;
use std::alloc::{AllocError, AllocFailed};
use thiserror::Error;

/// A command with its values.
#[derive(Debug, Drop, PartialEq, Eq)]
pub enum Plan<'a> {
    /// Lists the program in this file.
    List {
        file: &'a str,
    },
    /// Checks the program in this file, for arguments of `args_len` bytes and for these tables. A table is a pair of
    /// its number and its row width.
    Check {
        file: &'a str,
        args_len: u16,
        tables: Vec<(u8, u16)>,
    },
    /// Replays the script in this file.
    Replay {
        script: &'a str,
    },
    /// Takes the calls of the script in this file on threads: `executors` at each replica, with a log of at most
    /// `log_limit` entries.
    Run {
        script: &'a str,
        /// The number of threads at each replica, 1 to 16.
        executors: u32,
        /// The most entries of the log, 1 to 1,048,576.
        log_limit: u32,
    },
    /// Runs a site, with the settings in this file.
    Site {
        settings: &'a str,
    },
    /// Says what is known of a refusal.
    Explain {
        explanation: Explanation,
    },
}

/// A cause for which the words are no plan.
#[derive(Debug, Drop, Error)]
pub enum PlanFault<'a> {
    /// The words can't be read, or ask for help or the version. clap has the text and the exit status.
    #[error(transparent)]
    CommandLine(clap::Error),
    #[error("ARGS must be a number from 0 to 256: '{word}'")]
    Arguments { word: &'a str },
    #[error("T:W must be a table from 1 to 64 and its row width from 1 to 128: '{word}'")]
    Table { word: &'a str },
    #[error("--executors must be a number from 1 to 16: '{word}'")]
    Executors { word: &'a str },
    #[error("--log must be a number from 1 to 1048576: '{word}'")]
    LogLimit { word: &'a str },
    #[error("NUMBER must be a refusal's, as V5; docs/REFUSALS.md has them all: '{word}'")]
    Number { word: &'a str },
    #[error("no command was given")]
    NoCommand,
    #[error("out of memory")]
    NoMemory,
}

/// The exit status where the words are no command.
const BAD_COMMAND_LINE: u8 = 2;

impl PlanFault<'_> {
    /// The exit status: 0 where help or the version was asked for, 3 at want of memory, and else 2.
    pub fn status(&self) -> u8
        ensures { result ≡ fault_status self.now }
    {
        match self {
            PlanFault::CommandLine(error) => kind_status(error.kind()),
            PlanFault::NoMemory => FAILED,
            PlanFault::Arguments { .. }
            | PlanFault::Table { .. }
            | PlanFault::Executors { .. }
            | PlanFault::LogLimit { .. }
            | PlanFault::Number { .. }
            | PlanFault::NoCommand => BAD_COMMAND_LINE,
        }
    }
}

/// The exit status where clap read no command off the words.
fn kind_status(kind: ErrorKind) -> u8
    ensures { result ≡ kind_status kind }
{
    match kind {
        ErrorKind::DisplayHelp | ErrorKind::DisplayVersion => 0,
        ErrorKind::OutOfMemory => FAILED,
        _ => BAD_COMMAND_LINE,
    }
}

impl From<clap::Error> for PlanFault<'_> {
    fn from(error: clap::Error) -> Self {
        PlanFault::CommandLine(error)
    }
}

impl<T: Drop> From<AllocFailed<T>> for PlanFault<'_> {
    fn from(_error: AllocFailed<T>) -> Self {
        PlanFault::NoMemory
    }
}

impl From<AllocError> for PlanFault<'_> {
    fn from(_error: AllocError) -> Self {
        PlanFault::NoMemory
    }
}
