//! The causes for which a command fails, and how they are said.

ghost use Rattle.program_commands.specs.Failures.{IsSaid};

use byte_output::{put, put_error};
use schema::OrNoMemory;
use std::io;
use std::io::Write;

/// The stream of a command that failed.
#[derive(Drop)]
pub enum StreamFault {
    /// The input failed, and nothing was written.
    Input(io::Error),
    Output(io::Error),
}

/// Says why a command failed, as far as the writer takes it.
pub(crate) fn say<E: Write>(faults: &mut E, failure: &OrNoMemory<StreamFault>)
    ensures { IsSaid (E.contents faults.old) (E.contents faults.new) failure.now }
{
    let _ = match failure {
        OrNoMemory::NoMemory => put(faults, b"dsmdb: out of memory\n"),
        OrNoMemory::Fault(StreamFault::Input(error) | StreamFault::Output(error)) => {
            put_error(faults, error)
        }
    };
}
