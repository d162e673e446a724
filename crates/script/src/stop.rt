//! A cause for which a script ended before its end.

ghost use Rattle.std.specs.Prelude.{◌≡◌};
ghost use Rattle.script.specs.declared.stop.Stop.TheVariants.{Fault};
ghost use Rattle.script.specs.declared.cause.FaultCause.TheVariants.{NoMemory};

use crate::cause::{FaultCause, ScriptFault};
use std::io;

/// A cause for which a script ended before its end.
#[derive(Drop)]
pub enum Stop {
    /// A line is at fault, or memory was wanting at it.
    Fault(ScriptFault),
    /// The input failed.
    Input(io::Error),
    /// The output failed.
    Output(io::Error),
}

/// Makes the stop of a line that is at fault.
pub fn fault_at(line: u64, cause: FaultCause) -> Stop
    ensures { result ≡ Fault (record { line = line; cause = cause }) }
{
    Stop::Fault(ScriptFault { line, cause })
}

/// Makes the stop of a line at which memory was wanting. 0 stands for the script as a whole.
pub fn out_of_memory(line: u64) -> Stop
    ensures { result ≡ Fault (record { line = line; cause = NoMemory }) }
{
    fault_at(line, FaultCause::NoMemory)
}
