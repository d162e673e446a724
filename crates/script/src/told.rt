//! The message about a script that ended before its end.

ghost use Rattle.std.specs.Prelude.{◌≡◌, ◌⊎◌};
ghost use Rattle.byte_output.specs.Writes.{WritesText};
ghost use Rattle.byte_output.specs.declared.status.TheConstants.{FAILED};
ghost use Rattle.script.specs.Telling.{fault_line, status_of_cause, SaysEnd};

use crate::cause::{FaultCause, ScriptFault};
use crate::stop::Stop;
use byte_output::line::LineBuffer;
use byte_output::{FAILED, put, put_error};
use std::io;
use std::io::Write;

/// Says why a script ended before its end, as far as the writer takes it. Returns the exit status.
pub fn tell<E: Write>(faults: &mut E, stop: Stop) -> u8
    ensures range { (result ≡ 1) ⊎ (result ≡ FAILED) }
    ensures said { SaysEnd (E.contents faults.old) (E.contents faults.new) stop result }
{
    match stop {
        Stop::Fault(fault) => {
            let _ = put_fault(faults, fault);
            status_of(fault.cause)
        }
        Stop::Input(error) | Stop::Output(error) => {
            let _ = put_error(faults, &error);
            FAILED
        }
    }
}

/// Returns the exit status of a cause. Want of memory isn't the script's fault.
fn status_of(cause: FaultCause) -> u8
    ensures { result ≡ status_of_cause cause }
{
    match cause {
        FaultCause::NoMemory => FAILED,
        _ => 1,
    }
}

/// Writes the line of a fault.
fn put_fault<E: Write>(faults: &mut E, fault: ScriptFault) -> io::Result<()>
    ensures { WritesText (E.contents faults.old) (E.contents faults.new) result (fault_line fault) }
{
    let mut line = LineBuffer::new();
    writeln!(line, "{fault}")?;
    put(faults, &line)
}
