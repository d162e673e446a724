//! The reading of a whole script.

ghost use Rattle.std.specs.Prelude.{◌≡◌, ◌≤◌, ℕ, List, length, Some, Ok, IfOk, IfErr};
ghost use Rattle.schema.specs.declared.limits.TheConstants.{MAX_REPLICAS, MAX_WINDOW};
ghost use Rattle.script_run.specs.Calls.{script_says};
ghost use Rattle.script.specs.Said.{IsStopOf};
ghost use Rattle.script.specs.Text.{lines_of};
ghost use Rattle.script_run.specs.Reading.{said_by};

use crate::call::ScriptCall;
use crate::reading::Reading;
use catalogue::Catalogue;
use row_sets::Bytes;
use script::{Stop, read_lines};
use std::alloc::{Allocator, Global};
use std::io::BufRead;

/// A script of settings and calls.
#[derive(Drop)]
pub struct CallScript<A: Allocator + Copy = Global> {
    /// The window, 1 to 4,096.
    pub window: u32,
    /// The number of replicas, 1 to 8.
    pub replicas: u32,
    pub catalogue: Catalogue<A>,
    /// The calls, in the order of their lines.
    pub calls: Vec<ScriptCall<Bytes<A>>, A>,
}

/// Reads the script in the input to its end, or to its first fault: settings, and behind them calls.
pub fn read_script<A: Allocator + Copy, R: BufRead>(
    alloc: A,
    input: &mut R,
) -> Result<CallScript<A>, Stop>
    ensures exact { IfOk result (λ s. (bytes : List ℕ) → R.remaining input.old ≡ Some bytes
        → script_says bytes ≡ Ok (said_by s)) }
    // The stop is at the first fault, or memory is wanting at a line or before the first, or the input failed.
    ensures stop { IfErr result (λ stop. (bytes : List ℕ) → R.remaining input.old ≡ Some bytes
        → IsStopOf (script_says bytes) (length (lines_of bytes)) stop) }
    ensures window { IfOk result (λ script. (1 ≤ script.window) × (script.window ≤ MAX_WINDOW)) }
    ensures replicas { IfOk result (λ script. (1 ≤ script.replicas) × (script.replicas ≤ MAX_REPLICAS)) }
{
    read_lines::<A, R, Reading<A>>(alloc, input)
}
