//! The replay of a whole script.

ghost use Rattle.std.specs.Prelude.{◌≡◌, ◌⊎◌, ℕ, List, Some, IfErr, IfSome};
ghost use Rattle.byte_output.specs.Pending.{output_of};
ghost use Rattle.script.specs.Telling.{FAILED, SaysStream};
ghost use Rattle.script.specs.Text.{lines_of};
ghost use Rattle.script_replay.specs.Stage.{first_stage};
ghost use Rattle.script_replay.specs.Replay.{Ending, Prints, ScriptPrints};
ghost use Rattle.script_replay.specs.Leaving.{Leaves, StopsAt, memory_line};
ghost use Rattle.script_replay.specs.Doing.{GivesReplay, GivesUpToWant, WritesReplay, WritesUpToWant};
ghost use Rattle.script_replay.specs.Doing.{has_output_failed};
ghost use Rattle.byte_output.specs.Writes.{AppendsBeginning};

use crate::line::do_line;
use crate::stage::Stage;
use byte_output::paged::PagedOutput;
use script::{
    FaultCause, LineFault, MAX_LINE, Next, Settings, Stop, fault_at,
    lines_that_are_too_long_are_at_fault, next_line, out_of_memory, tell,
};
use std::alloc::Allocator;
use std::io;
use std::io::{BufRead, ErrorKind, Write};

/// Replays the script in the input. What the script prints goes to the output, and what ends it before its end is said
/// to `faults`. The exit status is 0 at the script's end, 1 where a line is at fault, and 3 where a stream or memory
/// failed.
pub fn replay_over<A: Allocator + Copy, R: BufRead, W: Write, E: Write>(
    alloc: A,
    input: &mut R,
    output: &mut W,
    faults: &mut E,
) -> u8
    // The status is that of the script's end, or something failed.
    ensures range { ((result ≡ 0) ⊎ (result ≡ 1)) ⊎ (result ≡ FAILED) }
    // What was written is what the script prints; where something failed, a beginning of it.
    ensures told { IfSome (R.remaining input.old)
        (λ bytes. (text : List ℕ) × (ending : Ending) × ScriptPrints bytes text ending
        × Leaves (W.contents output.old) (W.contents output.new) (E.contents faults.old)
        (E.contents faults.new) result text ending) }
    // Where memory was wanting at a line, that line is told, and what the lines before it print was written whole. Else
    // a stream failed, and that is told.
    ensures failed { IfSome (R.remaining input.old) (λ bytes. result ≡ FAILED
        → SaysStream (E.contents faults.old) (E.contents faults.new)
        ⊎ ((number : ℕ) × StopsAt bytes (R.remaining input.new) (W.contents output.old) (W.contents output.new) number
        × AppendsBeginning (E.contents faults.old) (E.contents faults.new) (memory_line number))) }
    // Nothing is said where nothing failed and no line is at fault.
    ensures silent { result ≡ 0 → faults.new ≡ faults.old }
{
    match replay_whole(alloc, input, output) {
        Ok(()) => 0,
        Err(stop) => tell(faults, stop),
    }
}

/// Replays the script over pages. Unless the output failed, what is pending is put out.
fn replay_whole<A: Allocator + Copy, R: BufRead, W: Write>(
    alloc: A,
    input: &mut R,
    output: &mut W,
) -> Result<(), Stop>
    ensures written { (bytes : List ℕ) → R.remaining input.old ≡ Some bytes
        → WritesReplay (W.contents output.old) (W.contents output.new) (ScriptPrints bytes) result }
    ensures wanted { (bytes : List ℕ) → R.remaining input.old ≡ Some bytes
        → IfErr result (WritesUpToWant bytes (R.remaining input.new) (W.contents output.old) (W.contents output.new)) }
{
    let mut pages = PagedOutput::new(output);
    let ended = replay(alloc, input, &mut pages);
    if has_output_failed(&ended) {
        return ended;
    }
    match pages.finish() {
        Ok(()) => ended,
        Err(error) => Err(Stop::Output(error)),
    }
}

fn has_output_failed(ended: &Result<(), Stop>) -> bool
    ensures { result ≡ has_output_failed ended.now }
{
    matches!(ended, Err(Stop::Output(_)))
}

/// Does the lines of the script, one after another.
fn replay<A: Allocator + Copy, R: BufRead, W: Write>(
    alloc: A,
    input: &mut R,
    output: &mut PagedOutput<'_, W>,
) -> Result<(), Stop>
    ensures same_output { (output_of output.new).ghost_name ≡ (output_of output.old).ghost_name }
    ensures replayed { (bytes : List ℕ) → R.remaining input.old ≡ Some bytes
        → GivesReplay W.contents output.old output.new (ScriptPrints bytes) result }
    ensures wanted { (bytes : List ℕ) → R.remaining input.old ≡ Some bytes
        → IfErr result (GivesUpToWant W.contents bytes (R.remaining input.new) output.old output.new) }
{
    // Laws:
    lines_that_are_too_long_are_at_fault();
    let Ok(mut line) = Vec::with_capacity(alloc, MAX_LINE) else {
        return Err(out_of_memory(0));
    };
    let Ok(settings) = Settings::new(alloc) else {
        return Err(out_of_memory(0));
    };
    let mut stage = Stage::SettingUp(settings);
    for number in 1..u64::MAX {
        match next_line(input, &mut line) {
            Ok(Next::Line) => {}
            Ok(Next::AtEnd) => return Ok(()),
            Ok(Next::TooLong) => {
                return Err(fault_at(number, FaultCause::Line(LineFault::Bytes)));
            }
            Err(error) => return Err(Stop::Input(error)),
        }
        stage = do_line(alloc, stage, output, &line, number)?;
    }
    Err(Stop::Input(io::Error::from(ErrorKind::Interrupted)))
}
