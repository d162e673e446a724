//! A site over any streams.

ghost use Rattle.std.specs.Prelude.{◌≡◌, ◌⊎◌, ℕ, List, length, Some, Ok, Err, IfOk, IfErr, IfSome};
ghost use Rattle.script.specs.declared.cause.ScriptFault.{ScriptFault};
ghost use Rattle.script.specs.Telling.{FAILED};
ghost use Rattle.script.specs.Text.{lines_of};
ghost use Rattle.site_model.specs.Standing.{SiteSetting};
ghost use Rattle.site_service.specs.Settings.{settings_say};
ghost use Rattle.site_service.specs.Leaving.{AreUntouched, Leaves, LeavesEnd, StopsAtSettings, TellsFailure, TellsFault};

use crate::input::MAX_SITE_LINE;
use crate::lines::answer_lines;
use crate::settings_reading::Reading;
use script::{Stop, out_of_memory, read_lines, tell};
use site::Site;
use std::alloc::Allocator;
use std::io::{BufRead, Write};

/// Runs a site with the settings in `settings`: it answers the lines of the input, each before it waits for the next.
/// What ends the site before the input's end is said to `faults`. The exit status is 0 at that end. The status is 1
/// where the settings are at fault, before anything is read of the input. The status is 3 where a stream or memory
/// failed.
pub fn site_over<A: Allocator + Copy, S: BufRead, R: BufRead, W: Write, E: Write>(
    alloc: A,
    settings: &mut S,
    input: &mut R,
    output: &mut W,
    faults: &mut E,
) -> u8
    ensures range { ((result ≡ 0) ⊎ (result ≡ 1)) ⊎ (result ≡ FAILED) }
    // Settings at fault are told, and nothing else is done.
    ensures refused { IfSome (S.remaining settings.old) (λ said. IfErr (settings_say said)
        (TellsFault (E.contents faults.old) (E.contents faults.new) result)) }
    ensures unread { IfSome (S.remaining settings.old) (λ said. IfErr (settings_say said)
        (λ _. input.new ≡ input.old)) }
    ensures unwritten { IfSome (S.remaining settings.old) (λ said. IfErr (settings_say said)
        (λ _. output.new ≡ output.old)) }
    // Each line is answered as it has to be; where something failed a beginning of that was written.
    ensures answered { IfSome (S.remaining settings.old) (λ said. IfOk (settings_say said)
        (λ s. IfSome (R.remaining input.old)
        (λ bytes. Leaves s bytes (W.contents output.old) (W.contents output.new) result))) }
    // Where memory was wanting at a line of the input, its number is told, and the lines before are answered. Where
    // memory was wanting earlier, the number of a line of the settings is told, or 0, and input and output are
    // untouched. Else a stream failed, and that is told.
    ensures failed { result ≡ FAILED → IfSome (S.remaining settings.old) (λ said. IfOk (settings_say said)
        (λ s. IfSome (R.remaining input.old) (λ bytes. TellsFailure
        (AreUntouched input.old input.new output.old output.new) (length (lines_of said)) s bytes (W.contents output.old)
        (W.contents output.new) (E.contents faults.old) (E.contents faults.new)))) }
    // Nothing is said where nothing failed and the settings hold.
    ensures silent { result ≡ 0 → faults.new ≡ faults.old }
{
    match serve(alloc, settings, input, output) {
        Ok(()) => 0,
        Err(stop) => tell(faults, stop),
    }
}

/// Reads the settings, and answers the lines of the input.
fn serve<A: Allocator + Copy, S: BufRead, R: BufRead, W: Write>(
    alloc: A,
    settings: &mut S,
    input: &mut R,
    output: &mut W,
) -> Result<(), Stop>
    ensures refused { (said : List ℕ) (fault : ScriptFault) → S.remaining settings.old ≡ Some said
        → settings_say said ≡ Err fault → StopsAtSettings fault result }
    ensures unread { (said : List ℕ) (fault : ScriptFault) → S.remaining settings.old ≡ Some said
        → settings_say said ≡ Err fault → input.new ≡ input.old }
    ensures unwritten { (said : List ℕ) (fault : ScriptFault) → S.remaining settings.old ≡ Some said
        → settings_say said ≡ Err fault → output.new ≡ output.old }
    ensures answered { (said bytes : List ℕ) (s : SiteSetting) → S.remaining settings.old ≡ Some said
        → settings_say said ≡ Ok s → R.remaining input.old ≡ Some bytes
        → LeavesEnd (AreUntouched input.old input.new output.old output.new) (length (lines_of said)) s bytes
        (W.contents output.old) (W.contents output.new) result }
{
    let settings = read_lines::<A, S, Reading<A>>(alloc, settings)?;
    let Ok(mut line) = Vec::with_capacity(alloc, MAX_SITE_LINE + 1) else {
        return Err(out_of_memory(0));
    };
    let Ok(site) = Site::new(alloc, settings) else {
        return Err(out_of_memory(0));
    };
    answer_lines(alloc, site, input, output, &mut line)
}
