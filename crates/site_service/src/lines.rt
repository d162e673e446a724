//! The answers to line after line. A line is at hand where the input showed it whole with the line before.

ghost use Rattle.std.specs.Prelude.{◌≡◌, ◌+◌, ◌<◌, ◌^◌, ℕ, [], List, Some, IfOk, IfSome};
ghost use Rattle.byte_output.specs.Taken.{HasTakenMore};
ghost use Rattle.site_model.specs.Order.{Order};
ghost use Rattle.site.specs.Replica.{StandsForOrder, setting_of};
ghost use Rattle.site_service.specs.Answering.{GivesLines, IsAppended, IsNoText, LeavesAnswers, LeavesLines};

use crate::answer_line::answer;
use crate::input::{NextLine, next_line};
use byte_output::paged::PagedOutput;
use byte_output::{OutputSink, finish};
use script::{LineFault, Stop, out_of_memory};
use site::Site;
use site_report::append_fault_line;
use std::alloc::Allocator;
use std::io;
use std::io::{BufRead, ErrorKind, Write};

/// The progress of a site in the lines of its input.
#[derive(Drop)]
pub(crate) struct Progress<A: Allocator + Copy> {
    pub(crate) site: Site<A>,
    /// The number of the next line.
    pub(crate) number: u64,
    /// True only where the input showed the next line whole, so that reading that line doesn't wait. False behind a
    /// line that is too long.
    pub(crate) is_followed: bool,
}

/// Answers the lines of the input, one after another. Before a line that isn't at hand is read, all answers have left,
/// and the output was flushed. `line` has room for a line.
pub fn answer_lines<A: Allocator + Copy, R: BufRead, W: Write>(
    alloc: A,
    site: Site<A>,
    input: &mut R,
    output: &mut W,
    line: &mut Vec<u8, A>,
) -> Result<(), Stop>
    requires { StandsForOrder site [] }
    // All lines were answered, or those up to one at which memory was wanting or the input failed; where the output
    // failed, a beginning of the answers was written.
    ensures { (bytes : List ℕ) → R.remaining input.old ≡ Some bytes
        → LeavesAnswers (setting_of site) bytes (W.contents output.old) (W.contents output.new) result }
{
    let mut site = site;
    let mut number = 1;
    for _ in 0..u64::MAX {
        match answer_at_hand(alloc, site, input, output, line, number)? {
            Some(progress) => {
                site = progress.site;
                number = progress.number;
            }
            None => return Ok(()),
        }
    }
    Err(Stop::Input(io::Error::from(ErrorKind::Interrupted)))
}

/// Answers the next line, which has this number, and those behind it that are at hand. The answers then leave, and the
/// output is flushed. Returns the site's progress, and none where the input has no more.
fn answer_at_hand<A: Allocator + Copy, R: BufRead, W: Write>(
    alloc: A,
    site: Site<A>,
    input: &mut R,
    output: &mut W,
    line: &mut Vec<u8, A>,
    number: u64,
) -> Result<Option<Progress<A>>, Stop>
    ensures setting { IfOk result (λ next. IfSome next (λ p. setting_of p.site ≡ setting_of site)) }
    ensures given { (bytes : List ℕ) → R.remaining input.old ≡ Some bytes
        → (order : Order) → StandsForOrder site order → LeavesLines (setting_of site) order bytes
        (R.remaining input.new) number (W.contents output.old) (W.contents output.new) result }
{
    let mut pages = PagedOutput::new(output);
    let (answered, failed) = append_at_hand(alloc, site, input, &mut pages, line, number);
    match finish(pages, failed) {
        Ok(()) => answered,
        Err(error) => Err(Stop::Output(error)),
    }
}

/// Appends the answers to the next line and to those behind it that are at hand. Returns the site's progress, and the
/// output's error.
fn append_at_hand<A: Allocator + Copy, R: BufRead, W: Write>(
    alloc: A,
    site: Site<A>,
    input: &mut R,
    pages: &mut PagedOutput<'_, W>,
    line: &mut Vec<u8, A>,
    number: u64,
) -> (Result<Option<Progress<A>>, Stop>, Option<io::Error>)
    ensures setting { IfOk result.0 (λ next. IfSome next (λ p. setting_of p.site ≡ setting_of site)) }
    ensures given { (bytes : List ℕ) → R.remaining input.old ≡ Some bytes
        → (order : Order) → StandsForOrder site order → GivesLines (setting_of site) order bytes
        (R.remaining input.new) number (IsAppended W.contents pages.old pages.new result.1) IsNoText result.0 }
{
    let mut sink = OutputSink {
        pages,
        failed: None,
    };
    let answered = append_answers(alloc, site, input, &mut sink, line, number);
    (answered, sink.take_error())
}

/// Appends the answers to the next line, which has this number, and to those behind it that are at hand, as long as the
/// output takes them. The sink keeps the output's error.
fn append_answers<A: Allocator + Copy, R: BufRead, W: Write>(
    alloc: A,
    site: Site<A>,
    input: &mut R,
    sink: &mut OutputSink<'_, '_, W>,
    line: &mut Vec<u8, A>,
    first: u64,
) -> Result<Option<Progress<A>>, Stop>
    ensures setting { IfOk result (λ next. IfSome next (λ p. setting_of p.site ≡ setting_of site)) }
    ensures given { (bytes : List ℕ) → R.remaining input.old ≡ Some bytes
        → (order : Order) → StandsForOrder site order → GivesLines (setting_of site) order bytes
        (R.remaining input.new) first (HasTakenMore W.contents sink.old sink.new) IsNoText result }
{
    let mut site = site;
    for number in first..u64::MAX {
        match append_next(alloc, site, input, sink, line, number)? {
            Some(progress) => {
                if !progress.is_followed || sink.failed.is_some() {
                    return Ok(Some(progress));
                }
                site = progress.site;
            }
            None => return Ok(None),
        }
    }
    Err(Stop::Input(io::Error::from(ErrorKind::Interrupted)))
}

/// Appends the answer to the next line, which has this number. Returns the site's progress, and none where the input
/// has no more.
fn append_next<A: Allocator + Copy, R: BufRead, W: Write>(
    alloc: A,
    site: Site<A>,
    input: &mut R,
    sink: &mut OutputSink<'_, '_, W>,
    line: &mut Vec<u8, A>,
    number: u64,
) -> Result<Option<Progress<A>>, Stop>
    requires room { number + 1 < 2 ^ 64 }
    ensures setting { IfOk result (λ next. IfSome next (λ p. setting_of p.site ≡ setting_of site)) }
    ensures number { IfOk result (λ next. IfSome next (λ p. p.number ≡ number + 1)) }
    ensures given { (bytes : List ℕ) → R.remaining input.old ≡ Some bytes
        → (order : Order) → StandsForOrder site order → GivesLines (setting_of site) order bytes
        (R.remaining input.new) number (HasTakenMore W.contents sink.old sink.new) IsNoText result }
{
    match next_line(input, line) {
        Ok(NextLine::Line { is_followed }) => {
            let Ok(site) = answer(alloc, site, sink, line) else {
                return Err(out_of_memory(number));
            };
            Ok(Some(Progress {
                site,
                number: number + 1,
                is_followed,
            }))
        }
        Ok(NextLine::TooLong) => {
            append_fault_line(sink, LineFault::Bytes);
            Ok(Some(Progress {
                site,
                number: number + 1,
                is_followed: false,
            }))
        }
        Ok(NextLine::AtEnd) => Ok(None),
        Err(error) => Err(Stop::Input(error)),
    }
}
