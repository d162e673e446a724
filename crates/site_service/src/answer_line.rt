//! The answers to lines.

ghost use Rattle.std.specs.Prelude.{◌≡◌, ◌≤◌, ℕ, List, IfOk, OnErr};
ghost use Rattle.schema.specs.declared.limits.TheConstants.{MAX_ARGUMENTS};
ghost use Rattle.site_service.specs.Lines.{IsWithinLimits, line_says};
ghost use Rattle.site_model.specs.Order.{Order};
ghost use Rattle.site.specs.Replica.{StandsForOrder, setting_of};
ghost use Rattle.log_entry.specs.Named.{named_of};
ghost use Rattle.site.specs.Answered.{asked_of};
ghost use Rattle.site_service.specs.LineAnswers.{IsAdditionAnswer, IsAnswer, IsCallAnswer, IsLineAnswer};
ghost use Rattle.site_service.specs.LineAnswers.{order_behind, order_with};

use crate::answer_dump::answer_dump;
use crate::answer_scan::answer_scan;
use crate::entry::answer_entry;
use crate::line::{SiteLine, site_line};
use crate::rows::answer_rows;
use byte_output::sink::ByteSink;
use log_entry::NamedProgram;
use log_model::given_request;
use row_sets::Bytes;
use script::LineFault;
use site::{Asked, Site};
use site_report::{
    append_addition_line, append_call_line, append_fault_line, append_no_memory_line,
    append_position_line,
};
use std::alloc::{AllocError, Allocator};

/// Appends what a site answers to a line, given without its LF. There may be no memory for what the line says, for a
/// byte string of the order, for the rows or for a dump. Nothing is appended then, and the site is dropped.
pub fn answer<A: Allocator + Copy, S: ByteSink>(
    alloc: A,
    site: Site<A>,
    sink: &mut S,
    line: &[u8],
) -> Result<Site<A>, AllocError>
    ensures answered { IfOk result (λ _. (order : Order) → StandsForOrder site order
        → (text : List ℕ) × IsLineAnswer (setting_of site) order (line_says line.now) text
        × S.appends sink.old sink.new text) }
    ensures stands { IfOk result (λ next. (order : Order) → StandsForOrder site order
        → StandsForOrder next (order_behind (setting_of site) order (line_says line.now))) }
    ensures setting { IfOk result (λ next. setting_of next ≡ setting_of site) }
    ensures nothing { OnErr result (sink.new ≡ sink.old) }
{
    match site_line(alloc, line) {
        Ok(None) => Ok(site),
        Ok(Some(request)) => answer_request(alloc, site, sink, &request),
        Err(fault) => {
            if fault == LineFault::NoMemory {
                return Err(AllocError);
            }
            append_fault_line(sink, fault);
            Ok(site)
        }
    }
}

/// Appends the answer to what a line asks for.
fn answer_request<A: Allocator + Copy, S: ByteSink>(
    alloc: A,
    site: Site<A>,
    sink: &mut S,
    request: &SiteLine<Bytes<A>>,
) -> Result<Site<A>, AllocError>
    requires { IsWithinLimits request.now }
    ensures answered { IfOk result (λ _. (order : Order) → StandsForOrder site order
        → (text : List ℕ) × IsAnswer (setting_of site) order request.now text × S.appends sink.old sink.new text) }
    ensures stands { IfOk result (λ next. (order : Order) → StandsForOrder site order
        → StandsForOrder next (order_with (setting_of site) order request.now)) }
    ensures setting { IfOk result (λ next. setting_of next ≡ setting_of site) }
    ensures nothing { OnErr result (sink.new ≡ sink.old) }
{
    match request {
        SiteLine::Call {
            name,
            args,
            session,
            sequence,
        } => {
            let asked = Asked {
                name: name.as_slice(),
                args: args.as_slice(),
                request: given_request(*session, *sequence),
            };
            answer_call(&site, sink, asked);
            Ok(site)
        }
        SiteLine::Add(procedure) => {
            let named = NamedProgram {
                name: procedure.name.as_slice(),
                number: procedure.number,
                args_len: procedure.args_len,
                program: procedure.program.as_slice(),
            };
            answer_addition(&site, sink, named);
            Ok(site)
        }
        SiteLine::Entry { bytes } => answer_entry(site, sink, bytes.as_slice()),
        SiteLine::Rows => {
            answer_rows(alloc, &site, sink)?;
            Ok(site)
        }
        SiteLine::Scan(scan) => {
            answer_scan(&site, sink, *scan);
            Ok(site)
        }
        SiteLine::Dump => {
            answer_dump(alloc, &site, sink)?;
            Ok(site)
        }
        SiteLine::Position => {
            append_position_line(sink, site.position());
            Ok(site)
        }
    }
}

/// Appends the answer to a call. A run that finds no memory is refused for want of memory.
fn answer_call<A: Allocator + Copy, S: ByteSink>(site: &Site<A>, sink: &mut S, asked: Asked<'_>)
    ensures { (order : Order) → StandsForOrder site.now order → (text : List ℕ)
        × IsCallAnswer (setting_of site.now) order (asked_of asked.entry) text × S.appends sink.old sink.new text }
{
    match site.call(asked) {
        Ok(answer) => append_call_line(sink, &answer),
        Err(_) => append_no_memory_line(sink),
    }
}

/// Appends the answer to a procedure that is to be added. A procedure that finds no memory is refused for that.
fn answer_addition<A: Allocator + Copy, S: ByteSink>(
    site: &Site<A>,
    sink: &mut S,
    named: NamedProgram<'_>,
)
    requires { named.args_len ≤ MAX_ARGUMENTS }
    ensures { (text : List ℕ) × IsAdditionAnswer (setting_of site.now) (named_of named.entry) text
        × S.appends sink.old sink.new text }
{
    match site.add(named) {
        Ok(answer) => append_addition_line(sink, &answer),
        Err(_) => append_no_memory_line(sink),
    }
}
