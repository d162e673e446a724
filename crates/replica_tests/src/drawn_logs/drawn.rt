//! Logs that are drawn from a seed, and the entries as which they are shipped.

use log_entry::{Entry, ExecutedCall};
use log_model::RequestId;
use plain_replayer::{ItemReport, PlainCall, PlainItem, PlainItemKind, PlainProcedure};
use rand_core::utils::NextWord;
use rand_pcg::Pcg32;
use row_sets::Bytes;
use schema::Schema;
use std::alloc::Global;
use std::process::Abort;
use test_programs::{ONE, PROCEDURES, addition_of, args_of, idle_call, procedure_of};

/// The greatest key that is drawn; the least is 1.
pub(super) const KEYS: u32 = 40;

/// The greatest number that is drawn for an addition, or for the digits of its name.
pub(super) const NUMBERS: u32 = 150;

/// The name of an addition, of three digits, or of one digit where the number is below 10: the catalogue has some of
/// these.
pub(super) fn name_of(rt: &impl Abort, alloc: Global, number: u32) -> String {
    format!(in alloc; "{number}").expect(rt, "memory")
}

/// The program of a number, and the number of words that it takes. The sample procedures' numbers have their own
/// programs, the others have these in turn.
fn program_of(number: u32) -> (&'static str, usize) {
    match PROCEDURES.get((number.saturating_sub(1) % 6) as usize) {
        Some((_number, program, words)) => (program, *words),
        None => (ONE, 0),
    }
}

/// The source from which a log is drawn.
#[derive(Drop)]
struct Source {
    generator: Pcg32,
    /// The number of requests that were drawn.
    requests: u32,
}

impl Source {
    /// A number below the end.
    fn draw(&mut self, end: u32) -> u32 {
        self.generator.next_word().checked_rem(end).unwrap_or(0)
    }

    /// A key. Every other key is one of the first few, which more calls share.
    fn draw_key(&mut self) -> u64 {
        let end = if self.draw(2) == 0 { 6 } else { KEYS };
        u64::from(self.draw(end)).wrapping_add(1)
    }

    /// Draws the request that a call carries: none, a new one, one of the latest eight, or any that was drawn.
    fn draw_request(&mut self) -> Option<RequestId> {
        let last = self.requests;
        match self.draw(9) {
            0 => {
                self.requests = last.saturating_add(1);
                request_of(self.requests)
            }
            1 => request_of(last.saturating_sub(self.draw(8.min(last)))),
            2 => request_of(last.saturating_sub(self.draw(last))),
            _ => request_of(0),
        }
    }

    /// A snapshot mostly near, at times a little beyond the window or far beyond it.
    fn draw_snapshot(&mut self, before: u32, window: u32) -> u32 {
        let reach = match self.draw(8) {
            0 => window.saturating_add(2),
            1 => window.saturating_mul(2).saturating_add(2),
            _ => window.min(6),
        };
        before.saturating_sub(self.draw(reach.saturating_add(1)))
    }

    /// The number of a procedure: mostly of the catalogue, at times of those that may be added.
    fn draw_procedure(&mut self) -> u32 {
        let end = if self.draw(4) == 0 { NUMBERS } else { 6 };
        self.draw(end).saturating_add(1)
    }
}

/// The request of a number, from 1 on; none of 0. Beside each request there is one with session and sequence number
/// exchanged.
fn request_of(number: u32) -> Option<RequestId> {
    if number == 0 {
        return None;
    }
    Some(RequestId {
        session: 1 + number % 40,
        sequence: 1 + number / 40,
    })
}

/// A call behind `before` items.
fn draw_call(
    rt: &impl Abort,
    alloc: Global,
    source: &mut Source,
    before: u32,
    window: u32,
) -> PlainItem {
    let procedure = source.draw_procedure();
    let (_program, count) = program_of(procedure);
    let words = [source.draw_key(), source.draw_key(), source.draw_key()];
    let snapshot = source.draw_snapshot(before, window);
    let request = source.draw_request();
    let args = args_of(alloc, words.get(..count).unwrap_or(&[])).expect(rt, "memory");
    let number = u16::try_from(procedure).unwrap_or(0);
    PlainItem {
        kind: PlainItemKind::Call(PlainCall::new(before, number, args, snapshot, request)),
    }
}

/// An addition, with name and number drawn apart.
fn draw_addition(rt: &impl Abort, alloc: Global, source: &mut Source) -> PlainItem {
    let name = name_of(rt, alloc, source.draw(NUMBERS).saturating_add(1));
    let number = source.draw(NUMBERS).saturating_add(1);
    let (program, words) = program_of(number);
    let number = u16::try_from(number).unwrap_or(0);
    let procedure = procedure_of(alloc, name.as_bytes(), number, program, words).expect(
        rt, "memory",
    );
    PlainItem {
        kind: PlainItemKind::Addition(procedure),
    }
}

/// Draws `count` items under a window. One of twenty is an addition.
pub(super) fn drawn_log(rt: &impl Abort, alloc: Global, window: u32, count: u32) -> Vec<PlainItem> {
    let mut source = Source {
        generator: Pcg32::new(u64::from(window), 16),
        requests: 0,
    };
    let mut log = Vec::new(alloc);
    for before in 0..count {
        let item = if source.draw(20) == 0 {
            draw_addition(rt, alloc, &mut source)
        } else {
            draw_call(rt, alloc, &mut source, before, window)
        };
        log.push(item).expect(rt, "memory");
    }
    log
}

/// Adds what a call's run looked at and wrote.
fn add_run(rt: &impl Abort, call: &mut ExecutedCall, report: &ItemReport) {
    for look in report.looks() {
        call.reads.add_range(*look).expect(rt, "memory");
    }
    for write in report.writes() {
        match write.bytes() {
            Some(bytes) => call
                .writes
                .put(write.table(), write.key(), bytes)
                .expect(rt, "memory"),
            None => call
                .writes
                .remove(write.table(), write.key())
                .expect(rt, "memory"),
        }
    }
}

/// A call as it is shipped, with what its run looked at and wrote.
fn executed_call(rt: &impl Abort, alloc: Global, call: &PlainCall, report: &ItemReport) -> Entry {
    let args = Vec::from_slice(alloc, call.args()).expect(rt, "memory");
    let snapshot = call.snapshot() as u32;
    let mut executed = idle_call(alloc, call.procedure(), snapshot, call.request());
    executed.args = Bytes::new(args);
    executed.reply = report.reply();
    add_run(rt, &mut executed, report);
    Entry::Call(executed)
}

fn shipped_addition(
    rt: &impl Abort,
    alloc: Global,
    schema: &Schema,
    procedure: &PlainProcedure,
) -> Entry {
    let number = procedure.number();
    let (program, words) = program_of(u32::from(number));
    let name = procedure.name();
    addition_of(alloc, schema, name, number, program, words).expect(rt, "an addition")
}

/// An item as it is shipped.
pub(super) fn shipped(
    rt: &impl Abort,
    alloc: Global,
    schema: &Schema,
    item: &PlainItem,
    report: &ItemReport,
) -> Entry {
    match &item.kind {
        PlainItemKind::Call(call) => executed_call(rt, alloc, call, report),
        PlainItemKind::Addition(procedure) => shipped_addition(rt, alloc, schema, procedure),
    }
}
