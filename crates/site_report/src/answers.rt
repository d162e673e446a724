//! The lines of outcomes: of an entry, of a call and of an addition.

ghost use Rattle.log_entry.specs.Bytes.{entry_bytes};
ghost use Rattle.log_entry.specs.Kind.{entry_of};
ghost use Rattle.site_report.specs.Answers.{addition_line, addition_with_bytes, call_line, call_with_bytes};
ghost use Rattle.site_report.specs.Answers.{entry_line, submit_words};
ghost use Rattle.std.specs.Prelude.{◌++◌, codes};

use crate::hex_digits::append_entry_digits;
use crate::numbers::call_refusal_number;
use crate::words::{addition_refusal_line, entry_words, number_line, two_number_line};
use byte_output::sink::ByteSink;
use log_entry::Entry;
use log_model::RequestId;
use site_model::{AdditionAnswer, CallAnswer, EntryOutcome};
use std::alloc::Allocator;

/// Appends the outcome of the byte string at a position, with the request that it carries. Takes no memory.
pub fn append_entry_line<S: ByteSink>(
    sink: &mut S,
    position: u32,
    outcome: EntryOutcome,
    request: Option<RequestId>,
)
    ensures { S.appends sink.old sink.new (entry_line position outcome request) }
{
    sink.append(&entry_words(position, outcome, request));
}

/// Appends the outcome of a call. Takes no memory.
pub fn append_call_line<A: Allocator + Copy, S: ByteSink>(
    sink: &mut S,
    answer: &CallAnswer<Entry<A>>,
)
    ensures { S.appends sink.old sink.new (call_line (call_with_bytes (λ e. entry_bytes (entry_of e)) answer.now)) }
{
    match answer {
        CallAnswer::Refused(refusal) => {
            sink.append(&number_line("refused P", u64::from(call_refusal_number(*refusal))));
        }
        CallAnswer::OutOfSession => sink.append(b"refused P15\n"),
        CallAnswer::Repeated { position, reply } => {
            sink.append(&two_number_line("repeat ", *position, " reply ", *reply));
        }
        CallAnswer::Cancelled { position, code } => {
            sink.append(&two_number_line("cancelled ", *position, " code ", *code));
        }
        CallAnswer::Read { position, reply } => {
            sink.append(&two_number_line("read ", *position, " reply ", *reply));
        }
        CallAnswer::Submitted(entry) => append_submission(sink, entry),
    }
}

/// Appends the outcome of a procedure that is to be added. Takes no memory.
pub fn append_addition_line<A: Allocator + Copy, S: ByteSink>(
    sink: &mut S,
    answer: &AdditionAnswer<Entry<A>>,
)
    ensures { S.appends sink.old sink.new
        (addition_line (addition_with_bytes (λ e. entry_bytes (entry_of e)) answer.now)) }
{
    match answer {
        AdditionAnswer::Refused(refusal) => sink.append(&addition_refusal_line(*refusal)),
        AdditionAnswer::Submitted(entry) => append_submission(sink, entry),
    }
}

/// Appends the line of an entry that is to be ordered.
fn append_submission<A: Allocator + Copy, S: ByteSink>(sink: &mut S, entry: &Entry<A>)
    ensures { S.appends sink.old sink.new (submit_words (entry_bytes (entry_of entry.now)) ++ codes "\n") }
{
    sink.append(b"submit ");
    append_entry_digits(sink, entry);
    sink.append(b"\n");
}
