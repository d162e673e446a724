//! Lines that are built in place, without memory.

ghost use Rattle.std.specs.Prelude.{◌≡◌, ◌≤◌, ◌+◌, ◌++◌, codes, length};
ghost use Rattle.std.specs.Fmt.{decimal};
ghost use Rattle.arrayvec.specs.ArrayVec.{array_vec_len};
ghost use Rattle.site_report.specs.Answers.{addition_refusal_words, entry_line, outcome_words, request_words};
ghost use Rattle.site_report.specs.SettingsText.{next_number};

use crate::numbers::nothing_number;
use byte_output::line::{LineBuffer, push, push_unsigned};
use itoa::Buffer;
use log_model::{Identifier, RequestId};
use report::push_program_fault;
use site_model::{AdditionRefusal, EntryOutcome};

/// The line of the outcome of the byte string at a position.
pub(crate) fn entry_words(
    position: u32,
    outcome: EntryOutcome,
    request: Option<RequestId>,
) -> LineBuffer
    ensures { result.items ≡ entry_line position outcome request }
{
    let mut words = LineBuffer::new();
    push_unsigned(&mut words, "entry ", u64::from(position));
    push(&mut words, b" ");
    push_outcome(&mut words, outcome);
    push_request(&mut words, request);
    push(&mut words, b"\n");
    words
}

fn push_outcome(words: &mut LineBuffer, outcome: EntryOutcome)
    requires { array_vec_len words.old ≤ 30 }
    ensures items { words.new.items ≡ words.old.items ++ outcome_words outcome }
    ensures len { array_vec_len words.new ≤ array_vec_len words.old + 60 }
{
    match outcome {
        EntryOutcome::Committed(reply) => push_unsigned(words, "commit reply ", reply),
        EntryOutcome::Conflict(position) => push_unsigned(words, "conflict ", u64::from(position)),
        EntryOutcome::Stale => push(words, b"stale"),
        EntryOutcome::Repeated { position, reply } => {
            push_unsigned(words, "repeat ", u64::from(position));
            push_unsigned(words, " reply ", reply);
        }
        EntryOutcome::Added(number) => push_unsigned(words, "added ", u64::from(number)),
        EntryOutcome::Taken(Identifier::Name) => push(words, b"taken C1"),
        EntryOutcome::Taken(Identifier::Number) => push(words, b"taken C2"),
        EntryOutcome::Session(session) => {
            push_unsigned(words, "session ", u64::from(session));
        }
        EntryOutcome::Nothing(cause) => {
            push_unsigned(words, "nothing E", u64::from(nothing_number(cause)));
        }
    }
}

/// Appends the request, where there is one.
fn push_request(words: &mut LineBuffer, request: Option<RequestId>)
    requires { array_vec_len words.old ≤ 90 }
    ensures items { words.new.items ≡ words.old.items ++ request_words request }
    ensures len { array_vec_len words.new ≤ array_vec_len words.old + 60 }
{
    let Some(request) = request else {
        return;
    };
    push_unsigned(words, " session ", u64::from(request.session));
    push_unsigned(words, " seq ", u64::from(request.sequence));
}

/// The line of the cause for which a procedure can't be added.
pub(crate) fn addition_refusal_line(refusal: AdditionRefusal) -> LineBuffer
    ensures { result.items ≡ addition_refusal_words refusal ++ codes "\n" }
{
    let mut words = LineBuffer::new();
    match refusal {
        AdditionRefusal::Program(fault) => {
            push(&mut words, b"refused P11 ");
            push_program_fault(&mut words, fault);
        }
        AdditionRefusal::Name => push(&mut words, b"refused P12"),
        AdditionRefusal::NoAdditions => push(&mut words, b"refused P14"),
    }
    push(&mut words, b"\n");
    words
}

/// The line of a number behind its label.
pub(crate) fn number_line(label: &str, number: u64) -> LineBuffer
    requires { length label.now ≤ 20 }
    ensures { result.items ≡ label.now ++ decimal number ++ codes "\n" }
{
    let mut words = LineBuffer::new();
    push_unsigned(&mut words, label, number);
    push(&mut words, b"\n");
    words
}

/// The line of a position and another number, each behind its label.
pub(crate) fn two_number_line(label: &str, position: u32, other: &str, number: u64) -> LineBuffer
    requires label { length label.now ≤ 20 }
    requires other { length other.now ≤ 20 }
    ensures { result.items
        ≡ (label.now ++ decimal position ++ other.now ++ decimal number) ++ codes "\n" }
{
    let mut words = LineBuffer::new();
    push_unsigned(&mut words, label, u64::from(position));
    push_unsigned(&mut words, other, number);
    push(&mut words, b"\n");
    words
}

/// Appends a number behind a space.
pub(crate) fn push_number(words: &mut LineBuffer, number: u64)
    requires { array_vec_len words.old ≤ 100 }
    ensures items { words.new.items ≡ words.old.items ++ next_number number }
    ensures len { array_vec_len words.new ≤ array_vec_len words.old + 21 }
{
    push_unsigned(words, " ", number);
}

/// Appends a label and a number of up to 128 bits.
pub(crate) fn push_wide(words: &mut LineBuffer, label: &str, number: u128)
    requires room { array_vec_len words.old ≤ 60 }
    requires label { length label.now ≤ 20 }
    ensures items { words.new.items ≡ words.old.items ++ (label.now ++ decimal number) }
    ensures len { array_vec_len words.new ≤ array_vec_len words.old + 60 }
{
    let mut digits = Buffer::new();
    push(words, label.as_bytes());
    push(words, digits.format(number).as_bytes());
}
