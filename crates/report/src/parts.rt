//! The parts that lines are made of.

ghost use Rattle.std.specs.Prelude.{◌≡◌, ◌++◌, codes};
ghost use Rattle.std.specs.Fmt.{decimal};
ghost use Rattle.hex.specs.Hex.{encode_lower};
ghost use Rattle.report.specs.Lines.{bytes_label, line_text, row_label, totals_words};

use crate::printed::Line;
use crate::words::{
    add_refused, added, agreement, answered, begin_refused, begun, call, certified, first_totals,
    log, no_entry, open, other_totals, replica,
};
use byte_output::line::{LineBuffer, push, push_column, push_unsigned};
use tallies::Counts;

/// The parts of a line: words, bytes that stand in hex behind them, and the rest, with the LF at its end.
#[derive(Drop)]
pub(crate) struct LineParts<'a> {
    pub(crate) words: LineBuffer,
    pub(crate) bytes: &'a [u8],
    pub(crate) rest: LineBuffer,
}

/// The parts of a line.
#[tactic(auto, unfolding(crate::specs::Lines::line_words))]
pub(crate) fn parts<'a>(line: &Line<'a>) -> LineParts<'a>
    ensures { (result.words.items ++ encode_lower result.bytes.now) ++ result.rest.items ≡ line_text line.now }
{
    match line {
        Line::Begun {
            call,
            replica,
            snapshot,
        } => plain(begun(*call, *replica, *snapshot)),
        Line::BeginRefused(refusal) => plain(begin_refused(*refusal)),
        Line::Added { position } => plain(added(*position)),
        Line::AddRefused(refusal) => plain(add_refused(*refusal)),
        Line::Call {
            call: number,
            report,
        } => plain(call(*number, *report)),
        Line::Replica {
            replica: number,
            report,
        } => plain(replica(*number, *report)),
        Line::Row { table, key, bytes } => row(*table, *key, bytes),
        Line::Certified {
            entry,
            compared,
            verdict,
        } => plain(certified(*entry, *compared, *verdict)),
        Line::Open(entry) => plain(open(*entry)),
        Line::Log { entries } => plain(log(*entries)),
        Line::Entry {
            position,
            bytes: None,
        } => plain(no_entry(*position)),
        Line::Entry {
            position,
            bytes: Some(bytes),
        } => entry(*position, bytes),
        Line::Answered { call, answer } => plain(answered(*call, *answer)),
        Line::Totals(counts) => totals(*counts),
        Line::Agreement { agrees } => plain(agreement(*agrees)),
    }
}

/// The end of a line.
fn end() -> LineBuffer
    ensures { result.items ≡ codes "\n" }
{
    let mut end = LineBuffer::new();
    push(&mut end, b"\n");
    end
}

/// The parts of a line that these words are.
#[tactic(auto, unfolding(hex::specs::Hex::encode_with))]
fn plain(words: LineBuffer) -> LineParts<'static>
    ensures { (result.words.items ++ encode_lower result.bytes.now) ++ result.rest.items ≡ words.items ++ codes "\n" }
{
    LineParts {
        words,
        bytes: &[],
        rest: end(),
    }
}

fn row<'a>(table: u8, key: u64, bytes: &'a [u8]) -> LineParts<'a>
    ensures { (result.words.items ++ encode_lower result.bytes.now) ++ result.rest.items
        ≡ row_label table key ++ encode_lower bytes.now ++ codes "\n" }
{
    LineParts {
        words: row_label(table, key),
        bytes,
        rest: end(),
    }
}

/// The label in front of a row's bytes in its line.
pub fn row_label(table: u8, key: u64) -> LineBuffer
    ensures { result.items ≡ row_label table key }
{
    let mut words = LineBuffer::new();
    push_column(&mut words, 2, u64::from(table));
    push(&mut words, b" ");
    push_column(&mut words, 20, key);
    push(&mut words, b" ");
    words
}

fn entry<'a>(position: u32, bytes: &'a [u8]) -> LineParts<'a>
    ensures { (result.words.items ++ encode_lower result.bytes.now) ++ result.rest.items
        ≡ (codes "entry " ++ decimal position ++ codes " ") ++ encode_lower bytes.now ++ codes "\n" }
{
    LineParts {
        words: bytes_label(position),
        bytes,
        rest: end(),
    }
}

/// The label in front of an entry's bytes.
pub(crate) fn bytes_label(position: u32) -> LineBuffer
    ensures { result.items ≡ bytes_label position }
{
    let mut words = LineBuffer::new();
    push_unsigned(&mut words, "entry ", u64::from(position));
    push(&mut words, b" ");
    words
}

/// The line of all counts, which is longer than words that are built in place.
#[tactic(auto, unfolding(hex::specs::Hex::encode_with))]
fn totals(counts: Counts) -> LineParts<'static>
    ensures { (result.words.items ++ encode_lower result.bytes.now) ++ result.rest.items
        ≡ totals_words counts ++ codes "\n" }
{
    LineParts {
        words: first_totals(counts),
        bytes: &[],
        rest: other_totals(counts),
    }
}
