//! The words with which lines begin.

use script::LineWord;

/// A line's first word.
#[derive(Clone, Copy)]
pub enum Word {
    Call,
    Add,
    Entry,
    Rows,
    Scan,
    Dump,
    Position,
}

impl LineWord for Word {
    ghost use Rattle.site_service.specs.Lines.{word_of as spelled};

    ghost word_of = { spelled };

    fn find(text: &str) -> Option<Word> {
        Some(if text == "call" {
            Word::Call
        } else if text == "add" {
            Word::Add
        } else if text == "entry" {
            Word::Entry
        } else if text == "rows" {
            Word::Rows
        } else if text == "scan" {
            Word::Scan
        } else if text == "dump" {
            Word::Dump
        } else if text == "position" {
            Word::Position
        } else {
            return None;
        })
    }
}
