//! The words with which lines begin.

ghost use Rattle.std.specs.Prelude.{◌≡◌};
ghost use Rattle.script.specs.Script.{action_word_of, setting_word_of};

use crate::meaning::LineWord;

/// A line's first word.
#[derive(Clone, Copy)]
pub enum Word {
    Setting(SettingWord),
    Action(ActionWord),
}

impl LineWord for Word {
    ghost use Rattle.script.specs.Script.{word_of as spelled};

    ghost word_of = { spelled };

    fn find(text: &str) -> Option<Word> {
        if let Some(word) = setting_word(text) {
            return Some(Word::Setting(word));
        }
        let word = action_word(text)?;
        Some(Word::Action(word))
    }
}

/// The word of a line that sets something.
#[derive(Clone, Copy)]
pub enum SettingWord {
    Window,
    Replicas,
    Table,
    Proc,
    Row,
    Request,
    Origin,
}

/// The word of a line that acts.
#[derive(Clone, Copy)]
pub enum ActionWord {
    Begin,
    Add,
    Turn,
    Exec,
    Order,
    Deliver,
    Rebuild,
    Rows,
    Log,
    Entry,
}

/// Finds the word of a line that sets something.
fn setting_word(text: &str) -> Option<SettingWord>
    ensures { result ≡ setting_word_of text.now }
{
    Some(if text == "window" {
        SettingWord::Window
    } else if text == "replicas" {
        SettingWord::Replicas
    } else if text == "table" {
        SettingWord::Table
    } else if text == "proc" {
        SettingWord::Proc
    } else if text == "row" {
        SettingWord::Row
    } else if text == "request" {
        SettingWord::Request
    } else if text == "origin" {
        SettingWord::Origin
    } else {
        return None;
    })
}

/// Finds the word of a line that acts.
fn action_word(text: &str) -> Option<ActionWord>
    ensures { result ≡ action_word_of text.now }
{
    Some(if text == "begin" {
        ActionWord::Begin
    } else if text == "add" {
        ActionWord::Add
    } else if text == "turn" {
        ActionWord::Turn
    } else if text == "exec" {
        ActionWord::Exec
    } else if text == "order" {
        ActionWord::Order
    } else if text == "deliver" {
        ActionWord::Deliver
    } else if text == "rebuild" {
        ActionWord::Rebuild
    } else if text == "rows" {
        ActionWord::Rows
    } else if text == "log" {
        ActionWord::Log
    } else if text == "entry" {
        ActionWord::Entry
    } else {
        return None;
    })
}
