//! The meaning of a line of the settings.

use row_sets::Bytes;
use script::{LineFault, LineMeaning, LineWord, Statement, Word};
use std::alloc::Allocator;

/// The first word of a line.
#[derive(Clone, Copy)]
pub(crate) enum SettingsWord {
    Additions,
    /// A word of scripts.
    Script(Word),
}

impl LineWord for SettingsWord {
    ghost use Rattle.site_service.specs.Settings.{word_of as spelled};

    ghost word_of = { spelled };

    fn find(text: &str) -> Option<SettingsWord> {
        if text == "additions" {
            return Some(SettingsWord::Additions);
        }
        let word = Word::find(text)?;
        Some(SettingsWord::Script(word))
    }
}

/// The meaning of a line. Names and programs are a `B`.
#[derive(Drop)]
pub(crate) enum SettingsLine<B> {
    /// Procedures may be added.
    Additions,
    /// The line's meaning in a script.
    Statement(Statement<B>),
}

impl<A: Allocator + Copy> LineMeaning<A, SettingsWord> for SettingsLine<Bytes<A>> {
    ghost use Rattle.site_service.specs.Settings.{IsWithinLimits, said_behind as said};

    ghost said_behind = { said };

    ghost IsWithin = { IsWithinLimits };

    fn read_behind(alloc: A, word: SettingsWord, fields: &[&str]) -> Result<Self, LineFault> {
        match word {
            SettingsWord::Additions if fields.is_empty() => Ok(SettingsLine::Additions),
            SettingsWord::Additions => Err(LineFault::FieldCount),
            SettingsWord::Script(word) => {
                let statement = Statement::read_behind(alloc, word, fields)?;
                Ok(SettingsLine::Statement(statement))
            }
        }
    }
}
