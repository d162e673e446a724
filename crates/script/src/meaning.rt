//! The reading of what a line says, in any language of lines.

ghost use Rattle.std.specs.Prelude.{◌≡◌, ◌⊎◌, List, ℕ, map, Option, Result, Ok, Err, IfOk, IfErr, IfSome};
ghost use Rattle.script.specs.Line.{fields_say, says};
ghost use Rattle.script.specs.declared.fault.LineFault.{LineFault};
ghost use Rattle.script.specs.declared.fault.LineFault.TheVariants.{NoMemory};

use crate::fault::LineFault;
use crate::fields::line_fields;
use std::alloc::Allocator;

/// What a line means, or nothing where it is empty or a comment; or its fault.
pub type LineResult<M> = Result<Option<M>, LineFault>;

/// A word with which lines begin.
pub trait LineWord: Drop {
    /// The word that is spelled so.
    ghost word_of: { List ℕ → Option Self };

    /// Finds the word that is spelled so.
    fn find(text: &str) -> Option<Self>
        ensures { result ≡ word_of text.now };
}

/// The meaning of a line that begins with a word of a language, a `W`.
pub trait LineMeaning<A: Allocator + Copy, W>: Drop {
    /// What a word says of the fields behind it.
    ghost said_behind: { W → List (List ℕ) → Result Self LineFault };

    /// What is known of the numbers of a meaning.
    ghost IsWithin: { Self → Type 0 };

    /// Reads what a word says of the fields behind it.
    fn read_behind(alloc: A, word: W, fields: &[&str]) -> Result<Self, LineFault>
        ensures exact { IfOk result (λ meaning.
            said_behind word (map (λ field. field.now) fields.now) ≡ Ok meaning) }
        // The fault is the first of several, or memory is wanting.
        ensures fault { IfErr result (λ fault. (fault ≡ NoMemory)
            ⊎ (said_behind word (map (λ field. field.now) fields.now) ≡ Err fault)) }
        ensures limits { IfOk result IsWithin };
}

/// Reads what a line says that may have `most` bytes, given without its LF: nothing where the line is empty or a
/// comment.
#[tactic(auto, unfolding(crate::specs::Line::says))]
pub fn read_line<A: Allocator + Copy, W: LineWord, M: LineMeaning<A, W>>(
    alloc: A,
    line: &[u8],
    most: usize,
) -> LineResult<M>
    ensures exact { IfOk result (λ said. says (fields_say W.word_of M.said_behind) most line.now ≡ Ok said) }
    // The fault is the first of several, or memory is wanting.
    ensures fault { IfErr result (λ fault. (fault ≡ NoMemory)
        ⊎ (says (fields_say W.word_of M.said_behind) most line.now ≡ Err fault)) }
    ensures limits { IfOk result (λ said. IfSome said M.IsWithin) }
{
    match line_fields(alloc, line, most)? {
        Some(fields) => {
            let meaning = read_fields::<A, W, M>(alloc, &fields)?;
            Ok(Some(meaning))
        }
        None => Ok(None),
    }
}

/// Reads what the fields of a line say.
fn read_fields<A: Allocator + Copy, W: LineWord, M: LineMeaning<A, W>>(
    alloc: A,
    fields: &[&str],
) -> Result<M, LineFault>
    ensures exact { IfOk result (λ meaning.
        fields_say W.word_of M.said_behind (map (λ field. field.now) fields.now) ≡ Ok meaning) }
    ensures fault { IfErr result (λ fault. (fault ≡ NoMemory)
        ⊎ (fields_say W.word_of M.said_behind (map (λ field. field.now) fields.now) ≡ Err fault)) }
    ensures limits { IfOk result M.IsWithin }
{
    let [first, fields @ ..] = fields else {
        return Err(LineFault::Word);
    };
    match W::find(first) {
        Some(word) => M::read_behind(alloc, word, fields),
        None => Err(LineFault::Word),
    }
}
