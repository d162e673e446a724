//! The reading of lines, which passes over lines that are too long.

ghost use Rattle.std.specs.Prelude.{◌≡◌, ◌+◌, ◌≤◌, ℕ, List, Some, IfOk, vec_len};
ghost use Rattle.site_service.specs.declared.input.TheConstants.{MAX_SITE_LINE};
ghost use Rattle.site_service.specs.InputLines.{IsNextLine, IsPiece};

use script::before_lf;
use std::alloc::Allocator;
use std::io;
use std::io::{BufRead, ErrorKind};

/// The most bytes that a line has.
pub const MAX_SITE_LINE: usize = 1_048_576;

/// The outcome of one look at the input.
#[derive(Clone, Copy)]
pub(crate) enum Piece {
    /// A part of the line's bytes.
    More,
    /// The rest of the line, up to an LF. Where `is_followed` is true, the look showed another LF behind.
    Ended { is_followed: bool },
    /// The end of the input.
    AtEnd,
}

/// The next item of an input.
#[derive(Clone, Copy)]
pub enum NextLine {
    /// A line. Where `is_followed` is true, the input showed the whole next line too, so that reading the next line
    /// doesn't wait.
    Line { is_followed: bool },
    /// A line that is too long. The line was passed over.
    TooLong,
    /// The end of the lines: what is left, if anything, has no LF at its end.
    AtEnd,
}

/// Takes what the input shows of a line. `line` keeps at most one byte more than a line may have. The byte more says
/// that the line is too long.
fn take_piece<R: BufRead, A: Allocator>(input: &mut R, line: &mut Vec<u8, A>) -> io::Result<Piece>
    requires { vec_len line.old ≤ MAX_SITE_LINE + 1 }
    ensures piece { IfOk result (λ p. (bytes : List ℕ) → R.remaining input.old ≡ Some bytes
        → IsPiece bytes (R.remaining input.new) line.old.items line.new.items p) }
    ensures len { vec_len line.new ≤ MAX_SITE_LINE + 1 }
{
    let shown = match input.fill_buf() {
        Ok(shown) => shown,
        Err(error) => {
            return if matches!(error.kind(), ErrorKind::Interrupted) {
                Ok(Piece::More)
            } else {
                Err(error)
            };
        }
    };
    if shown.is_empty() {
        return Ok(Piece::AtEnd);
    }
    let (count, is_ended) = before_lf(shown);
    let kept = count.min(MAX_SITE_LINE + 1 - line.len());
    line.extend_from_slice(&shown[..kept])?;
    if is_ended {
        let (_, is_followed) = before_lf(&shown[count + 1..]);
        input.consume(count + 1);
        Ok(Piece::Ended { is_followed })
    } else {
        input.consume(count);
        Ok(Piece::More)
    }
}

/// Reads the next line into `line`, without its LF. A line that is too long is passed over, and bytes without an LF at
/// their end are no line. An error is the input's, or want of memory for the line.
pub fn next_line<R: BufRead, A: Allocator>(
    input: &mut R,
    line: &mut Vec<u8, A>,
) -> io::Result<NextLine>
    ensures { IfOk result (λ n. (bytes : List ℕ) → R.remaining input.old ≡ Some bytes
        → IsNextLine bytes (R.remaining input.new) line.new.items n) }
{
    line.clear();
    for _ in 0..u64::MAX {
        match take_piece(input, line)? {
            Piece::More => {}
            Piece::Ended { .. } if line.len() > MAX_SITE_LINE => return Ok(NextLine::TooLong),
            Piece::Ended { is_followed } => return Ok(NextLine::Line { is_followed }),
            Piece::AtEnd => return Ok(NextLine::AtEnd),
        }
    }
    Err(io::Error::from(ErrorKind::Interrupted))
}
