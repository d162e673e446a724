//! The reading of lines, no more of a line than it may have.

ghost use Rattle.std.specs.Prelude.{◌≡◌, ◌≢◌, ◌≤◌, ◌<◌, ℕ, List, [], All, length, take, slice_index, IfOk, true, false};
ghost use Rattle.std.specs.Prelude.{vec_len, Some};
ghost use Rattle.script.specs.Text.{max_line};
ghost use Rattle.script.specs.Reading.{HasNoLf, IsPiece, IsNext};

use std::alloc::Allocator;
use std::io;
use std::io::{BufRead, ErrorKind};

/// The most bytes that a line has.
pub const MAX_LINE: usize = 70_000;

/// The outcome of one look at the input.
#[derive(Clone, Copy)]
pub enum Piece {
    /// A part of the line's bytes.
    More,
    /// The rest of the line, up to an LF.
    Ended,
    /// The end of the input.
    AtEnd,
    /// More bytes than a line may have. The input shows them still.
    TooLong,
}

/// The next item of an input.
#[derive(Clone, Copy)]
pub enum Next {
    /// A line.
    Line,
    /// The end of the input.
    AtEnd,
    /// A line that is too long.
    TooLong,
}

/// Returns the number of bytes before the first LF, and whether there is an LF.
pub fn before_lf(shown: &[u8]) -> (usize, bool)
    ensures bound { result.0 ≤ length shown.now }
    ensures front { HasNoLf (take result.0 shown.now) }
    ensures lf { result.1 ≡ true → (result.0 < length shown.now) }
    ensures is { result.1 ≡ true → (slice_index shown.now result.0 ≡ 10) }
    ensures all { result.1 ≡ false → (result.0 ≡ length shown.now) }
{
    match memchr::memchr(b'\n', shown) {
        Some(at) => (at, true),
        None => (shown.len(), false),
    }
}

/// Takes what the input shows of a line.
fn take_piece<R: BufRead, A: Allocator>(input: &mut R, line: &mut Vec<u8, A>) -> io::Result<Piece>
    requires { vec_len line.old ≤ max_line }
    ensures piece { IfOk result (λ p. (bytes : List ℕ) → R.remaining input.old ≡ Some bytes
        → IsPiece bytes (R.remaining input.new) line.old.items line.new.items p) }
    ensures len { vec_len line.new ≤ max_line }
{
    let shown = match input.fill_buf() {
        Ok(shown) => shown,
        Err(error) => {
            return if matches!(error.kind(), ErrorKind::Interrupted) {
                Ok(Piece::More)
            } else {
                Err(error)
            };
        }
    };
    if shown.is_empty() {
        return Ok(Piece::AtEnd);
    }
    let (count, is_ended) = before_lf(shown);
    if count > MAX_LINE - line.len() {
        return Ok(Piece::TooLong);
    }
    line.extend_from_slice(&shown[..count])?;
    if is_ended {
        input.consume(count + 1);
        Ok(Piece::Ended)
    } else {
        input.consume(count);
        Ok(Piece::More)
    }
}

/// Reads the next line into `line`, without its LF. No more than a line may have is taken of a line that is too long.
/// An error is the input's, or want of memory. After an error it isn't known how much of a line was taken.
pub fn next_line<R: BufRead, A: Allocator>(input: &mut R, line: &mut Vec<u8, A>) -> io::Result<Next>
    ensures { IfOk result (λ n. (bytes : List ℕ) → R.remaining input.old ≡ Some bytes
        → IsNext bytes (R.remaining input.new) line.new.items n) }
{
    line.clear();
    for _ in 0..u64::MAX {
        match take_piece(input, line)? {
            Piece::More => {}
            Piece::Ended => return Ok(Next::Line),
            Piece::AtEnd => {
                return Ok(if line.is_empty() {
                    Next::AtEnd
                } else {
                    Next::Line
                });
            }
            Piece::TooLong => return Ok(Next::TooLong),
        }
    }
    Err(io::Error::from(ErrorKind::Interrupted))
}
