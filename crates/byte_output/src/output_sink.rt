//! An output to which bytes are appended.

ghost use Rattle.std.specs.Prelude.{◌≡◌, ℕ, List, Option};
ghost use Rattle.byte_output.specs.Writes.{WritesText};
ghost use Rattle.byte_output.specs.Taken.{HasTaken};

use crate::paged::PagedOutput;
use crate::sink::ByteSink;
use std::io;
use std::io::Write;

/// An output to which bytes are appended, with a page kept in front of the output. No memory is allocated. The first
/// error is told at the end; bytes that are appended after the error are lost.
#[derive(Drop)]
pub struct OutputSink<'b, 'a, W: Write> {
    pub pages: &'b mut PagedOutput<'a, W>,
    /// The first error of the output; none at first.
    pub failed: Option<io::Error>,
}

impl<'b, 'a, W: Write> OutputSink<'b, 'a, W> {
    ghost use Rattle.byte_output.specs.Taken.{pages_of, HasTakenSo};

    /// Takes the first error of the output, where there was an error. The error is told once.
    pub fn take_error(&mut self) -> Option<io::Error>
        ensures taken { (start : Option (List ℕ)) (text : List ℕ) → HasTakenSo W.contents start text self.old
            → HasTaken W.contents start text (pages_of self.new).now result }
        ensures same_pages { (pages_of self.new).ghost_name ≡ (pages_of self.old).ghost_name }
        ensures untouched { (pages_of self.new).now ≡ (pages_of self.old).now }
    {
        self.failed.take()
    }
}

/// Puts out the rest of the appended bytes, unless an append failed, and flushes the output. At `Ok` all of them were
/// written, at an error a beginning of them.
pub fn finish<W: Write>(pages: PagedOutput<'_, W>, failed: Option<io::Error>) -> io::Result<()>
    ensures { (start : Option (List ℕ)) (text : List ℕ) → HasTaken W.contents start text pages.entry failed
        → WritesText start (W.contents pages.exit.0.now) result text }
{
    match failed {
        None => pages.finish(),
        Some(error) => Err(error),
    }
}

impl<'b, 'a, W: Write> ByteSink for OutputSink<'b, 'a, W> {
    ghost use Rattle.byte_output.specs.Taken.{HasTakenMore, nothing_more, taken_together};

    ghost appends = { HasTakenMore W.contents };

    ghost nothing = { nothing_more W.contents };

    ghost together = { taken_together W.contents };

    fn append(&mut self, bytes: &[u8]) {
        if self.failed.is_none() {
            self.failed = self.pages.put(bytes).err();
        }
    }
}
