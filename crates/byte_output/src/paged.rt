//! An output in front of which a page is kept, so that few writes reach it.

ghost use Rattle.std.specs.Prelude.{◌≡◌, ◌≤◌, ◌+◌, [], length, IsOk, OnErr};
ghost use Rattle.byte_output.specs.Writes.{WritesText};

use crate::put;
use arrayvec::ArrayVec;
use std::io;
use std::io::Write;

/// The most bytes that are kept.
pub const PAGE_BYTES: usize = 4096;

/// An output, and a page of bytes that were given for it and haven't left. No memory is allocated.
///
/// The output has all bytes that were given, where each `put` and then `finish` has answered `Ok`. At the first error
/// the output has a beginning of them. The bytes that were kept are given up, so that no byte leaves twice. Bytes that
/// are kept when the value is dropped are lost.
#[derive(Drop)]
pub struct PagedOutput<'a, W: Write> {
    output: &'a mut W,
    pending: ArrayVec<u8, PAGE_BYTES>,
}

impl<'a, W: Write> PagedOutput<'a, W> {
    ghost use Rattle.byte_output.specs.Pending.{output_of, pending_of, Takes};

    /// An empty page in front of an output. The output is as it was.
    pub fn new(output: &'a mut W) -> PagedOutput<'a, W>
        ensures same_output { (output_of result).ghost_name ≡ output.entry.ghost_name }
        ensures untouched { (output_of result).now ≡ output.old }
        ensures empty { pending_of result ≡ [] }
    {
        PagedOutput {
            output,
            pending: ArrayVec::new(),
        }
    }

    /// Takes the bytes. Where there is no room for them, the pending bytes leave first.
    pub fn put(&mut self, bytes: &[u8]) -> io::Result<()>
        ensures same_output { (output_of self.new).ghost_name ≡ (output_of self.old).ghost_name }
        ensures bytes { Takes W.contents self.old self.new result bytes.now }
        ensures given_up { OnErr result (pending_of self.new ≡ []) }

        // Where there is room nothing leaves, so nothing can fail.
        ensures succeeds { length (pending_of self.old) + length bytes.now ≤ PAGE_BYTES → IsOk result }
        ensures kept { length (pending_of self.old) + length bytes.now ≤ PAGE_BYTES
            → (output_of self.new).now ≡ (output_of self.old).now }
    {
        if bytes.len() > self.pending.remaining_capacity() {
            self.put_out()?;
            if bytes.len() > PAGE_BYTES {
                return put(self.output, bytes);
            }
        }
        let _ = self.pending.try_extend_from_slice(bytes);
        Ok(())
    }

    /// Puts out the pending bytes, and flushes the output.
    pub fn finish(self) -> io::Result<()>
        ensures { WritesText (W.contents (output_of self.entry).now) (W.contents self.exit.0.now) result
            (pending_of self.entry) }
    {
        let PagedOutput { output, pending } = self;
        put(output, &pending)?;
        output.flush()
    }

    fn put_out(&mut self) -> io::Result<()>
        ensures same_output { (output_of self.new).ghost_name ≡ (output_of self.old).ghost_name }
        ensures bytes { WritesText (W.contents (output_of self.old).now) (W.contents (output_of self.new).now)
            result (pending_of self.old) }
        ensures empty { pending_of self.new ≡ [] }
    {
        let written = put(self.output, &self.pending);
        self.pending.clear();
        written
    }
}
