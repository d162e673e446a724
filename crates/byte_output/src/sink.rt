//! Sinks, to which bytes are appended a piece at a time.

ghost use Rattle.std.specs.Prelude.{◌≡◌, ◌++◌, ℕ, [], List, Some, IfOk};
ghost use Rattle.byte_output.specs.Sink.{bytes_of};

use std::alloc::{AllocError, Allocator};

/// A sink, to which bytes are appended a piece at a time. A sink that can't take a piece says so at its end, and takes
/// no later piece. Whoever appends needs no error.
pub trait ByteSink {
    /// The second sink is the first with these bytes appended.
    ghost appends: { Self → Self → List ℕ → Type 0 };

    fn append(&mut self, bytes: &[u8])
        ensures { appends self.old self.new bytes.now };

    /// An append of no bytes changes nothing.
    ghost nothing: { (a : Self) → appends a a [] };

    /// An append of a piece, and of another behind it, is an append of both together.
    ghost together: { (a b c : Self) (front back : List ℕ) → appends a b front → appends b c back
        → appends a c (front ++ back) };
}

/// Bytes in memory, or want of memory for one of the pieces.
#[derive(Drop)]
pub struct GrowingBytes<A: Allocator> {
    bytes: Vec<u8, A>,
    is_whole: bool,
}

impl<A: Allocator> GrowingBytes<A> {
    /// A sink that holds these bytes, to which others are appended.
    pub fn new(bytes: Vec<u8, A>) -> GrowingBytes<A>
        ensures { bytes_of result ≡ Some bytes.items }
    {
        GrowingBytes {
            bytes,
            is_whole: true,
        }
    }

    /// Returns all bytes of the sink; an error where memory was wanting for a piece.
    pub fn into_bytes(self) -> Result<Vec<u8, A>, AllocError>
        ensures { IfOk result (λ bytes. bytes_of self ≡ Some bytes.items) }
    {
        if self.is_whole {
            Ok(self.bytes)
        } else {
            Err(AllocError)
        }
    }
}

impl<A: Allocator> ByteSink for GrowingBytes<A> {
    ghost use Rattle.byte_output.specs.Sink.{HasGrown};
    ghost use Rattle.byte_output.specs.Sink.{grown_by_nothing, grown_twice};

    ghost appends = { HasGrown };

    ghost nothing = { grown_by_nothing };

    ghost together = { grown_twice };

    fn append(&mut self, bytes: &[u8]) {
        if self.is_whole && self.bytes.extend_from_slice(bytes).is_err() {
            self.is_whole = false;
        }
    }
}
