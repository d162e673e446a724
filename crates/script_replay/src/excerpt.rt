//! Excerpts of an entry's bytes, so that these are printed without memory.

ghost use Rattle.std.specs.Prelude.{◌≡◌, take, drop};
ghost use Rattle.log_entry.specs.Kind.{entry_of};
ghost use Rattle.log_entry.specs.Bytes.{entry_bytes};
ghost use Rattle.script_replay.specs.declared.excerpt.TheConstants.{EXCERPT_BYTES};

use arrayvec::ArrayVec;
use byte_output::sink::ByteSink;
use log_entry::{Entry, append_entry};
use std::alloc::Allocator;

/// The most bytes of an excerpt.
pub(crate) const EXCERPT_BYTES: usize = 4096;

/// The bytes of a text from a place on, as many as there is room for.
#[derive(Drop)]
struct Excerpt {
    /// The number of bytes that still stand before the place.
    skip: usize,
    bytes: ArrayVec<u8, EXCERPT_BYTES>,
}

impl ByteSink for Excerpt {
    ghost use Rattle.script_replay.specs.Excerpt.{HasSeen, nothing_seen, seen_together};

    ghost appends = { HasSeen };

    ghost nothing = { nothing_seen };

    ghost together = { seen_together };

    fn append(&mut self, bytes: &[u8]) {
        let skipped = self.skip.min(bytes.len());
        self.skip -= skipped;
        let (_, rest) = bytes.split_at(skipped);
        let (front, _) = rest.split_at(rest.len().min(self.bytes.remaining_capacity()));
        let _ = self.bytes.try_extend_from_slice(front);
    }
}

/// The bytes of an entry from a place on: all of them, or as many as an excerpt has.
pub(crate) fn excerpt_of<A: Allocator + Copy>(
    entry: &Entry<A>,
    from: usize,
) -> ArrayVec<u8, EXCERPT_BYTES>
    ensures { result.items ≡ take EXCERPT_BYTES (drop from (entry_bytes (entry_of entry.now))) }
{
    let mut excerpt = Excerpt {
        skip: from,
        bytes: ArrayVec::new(),
    };
    append_entry(&mut excerpt, entry);
    excerpt.bytes
}
