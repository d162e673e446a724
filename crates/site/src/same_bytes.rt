//! The comparison of an entry's bytes with given bytes.

ghost use Rattle.std.specs.Prelude.{◌≡◌, ◌≢◌, ◌++◌, ℕ, List, None, IfSome};
ghost use Rattle.std.specs.Str.{bytes_eq};
ghost use Rattle.log_entry.specs.Bytes.{entry_bytes};
ghost use Rattle.log_entry.specs.Kind.{entry_of};

use byte_output::sink::ByteSink;
use log_entry::{Entry, append_entry};
use std::alloc::Allocator;

/// The expected bytes that are left, and none where other bytes came.
#[derive(Drop)]
struct Expected<'a> {
    left: Option<&'a [u8]>,
}

impl<'a> ByteSink for Expected<'a> {
    ghost use Rattle.site.specs.SameBytes.{HasSeen, seen_nothing, seen_twice};

    ghost appends = { HasSeen };

    ghost nothing = { seen_nothing };

    ghost together = { seen_twice };

    fn append(&mut self, bytes: &[u8]) {
        self.left = match self.left {
            Some(left) => left_behind(left, bytes),
            None => None,
        };
    }
}

/// Returns what is left of some bytes behind a piece, where they begin with the piece.
fn left_behind<'a>(bytes: &'a [u8], piece: &[u8]) -> Option<&'a [u8]>
    ensures some { IfSome result (λ rest. bytes.now ≡ piece.now ++ rest.now) }
    ensures none { result ≡ None → (rest : List ℕ) → bytes.now ≢ piece.now ++ rest }
{
    bytes.strip_prefix(piece)
}

/// Tells whether an entry has these bytes. Takes no memory.
pub fn has_bytes<A: Allocator + Copy>(entry: &Entry<A>, bytes: &[u8]) -> bool
    ensures { result ≡ bytes_eq bytes.now (entry_bytes (entry_of entry.now)) }
{
    let mut expected = Expected { left: Some(bytes) };
    append_entry(&mut expected, entry);
    match expected.left {
        Some(left) => left.is_empty(),
        None => false,
    }
}
