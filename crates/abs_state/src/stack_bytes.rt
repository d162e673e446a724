//! Sets of the stack's bytes.
ghost use Rattle.std.specs.Prelude.{◌≡◌, ◌++◌, replicate, true, false, ◌+◌, ◌≤◌, ◌<◌, ◌^◌, ◌/◌, ◌%◌, take, drop};
ghost use Rattle.std.specs.Prelude.{bit_and, length, slice_index_or, slice_set};
ghost use Rattle.std.specs.List.{list_all};
ghost use Rattle.abs_state.specs.State.{in_both, zip_with};

use std::marker::Model;

/// A set of the stack's 512 bytes, a bit each: byte b is bit b mod 64 of word b / 64. Contracts see for each byte, the
/// lowest first, whether the byte is in the set.
#[derive(Clone, Copy)]
pub struct StackBytes {
    words: [u64; 8],
}

impl Model for StackBytes {
    ghost use Rattle.std.specs.Prelude.{◌≡◌, ◌<◌, ◌^◌, ℕ, Bool, List, length, slice_index_or};
    ghost use Rattle.abs_state.specs.Bits.{bits_of};
    ghost use Rattle.abs_state.specs.Words.{words_back, words_of};

    ghost Value = { List Bool };

    ghost view = { λ s. bits_of s.words };

    ghost invariant = { λ s. (length s.words ≡ 8) × ((k : ℕ) → slice_index_or s.words k 0 < 2 ^ 64) };

    ghost inverse = { λ bits. record { words = words_of bits } };

    ghost inverse_ok = { λ s h i. record { words = words_back s.words h.0 h.1 i } };
}

impl StackBytes {
    /// Returns a set of no bytes.
    pub(crate) fn none() -> StackBytes
        ensures { result ≡ replicate 512 false }
    {
        StackBytes { words: [0; 8] }
    }

    /// Keeps the bytes that are in another set too.
    pub(crate) fn intersect(&mut self, other: &StackBytes)
        ensures { self.new ≡ zip_with in_both self.old other.now }
    {
        intersect(&mut self.words, &other.words);
    }

    /// Adds one byte.
    fn add_one(&mut self, byte: usize)
        requires { byte < 512 }
        ensures added { self.new ≡ slice_set self.old byte true }
        ensures long { length self.old ≡ 512 }
    {
        self.words[byte / 64] |= 1 << (byte % 64);
    }

    /// Tells whether a byte is in the set.
    fn has_one(&self, byte: usize) -> bool
        requires { byte < 512 }
        ensures value { result ≡ slice_index_or self.now byte false }
        ensures long { length self.now ≡ 512 }
    {
        (self.words[byte / 64] >> (byte % 64)) & 1 == 1
    }

    /// Adds `count` bytes, from an index on.
    pub(crate) fn add(&mut self, from: usize, count: usize)
        requires { from + count ≤ 512 }
        ensures { self.new ≡ take from self.old ++ replicate count true ++ drop (from + count) self.old }
    {
        for done in 0..count {
            self.add_one(from + done);
        }
    }

    /// Tells whether `count` bytes from an index on are all in the set.
    pub(crate) fn has(&self, from: usize, count: usize) -> bool
        requires { from + count ≤ 512 }
        ensures { result ≡ list_all (λ byte. byte) (take count (drop from self.now)) }
    {
        for done in 0..count {
            if !self.has_one(from + done) {
                return false;
            }
        }
        true
    }
}

/// Keeps the bits that are set in both.
fn intersect(words: &mut [u64], others: &[u64])
    requires { length words.old ≡ length others.now }
    ensures { words.new ≡ zip_with bit_and words.old others.now }
{
    for index in 0..words.len() {
        words[index] &= others[index];
    }
}
