//! Eight signatures, against which another is compared at once.

ghost use Rattle.std.specs.Prelude.{◌≡◌, ◌≢◌, ◌<◌, ◌↔◌, ℕ, List, bit_and, bit_or, false, slice_index_or};
ghost use Rattle.std.specs.Int.{bit_at};
ghost use Rattle.sig_lanes.specs.Bits.{has_bit, IsSubset, Meet, signature_at, SharePlace};

use crate::Sig;
use crate::lanes::{lanes_with_bits, or_shared};
use crate::sig::words_meet;
use std::marker::Model;
use std::simd::prelude::*;

/// Eight signatures, turned round: lane j of vector i is word i of signature j. Contracts see the 16 vectors, each as
/// its eight words, and tell the signatures by `signature_at`.
#[derive(Drop)]
pub struct Block {
    words: [[u64; 8]; 16],
    /// The bits of all eight, and of some that stood there before: a signature that meets none of these bits meets none
    /// of the eight.
    superset: [u64; 16],
}

impl Model for Block {
    ghost use Rattle.std.specs.Prelude.{ℕ, List, ◌<◌};
    ghost use Rattle.sig_lanes.specs.Bits.{IsSubset, signature_at};

    ghost Value = { List (List ℕ) };

    ghost view = { λ b. b.words };

    ghost invariant = { λ b. (j : ℕ) → j < 8 → IsSubset (signature_at b.words j) b.superset };
}

/// Replaces the word of one signature.
fn put_word(lanes: &mut [u64; 8], lane: usize, word: u64)
    requires { lane < 8 }
    ensures here { slice_index_or lanes.new lane 0 ≡ word }
    ensures others { (other : ℕ) → other ≢ lane → slice_index_or lanes.new other 0 ≡ slice_index_or lanes.old other 0 }
{
    lanes[lane] = word;
}

/// Replaces one of eight signatures.
fn put_signature(block: &mut [[u64; 8]; 16], lane: usize, signature: &Sig)
    requires { lane < 8 }
    ensures set { signature_at block.new lane ≡ signature.now }
    ensures others { (other : ℕ) → other ≢ lane → signature_at block.new other ≡ signature_at block.old other }
{
    let source = signature.words();
    for index in 0..16 {
        put_word(&mut block[index], lane, source[index]);
    }
}

/// Adds the bits of other words to those of 16.
fn add_words(words: &mut [u64; 16], more: &[u64; 16])
    ensures { (i : ℕ) → i < 16 → slice_index_or words.new i 0
        ≡ bit_or (slice_index_or words.old i 0) (slice_index_or more.now i 0) }
{
    for index in 0..16 {
        words[index] |= more[index];
    }
}

/// The bits of eight words.
fn bits_of_lanes(lanes: &[u64; 8]) -> u64
    ensures { (j k : ℕ) → j < 8 → bit_at (slice_index_or lanes.now j 0) k ≡ 1 → bit_at result k ≡ 1 }
{
    let mut bits = 0;
    for lane in 0..8 {
        bits |= lanes[lane];
    }
    bits
}

/// The bits of eight signatures.
fn bits_of_block(block: &[[u64; 8]; 16]) -> [u64; 16]
    ensures { (j : ℕ) → j < 8 → IsSubset (signature_at block.now j) result }
{
    let mut bits = [0; 16];
    for index in 0..16 {
        bits[index] = bits_of_lanes(&block[index]);
    }
    bits
}

/// The bits so far, with those that each lane shares with a word. Lanes that are held against 0 aren't read: most words
/// of a signature are 0, as calls look at few keys.
#[inline(always)]
fn share_word(so_far: u64x8, lanes: &[u64; 8], word: u64) -> u64x8
    ensures { (j : ℕ) → j < 8
        → slice_index_or result j 0 ≡ bit_or (slice_index_or so_far j 0) (bit_and (slice_index_or lanes.now j 0) word) }
{
    if word == 0 {
        return so_far;
    }
    or_shared(so_far, u64x8::from_array(*lanes), word)
}

/// The bits that each of eight signatures shares with another, whichever word they are in.
#[inline(always)]
fn shared_bits(block: &[[u64; 8]; 16], signature: &Sig) -> u64x8
    ensures { (j k : ℕ) → j < 8
        → ((bit_at (slice_index_or result j 0) k ≡ 1) ↔ SharePlace (signature_at block.now j) signature.now 16 k) }
{
    let source = signature.words();
    let mut shared = u64x8::splat(0);
    for word in 0..16 {
        shared = share_word(shared, &block[word], source[word]);
    }
    shared
}

impl Block {
    /// Eight signatures of no bits.
    pub fn empty() -> Block
        ensures { (j bit : ℕ) → has_bit (signature_at result j) bit ≡ false }
    {
        Block {
            words: [[0; 8]; 16],
            superset: [0; 16],
        }
    }

    /// Puts a signature in a lane.
    pub fn set(&mut self, lane: usize, signature: &Sig)
        requires { lane < 8 }
        ensures set { signature_at self.new lane ≡ signature.now }
        ensures others { (other : ℕ) → other ≢ lane → signature_at self.new other ≡ signature_at self.old other }
    {
        put_signature(&mut self.words, lane, signature);
        // Bits of signatures that went are let go with the last lane: who fills lanes in turn keeps few of them.
        if lane == 7 {
            self.superset = bits_of_block(&self.words);
        } else {
            add_words(&mut self.superset, &signature.words());
        }
    }

    /// Leaves no bits in a lane.
    pub fn clear(&mut self, lane: usize)
        requires { lane < 8 }
        ensures none { (bit : ℕ) → has_bit (signature_at self.new lane) bit ≡ false }
        ensures others { (other : ℕ) → other ≢ lane → signature_at self.new other ≡ signature_at self.old other }
    {
        self.set(lane, &Sig::empty());
    }

    /// Tells which of the eight share a bit with a signature: bit j is set where signature j does.
    #[inline(always)]
    pub fn meets(&self, signature: &Sig) -> u8
        ensures { (j : ℕ) → j < 8 → ((bit_at result j ≡ 1) ↔ Meet (signature_at self.now j) signature.now) }
    {
        if !words_meet(&self.superset, &signature.words()) {
            return 0;
        }
        lanes_with_bits(shared_bits(&self.words, signature))
    }
}
