//! Eight words of 64 bits in a vector.

ghost use Rattle.std.specs.Prelude.{◌≡◌, ◌<◌, ◌↔◌, ℕ, bit_and, bit_or, slice_index_or};
ghost use Rattle.std.specs.Int.{bit_at};

use std::simd::prelude::*;

/// Tells which lanes aren't 0: bit j is set where lane j has some bit.
#[inline(always)]
pub(crate) fn lanes_with_bits(lanes: u64x8) -> u8
    ensures { (j : ℕ) → j < 8
        → ((bit_at result j ≡ 1) ↔ ((k : ℕ) × (k < 64) × (bit_at (slice_index_or lanes j 0) k ≡ 1))) }
{
    lanes.simd_ne(u64x8::splat(0)).to_bitmask() as u8
}

/// The bits so far, with those that each lane shares with a word.
#[inline(always)]
pub(crate) fn or_shared(so_far: u64x8, lanes: u64x8, word: u64) -> u64x8
    ensures { (j : ℕ) → j < 8
        → slice_index_or result j 0 ≡ bit_or (slice_index_or so_far j 0) (bit_and (slice_index_or lanes j 0) word) }
{
    so_far | (lanes & u64x8::splat(word))
}
