//! The bits that looks and writes set.

ghost use Rattle.std.specs.Prelude.{◌≡◌, ◌<◌, ◌||◌, ◌++◌, ◌==◌, ◌↔◌, ℕ, List, [], IsTrue, false, length};
ghost use Rattle.std.specs.Prelude.{slice_index_or, IfSome, IfNone};
ghost use Rattle.sig_lanes.specs.Signature.{bit_of, look_sets_bit, looks_set_bit, writes_set_bit};
ghost use Rattle.sig_lanes.specs.Bits.{has_bit, Meet};

use crate::lanes::lanes_with_bits;
use row_sets::{ReadSet, WriteSet};
use schema::Look;
use std::alloc::Allocator;
use std::marker::Model;
use std::simd::prelude::*;

/// A set of bits below 1,024. Contracts see its 16 words: bit b is bit b mod 64 of word b / 64.
#[derive(Drop)]
pub struct Sig {
    words: [u64; 16],
}

impl Model for Sig {
    ghost use Rattle.std.specs.Prelude.{ℕ, List};

    ghost Value = { List ℕ };

    ghost view = { λ s. s.words };
}

/// The bit of a key.
fn bit_of(table: u8, key: u64) -> usize
    ensures value { result ≡ bit_of (table, key) }
    ensures few { result < 1024 }
{
    let of_key = key.wrapping_mul(0x9E3779B97F4A7C15);
    let of_table = u64::from(table).wrapping_mul(0xC2B2AE3D27D4EB4F);
    (of_key.wrapping_add(of_table) >> 54) as usize
}

/// Tells whether two sets of bits, each in two halves, have a bit in common.
#[inline(always)]
fn halves_meet(low: u64x8, high: u64x8, other_low: u64x8, other_high: u64x8) -> bool
    ensures { IsTrue result ↔ Meet (low ++ high) (other_low ++ other_high) }
{
    lanes_with_bits((low & other_low) | (high & other_high)) != 0
}

/// The words in two vectors, the first eight in the first.
#[inline(always)]
fn halves(words: &[u64; 16]) -> (u64x8, u64x8)
    ensures { result.0 ++ result.1 ≡ words.now }
{
    let low = u64x8::from_slice(&words[..8]);
    let high = u64x8::from_slice(&words[8..]);
    (low, high)
}

/// Tells whether two sets of bits have a bit in common.
#[inline(always)]
pub(crate) fn words_meet(words: &[u64; 16], others: &[u64; 16]) -> bool
    ensures { IsTrue result ↔ Meet words.now others.now }
{
    let (low, high) = halves(words);
    let (other_low, other_high) = halves(others);
    halves_meet(low, high, other_low, other_high)
}

impl Sig {
    /// No bits.
    pub fn empty() -> Sig
        ensures { (bit : ℕ) → has_bit result bit ≡ false }
    {
        Sig { words: [0; 16] }
    }

    /// Returns the set of all 1,024 bits.
    fn full() -> Sig
        ensures { (bit : ℕ) → bit < 1024 → IsTrue (has_bit result bit) }
    {
        Sig {
            words: [u64::MAX; 16],
        }
    }

    /// Adds one bit.
    fn add_bit(&mut self, bit: usize)
        requires { bit < 1024 }
        ensures { (b : ℕ) → has_bit self.new b ≡ (has_bit self.old b || (bit == b)) }
    {
        self.words[bit / 64] |= 1 << (bit % 64);
    }

    /// Adds the bits of a look.
    fn add_look(&mut self, look: Look)
        ensures { (b : ℕ) → b < 1024 → has_bit self.new b ≡ (has_bit self.old b || look_sets_bit b look) }
    {
        if look.lo > look.hi {
            return;
        }
        if look.hi - look.lo > 15 {
            *self = Sig::full();
            return;
        }
        let count = look.hi - look.lo + 1;
        for step in 0..count {
            self.add_bit(bit_of(look.table, look.lo + step));
        }
    }

    /// The bits of a call's looks: a look of at most 16 keys sets the bit of each key, a longer look sets all bits.
    pub fn of_reads<A: Allocator>(reads: &ReadSet<A>) -> Sig
        ensures { (bit : ℕ) → bit < 1024 → has_bit result bit ≡ looks_set_bit reads.now bit }
    {
        let looks = reads.looks();
        let mut sig = Sig::empty();
        for index in 0..looks.len() {
            sig.add_look(looks[index]);
        }
        sig
    }

    /// The bits of the written keys, put or removed.
    pub fn of_writes<A: Allocator + Copy>(writes: &WriteSet<A>) -> Sig
        ensures { (bit : ℕ) → bit < 1024 → has_bit result bit ≡ writes_set_bit writes.now bit }
    {
        let mut sig = Sig::empty();
        for (key, _) in writes.iter() {
            sig.add_bit(bit_of(key.0, key.1));
        }
        sig
    }

    /// The 16 words.
    #[inline(always)]
    pub fn words(&self) -> [u64; 16]
        ensures words { result ≡ self.now }
        ensures sixteen { length result ≡ 16 }
    {
        self.words
    }

    /// Tells whether some bit is in both.
    pub fn meets(&self, other: &Sig) -> bool
        ensures { IsTrue result ↔ Meet self.now other.now }
    {
        words_meet(&self.words, &other.words)
    }
}

/// The least index of a signature that meets this one.
pub fn first_meet(sig: &Sig, all: &[Sig]) -> Option<usize>
    ensures found { IfSome result (λ index. (index < length all.now) × Meet sig.now (slice_index_or all.now index [])) }
    ensures least { IfSome result (λ index. (other : ℕ) → other < index
        → Meet sig.now (slice_index_or all.now other []) → ⊥) }
    ensures none { IfNone result ((other : ℕ) → other < length all.now → Meet sig.now (slice_index_or all.now other [])
        → ⊥) }
{
    for index in 0..all.len() {
        if sig.meets(&all[index]) {
            return Some(index);
        }
    }
    None
}
