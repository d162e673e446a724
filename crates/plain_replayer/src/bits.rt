//! Tests whether writes and looks share a key, and whether they share a bit.

ghost use Rattle.std.specs.Prelude.{◌≡◌, map};
ghost use Rattle.std.specs.List.{list_any};
ghost use Rattle.schema.specs.Rows.{any_covers};
ghost use Rattle.sig_lanes.specs.Signature.{bit_of, look_sets_bit, looks_set_bit};

use plain_runner::Write;
use schema::Look;
use std::alloc::Allocator;

/// The bit of a key, below 1,024.
fn bit_of(table: u8, key: u64) -> u64
    ensures { result ≡ bit_of (table, key) }
{
    let table = u64::from(table).wrapping_mul(0xC2B2_AE3D_27D4_EB4F);
    key.wrapping_mul(0x9E37_79B9_7F4A_7C15).wrapping_add(table) >> 54
}

/// Tells whether a look sets a bit. A look of at most 16 keys sets the bits of its keys, a longer look sets each bit.
fn look_sets_bit(look: Look, bit: u64) -> bool
    ensures { result ≡ look_sets_bit bit look }
{
    if look.hi.saturating_sub(look.lo) >= 16 {
        return bit < 1024;
    }
    for key in look.lo..=look.hi {
        if bit_of(look.table, key) == bit {
            return true;
        }
    }
    false
}

/// Tells whether some look sets a bit.
fn looks_set_bit(looks: &[Look], bit: u64) -> bool
    ensures { result ≡ looks_set_bit looks.now bit }
{
    looks.iter().any(|look| look_sets_bit(*look, bit))
}

/// Tells whether some look covers a key.
fn any_covers(looks: &[Look], table: u8, key: u64) -> bool
    ensures { result ≡ any_covers looks.now (table, key) }
{
    looks.iter().any(|look| look.covers(table, key))
}

/// Tells whether the bit of a written key is one that the looks set.
pub(crate) fn shares_bit<A: Allocator>(looks: &[Look], writes: &[Write<A>]) -> bool
    ensures { result
        ≡ list_any (λ k. looks_set_bit looks.now (bit_of k)) (map (λ write. write.0) writes.now) }
{
    writes.iter().any(|write| looks_set_bit(looks, bit_of(write.table(), write.key())))
}

/// Tells whether a written key lies in one of the looks.
pub(crate) fn shares_key<A: Allocator>(looks: &[Look], writes: &[Write<A>]) -> bool
    ensures { result ≡ list_any (any_covers looks.now) (map (λ write. write.0) writes.now) }
{
    writes
        .iter()
        .any(|write| any_covers(looks, write.table(), write.key()))
}
