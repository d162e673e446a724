//! The places in which the latest calls are kept.

ghost use Rattle.std.specs.Prelude.{◌≡◌, ◌≢◌, ◌/◌, ◌%◌, ◌<◌, ◌&&◌, ℕ, [], length, slice_index_or, slice_set, IfOk};
ghost use Rattle.std.specs.Prelude.{List, ◌∷◌, ◌++◌};
ghost use Rattle.sig_lanes.specs.Bits.{has_bit, signature_at};
ghost use Rattle.log_model.specs.Log.{CertifiedItem, is_commit};
ghost use Rattle.certify.specs.Kept.{HasPlaces, IsPreparedOf, Keeps};

use log_model::Verdict;
use row_sets::WriteSet;
use sig_lanes::{Block, Sig};
use std::alloc::{AllocError, Allocator};

/// Returns `count` blocks of eight signatures without bits.
pub fn empty_blocks<A: Allocator>(alloc: A, count: usize) -> Result<Vec<Block, A>, AllocError>
    ensures { IfOk result (λ blocks. length blocks.items ≡ count) }
{
    let mut blocks = Vec::new(alloc);
    for _ in 0..count {
        blocks.push(Block::empty())?;
    }
    Ok(blocks)
}

/// Returns `count` sets of no writes.
pub fn empty_writes<A: Allocator + Copy>(
    alloc: A,
    count: usize,
) -> Result<Vec<WriteSet<A>, A>, AllocError>
    ensures { IfOk result (λ sets. length sets.items ≡ count) }
{
    let mut sets = Vec::new(alloc);
    for _ in 0..count {
        sets.push(WriteSet::new(alloc))?;
    }
    Ok(sets)
}

/// Puts a signature at a place, or leaves none there.
fn put_signature<A: Allocator>(
    blocks: &mut Vec<Block, A>,
    place: usize,
    committed: bool,
    signature: &Sig,
)
    requires { place / 8 < length blocks.old.items }
    ensures count { length blocks.new.items ≡ length blocks.old.items }
    ensures put { (bit : ℕ) → has_bit (signature_at (slice_index_or blocks.new.items (place / 8) []) (place % 8)) bit
        ≡ (committed && has_bit signature.now bit) }
    ensures others { (other : ℕ) → other ≢ place
        → signature_at (slice_index_or blocks.new.items (other / 8) []) (other % 8)
        ≡ signature_at (slice_index_or blocks.old.items (other / 8) []) (other % 8) }
{
    if committed {
        blocks[place / 8].set(place % 8, signature);
    } else {
        blocks[place / 8].clear(place % 8);
    }
}

/// Puts writes at a place.
fn put_writes<A: Allocator + Copy>(all: &mut Vec<WriteSet<A>, A>, place: usize, writes: WriteSet<A>)
    requires { place < length all.old.items }
    ensures { all.new.items ≡ slice_set all.old.items place writes }
{
    all[place] = writes;
}

pub(crate) fn is_commit(verdict: Verdict) -> bool
    ensures { result ≡ is_commit verdict }
{
    matches!(verdict, Verdict::Commit)
}

/// Keeps one more call, which has `before` others before it.
pub fn keep_in<A: Allocator + Copy>(
    blocks: &mut Vec<Block, A>,
    kept: &mut Vec<WriteSet<A>, A>,
    before: usize,
    verdict: Verdict,
    signature: &Sig,
    writes: WriteSet<A>,
)
    requires { HasPlaces (record { blocks = blocks.old.items; writes = kept.old.items }) }
    ensures blocks { length blocks.new.items ≡ length blocks.old.items }
    ensures writes { length kept.new.items ≡ length kept.old.items }
    ensures kept { (past : List CertifiedItem) (c : CertifiedItem) → length past ≡ before → c.verdict ≡ verdict
        → IsPreparedOf (record { request = c.request; signature = signature.now; writes = writes }) c.writes
        → Keeps (record { blocks = blocks.old.items; writes = kept.old.items }) past
        → Keeps (record { blocks = blocks.new.items; writes = kept.new.items }) (past ++ c ∷ []) }
{
    let all: &[WriteSet<A>] = kept;
    let place = before % all.len();
    put_signature(blocks, place, is_commit(verdict), signature);
    put_writes(kept, place, writes);
}
