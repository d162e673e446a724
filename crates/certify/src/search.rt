//! The search for the first conflict.

ghost use Rattle.std.specs.Prelude.{◌≡◌, ◌==◌, ◌↔◌, Bool, List, IsTrue, ◌-◌, ◌+◌, ◌/◌, ◌*◌, ◌%◌, ◌<◌, ◌≤◌, ◌^◌, ℕ};
ghost use Rattle.std.specs.Prelude.{length, None};
ghost use Rattle.std.specs.Int.{bit_at};
ghost use Rattle.sig_lanes.specs.Signature.{looks_set_bit};
ghost use Rattle.sig_lanes.specs.Bits.{has_bit};
ghost use Rattle.log_model.specs.Log.{Call, DoneRequest, CertifiedItem, first_repeated, verdict_after};
ghost use Rattle.certify.specs.Comparisons.{comparisons_after};
ghost use Rattle.certify.specs.Kept.{HasPlaces, IsMemoryOfLatest, latest_of};
ghost use Rattle.certify.specs.Search.{search, lane_met, kept_shares, Meets};

use log_model::Verdict;
use row_sets::{ReadSet, WriteSet, shares_key};
use sig_lanes::{Block, Sig, sets_that_share_a_key_share_a_bit, shared_bits_are_of_both};
use std::alloc::Allocator;

/// The number of exact comparisons that were made, and the position of the conflict that was found.
#[derive(Clone, Copy)]
pub struct SearchResult {
    pub compared: u64,
    pub conflict: Option<u32>,
}

/// Tells whether a lane is one of those that met.
fn has_met(met: u8, lane: usize) -> bool
    requires { lane < 8 }
    ensures { result ≡ (bit_at met lane == 1) }
{
    met >> lane & 1 == 1
}

/// Searches calls that stand in one block, of which these lanes met. The first call has `from` others before it; the
/// call that has `to` isn't searched.
pub fn search_lanes<A: Allocator + Copy, B: Allocator>(
    met: u8,
    kept: &[WriteSet<A>],
    reads: &ReadSet<B>,
    from: usize,
    to: usize,
) -> SearchResult
    requires places { 0 < length kept.now }
    requires order { from ≤ to }
    requires few { to < 2 ^ 32 }
    ensures { result ≡ search (lane_met met) (kept_shares kept.now reads.now) from (to - from) }
{
    let mut compared = 0;
    if met == 0 {
        return SearchResult {
            compared,
            conflict: None,
        };
    }
    for before in from..to {
        if has_met(met, before % 8) {
            compared += 1;
            if shares_key(reads, &kept[before % kept.len()]) {
                return SearchResult {
                    compared,
                    conflict: Some(before as u32 + 1),
                };
            }
        }
    }
    SearchResult {
        compared,
        conflict: None,
    }
}

/// Calls in a row that stand in one block: the block's place, and the numbers of calls before the first of them and
/// before the next behind them.
#[derive(Clone, Copy)]
struct Stretch {
    at: usize,
    from: usize,
    to: usize,
}

/// Searches the calls of a stretch that the signature meets.
#[inline(always)]
fn search_block<A: Allocator + Copy, B: Allocator>(
    blocks: &[Block],
    kept: &[WriteSet<A>],
    reads: &ReadSet<B>,
    signature: &Sig,
    stretch: Stretch,
) -> SearchResult
    requires places { HasPlaces (record { blocks = blocks.now; writes = kept.now }) }
    requires within { stretch.at < length blocks.now }
    requires at { stretch.at ≡ stretch.from / 8 % length blocks.now }
    requires signature { (bit : ℕ) → bit < 1024 → has_bit signature.now bit ≡ looks_set_bit reads.now bit }
    requires order { stretch.from ≤ stretch.to }
    requires one { stretch.to ≤ (stretch.from / 8) * 8 + 8 }
    requires few { stretch.to < 2 ^ 32 }
    ensures found { (meets : ℕ → Bool)
        → ((before : ℕ) → stretch.from ≤ before → before < stretch.to
        → IsTrue (meets before) ↔ Meets (record { blocks = blocks.now; writes = kept.now }) reads.now before)
        → result ≡ search meets (kept_shares kept.now reads.now) stretch.from (stretch.to - stretch.from) }
    ensures few { result.compared ≤ stretch.to - stretch.from }
{
    let block = &blocks[stretch.at];
    search_lanes(
        block.meets(signature),
        kept,
        reads,
        stretch.from,
        stretch.to,
    )
}

/// The place behind a place, of `count` places. The first place is behind the last.
#[inline(always)]
fn next_place(at: usize, count: usize) -> usize
    requires { at < count }
    ensures next { result ≡ (at + 1) % count }
    ensures within { result < count }
{
    if at + 1 == count {
        return 0;
    }
    at + 1
}

/// Searches the calls since a snapshot among `count` calls.
pub fn search_since<A: Allocator + Copy, B: Allocator>(
    blocks: &[Block],
    kept: &[WriteSet<A>],
    reads: &ReadSet<B>,
    snapshot: usize,
    count: usize,
) -> SearchResult
    requires places { HasPlaces (record { blocks = blocks.now; writes = kept.now }) }
    requires order { snapshot ≤ count }
    requires few { count < 2 ^ 32 }
    ensures { (meets : ℕ → Bool)
        → ((before : ℕ) → snapshot ≤ before → before < count
        → IsTrue (meets before) ↔ Meets (record { blocks = blocks.now; writes = kept.now }) reads.now before)
        → result ≡ search meets (kept_shares kept.now reads.now) snapshot (count - snapshot) }
{
    let signature = Sig::of_reads(reads);
    let mut compared = 0;
    let mut from = snapshot;
    let mut at = snapshot / 8 % blocks.len();
    while from < count {
        let to = count.min(from / 8 * 8 + 8);
        let found = search_block(blocks, kept, reads, &signature, Stretch { at, from, to });
        compared += found.compared;
        if found.conflict.is_some() {
            return SearchResult { compared, ..found };
        }
        from = to;
        at = next_place(at, blocks.len());
    }
    SearchResult {
        compared,
        conflict: None,
    }
}

/// Finds the verdict on a call of this snapshot and these looks, and the number of exact comparisons that the verdict
/// takes. The call has `count` others before it and repeats none of them.
pub fn find_verdict<A: Allocator + Copy, B: Allocator>(
    window: u32,
    count: u32,
    blocks: &[Block],
    kept: &[WriteSet<A>],
    snapshot: u32,
    reads: &ReadSet<B>,
) -> (Verdict, u64)
    requires places { HasPlaces (record { blocks = blocks.now; writes = kept.now }) }
    requires enough { window ≤ length kept.now }
    requires snapshot { snapshot ≤ count }
    ensures verdict { (done : List DoneRequest) (past : List CertifiedItem) (call : Call) → call.snapshot ≡ snapshot
        → first_repeated done past call ≡ None
        → IsMemoryOfLatest (latest_of window count blocks.now kept.now) past
        → result.0 ≡ verdict_after window done past call reads.now }
    ensures compared { (done : List DoneRequest) (past : List CertifiedItem) (call : Call) → call.snapshot ≡ snapshot
        → first_repeated done past call ≡ None
        → IsMemoryOfLatest (latest_of window count blocks.now kept.now) past
        → result.1 ≡ length (comparisons_after window done past call reads.now) }
{
    // Laws:
    shared_bits_are_of_both();
    sets_that_share_a_key_share_a_bit();
    if count - snapshot > window {
        return (Verdict::Stale, 0);
    }
    let found = search_since(blocks, kept, reads, snapshot as usize, count as usize);
    let verdict = match found.conflict {
        Some(position) => Verdict::Conflict(position),
        None => Verdict::Commit,
    };
    (verdict, found.compared)
}
