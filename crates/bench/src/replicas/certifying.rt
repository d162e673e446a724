//! Verdicts in a full window, and, for comparison, as much memory read once.

ghost use Rattle.std.specs.Prelude.{◌≡◌, IfSome};

use crate::replicas::delivering::{key_of, put_of};
use certify::{CallToCertify, Certifier};
use log_entry::ExecutedCall;
use log_model::Verdict;
use row_sets::ReadSet;
use schema::Look;
use std::alloc::Global;

/// The number of calls that are kept.
const WINDOW: u32 = 4_096;

/// Returns what is certified of a call.
pub(crate) fn to_certify(call: &ExecutedCall) -> CallToCertify<'_>
    ensures { result.snapshot ≡ call.now.call.snapshot }
{
    CallToCertify {
        request: call.request,
        snapshot: call.snapshot,
        reads: &call.reads,
        writes: &call.writes,
    }
}

/// A certifier that has kept as many commits as its window holds, with puts at the keys in turn.
fn full_certifier(alloc: Global, keys: u64) -> Option<Certifier>
    ensures { IfSome result (λ c. c.memory.count ≡ 4096) }
{
    let mut certifier = Certifier::new(alloc, WINDOW).ok()?;
    for before in 0..WINDOW {
        let entry = put_of(alloc, key_of(u64::from(before), keys), before)?;
        let prepared = certifier.prepare(&to_certify(&entry)).ok()?;
        certifier.keep(before + 1, Verdict::Commit, prepared);
    }
    Some(certifier)
}

/// The keys at which a call looked.
#[derive(Clone, Copy)]
pub(crate) enum Looks {
    /// The key above all that were put.
    Above,
    /// The keys 2 to 33. Their bits are in each word of a signature, and none of them is that of key 1 (computed by a
    /// Python program).
    Spread,
}

/// Looks at the keys from 2 to 33, 16 at a time, since a longer look sets all bits.
fn add_spread(reads: &mut ReadSet) -> Option<()> {
    for lo in [2u64, 18] {
        let hi = lo.saturating_add(15);
        reads.add_range(Look { table: 1, lo, hi }).ok()?;
    }
    Some(())
}

/// The looks of a call, where keys 1 to `keys` were put.
fn reads_of(alloc: Global, keys: u64, looks: Looks) -> Option<ReadSet> {
    let mut reads = ReadSet::new(alloc);
    match looks {
        Looks::Above => reads.add_point(1, keys.saturating_add(1)).ok()?,
        Looks::Spread => add_spread(&mut reads)?,
    }
    Some(reads)
}

/// A call with these looks on the oldest rows that a full window keeps.
fn call_with(alloc: Global, reads: ReadSet) -> Option<ExecutedCall>
    ensures { IfSome result (λ e. e.call.snapshot ≡ 0) }
{
    let mut entry = put_of(alloc, 1, 0)?;
    entry.reads = reads;
    Some(entry)
}

/// Asks for `times` verdicts, and returns the number of exact comparisons that they make together.
pub(crate) fn verdicts(alloc: Global, looks: Looks, keys: u64, times: u64) -> Option<u64> {
    let mut certifier = full_certifier(alloc, keys)?;
    let entry = call_with(alloc, reads_of(alloc, keys, looks)?)?;
    let mut compared = 0u64;
    for _ in 0..times {
        let _ = certifier.verdict(&to_certify(&entry), WINDOW + 1);
        compared = compared.saturating_add(certifier.compared());
    }
    Some(compared)
}

/// Reads 512 KiB `times` times. Returns a sum of all words, with other bits flipped each time.
pub(crate) fn sum_words(alloc: Global, times: u64) -> Option<u64> {
    let mut words = Vec::new(alloc);
    for word in 0..65_536u64 {
        words.push(word).ok()?;
    }
    let mut sum = 0u64;
    for time in 0..times {
        for word in &words {
            sum = sum.wrapping_add(*word ^ time);
        }
    }
    Some(sum)
}
