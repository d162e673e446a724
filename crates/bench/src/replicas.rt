//! Delivers entries to a replica, reads its rows, or asks a certifier for verdicts, for measurements from outside: the
//! time is taken by whoever starts it (bench/replica does), but of the longest delivery, which can be taken only here.

ghost use Rattle.std.specs.Prelude.{◌<◌};

mod adding;
mod certifying;
mod delivering;
mod requesting;
mod timing;

use crate::number_at;
use crate::replicas::adding::{additions, stored, taken};
use crate::replicas::certifying::{Looks, sum_words, verdicts};
use crate::replicas::delivering::{deliveries, reads};
use crate::replicas::requesting::requests;
use crate::replicas::timing::delivery_times;
use anyhow::Context;
use std::alloc::Global;

/// The work that is done again and again.
#[derive(Clone, Copy, Debug, PartialEq, Eq)]
enum Work {
    /// Deliveries of puts at the keys in turn.
    Deliveries,
    /// Reads at a snapshot, spread over the keys.
    Reads,
    /// Verdicts in a full window that meet nothing, on a look at one key.
    Verdicts,
    /// The same verdicts on looks at so many keys that no word of their signature is 0.
    Wide,
    /// Sums of 512 KiB, as much as the signatures of a full window take.
    Memory,
    /// Deliveries of additions, of new names and numbers, over a number of stored procedures.
    Additions,
    /// Deliveries of additions of new names and of numbers that are taken.
    Taken,
    /// Verdicts on calls that repeat one of the kept requests.
    Hits,
    /// Verdicts on calls with new requests where a number of requests are kept.
    Misses,
    /// Additions that are delivered to several replicas, which are kept.
    Stored,
}

impl Work {
    fn from_word(word: &str) -> Option<Work> {
        match word {
            "deliveries" => Some(Work::Deliveries),
            "reads" => Some(Work::Reads),
            "verdicts" => Some(Work::Verdicts),
            "wide" => Some(Work::Wide),
            "memory" => Some(Work::Memory),
            "additions" => Some(Work::Additions),
            "taken" => Some(Work::Taken),
            "hits" => Some(Work::Hits),
            "misses" => Some(Work::Misses),
            "stored" => Some(Work::Stored),
            _ => None,
        }
    }
}

/// The number of requests that are kept: at most one less than there are positions.
fn kept(keys: u64) -> u32
    ensures { result < 4294967295 }
{
    u32::try_from(keys).unwrap_or(0).min(u32::MAX - 1)
}

/// Does the work over `keys` keys, `times` times. Returns the name of what was counted, and the count.
fn count_of(alloc: Global, work: Work, keys: u64, times: u64) -> Option<(&'static str, u64)> {
    Some(match work {
        Work::Deliveries => ("position", u64::from(deliveries(alloc, keys, times)?)),
        Work::Reads => ("found", reads(alloc, keys, times)?),
        Work::Verdicts => ("comparisons", verdicts(alloc, Looks::Above, keys, times)?),
        Work::Wide => ("comparisons", verdicts(alloc, Looks::Spread, 1, times)?),
        Work::Memory => ("sum", sum_words(alloc, times)?),
        Work::Additions => ("stored", additions(alloc, keys, times)?),
        Work::Taken => ("taken", taken(alloc, keys, times)?),
        Work::Hits => ("repeated", requests(alloc, 1, kept(keys), times)?),
        Work::Misses => ("repeated", requests(alloc, 2, kept(keys), times)?),
        Work::Stored => ("stored", stored(alloc, keys, times)?),
    })
}

fn report(rt: &HostRuntime, work: Work, keys: u64, times: u64) -> anyhow::Result<()> {
    let count = count_of(rt.alloc(), work, keys, times);
    let (what, count) = count.context("memory is wanting, or there are too many procedures")?;
    println!(rt; "{what} {count}")?;
    Ok(())
}

/// Tells the nanoseconds of `times` deliveries at `keys` keys.
fn report_longest(rt: &HostRuntime, keys: u64, times: u64) -> anyhow::Result<()> {
    let told = delivery_times(rt, keys, times);
    let told = told.context("memory or the clock is wanting, or nothing was timed")?;
    println!(rt;
        "mean {} rare {} longest {}",
        told.mean, told.rare, told.longest
    )?;
    Ok(())
}

/// Reads the three words: the work, the number of keys, and the number of times.
pub(crate) fn run(rt: &HostRuntime, words: &[String]) -> anyhow::Result<()> {
    let keys = "the second word is how many keys, procedures or requests there are";
    let keys = number_at(words, 2, keys)?;
    let times = number_at(words, 3, "the third word is how many times it is done")?;
    if words.get(1).is_some_and(|word| word.as_str() == "longest") {
        return report_longest(rt, keys, times);
    }
    let work = words.get(1).and_then(|word| Work::from_word(word));
    let work = work.context(
        "the first word is deliveries, reads, verdicts, wide, memory, additions, taken, hits, misses, stored, longest",
    )?;
    report(rt, work, keys, times)
}
