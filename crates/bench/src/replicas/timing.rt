//! Deliveries whose time is taken here, each for itself.

use crate::replicas::delivering::{catalogue_of, deliver, deliver_puts, key_of, put_of};
use log_entry::Entry;
use std::time::Instant;
use test_replicas::CheckedReplica;

/// The nanoseconds that have passed.
fn passed_since(rt: &HostRuntime, began: Instant) -> Option<u64> {
    let passed = began.elapsed(rt).ok()?;
    u64::try_from(passed.as_nanos()).ok()
}

/// The nanoseconds that a delivery of a put takes.
fn time_put(rt: &HostRuntime, checked: &mut CheckedReplica, key: u64) -> Option<u64> {
    let call = put_of(rt.alloc(), key, checked.replica().position())?;
    let entry = Entry::Call(call);
    let began = Instant::now(rt).ok()?;
    let _verdict = deliver(checked, &entry)?;
    passed_since(rt, began)
}

/// The nanoseconds of each of `times` deliveries of puts, at the keys in turn.
fn time_puts(
    rt: &HostRuntime,
    checked: &mut CheckedReplica,
    keys: u64,
    times: u64,
) -> Option<Vec<u64>> {
    let mut all = Vec::new(rt.alloc());
    for number in 0..times {
        all.push(time_put(rt, checked, key_of(number, keys))?).ok()?;
    }
    Some(all)
}

/// Nanoseconds of deliveries: of all on average, of the longest but one in 10,000, and of the longest.
#[derive(Clone, Copy)]
pub(crate) struct DeliveryTimes {
    pub(crate) mean: u64,
    pub(crate) rare: u64,
    pub(crate) longest: u64,
}

/// Returns what is told of these times.
fn told_of(mut all: Vec<u64>) -> Option<DeliveryTimes> {
    all.sort().ok()?;
    let mut sum = 0u64;
    for time in &all {
        sum = sum.saturating_add(*time);
    }
    let below = all.len().saturating_sub(all.len() / 10_000 + 1);
    Some(DeliveryTimes {
        mean: sum.checked_div(all.len() as u64).unwrap_or(0),
        rare: *all.get(below)?,
        longest: *all.last()?,
    })
}

/// Puts a row at each key of a replica, and then `times` again, whose times are taken.
fn fill_and_time(
    rt: &HostRuntime,
    checked: &mut CheckedReplica,
    keys: u64,
    times: u64,
) -> Option<DeliveryTimes> {
    deliver_puts(rt.alloc(), checked, keys, keys)?;
    told_of(time_puts(rt, checked, keys, times)?)
}

/// Puts a row at each key, and then `times` again, whose times are taken.
pub(crate) fn delivery_times(rt: &HostRuntime, keys: u64, times: u64) -> Option<DeliveryTimes> {
    let catalogue = catalogue_of(rt.alloc())?;
    let mut checked = CheckedReplica::new(rt.alloc(), 4_096, &catalogue).ok()?;
    fill_and_time(rt, &mut checked, keys, times)
}
