//! Verdicts on calls and comparisons, by what became of the items before.

ghost use Rattle.std.specs.Prelude.{◌≡◌, ◌+◌, ◌-◌, ◌<◌, ◌≤◌, ◌^◌, [], length, map, drop, nat_le, ◌++◌, IfOk, OnOk};
ghost use Rattle.log_model.specs.Log.{is_commit, same_request, conflicts, repeats, first_position, unless_repeated};
ghost use Rattle.log_model.specs.Log.{unless_conflict, verdict_after};
ghost use Rattle.certify.specs.Comparisons.{comparisons_from, comparisons_after};
ghost use Rattle.plain_replayer.specs.Replay.{certified_of, comparison_at, comparisons_on_new, verdict_on_new};

use crate::bits::{shares_bit, shares_key};
use crate::item::PlainCall;
use crate::report::ItemReport;
use log_model::{RequestId, Verdict};
use schema::Look;
use std::alloc::{AllocError, Allocator};

pub(crate) fn is_commit(verdict: Verdict) -> bool
    ensures { result ≡ is_commit verdict }
{
    matches!(verdict, Verdict::Commit)
}

/// Tells whether both requests are there and are equal.
fn same_request(a: Option<RequestId>, b: Option<RequestId>) -> bool
    ensures { result ≡ same_request a b }
{
    match (a, b) {
        (Some(a), Some(b)) => a.session == b.session && a.sequence == b.sequence,
        _ => false,
    }
}

/// Tells whether an item committed and carried this request.
fn repeats<A: Allocator>(request: Option<RequestId>, report: &ItemReport<A>) -> bool
    ensures { result ≡ repeats request (certified_of report.now) }
{
    is_commit(report.verdict()) && same_request(request, report.request())
}

/// The least position of an item that committed and carried this request, over the whole past.
fn first_repeated<A: Allocator>(request: Option<RequestId>, past: &[ItemReport<A>]) -> Option<u32>
    requires { length past.now < 2 ^ 32 }
    ensures { result ≡ first_position (repeats request) 1 (map certified_of past.now) }
{
    let mut position = 1usize;
    for report in past {
        if repeats(request, report) {
            return Some(position as u32);
        }
        position += 1;
    }
    None
}

/// Tells whether an item committed and wrote a key that was looked at.
fn conflicts<A: Allocator>(looks: &[Look], report: &ItemReport<A>) -> bool
    ensures { result ≡ conflicts looks.now (certified_of report.now) }
{
    is_commit(report.verdict()) && shares_key(looks, report.writes())
}

/// The least position of an item that conflicts with the looks; the first item has the position `first`.
fn first_conflict<A: Allocator>(
    looks: &[Look],
    first: usize,
    reports: &[ItemReport<A>],
) -> Option<u32>
    requires { first + length reports.now ≤ 2 ^ 32 }
    ensures { result ≡ first_position (conflicts looks.now) first (map certified_of reports.now) }
{
    let mut position = first;
    for report in reports {
        if conflicts(looks, report) {
            return Some(position as u32);
        }
        position += 1;
    }
    None
}

/// Adds the position of an item, where it committed and shares a bit with the looks.
fn add_compared<A: Allocator, B: Allocator>(
    list: &mut Vec<u32, B>,
    looks: &[Look],
    position: usize,
    report: &ItemReport<A>,
) -> Result<(), AllocError>
    requires { position < 2 ^ 32 }
    ensures { OnOk result (list.new.items ≡ list.old.items
        ++ comparison_at looks.now position (certified_of report.now)) }
{
    if is_commit(report.verdict()) && shares_bit(looks, report.writes()) {
        list.push(position as u32)?;
    }
    Ok(())
}

/// The positions of the items that committed and share a bit with the looks, up to the first that conflicts. The first
/// item has the position `first`.
fn comparisons_from<A: Allocator, B: Allocator>(
    alloc: B,
    looks: &[Look],
    first: usize,
    reports: &[ItemReport<A>],
) -> Result<Vec<u32, B>, AllocError>
    requires { first + length reports.now ≤ 2 ^ 32 }
    ensures { IfOk result (λ list.
        list.items ≡ comparisons_from looks.now first (map certified_of reports.now)) }
{
    let mut list = Vec::new(alloc);
    let mut position = first;
    for report in reports {
        add_compared(&mut list, looks, position, report)?;
        if conflicts(looks, report) {
            return Ok(list);
        }
        position += 1;
    }
    Ok(list)
}

/// Returns the reports on the items after a position.
fn since<A: Allocator>(past: &[ItemReport<A>], position: usize) -> &[ItemReport<A>]
    ensures later { result.now ≡ drop position past.now }
    ensures certified { map certified_of result.now ≡ drop position (map certified_of past.now) }
{
    let (_, later) = past.split_at(position.min(past.len()));
    later
}

/// Tells whether no more than the window came after a position.
fn is_recent<A: Allocator>(window: u32, past: &[ItemReport<A>], position: usize) -> bool
    ensures { result ≡ nat_le (length (map certified_of past.now) - position) window }
{
    past.len().saturating_sub(position) <= window as usize
}

/// The verdict by the first conflict.
fn unless_conflict(first: Option<u32>) -> Verdict
    ensures { result ≡ unless_conflict first }
{
    match first {
        Some(position) => Verdict::Conflict(position),
        None => Verdict::Commit,
    }
}

/// The verdict by the position of the call that is repeated, and else this one.
fn unless_repeated(first: Option<u32>, verdict: Verdict) -> Verdict
    ensures { result ≡ unless_repeated first verdict }
{
    match first {
        Some(position) => Verdict::Repeated(position),
        None => verdict,
    }
}

/// The verdict on the next item, a call that isn't repeated, by its looks.
fn verdict_on_new<A: Allocator, B: Allocator>(
    window: u32,
    past: &[ItemReport<A>],
    call: &PlainCall<B>,
    looks: &[Look],
) -> Verdict
    requires { length past.now < 2 ^ 32 }
    ensures { result ≡ verdict_on_new window (map certified_of past.now) call.now looks.now }
{
    let snapshot = call.snapshot();
    if is_recent(window, past, snapshot) {
        unless_conflict(first_conflict(looks, snapshot + 1, since(past, snapshot)))
    } else {
        Verdict::Stale
    }
}

/// The verdict on the next item, a call, by its looks.
#[tactic(auto, unfolding(log_model::specs::Log::verdict_after))]
pub(crate) fn verdict_after<A: Allocator, B: Allocator>(
    window: u32,
    past: &[ItemReport<A>],
    call: &PlainCall<B>,
    looks: &[Look],
) -> Verdict
    requires { length past.now < 2 ^ 32 }
    ensures { result ≡ verdict_after window [] (map certified_of past.now) call.now looks.now }
{
    let first = first_repeated(call.request(), past);
    unless_repeated(first, verdict_on_new(window, past, call, looks))
}

/// The comparisons that the verdict on the next item, a call that isn't repeated, makes.
fn comparisons_on_new<A: Allocator, B: Allocator, C: Allocator>(
    alloc: C,
    window: u32,
    past: &[ItemReport<A>],
    call: &PlainCall<B>,
    looks: &[Look],
) -> Result<Vec<u32, C>, AllocError>
    requires { length past.now < 2 ^ 32 }
    ensures { IfOk result (λ list.
        list.items ≡ comparisons_on_new window (map certified_of past.now) call.now looks.now) }
{
    let snapshot = call.snapshot();
    if is_recent(window, past, snapshot) {
        comparisons_from(alloc, looks, snapshot + 1, since(past, snapshot))
    } else {
        Ok(Vec::new(alloc))
    }
}

/// The comparisons that the verdict on the next item, a call, makes.
pub(crate) fn comparisons_after<A: Allocator, B: Allocator, C: Allocator>(
    alloc: C,
    window: u32,
    past: &[ItemReport<A>],
    call: &PlainCall<B>,
    looks: &[Look],
) -> Result<Vec<u32, C>, AllocError>
    requires { length past.now < 2 ^ 32 }
    ensures { IfOk result (λ list.
        list.items ≡ comparisons_after window [] (map certified_of past.now) call.now looks.now) }
{
    match first_repeated(call.request(), past) {
        Some(_) => Ok(Vec::new(alloc)),
        None => comparisons_on_new(alloc, window, past, call, looks),
    }
}
