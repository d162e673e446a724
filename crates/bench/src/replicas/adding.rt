//! Deliveries of additions.

use crate::replicas::delivering::{catalogue_of, deliver};
use bpf_bytes::decode;
use bpf_verify::{Accepted, verify};
use catalogue::Catalogue;
use log_entry::{AddedProcedure, Entry};
use log_model::Verdict;
use row_sets::Bytes;
use schema::Schema;
use std::alloc::Global;
use std::ops::Range;
use std::sync::Arc;
use test_replicas::CheckedReplica;

/// A program that replies 1.
const PROGRAM: [u8; 16] = [0xb7, 0, 0, 0, 1, 0, 0, 0, 0x95, 0, 0, 0, 0, 0, 0, 0];

fn accepted_of(alloc: Global, schema: &Schema) -> Option<Accepted> {
    let code = decode(alloc, &PROGRAM).ok()?;
    verify(alloc, code, schema, 0).ok()
}

/// An addition of a procedure under a number, of which there are 65,536, and a name that has another number's digits.
fn addition_of(alloc: Global, schema: &Schema, named: u64, number: u64) -> Option<Entry> {
    let number = u16::try_from(number).ok()?;
    let accepted = Arc::new(alloc, accepted_of(alloc, schema)?).ok()?;
    let name = format!(in alloc; "procedure_{named}").ok()?;
    Some(Entry::Addition(AddedProcedure {
        name: Bytes::new(Vec::from_slice(alloc, name.as_bytes()).ok()?),
        number,
        accepted,
    }))
}

/// Delivers additions under the names of these numbers, each under its remainder by `numbers`. Returns the number that
/// commit, and the number that are refused because their number is taken.
fn deliver_additions(
    alloc: Global,
    checked: &mut CheckedReplica,
    schema: &Schema,
    names: Range<u64>,
    numbers: u64,
) -> Option<(u64, u64)> {
    let mut commits = 0u64;
    let mut taken = 0u64;
    for named in names {
        let number = named.checked_rem(numbers).unwrap_or(0);
        let entry = addition_of(alloc, schema, named, number)?;
        match deliver(checked, &entry)? {
            Verdict::Commit => commits = commits.wrapping_add(1),
            Verdict::Taken(_) => taken = taken.wrapping_add(1),
            _ => (),
        }
    }
    Some((commits, taken))
}

/// Adds `stored` procedures, and then `times` others. Returns the number that are stored.
pub(crate) fn additions(alloc: Global, stored: u64, times: u64) -> Option<u64> {
    let catalogue = catalogue_of(alloc)?;
    let mut checked = CheckedReplica::new(alloc, 4_096, &catalogue).ok()?;
    let to = stored.saturating_add(times);
    let (commits, _) = deliver_additions(alloc, &mut checked, catalogue.schema(), 0..to, to)?;
    Some(commits)
}

/// Adds `stored` procedures, and then `times` under new names and numbers that are taken. Returns how many were refused
/// for that.
fn add_and_take(
    alloc: Global,
    checked: &mut CheckedReplica,
    schema: &Schema,
    stored: u64,
    times: u64,
) -> Option<u64> {
    deliver_additions(alloc, checked, schema, 0..stored, stored)?;
    let names = stored..stored.saturating_add(times);
    let (_, taken) = deliver_additions(alloc, checked, schema, names, stored)?;
    Some(taken)
}

/// Adds `stored` procedures, and then `times` times one whose number is taken. Returns how often it was.
pub(crate) fn taken(alloc: Global, stored: u64, times: u64) -> Option<u64> {
    let catalogue = catalogue_of(alloc)?;
    let mut checked = CheckedReplica::new(alloc, 4_096, &catalogue).ok()?;
    add_and_take(alloc, &mut checked, catalogue.schema(), stored, times)
}

/// Makes `count` additions, each with a program of its own.
fn additions_of(alloc: Global, schema: &Schema, count: u64) -> Option<Vec<Entry>> {
    let mut entries = Vec::new(alloc);
    for number in 0..count {
        entries
            .push(addition_of(alloc, schema, number, number)?)
            .ok()?;
    }
    Some(entries)
}

/// Makes a replica to which the entries were delivered.
fn replica_of<'a>(
    alloc: Global,
    catalogue: &'a Catalogue,
    entries: &[Entry],
) -> Option<CheckedReplica<'a>> {
    let mut checked = CheckedReplica::new(alloc, 4_096, catalogue).ok()?;
    for entry in entries {
        let _verdict = deliver(&mut checked, entry)?;
    }
    Some(checked)
}

/// Adds `count` procedures to each of `replicas` replicas, and returns the number that are stored at all of them. The
/// replicas and the entries are kept, so that their memory can be taken from outside.
pub(crate) fn stored(alloc: Global, count: u64, replicas: u64) -> Option<u64> {
    let catalogue = catalogue_of(alloc)?;
    let entries = additions_of(alloc, catalogue.schema(), count)?;
    let mut kept = Vec::new(alloc);
    for _ in 0..replicas {
        kept.push(replica_of(alloc, &catalogue, &entries)?).ok()?;
    }
    let mut sum = 0u64;
    for checked in &kept {
        sum = sum.wrapping_add(checked.replica().procedures().list().count() as u64);
    }
    Some(sum)
}
