ghost use Rattle.std.specs.Prelude.{◌≡◌, ◌<◌, ◌≤◌, ◌+◌, ◌-◌, ◌/◌, ◌%◌, ◌↔◌, ◌++◌, ◌∷◌, [], List, Some, length};
ghost use Rattle.std.specs.Prelude.{slice_get, take, IfSome, IfNone, IfOk, vec_len};
ghost use Rattle.schema.specs.declared.limits.TheConstants.{MAX_LOG};
ghost use mathlib.Core.List.{IsPrefix};
ghost use Rattle.log_entry.specs.declared.entry.Entry.{Entry as LogEntry};
ghost use Rattle.once_cell.specs.Once.{cell_name};
ghost use Rattle.order_log.specs.Attempts.{IsAttempt, IsPlacing};
ghost use Rattle.order_log.specs.Facts.{HasFact, HasFactAfter, snapshot_of};
ghost use Rattle.order_log.specs.declared.fault.AppendFault.TheVariants.{Full, SnapshotUnseen};

use crate::cells::GroupCells;
use crate::fact::{EntryFact, Fact, FactGroup};
use crate::fault::AppendFault;
use crate::group::GROUP;
use crate::seen::{LogIdentity, Seen};
use known::Known;
use log_entry::Entry;
use once_cell::race::{Note, OnceBox};
use schema::MAX_LOG;
use std::alloc::{AllocError, Allocator, Global};

/// The outcome for an entry at the place after what was seen.
enum Attempt<A: Allocator + Copy = Global> {
    Taken,
    /// Another entry stands there.
    Passed(Box<Entry<A>>),
    NoMemory,
}

/// The total order of entries, which threads share.
#[derive(Drop)]
pub struct OrderLog<J: LogIdentity, F: Fact, A: Allocator + Copy = Global> {
    groups: GroupCells<A>,
    facts: Vec<OnceBox<FactGroup<J, F, A>>>,
    /// The number of entries that the log takes.
    limit: u32,
    alloc: Global,
    ghost named: { groups ≡ J.groups },
    ghost sized: { vec_len facts ≡ 1024 },
    ghost few: { limit ≤ MAX_LOG },
}

/// Returns the number of entries that a call's run saw, and 0 for an addition.
fn snapshot_of<A: Allocator + Copy>(entry: &Entry<A>) -> u32
    ensures { result ≡ snapshot_of entry.now }
{
    match entry {
        Entry::Call(call) => call.snapshot,
        Entry::Addition(_) => 0,
    }
}

/// Puts an entry into an empty cell, and has a note know what then stands there. A full cell is only read, since an
/// exchange that fails takes the cell's cache line from its readers.
fn place<A: Allocator + Copy>(
    cell: &OnceBox<Entry<A>>,
    note: &mut Note<Entry<A>>,
    entry: Box<Entry<A>>,
) -> Attempt<A>
    requires { note.old.cell ≡ cell_name cell.now }
    ensures cell { note.new.cell ≡ note.old.cell }
    ensures known { IsPlacing entry.value result note.new.known }
{
    if let Some(_other) = cell.get_as(note) {
        return Attempt::Passed(entry);
    }
    match cell.set_as(entry, note) {
        Ok(()) => Attempt::Taken,
        Err(back) => Attempt::Passed(back),
    }
}

impl<J: LogIdentity, F: Fact, A: Allocator + Copy> OrderLog<J, F, A> {
    /// Makes an empty log over these cells, with the highest limit that a log may have.
    pub fn new(alloc: Global, groups: GroupCells<A>) -> Result<OrderLog<J, F, A>, AllocError>
        requires { groups ≡ J.groups }
        ensures { IfOk result (λ log. log.limit ≡ MAX_LOG) }
    {
        OrderLog::with_limit(alloc, groups, MAX_LOG)
    }

    /// Makes an empty log over these cells, for at most `limit` entries.
    pub fn with_limit(
        alloc: Global,
        groups: GroupCells<A>,
        limit: u32,
    ) -> Result<OrderLog<J, F, A>, AllocError>
        requires named { groups ≡ J.groups }
        requires limit { (1 ≤ limit) × (limit ≤ MAX_LOG) }
        ensures { IfOk result (λ log. log.limit ≡ limit) }
    {
        let mut facts = Vec::with_capacity(alloc, GROUP)?;
        for _ in 0..GROUP {
            facts.push_reserved(OnceBox::new(alloc));
        }
        Ok(OrderLog {
            groups,
            facts,
            limit,
            alloc,
        })
    }

    /// Returns the beginning of no entries.
    pub fn seen(&self) -> Seen<J, A>
        ensures { result ≡ [] }
    {
        Seen::new()
    }

    /// The next entry after those that were seen, once its fact stands beside it.
    pub fn get(&self, seen: &mut Seen<J, A>) -> Option<&Entry<A>>
        ensures none { IfNone result (seen.new ≡ seen.old) }
        ensures entry { IfSome result (λ e. seen.new ≡ seen.old ++ e.now ∷ []) }
        ensures fact { IfSome result (λ e. HasFactAfter F.shows seen.old e.now) }
        ensures limit { IfSome result (λ _. length seen.new ≤ self.now.limit) }
        ensures few { IfSome result (λ _. length seen.new ≤ MAX_LOG) }
    {
        let at = seen.len() as usize;
        if at >= self.limit as usize {
            return None;
        }
        let (group, known_group) = self.groups.group(at / GROUP)?;
        let cell = group.at(at % GROUP);
        let mut note = cell.note();
        let entry = cell.get_as(&mut note)?;
        let fact = self.facts[at / GROUP].get()?.at(at % GROUP).get()?;
        let Some(fact) = fact else {
            return None;
        };
        let mut longer = seen.again();
        longer.push(&known_group, &Known::of(&mut note));
        let speaks = fact.speaks_of(&longer);
        if !speaks {
            return None;
        }
        *seen = longer;
        Some(entry)
    }

    /// The entry at a position that was seen, from 1 on.
    pub fn entry(&self, seen: &Seen<J, A>, position: u32) -> &Entry<A>
        requires { (1 ≤ position) × (position ≤ length seen.now) }
        ensures { slice_get seen.now (position - 1) ≡ Some result.now }
    {
        seen.entry(&self.groups, position - 1)
    }

    /// Adds an entry after all that is then seen, and returns the entry's position.
    pub fn append(&self, seen: &mut Seen<J, A>, entry: Entry<A>) -> Result<u32, AppendFault>
        requires { snapshot_of entry ≤ length seen.old → F.shows (take (snapshot_of entry) seen.old) entry }
        ensures position { IfOk result (λ position. position ≡ length seen.new) }
        ensures entry { IfOk result (λ _. (between : List (LogEntry A))
            × (seen.new ≡ (seen.old ++ between) ++ entry ∷ [])) }
        ensures snapshot { IfOk result (λ _. snapshot_of entry ≤ length seen.old) }
        ensures seen { IsPrefix seen.old seen.new }
        ensures within { IfOk result (λ _. length seen.new ≤ self.now.limit) }
        ensures full { result ≡ Err Full → self.now.limit ≤ length seen.new }
        ensures past { result ≡ Err SnapshotUnseen ↔ length seen.old < snapshot_of entry }
    {
        if snapshot_of(&entry) > seen.len() {
            return Err(AppendFault::SnapshotUnseen);
        }
        let Ok(mut entry) = Box::new(self.alloc, entry) else {
            return Err(AppendFault::NoMemory);
        };
        let Ok(mut fact) = Box::new(self.alloc, None) else {
            return Err(AppendFault::NoMemory);
        };
        for _ in 0..self.limit {
            if seen.len() >= self.limit {
                return Err(AppendFault::Full);
            }
            match self.attempt(seen, entry) {
                Attempt::Taken => {
                    self.set_fact(seen, fact);
                    return Ok(seen.len());
                }
                Attempt::Passed(back) => entry = back,
                Attempt::NoMemory => return Err(AppendFault::NoMemory),
            }
        }
        Err(AppendFault::Full)
    }

    /// Tries the place after what was seen, and sees what then stands there.
    fn attempt(&self, seen: &mut Seen<J, A>, entry: Box<Entry<A>>) -> Attempt<A>
        requires { length seen.old < MAX_LOG }
        ensures { IsAttempt seen.old entry.value result seen.new }
    {
        let at = seen.len() as usize;
        let Ok((group, known_group)) = self.groups.made_group(at / GROUP) else {
            return Attempt::NoMemory;
        };
        let alloc = self.alloc;
        if self.facts[at / GROUP]
            .get_or_try_init(move || FactGroup::new(alloc))
            .is_err()
        {
            return Attempt::NoMemory;
        }
        let cell = group.at(at % GROUP);
        let mut note = cell.note();
        let attempt = place(cell, &mut note, entry);
        seen.push(&known_group, &Known::of(&mut note));
        attempt
    }

    /// Sets the fact of the last entry that was seen beside it.
    fn set_fact(&self, seen: &Seen<J, A>, mut fact: Box<Option<EntryFact<J, F, A>>>)
        requires { HasFact F.shows seen.now }
    {
        let Some(at) = (seen.len() as usize).checked_sub(1) else {
            return;
        };
        if at >= MAX_LOG as usize {
            return;
        }
        *fact = Some(EntryFact::new(seen.again()));
        if let Some(group) = self.facts[at / GROUP].get() {
            let _set = group.at(at % GROUP).set(fact);
        }
    }
}
