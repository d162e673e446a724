ghost use Rattle.std.specs.Prelude.{◌≡◌, ℕ, ◌+◌, ◌<◌, ◌≤◌, ◌/◌, ◌%◌, ◌^◌, List, [], ◌∷◌, ◌++◌, length, slice_index};
ghost use Rattle.std.specs.Prelude.{slice_get, Some};
ghost use Rattle.schema.specs.declared.limits.TheConstants.{MAX_LOG};
ghost use mathlib.Core.List.{IsPrefix};
ghost use Rattle.log_entry.specs.declared.entry.Entry.{Entry as LogEntry};

use crate::cells::GroupCells;
use crate::group::{GROUP, Group};
use known::{Known, Row};
use log_entry::Entry;
use std::alloc::{Allocator, Global};
use std::marker::{Brand, Model, PhantomData};

/// The identity of a log. Each run of a program picks an identity.
pub trait LogIdentity {
    ghost use Rattle.std.specs.Prelude.{ℕ, List};

    /// The names of the cells of the log's groups.
    ghost groups: { List ℕ };
}

impl LogIdentity for Brand {
    ghost use Rattle.std.specs.Prelude.{[]};

    ghost groups = { [] };
}

/// A beginning of the log that was seen. A `Seen` is one number at run time, however many entries it stands for.
/// Contracts see the entries.
#[derive(Drop)]
pub struct Seen<J: LogIdentity, A: Allocator + Copy = Global> {
    count: u32,
    groups: Row<Group<A>>,
    cells: Row<Entry<A>>,
    of: PhantomData<J>,
}

impl<J: LogIdentity, A: Allocator + Copy> Model for Seen<J, A> {
    ghost use Rattle.std.specs.Prelude.{◌≡◌, ◌≤◌, List, length};
    ghost use Rattle.std.specs.Coded.{coded_list};
    ghost use Rattle.schema.specs.declared.limits.TheConstants.{MAX_LOG};
    ghost use Rattle.log_entry.specs.declared.entry.Entry.{Entry as LogEntry};
    ghost use Rattle.order_log.specs.Codes.{entry_code};
    ghost use Rattle.order_log.specs.Cells.{AreCellsOf, known_entries};

    ghost Value = { List (LogEntry A) };

    ghost coded = { coded_list entry_code };

    ghost view = { λ s. known_entries s.cells.known };

    ghost invariant = { λ s. (s.count ≡ length s.cells.known) × (s.count ≤ MAX_LOG)
        × AreCellsOf J.groups 0 s.groups.known s.cells.known };
}

impl<J: LogIdentity, A: Allocator + Copy> Seen<J, A> {
    /// Makes the beginning of no entries.
    pub fn new() -> Seen<J, A>
        ensures { result ≡ [] }
    {
        Seen {
            count: 0,
            groups: Row::new(),
            cells: Row::new(),
            of: PhantomData,
        }
    }

    /// Returns the number of entries that were seen.
    pub fn len(&self) -> u32
        ensures len { result ≡ length self.now }
        ensures few { length self.now ≤ MAX_LOG }
    {
        self.count
    }

    /// A second value of the same beginning.
    pub fn again(&self) -> Seen<J, A>
        ensures { result ≡ self.now }
    {
        Seen {
            count: self.count,
            groups: self.groups.again(),
            cells: self.cells.again(),
            of: PhantomData,
        }
    }

    /// The shorter of two beginnings of one log is a prefix of the longer. Nothing is done at run time.
    pub fn agrees(&self, other: &Seen<J, A>)
        ensures { length self.now ≤ length other.now → IsPrefix self.now other.now }
    {
        self.groups.agrees(&other.groups);
        self.cells.agrees(&other.cells);
    }

    /// A place of one log shows one entry. Nothing is done at run time.
    pub fn show_one(&self, other: &Seen<J, A>)
        ensures { (k : ℕ) (x y : LogEntry A) → slice_get self.now k ≡ Some x → slice_get other.now k ≡ Some y → x ≡ y }
    {
        self.agrees(other);
        other.agrees(self);
    }

    /// The entry at a place, from 0 on, of a log with these cells.
    pub(crate) fn entry<'a>(&self, groups: &'a GroupCells<A>, place: u32) -> &'a Entry<A>
        requires groups { groups.now ≡ J.groups }
        requires place { place < length self.now }
        ensures { slice_get self.now place ≡ Some result.now }
    {
        prove!(place < self.len());
        let cell = groups.at(place as usize / GROUP);
        let mut note = cell.note();
        // Laws:
        self.groups.tell(&mut note);
        let Some(group) = cell.get_as(&mut note) else {
            unreachable!();
        };
        let cell = group.at(place as usize % GROUP);
        let mut note = cell.note();
        // Laws:
        self.cells.tell(&mut note);
        match cell.get_as(&mut note) {
            Some(entry) => entry,
            None => unreachable!(),
        }
    }

    /// Adds one entry, in the log's next cell.
    pub(crate) fn push(&mut self, group: &Known<Group<A>>, cell: &Known<Entry<A>>)
        requires room { length self.old < MAX_LOG }
        requires group { group.now.cell ≡ slice_index J.groups (length self.old / 1024) }
        requires cell { cell.now.cell ≡ slice_index group.now.value (length self.old % 1024) }
        ensures { self.new ≡ self.old ++ cell.now.value ∷ [] }
    {
        self.groups.push(group);
        self.cells.push(cell);
        self.count += 1;
    }
}
