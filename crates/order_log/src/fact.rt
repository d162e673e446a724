ghost use Rattle.std.specs.Prelude.{◌≡◌, ◌<◌, IsTrue, vec_len};
ghost use Rattle.order_log.specs.Facts.{HasFact};

use crate::group::GROUP;
use crate::seen::{LogIdentity, Seen};
use once_cell::race::OnceBox;
use std::alloc::{AllocError, Allocator, Global};
use std::marker::{Model, PhantomData};

/// The fact that stands beside each entry of a log.
pub trait Fact {
    ghost use Rattle.std.specs.Prelude.{List};
    ghost use Rattle.log_entry.specs.declared.entry.Entry.{Entry as LogEntry};

    /// The statement about an entry, over as many of the log's first entries as the entry's snapshot says.
    ghost shows: { {A : Type 0} → List (LogEntry A) → LogEntry A → Type 0 };
}

/// The fact of the last of these entries.
#[derive(Drop)]
pub struct EntryFact<J: LogIdentity, F: Fact, A: Allocator + Copy = Global> {
    seen: Seen<J, A>,
    fact: PhantomData<F>,
}

impl<J: LogIdentity, F: Fact, A: Allocator + Copy> Model for EntryFact<J, F, A> {
    ghost use Rattle.std.specs.Prelude.{List};
    ghost use Rattle.std.specs.Coded.{coded_list};
    ghost use Rattle.log_entry.specs.declared.entry.Entry.{Entry as LogEntry};
    ghost use Rattle.order_log.specs.Codes.{entry_code};
    ghost use Rattle.order_log.specs.Facts.{HasFact};

    ghost Value = { List (LogEntry A) };

    ghost coded = { coded_list entry_code };

    ghost view = { λ t. t.seen };

    ghost invariant = { λ t. HasFact F.shows t.seen };
}

impl<J: LogIdentity, F: Fact, A: Allocator + Copy> EntryFact<J, F, A> {
    /// Makes the fact of the last entry that was seen.
    pub fn new(seen: Seen<J, A>) -> EntryFact<J, F, A>
        requires { HasFact F.shows seen }
    {
        EntryFact {
            seen,
            fact: PhantomData,
        }
    }

    /// Tells whether this is the fact of the last of these entries.
    pub fn speaks_of(&self, seen: &Seen<J, A>) -> bool
        ensures { IsTrue result → HasFact F.shows seen.now }
    {
        if self.seen.len() != seen.len() {
            return false;
        }
        self.seen.agrees(seen);
        true
    }
}

/// The cells of the facts of a group's entries.
#[derive(Drop)]
pub struct FactGroup<J: LogIdentity, F: Fact, A: Allocator + Copy = Global> {
    cells: Vec<OnceBox<Option<EntryFact<J, F, A>>>>,
    ghost full: { vec_len cells ≡ 1024 },
}

impl<J: LogIdentity, F: Fact, A: Allocator + Copy> FactGroup<J, F, A> {
    /// A group of empty cells.
    pub fn new(alloc: Global) -> Result<Box<FactGroup<J, F, A>>, AllocError> {
        let mut cells = Vec::with_capacity(alloc, GROUP)?;
        for _ in 0..GROUP {
            cells.push_reserved(OnceBox::new(alloc));
        }
        Ok(Box::new(alloc, FactGroup { cells })?)
    }

    /// The cell at a place, from 0 on.
    pub fn at(&self, place: usize) -> &OnceBox<Option<EntryFact<J, F, A>>>
        requires { place < 1024 }
    {
        &self.cells[place]
    }
}
