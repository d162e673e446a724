ghost use Rattle.std.specs.Prelude.{◌≡◌, ◌<◌, slice_index};
ghost use Rattle.once_cell.specs.Once.{cell_name};

use crossbeam_utils::CachePadded;
use log_entry::Entry;
use once_cell::race::OnceBox;
use std::alloc::{AllocError, Allocator, Global};
use std::marker::Model;

/// The number of cells in a group, and of groups in a log.
pub const GROUP: usize = 1024;

/// Cells that stand side by side in the log. Contracts see their names.
#[derive(Drop)]
pub struct Group<A: Allocator + Copy = Global> {
    cells: Vec<CachePadded<OnceBox<Entry<A>>>>,
}

impl<A: Allocator + Copy> Model for Group<A> {
    ghost use Rattle.std.specs.Prelude.{◌≡◌, ℕ, List, vec_len};
    ghost use Rattle.order_log.specs.Cells.{cell_names};

    ghost Value = { List ℕ };

    ghost view = { λ g. cell_names g.cells.items };

    ghost invariant = { λ g. vec_len g.cells ≡ 1024 };
}

impl<A: Allocator + Copy> Group<A> {
    /// A group of empty cells.
    pub fn new(alloc: Global) -> Result<Box<Group<A>>, AllocError> {
        let mut cells = Vec::with_capacity(alloc, GROUP)?;
        for _ in 0..GROUP {
            cells.push_reserved(CachePadded::new(OnceBox::new(alloc)));
        }
        Ok(Box::new(alloc, Group { cells })?)
    }

    /// The cell at a place, from 0 on.
    pub fn at(&self, place: usize) -> &OnceBox<Entry<A>>
        requires { place < 1024 }
        ensures { cell_name result.now ≡ slice_index self.now place }
    {
        &self.cells[place]
    }
}
