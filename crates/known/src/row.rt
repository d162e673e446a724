ghost use Rattle.std.specs.Prelude.{◌≡◌, ℕ, List, [], ◌∷◌, ◌++◌};
ghost use Rattle.std.specs.Coded.{coded_list, coded×, coded_ℕ};
ghost use denote.Sharing.{said};
ghost use Rattle.known.specs.Rows.{all_noted};
ghost use Rattle.std.specs.declared.option.Option.TheVariants.{Some};
ghost use Rattle.known.specs.Agrees.{AgreeAll, Has};

use crate::known::Known;
use once_cell::race::Note;
use std::marker::{Model, PhantomData};

/// A value that shows, of each cell in a row, that the cell holds its value for good. A `Row` has no bytes, however
/// long the row is. A `Row` is therefore copied, compared and extended without a loop and without memory.
pub struct Row<T> {
    marker: PhantomData<T>,
    pub ghost known: { List (ℕ × T) } by { coded_list (coded× coded_ℕ T.code) },
}

impl<T> Model for Row<T> {
    ghost also_owns = { λ r. all_noted T.row r.known };

    ghost also_shares = { λ r _ κ. said (all_noted T.row r.known) κ };
}

impl<T> Row<T> {
    /// The row of no cells.
    pub fn new() -> Row<T>
        ensures { result.known ≡ [] }
    {
        Row {
            marker: PhantomData,
        }
    }

    /// Adds what is known of one more cell.
    pub fn push(&mut self, known: &Known<T>)
        ensures { self.new.known ≡ self.old.known ++ (known.now.cell, known.now.value) ∷ [] }
    {}

    /// A second value of the same knowledge.
    pub fn again(&self) -> Row<T>
        ensures { result.known ≡ self.now.known }
    {
        Row {
            marker: PhantomData,
        }
    }

    /// A cell that stands in both rows has one value. Nothing is done at run time.
    pub fn agrees(&self, other: &Row<T>)
        ensures { AgreeAll self.now.known other.now.known }
    {}

    /// Lets a note know what the row knows of the note's cell. Nothing is done at run time.
    pub fn tell(&self, note: &mut Note<T>)
        requires { (x : T) × Has self.now.known note.old.cell x }
        ensures cell { note.new.cell ≡ note.old.cell }
        ensures known { (x : T) → Has self.now.known note.old.cell x → note.new.known ≡ Some x }
    {}
}

impl<T> Drop for Row<T> {
    fn drop(self) {
        let Self { marker: _ } = self;
    }
}

unsafe impl<T> Send for Row<T> {}

unsafe impl<T> Sync for Row<T> {}
