ghost use Rattle.std.specs.Prelude.{◌≡◌, ℕ};
ghost use Rattle.std.specs.declared.option.Option.TheVariants.{Some};
ghost use denote.Sharing.{said};
ghost use Rattle.once_cell.specs.Once.{noted};

use once_cell::race::Note;
use std::marker::{Model, PhantomData};

/// A value that shows that the set-once cell `cell` holds `value` for good. A `Known` has no bytes, and threads share a
/// `Known` by reference. A `Note` of `once_cell` shows the same, but it is reached only by `&mut`, so threads can't
/// share a `Note`.
pub struct Known<T> {
    marker: PhantomData<T>,
    pub ghost cell: { ℕ },
    pub ghost value: { T },
}

impl<T> Model for Known<T> {
    ghost also_owns = { λ k. noted T.row k.cell (Some k.value) };

    ghost also_shares = { λ k _ κ. said (noted T.row k.cell (Some k.value)) κ };
}

impl<T> Known<T> {
    /// Returns what a note has seen. The note keeps that knowledge too.
    pub fn of(note: &mut Note<T>) -> Known<T>
        requires { (x : T) × (note.old.known ≡ Some x) }
        ensures { (note.new ≡ note.old) × (result.cell ≡ note.old.cell) × (note.old.known ≡ Some result.value) }
    {
        let _ = note;
        Known {
            marker: PhantomData,
        }
    }

    /// A second value of the same knowledge.
    pub fn again(&self) -> Known<T>
        ensures { (result.cell ≡ self.now.cell) × (result.value ≡ self.now.value) }
    {
        Known {
            marker: PhantomData,
        }
    }

    /// A cell holds one value, so two values that are known of one cell are equal. Nothing is done at run time.
    pub fn agrees(&self, other: &Known<T>)
        requires { self.now.cell ≡ other.now.cell }
        ensures { self.now.value ≡ other.now.value }
    {}
}

impl<T> Drop for Known<T> {
    fn drop(self) {
        let Self { marker: _ } = self;
    }
}

unsafe impl<T> Send for Known<T> {}

unsafe impl<T> Sync for Known<T> {}
