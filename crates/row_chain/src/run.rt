//! A run of versions: a mark each, and the rows' bytes one after another, so that a version takes no memory of its
//! own.

ghost use Rattle.std.specs.Prelude.{◌≡◌, ◌==◌, ℕ, List, ◌+◌, ◌*◌, ◌<◌, ◌≤◌, ◌^◌, ◌++◌, [], ◌∷◌, length, map, drop};
ghost use Rattle.std.specs.Prelude.{OnOk, IfOk, IfSome, None};
ghost use Rattle.std.specs.Option.{option_copied};
ghost use Rattle.row_chain.specs.Version.{row_up_to, hidden_count, needed_versions, is_removed, HasRoom};
ghost use Rattle.row_chain.specs.Lone.{versions_of_lone, IsFit};
ghost use Rattle.row_chain.specs.Marks.{versions_of};

use crate::lone::{Lone, NARROW_WIDTH};
use crate::vectors::{drop_front, extend_within, fill_within, push_within};
use std::alloc::{AllocError, Allocator, Global};
use std::marker::Model;

/// A version: the position that wrote it, and whether it has a row; else the row was removed there.
#[derive(Clone, Copy, Debug, PartialEq, Eq)]
pub struct Mark {
    position: u32,
    present: bool,
}

/// The versions of one key's row, oldest first; each row has the same width.
#[derive(Drop)]
pub struct Run<A: Allocator = Global> {
    width: u16,
    marks: Vec<Mark, A>,
    bytes: Vec<u8, A>,
}

impl<A: Allocator> Model for Run<A> {
    ghost use Rattle.std.specs.Prelude.{◌≡◌, ◌==◌, ℕ, List, ◌*◌, ◌-◌, length, vec_len, vec_capacity};
    ghost use Rattle.row_chain.specs.Version.{ChainState};

    ghost Value = { ChainState };

    ghost use Rattle.row_chain.specs.Marks.{versions_of};

    ghost view = { λ c. record {
      versions = versions_of c.width c.marks.items c.bytes.items;
      width = c.width;
      places = vec_capacity c.marks - vec_len c.marks;
      bytes = vec_capacity c.bytes - vec_len c.bytes;
    } };

    ghost invariant = { λ c. length c.bytes.items ≡ length c.marks.items * c.width };
}

/// The row of the last version up to a position.
fn row_up_to<'a>(width: usize, marks: &[Mark], bytes: &'a [u8], position: u32) -> Option<&'a [u8]>
    requires { length bytes.now ≡ length marks.now * width }
    ensures { option_copied result ≡ row_up_to position (versions_of width marks.now bytes.now) }
{
    let mut i = marks.len();
    while i > 0 {
        i -= 1;
        let mark = marks[i];
        if mark.position <= position {
            if mark.present {
                let start = i * width;
                return Some(&bytes[start..start + width]);
            }
            return None;
        }
    }
    None
}

/// Counts the marks at the front that no position from the horizon on sees.
fn hidden_count(marks: &[Mark], horizon: u32) -> usize
    ensures within { result ≤ length marks.now }
    ensures hidden_count { result ≡ hidden_count horizon (map (λ m. m.position) marks.now) }
{
    let mut i = marks.len();
    while i > 1 {
        i -= 1;
        let mark = marks[i];
        if mark.position <= horizon {
            return i;
        }
    }
    0
}

impl<A: Allocator + Copy> Run<A> {
    /// A run without versions, with memory for `count` versions.
    pub fn new(alloc: A, width: u16, count: u8) -> Result<Run<A>, AllocError>
        ensures versions { IfOk result (λ r. r.versions ≡ []) }
        ensures width { IfOk result (λ r. r.width ≡ width) }
    {
        let marks = Vec::with_capacity(alloc, usize::from(count))?;
        let bytes = Vec::with_capacity(alloc, usize::from(count) * usize::from(width))?;
        Ok(Run {
            width,
            marks,
            bytes,
        })
    }
}

impl<A: Allocator> Run<A> {
    /// Makes room for one more version. After want of memory nothing has changed but the room.
    pub fn reserve(&mut self) -> Result<(), AllocError>
        ensures versions { self.new.versions ≡ self.old.versions }
        ensures width { self.new.width ≡ self.old.width }
        ensures room { OnOk result (HasRoom self.new) }
        ensures more { HasRoom self.old → HasRoom self.new }
    {
        self.marks.reserve(1)?;
        self.bytes.reserve(usize::from(self.width))?;
        Ok(())
    }

    /// Tells whether the run has no version.
    pub fn is_empty(&self) -> bool
        ensures { result ≡ (length self.now.versions == 0) }
    {
        let marks: &[Mark] = &self.marks;
        marks.is_empty()
    }

    /// The row at a position.
    pub fn at(&self, position: u32) -> Option<&[u8]>
        ensures { option_copied result ≡ row_up_to position self.now.versions }
    {
        row_up_to(usize::from(self.width), &self.marks, &self.bytes, position)
    }
}

impl<A: Allocator> Run<A> {
    /// Adds a version, the newest. Takes no memory.
    pub fn push(&mut self, position: u32, row: Option<&[u8]>)
        requires room { HasRoom self.old }
        requires width { IfSome row (λ r. length r.now ≡ self.old.width) }
        ensures versions { self.new.versions
            ≡ self.old.versions ++ record { position = position; row = option_copied row.entry } ∷ [] }
        ensures width { self.new.width ≡ self.old.width }
    {
        match row {
            Some(row) => {
                push_within(
                    &mut self.marks,
                    Mark {
                        position,
                        present: true,
                    },
                );
                extend_within(&mut self.bytes, row);
            }
            None => {
                push_within(
                    &mut self.marks,
                    Mark {
                        position,
                        present: false,
                    },
                );
                fill_within(&mut self.bytes, usize::from(self.width));
            }
        }
    }

    /// The only version, or the lack of one, where that can lie beside the key.
    pub fn lone(&self) -> Option<Lone>
        ensures versions { IfSome result (λ o. versions_of_lone o ≡ self.now.versions) }
        ensures width { IfSome result (λ o. o.width ≡ self.now.width) }
        ensures fit { IfSome result (λ o. IsFit o) }
    {
        lone_of(self.width, &self.marks, &self.bytes)
    }

    /// Drops the versions that no position from the horizon on sees.
    pub fn prune(&mut self, horizon: u32)
        ensures versions { self.new.versions ≡ needed_versions horizon self.old.versions }
        ensures width { self.new.width ≡ self.old.width }
    {
        let stale = hidden_count(&self.marks, horizon);
        drop_front(&mut self.marks, stale);
        drop_front(&mut self.bytes, stale * usize::from(self.width));
        if is_removed(&self.marks, horizon) {
            self.marks.clear();
            self.bytes.clear();
        }
    }
}

/// Tells whether all that is left is a removal that each position from the horizon on sees.
fn is_removed(marks: &[Mark], horizon: u32) -> bool
    ensures { (width : ℕ) (bytes : List ℕ) → result ≡ is_removed horizon (versions_of width marks.now bytes) }
{
    if marks.len() != 1 {
        return false;
    }
    let mark = marks[0];
    if mark.position > horizon {
        return false;
    }
    !mark.present
}

impl<A: Allocator> Run<A> {
    /// Drops the versions that no position from the horizon on sees. The answer is the version that is left, or the
    /// lack of one, where that can lie beside the key.
    pub fn prune_to(&mut self, horizon: u32) -> Option<Lone>
        ensures versions { self.new.versions ≡ needed_versions horizon self.old.versions }
        ensures width { self.new.width ≡ self.old.width }
        ensures lone { IfSome result (λ o. versions_of_lone o ≡ needed_versions horizon self.old.versions) }
        ensures lone_width { IfSome result (λ o. o.width ≡ self.old.width) }
        ensures fit { IfSome result (λ o. IsFit o) }
    {
        self.prune(horizon);
        self.lone()
    }
}

/// The only version, where rows are narrow, or the lack of one.
fn lone_of(width: u16, marks: &[Mark], bytes: &[u8]) -> Option<Lone>
    requires { length bytes.now ≡ length marks.now * width }
    ensures versions { IfSome result (λ o. versions_of_lone o ≡ versions_of width marks.now bytes.now) }
    ensures width { IfSome result (λ o. o.width ≡ width) }
    ensures fit { IfSome result (λ o. IsFit o) }
{
    if marks.is_empty() {
        return Some(Lone::new(width));
    }
    if marks.len() > 1 {
        return None;
    }
    if width > NARROW_WIDTH {
        return None;
    }
    let mark = marks[0];
    if mark.present {
        return Some(Lone::of(width, mark.position, Some(bytes)));
    }
    Some(Lone::of(width, mark.position, None))
}
