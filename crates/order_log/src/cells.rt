ghost use Rattle.std.specs.Prelude.{◌≡◌, ◌<◌, IfSome, IfOk, slice_index};
ghost use Rattle.once_cell.specs.Once.{cell_name};

use crate::group::{GROUP, Group};
use known::Known;
use once_cell::race::OnceBox;
use std::alloc::{AllocError, Allocator, Global};
use std::marker::Model;

/// The cells of a log's groups, of which each is made when it is first needed. Contracts see their names, which tell a
/// log from others.
#[derive(Drop)]
pub struct GroupCells<A: Allocator + Copy = Global> {
    groups: Vec<OnceBox<Group<A>>>,
    alloc: Global,
}

impl<A: Allocator + Copy> Model for GroupCells<A> {
    ghost use Rattle.std.specs.Prelude.{◌≡◌, ℕ, List, map, vec_len};
    ghost use Rattle.once_cell.specs.Once.{cell_name};

    ghost Value = { List ℕ };

    ghost view = { λ o. map (λ c. cell_name c) o.groups.items };

    ghost invariant = { λ o. vec_len o.groups ≡ 1024 };
}

impl<A: Allocator + Copy> GroupCells<A> {
    /// Makes empty cells.
    pub fn new(alloc: Global) -> Result<GroupCells<A>, AllocError> {
        let mut groups = Vec::with_capacity(alloc, GROUP)?;
        for _ in 0..GROUP {
            groups.push_reserved(OnceBox::new(alloc));
        }
        Ok(GroupCells { groups, alloc })
    }

    /// The cell of a group, from 0 on.
    pub(crate) fn at(&self, number: usize) -> &OnceBox<Group<A>>
        requires { number < 1024 }
        ensures { cell_name result.now ≡ slice_index self.now number }
    {
        &self.groups[number]
    }

    /// The group of this number, if it was made.
    pub(crate) fn group(&self, number: usize) -> Option<(&Group<A>, Known<Group<A>>)>
        requires { number < 1024 }
        ensures { IfSome result (λ r. (r.1.cell ≡ slice_index self.now number) × (r.1.value ≡ r.0.now)) }
    {
        let cell = self.at(number);
        let mut note = cell.note();
        let group = cell.get_as(&mut note)?;
        Some((group, Known::of(&mut note)))
    }

    /// The group of this number, which is made where it was not.
    pub(crate) fn made_group(
        &self,
        number: usize,
    ) -> Result<(&Group<A>, Known<Group<A>>), AllocError>
        requires { number < 1024 }
        ensures { IfOk result (λ r. (r.1.cell ≡ slice_index self.now number) × (r.1.value ≡ r.0.now)) }
    {
        let alloc = self.alloc;
        let cell = self.at(number);
        let mut note = cell.note();
        let group = cell.get_or_try_init_as(move || Group::new(alloc), &mut note)?;
        Ok((group, Known::of(&mut note)))
    }
}
