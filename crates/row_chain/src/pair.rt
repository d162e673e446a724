//! Two versions of a key, in memory of their own, where rows are narrow.

ghost use Rattle.std.specs.Prelude.{◌≡◌, ◌++◌, [], ◌∷◌, length, true, IfSome, IfNone};
ghost use Rattle.std.specs.Option.{option_copied};
ghost use Rattle.row_chain.specs.Version.{row_up_to, needed_versions};
ghost use Rattle.row_chain.specs.Lone.{versions_of_lone, has_place, IsFit};
ghost use Rattle.row_chain.specs.Pair.{versions_of_pair, IsPair};

use crate::lone::Lone;

/// A version of a narrow row, and another version or room for one.
#[derive(Clone, Copy, Debug, PartialEq, Eq)]
pub struct Pair {
    pub(crate) first: Lone,
    pub(crate) second: Lone,
}

impl Pair {
    /// A pair of one version, with room for another.
    pub fn of(first: Lone) -> Pair
        requires fit { IsFit first }
        requires written { first.written ≡ true }
        ensures versions { versions_of_pair result ≡ versions_of_lone first }
        ensures width { result.first.width ≡ first.width }
        ensures pair { IsPair result }
        ensures room { has_place result.second ≡ true }
    {
        Pair {
            first,
            second: Lone::new(first.width),
        }
    }

    /// The row at a position.
    pub fn at(&self, position: u32) -> Option<&[u8]>
        requires { IsPair self.now }
        ensures { option_copied result ≡ row_up_to position (versions_of_pair self.now) }
    {
        match self.second.position() {
            Some(of_second) if of_second <= position => self.second.at(position),
            _ => self.first.at(position),
        }
    }

    /// Adds a version, the newest.
    pub fn push(&mut self, position: u32, row: Option<&[u8]>)
        requires pair { IsPair self.old }
        requires room { has_place self.old.second ≡ true }
        requires width { IfSome row (λ r. length r.now ≡ self.old.first.width) }
        ensures versions { versions_of_pair self.new
            ≡ versions_of_pair self.old ++ record { position = position; row = option_copied row.entry } ∷ [] }
        ensures width { self.new.first.width ≡ self.old.first.width }
        ensures pair { IsPair self.new }
    {
        self.second = Lone::of(self.first.width, position, row);
    }

    /// Returns the versions that some position from the horizon on sees, where they are at most one; no answer where
    /// they are both.
    pub fn pruned(&self, horizon: u32) -> Option<Lone>
        requires { IsPair self.now }
        ensures left { IfSome result (λ o. versions_of_lone o ≡ needed_versions horizon (versions_of_pair self.now)) }
        ensures width { IfSome result (λ o. o.width ≡ self.now.first.width) }
        ensures fit { IfSome result (λ o. IsFit o) }
        ensures both { IfNone result (needed_versions horizon (versions_of_pair self.now) ≡ versions_of_pair self.now) }
    {
        match self.second.position() {
            None => Some(self.first.pruned(horizon)),
            Some(of_second) if of_second <= horizon => Some(self.second.pruned(horizon)),
            Some(_) => None,
        }
    }
}
