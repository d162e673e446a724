ghost use Rattle.std.specs.Prelude.{◌≡◌, ℕ, ◌+◌, ◌^◌, ◌↔◌, IfSome, IsSome};
ghost use Rattle.tallies.specs.Counted.{AreBelow, each, no_counts, one_more, sum_of};

use crate::kinds::AnswerKind;

/// The number of answers of each kind.
#[derive(Clone, Copy, Debug, PartialEq, Eq)]
pub struct Counts {
    pub committed: u64,
    pub read: u64,
    pub cancelled: u64,
    pub conflict: u64,
    pub stale: u64,
    pub repeated: u64,
    pub other: u64,
}

impl Counts {
    /// Returns the counts of no answers.
    pub fn new() -> Counts
        ensures { result ≡ no_counts }
    {
        Counts {
            committed: 0,
            read: 0,
            cancelled: 0,
            conflict: 0,
            stale: 0,
            repeated: 0,
            other: 0,
        }
    }

    /// Adds one answer of a kind.
    pub fn add_one(&mut self, kind: AnswerKind)
        requires { AreBelow (2 ^ 63) self.old }
        ensures one_more { self.new ≡ one_more kind self.old }
        ensures below { (bound : ℕ) → AreBelow bound self.old → AreBelow (bound + 1) self.new }
    {
        match kind {
            AnswerKind::Committed => self.committed += 1,
            AnswerKind::Read => self.read += 1,
            AnswerKind::Cancelled => self.cancelled += 1,
            AnswerKind::Conflict => self.conflict += 1,
            AnswerKind::Stale => self.stale += 1,
            AnswerKind::Repeated => self.repeated += 1,
            AnswerKind::Other => self.other += 1,
        }
    }

    /// Adds two counts, unless a sum is past what 64 bits hold.
    pub fn checked_add(self, other: Counts) -> Option<Counts>
        ensures sum { IfSome result (λ sum. sum ≡ sum_of self other) }
        ensures fits { IsSome result ↔ AreBelow (2 ^ 64) (sum_of self other) }
    {
        Some(Counts {
            committed: self.committed.checked_add(other.committed)?,
            read: self.read.checked_add(other.read)?,
            cancelled: self.cancelled.checked_add(other.cancelled)?,
            conflict: self.conflict.checked_add(other.conflict)?,
            stale: self.stale.checked_add(other.stale)?,
            repeated: self.repeated.checked_add(other.repeated)?,
            other: self.other.checked_add(other.other)?,
        })
    }

    /// Returns counts of as many answers of each kind.
    pub(crate) fn of_each(answers: u64) -> Counts
        ensures { result ≡ each answers }
    {
        Counts {
            committed: answers,
            read: answers,
            cancelled: answers,
            conflict: answers,
            stale: answers,
            repeated: answers,
            other: answers,
        }
    }

    /// Returns the counts of one answer of a kind.
    pub(crate) fn of_one(kind: AnswerKind) -> Counts
        ensures { result ≡ one_more kind no_counts }
    {
        let mut one = Counts::new();
        one.add_one(kind);
        one
    }
}
