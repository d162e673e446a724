ghost use Rattle.std.specs.Prelude.{◌≡◌, ℕ, ◌+◌, ◌*◌, ◌<◌, ◌≤◌, ◌↔◌, IsTrue, IsFalse};
ghost use Rattle.tallies.specs.Counted.{AreBelow, AreWithin, no_counts, one_more, sum_of};
ghost use Rattle.tallies.specs.declared.ledgers.TheConstants.{GRANT, THREADS};

use crate::counts::Counts;
use crate::kinds::AnswerKind;
use crate::ledgers::{GRANT, Ledgers};
use crate::parts::Parts;
use std::marker::Model;

/// Counts of answers, with the parts of the ledgers for those that may still be counted. Who counts an answer takes one
/// part of its kind's ledger. Contracts see for how many threads the parts were meant, and the counts.
#[derive(Drop)]
pub struct Tally<J: Ledgers> {
    pub(crate) threads: u64,
    pub(crate) counts: Counts,
    pub(crate) left: Parts<J>,
}

impl<J: Ledgers> Model for Tally<J> {
    ghost use Rattle.std.specs.Prelude.{◌≡◌, ◌≤◌};
    ghost use Rattle.tallies.specs.declared.ledgers.TheConstants.{THREADS};
    ghost use Rattle.tallies.specs.Counted.{sum_of};
    ghost use Rattle.tallies.specs.Tallies.{Tallied, parts_of};

    ghost Value = { Tallied };

    ghost view = { λ t. record { threads = t.threads; counts = t.counts } };

    ghost invariant = { λ t. (t.threads ≤ THREADS) × (sum_of t.left t.counts ≡ parts_of t.threads) };
}

impl<J: Ledgers> Tally<J> {
    /// Returns the counts.
    pub fn counts(&self) -> Counts
        ensures { result ≡ self.now.counts }
    {
        self.counts
    }

    /// Takes off what a thread counts with, before anything is counted.
    pub fn split(&mut self) -> FreshTally<J>
        requires threads { 1 ≤ self.old.threads }
        requires nothing { self.old.counts ≡ no_counts }
        ensures left { self.new.threads + 1 ≡ self.old.threads }
        ensures same { self.new.counts ≡ no_counts }
    {
        let left = self.left.take(Counts::of_each(GRANT));
        self.threads -= 1;
        let tally = Tally {
            threads: 1,
            counts: Counts::new(),
            left,
        };
        FreshTally { tally }
    }

    /// Counts an answer of a kind. Returns the part of the kind's ledger that shows that an answer was counted.
    pub fn count(&mut self, kind: AnswerKind) -> Parts<J>
        requires threads { 1 ≤ self.old.threads }
        requires room { AreBelow GRANT self.old.counts }
        ensures part { result ≡ one_more kind no_counts }
        ensures one_more { self.new.counts ≡ one_more kind self.old.counts }
        ensures below { (bound : ℕ) → AreBelow bound self.old.counts → AreBelow (bound + 1) self.new.counts }
        ensures threads { self.new.threads ≡ self.old.threads }
    {
        self.counts.add_one(kind);
        self.left.take(Counts::of_one(kind))
    }

    /// Counts answers of the kind `Other` all at once, unless parts are left for fewer. Tells whether they were
    /// counted.
    pub fn count_others(&mut self, answers: u64) -> bool
        ensures counted { IsTrue result → self.new ≡ record {
          threads = self.old.threads;
          counts = record self.old.counts { other = self.old.counts.other + answers };
        } }
        ensures refused { IsFalse result → self.new ≡ self.old }
        ensures fits { IsTrue result ↔ self.old.counts.other + answers ≤ self.old.threads * GRANT }
    {
        if answers > self.threads * GRANT - self.counts.other {
            return false;
        }
        let mut others = Counts::new();
        others.other = answers;
        self.counts.other += answers;
        self.left.take(others);
        true
    }

    /// Takes in another tally, with what was counted.
    pub fn merge(&mut self, other: Tally<J>)
        requires { self.old.threads + other.threads ≤ THREADS }
        ensures threads { self.new.threads ≡ self.old.threads + other.threads }
        ensures counts { self.new.counts ≡ sum_of self.old.counts other.counts }
    {
        let Tally {
            threads,
            counts,
            left,
        } = other;
        self.threads += threads;
        let Some(sum) = self.counts.checked_add(counts) else {
            unreachable!()
        };
        self.counts = sum;
        self.left.merge(left);
    }

    /// A tally of all threads has counted at least as many answers of each kind as parts of the kind's ledger are
    /// elsewhere. Nothing is done at run time.
    pub fn covers(&mut self, parts: &mut Parts<J>)
        requires { self.old.threads ≡ THREADS }
        ensures counted { AreWithin self.old.counts parts.old }
        ensures same { (self.new ≡ self.old) × (parts.new ≡ parts.old) }
    {
        self.left.are_apart(parts);
    }
}

/// The tally of one thread, in which nothing is counted yet.
#[derive(Drop)]
pub struct FreshTally<J: Ledgers> {
    tally: Tally<J>,
    ghost fresh: { tally ≡ record { threads = 1; counts = no_counts } },
}

impl<J: Ledgers> FreshTally<J> {
    /// Begins to count.
    pub fn begin(self) -> Tally<J>
        ensures { result ≡ record { threads = 1; counts = no_counts } }
    {
        self.tally
    }
}
