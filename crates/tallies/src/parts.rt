ghost use Rattle.std.specs.Prelude.{◌≡◌};
ghost use Rattle.tallies.specs.Counted.{AreWithin, sum_of};
ghost use Rattle.tallies.specs.Tallies.{parts_of};
ghost use Rattle.tallies.specs.declared.ledgers.TheConstants.{THREADS};

use crate::counts::Counts;
use crate::ledgers::{
    Cancelled, Committed, Conflict, LedgerOf, Ledgers, Other, Read, Repeated, Stale,
};
use std::marker::Model;
use std::sync::ledger::Share;

/// Parts of the ledgers of a node. Parts have no bytes, and no code can make or copy a part. Contracts see the number
/// of parts of each kind's ledger.
#[derive(Drop)]
pub struct Parts<J: Ledgers> {
    pub(crate) committed: Share<LedgerOf<J, Committed>>,
    pub(crate) read: Share<LedgerOf<J, Read>>,
    pub(crate) cancelled: Share<LedgerOf<J, Cancelled>>,
    pub(crate) conflict: Share<LedgerOf<J, Conflict>>,
    pub(crate) stale: Share<LedgerOf<J, Stale>>,
    pub(crate) repeated: Share<LedgerOf<J, Repeated>>,
    pub(crate) other: Share<LedgerOf<J, Other>>,
}

impl<J: Ledgers> Model for Parts<J> {
    ghost use Rattle.std.specs.Prelude.{◌≡◌};
    ghost use Rattle.tallies.specs.declared.counts.Counts.{Counts};

    ghost Value = { Counts };

    ghost view = { λ p. record {
      committed = p.committed.parts;
      read = p.read.parts;
      cancelled = p.cancelled.parts;
      conflict = p.conflict.parts;
      stale = p.stale.parts;
      repeated = p.repeated.parts;
      other = p.other.parts;
    } };

    ghost invariant = { λ p. (p.committed.amount ≡ 0) × (p.read.amount ≡ 0) × (p.cancelled.amount ≡ 0)
        × (p.conflict.amount ≡ 0) × (p.stale.amount ≡ 0) × (p.repeated.amount ≡ 0) × (p.other.amount ≡ 0) };
}

impl<J: Ledgers> Parts<J> {
    /// Takes off parts, so many of each ledger.
    pub(crate) fn take(&mut self, parts: Counts) -> Parts<J>
        requires { AreWithin self.old parts }
        ensures taken { result ≡ parts }
        ensures left { sum_of self.new parts ≡ self.old }
    {
        Parts {
            committed: self.committed.split_off(parts.committed, 0),
            read: self.read.split_off(parts.read, 0),
            cancelled: self.cancelled.split_off(parts.cancelled, 0),
            conflict: self.conflict.split_off(parts.conflict, 0),
            stale: self.stale.split_off(parts.stale, 0),
            repeated: self.repeated.split_off(parts.repeated, 0),
            other: self.other.split_off(parts.other, 0),
        }
    }

    /// Takes in other parts.
    pub(crate) fn merge(&mut self, other: Parts<J>)
        ensures { self.new ≡ sum_of self.old other }
    {
        let Parts {
            committed,
            read,
            cancelled,
            conflict,
            stale,
            repeated,
            other,
        } = other;
        self.committed.merge(committed);
        self.read.merge(read);
        self.cancelled.merge(cancelled);
        self.conflict.merge(conflict);
        self.stale.merge(stale);
        self.repeated.merge(repeated);
        self.other.merge(other);
    }

    /// Both have at most all parts of each ledger. Nothing is done at run time.
    pub(crate) fn are_apart(&mut self, other: &mut Parts<J>)
        ensures apart { AreWithin (parts_of THREADS) (sum_of self.old other.old) }
        ensures same { (self.new ≡ self.old) × (other.new ≡ other.old) }
    {
        self.committed.give(&mut other.committed, 0, 0);
        self.read.give(&mut other.read, 0, 0);
        self.cancelled.give(&mut other.cancelled, 0, 0);
        self.conflict.give(&mut other.conflict, 0, 0);
        self.stale.give(&mut other.stale, 0, 0);
        self.repeated.give(&mut other.repeated, 0, 0);
        self.other.give(&mut other.other, 0, 0);
    }
}
