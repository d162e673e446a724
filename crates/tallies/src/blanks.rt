ghost use Rattle.std.specs.Prelude.{◌≡◌};
ghost use Rattle.tallies.specs.Counted.{no_counts};
ghost use Rattle.tallies.specs.Tallies.{names_by_place};
ghost use Rattle.tallies.specs.declared.ledgers.TheConstants.{THREADS};

use crate::counts::Counts;
use crate::ledgers::{Ledgers, PARTS, THREADS};
use crate::parts::Parts;
use crate::tally::Tally;
use std::marker::Model;
use std::sync::ledger::Blank;

/// Ledgers that no type stands for yet. Contracts see their names.
#[derive(Drop)]
pub struct Blanks {
    committed: Blank,
    read: Blank,
    cancelled: Blank,
    conflict: Blank,
    stale: Blank,
    repeated: Blank,
    other: Blank,
}

impl Model for Blanks {
    ghost use Rattle.std.specs.Prelude.{◌≡◌};
    ghost use Rattle.tallies.specs.declared.ledgers.TheConstants.{PARTS};
    ghost use Rattle.tallies.specs.Tallies.{Names};

    ghost Value = { Names };

    ghost view = { λ b. record {
      committed = b.committed.name;
      read = b.read.name;
      cancelled = b.cancelled.name;
      conflict = b.conflict.name;
      stale = b.stale.name;
      repeated = b.repeated.name;
      other = b.other.name;
    } };

    ghost invariant = { λ b. (b.committed.parts ≡ PARTS) × (b.read.parts ≡ PARTS)
        × (b.cancelled.parts ≡ PARTS) × (b.conflict.parts ≡ PARTS) × (b.stale.parts ≡ PARTS)
        × (b.repeated.parts ≡ PARTS) × (b.other.parts ≡ PARTS) };
}

impl Blanks {
    /// Makes new ledgers, each cut into `PARTS` parts.
    pub fn new() -> Blanks {
        Blanks {
            committed: Blank::new(PARTS),
            read: Blank::new(PARTS),
            cancelled: Blank::new(PARTS),
            conflict: Blank::new(PARTS),
            stale: Blank::new(PARTS),
            repeated: Blank::new(PARTS),
            other: Blank::new(PARTS),
        }
    }

    /// Opens the ledgers. Returns a tally with all parts of each ledger, in which nothing is counted yet.
    pub fn open<J: Ledgers>(self) -> Tally<J>
        requires { J.names ≡ names_by_place self }
        ensures { result ≡ record { threads = THREADS; counts = no_counts } }
    {
        let left = Parts {
            committed: self.committed.open().1,
            read: self.read.open().1,
            cancelled: self.cancelled.open().1,
            conflict: self.conflict.open().1,
            stale: self.stale.open().1,
            repeated: self.repeated.open().1,
            other: self.other.open().1,
        };
        Tally {
            threads: THREADS,
            counts: Counts::new(),
            left,
        }
    }
}
