//! The ledgers, and what each counts. All ledgers of a node go by one type parameter, and each by a type for what it
//! counts.

use std::marker::{Brand, PhantomData};
use std::sync::ledger::Ledger;

/// The most threads that count: 16 executing threads at 8 replicas, and one for answers that no executing thread gives.
pub const THREADS: u64 = 129;

/// The most answers of a kind that a thread counts: 2 to the power of 55.
pub const GRANT: u64 = 36_028_797_018_963_968;

/// The number of parts into which each ledger is cut: `GRANT` for each thread.
pub const PARTS: u64 = 4_647_714_815_446_351_872;

/// The ledgers of a node. Each run of a program picks them.
pub trait Ledgers {
    ghost use Rattle.std.specs.Prelude.{ℕ};

    /// The name of each ledger, by the ledger's place.
    ghost names: { ℕ → ℕ };
}

impl Ledgers for Brand {
    ghost names = { λ _. 0 };
}

/// A kind of answers, which a ledger counts.
pub trait Kind {
    ghost use Rattle.std.specs.Prelude.{ℕ};

    /// The place of the kind's ledger among those of a node.
    ghost place: { ℕ };
}

/// Answers that a call committed.
pub struct Committed;

impl Kind for Committed {
    ghost place = { 0 };
}

/// Answers that a call wrote nothing.
pub struct Read;

impl Kind for Read {
    ghost place = { 1 };
}

/// Answers that a call cancelled.
pub struct Cancelled;

impl Kind for Cancelled {
    ghost place = { 2 };
}

/// Answers that a call was in conflict.
pub struct Conflict;

impl Kind for Conflict {
    ghost place = { 3 };
}

/// Answers that a call was stale.
pub struct Stale;

impl Kind for Stale {
    ghost place = { 4 };
}

/// Answers that a call repeats one that committed.
pub struct Repeated;

impl Kind for Repeated {
    ghost place = { 5 };
}

/// The other answers.
pub struct Other;

impl Kind for Other {
    ghost place = { 6 };
}

/// The ledger that counts a kind at a node.
pub struct LedgerOf<J, K> {
    node: PhantomData<J>,
    kind: PhantomData<K>,
}

impl<J: Ledgers, K: Kind> Ledger for LedgerOf<J, K> {
    ghost use Rattle.tallies.specs.declared.ledgers.TheConstants.{PARTS};

    ghost name = { J.names K.place };

    ghost parts = { PARTS };
}
