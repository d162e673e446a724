//! The rows of the operations on single bits.
ghost use Rattle.std.specs.Prelude.{ℕ, ◌≡◌, ◌≤◌};
ghost use Rattle.bpf_words.specs.declared.operation.BinaryOperation.TheVariants.{And, Or, Xor};
ghost use Rattle.bpf_words.specs.declared.operation.Operation.TheVariants.{Binary};
ghost use Rattle.interval.specs.Table as tables;
ghost use Rattle.interval.specs.Table.{table};

use crate::range::Range;

/// The row of AND.
#[tactic(auto, unfolding(crate::specs::Table::table))]
pub fn and(a: Range, b: Range) -> Range
    ensures { (n : ℕ) → result ≡ table n (Binary And) a b }
{
    Range::new(0, a.hi().min(b.hi()))
}

/// The row of OR.
#[tactic(auto, unfolding(crate::specs::Table::table))]
pub fn or(a: Range, b: Range) -> Range
    ensures { (n : ℕ) → result ≡ table n (Binary Or) a b }
{
    Range::new(a.lo().max(b.lo()), up(a.hi().max(b.hi())))
}

/// The row of XOR.
#[tactic(auto, unfolding(crate::specs::Table::table))]
pub fn xor(a: Range, b: Range) -> Range
    ensures { (n : ℕ) → result ≡ table n (Binary Xor) a b }
{
    Range::new(0, up(a.hi().max(b.hi())))
}

/// The least 2^k - 1 that isn't below `x`.
#[tactic(auto, using(crate::proofs::Up::ones_left, crate::proofs::Up::up_above), unfolding(crate::specs::Table::up))]
fn up(x: u64) -> u64
    ensures up { result ≡ tables.up x }
    ensures above { x ≤ result }
{
    u64::MAX.checked_shr(x.leading_zeros()).unwrap_or(0)
}
