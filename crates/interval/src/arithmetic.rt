//! The rows of sums, differences, products, quotients and remainders.
ghost use Rattle.std.specs.Prelude.{ℕ, ◌≡◌};
ghost use Rattle.bpf_words.specs.declared.operation.BinaryOperation.TheVariants.{Add, Sub, Mul, Div, Mod};
ghost use Rattle.bpf_words.specs.declared.operation.Operation.TheVariants.{Binary};
ghost use Rattle.interval.specs.Table.{table};
ghost use Rattle.interval.specs.Width.{width_bits};

use crate::range::Range;
use crate::width::Width;

/// The row of ADD.
#[tactic(auto, unfolding(crate::specs::Table::table))]
pub fn sum(width: Width, a: Range, b: Range) -> Range
    ensures { result ≡ table (width_bits width) (Binary Add) a b }
{
    match a.hi().checked_add(b.hi()) {
        Some(hi) if hi <= width.greatest() => Range::new(a.lo() + b.lo(), hi),
        _ => width.any_word(),
    }
}

/// The row of SUB.
#[tactic(auto, unfolding(crate::specs::Table::table))]
pub fn difference(width: Width, a: Range, b: Range) -> Range
    ensures { result ≡ table (width_bits width) (Binary Sub) a b }
{
    if b.hi() <= a.lo() {
        Range::new(a.lo() - b.hi(), a.hi() - b.lo())
    } else {
        width.any_word()
    }
}

/// The row of MUL.
#[tactic(auto, unfolding(crate::specs::Table::table))]
pub fn product(width: Width, a: Range, b: Range) -> Range
    ensures { result ≡ table (width_bits width) (Binary Mul) a b }
{
    match a.hi().checked_mul(b.hi()) {
        Some(hi) if hi <= width.greatest() => Range::new(a.lo() * b.lo(), hi),
        _ => width.any_word(),
    }
}

/// The row of DIV.
#[tactic(auto, unfolding(crate::specs::Table::table))]
pub fn quotient(a: Range, b: Range) -> Range
    ensures { (n : ℕ) → result ≡ table n (Binary Div) a b }
{
    if b.lo() == 0 {
        Range::new(0, a.hi())
    } else {
        Range::new(a.lo() / b.hi(), a.hi() / b.lo())
    }
}

/// The row of MOD.
#[tactic(auto, unfolding(crate::specs::Table::table))]
pub fn remainder(a: Range, b: Range) -> Range
    ensures { (n : ℕ) → result ≡ table n (Binary Mod) a b }
{
    if a.hi() < b.lo() {
        a
    } else if b.lo() == 0 {
        Range::new(0, a.hi())
    } else {
        Range::new(0, a.hi().min(b.hi() - 1))
    }
}
