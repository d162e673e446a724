//! The rows of the shifts.
ghost use Rattle.std.specs.Prelude.{◌≡◌, ◌^◌, ◌%◌};
ghost use Rattle.bpf_words.specs.declared.operation.BinaryOperation.TheVariants.{Lsh, Rsh, Arsh};
ghost use Rattle.bpf_words.specs.declared.operation.Operation.TheVariants.{Binary};
ghost use Rattle.interval.specs.Table.{table};
ghost use Rattle.interval.specs.Width.{width_bits};

use crate::arithmetic::product;
use crate::range::Range;
use crate::width::Width;

/// The row of LSH.
#[tactic(auto, unfolding(crate::specs::Table::table))]
pub fn left_shift(width: Width, a: Range, b: Range) -> Range
    ensures { result ≡ table (width_bits width) (Binary Lsh) a b }
{
    if b.is_single() {
        product(width, a, Range::single(power(width, b.lo())))
    } else {
        width.any_word()
    }
}

/// The row of RSH.
#[tactic(auto, unfolding(crate::specs::Table::table))]
pub fn right_shift(width: Width, a: Range, b: Range) -> Range
    ensures { result ≡ table (width_bits width) (Binary Rsh) a b }
{
    if b.is_single() {
        let divisor = power(width, b.lo());
        Range::new(a.lo() / divisor, a.hi() / divisor)
    } else {
        Range::new(0, a.hi())
    }
}

/// The row of ARSH.
#[tactic(auto, unfolding(crate::specs::Table::table))]
pub fn signed_right_shift(width: Width, a: Range, b: Range) -> Range
    ensures { result ≡ table (width_bits width) (Binary Arsh) a b }
{
    if a.hi() <= width.greatest() / 2 {
        right_shift(width, a, b)
    } else {
        width.any_word()
    }
}

/// 2 to the power of a shift count.
fn power(width: Width, count: u64) -> u64
    ensures { result ≡ 2 ^ (count % width_bits width) }
{
    1 << (count % width.bits())
}
