//! The table of refinement, for numbers that a condition compares as they are. None says that the
//! edge is never followed.
ghost use Rattle.std.specs.Prelude.{◌≡◌, ◌≢◌};
ghost use Rattle.range_refine.specs.Refinement as definitions;
ghost use Rattle.bpf_words.specs.Condition as conditions;

use bpf_words::Condition;
use interval::Range;

/// Returns the ranges along the edge that is taken where the condition holds.
#[tactic(auto, unfolding(crate::specs::Refinement::where_holds))]
pub fn where_holds(condition: Condition, a: Range, b: Range) -> Option<(Range, Range)>
    ensures { result ≡ definitions.where_holds condition a b }
{
    match condition {
        Condition::Eq => where_equal(a, b),
        Condition::Ne => where_unequal(a, b),
        Condition::Gt | Condition::Sgt => where_greater(a, b),
        Condition::Ge | Condition::Sge => where_at_least(a, b),
        Condition::Lt | Condition::Slt => where_less(a, b),
        Condition::Le | Condition::Sle => where_at_most(a, b),
        Condition::Set => where_bit_shared(a, b),
    }
}

/// Returns the ranges along the edge that isn't taken.
#[tactic(auto, unfolding(crate::specs::Refinement::where_fails))]
pub fn where_fails(condition: Condition, a: Range, b: Range) -> Option<(Range, Range)>
    ensures { result ≡ definitions.where_fails condition a b }
{
    match opposite(condition) {
        Some(other) => where_holds(other, a, b),
        None => where_no_bit_shared(a, b),
    }
}

/// The condition that holds just where this one doesn't.
fn opposite(condition: Condition) -> Option<Condition>
    ensures { result ≡ conditions.opposite condition }
{
    match condition {
        Condition::Eq => Some(Condition::Ne),
        Condition::Gt => Some(Condition::Le),
        Condition::Ge => Some(Condition::Lt),
        Condition::Set => None,
        Condition::Ne => Some(Condition::Eq),
        Condition::Sgt => Some(Condition::Sle),
        Condition::Sge => Some(Condition::Slt),
        Condition::Lt => Some(Condition::Ge),
        Condition::Le => Some(Condition::Gt),
        Condition::Slt => Some(Condition::Sge),
        Condition::Sle => Some(Condition::Sgt),
    }
}

#[tactic(auto, unfolding(crate::specs::Refinement::where_equal))]
fn where_equal(a: Range, b: Range) -> Option<(Range, Range)>
    ensures { result ≡ definitions.where_equal a b }
{
    let lo = a.lo().max(b.lo());
    let hi = a.hi().min(b.hi());
    if hi < lo {
        return None;
    }
    let both = Range::new(lo, hi);
    Some((both, both))
}

#[tactic(auto, unfolding(crate::specs::Refinement::where_unequal))]
fn where_unequal(a: Range, b: Range) -> Option<(Range, Range)>
    ensures { result ≡ definitions.where_unequal a b }
{
    if a.is_single() && b.is_single() && a.lo() == b.lo() {
        return None;
    }
    Some((without(a, b), without(b, a)))
}

/// A range without its end that is the other range's one value.
fn without(a: Range, b: Range) -> Range
    requires { a.lo ≡ a.hi → b.lo ≡ b.hi → a.lo ≢ b.lo }
    ensures { result ≡ definitions.without a b }
{
    if !b.is_single() {
        a
    } else if a.lo() == b.lo() {
        Range::new(a.lo() + 1, a.hi())
    } else if a.hi() == b.lo() {
        Range::new(a.lo(), a.hi() - 1)
    } else {
        a
    }
}

#[tactic(auto, unfolding(crate::specs::Refinement::where_greater))]
fn where_greater(a: Range, b: Range) -> Option<(Range, Range)>
    ensures { result ≡ definitions.where_greater a b }
{
    if a.hi() <= b.lo() {
        return None;
    }
    let left = Range::new(a.lo().max(b.lo() + 1), a.hi());
    let right = Range::new(b.lo(), b.hi().min(a.hi() - 1));
    Some((left, right))
}

#[tactic(auto, unfolding(crate::specs::Refinement::where_at_least))]
fn where_at_least(a: Range, b: Range) -> Option<(Range, Range)>
    ensures { result ≡ definitions.where_at_least a b }
{
    if a.hi() < b.lo() {
        return None;
    }
    let left = Range::new(a.lo().max(b.lo()), a.hi());
    let right = Range::new(b.lo(), b.hi().min(a.hi()));
    Some((left, right))
}

fn where_less(a: Range, b: Range) -> Option<(Range, Range)>
    ensures { result ≡ definitions.exchange (definitions.where_greater b a) }
{
    let (right, left) = where_greater(b, a)?;
    Some((left, right))
}

fn where_at_most(a: Range, b: Range) -> Option<(Range, Range)>
    ensures { result ≡ definitions.exchange (definitions.where_at_least b a) }
{
    let (right, left) = where_at_least(b, a)?;
    Some((left, right))
}

/// Returns the ranges where some bit is set in both numbers.
#[tactic(auto, unfolding(crate::specs::Refinement::where_bit_shared))]
fn where_bit_shared(a: Range, b: Range) -> Option<(Range, Range)>
    ensures { result ≡ definitions.where_bit_shared a b }
{
    let disjoint = a.is_single() && b.is_single() && a.lo() & b.lo() == 0;
    if a.hi() == 0 || b.hi() == 0 || disjoint {
        None
    } else {
        Some((a, b))
    }
}

#[tactic(auto, unfolding(crate::specs::Refinement::where_no_bit_shared))]
fn where_no_bit_shared(a: Range, b: Range) -> Option<(Range, Range)>
    ensures { result ≡ definitions.where_no_bit_shared a b }
{
    if a.is_single() && b.is_single() && a.lo() & b.lo() != 0 {
        None
    } else {
        Some((a, b))
    }
}
