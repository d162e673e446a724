//! Refinement on 64 and on 32 bits.
ghost use Rattle.std.specs.Prelude.{◌≡◌, ◌+◌, ◌/◌, ◌&&◌, not, if◌then◌else◌};
ghost use Rattle.range_refine.specs.Refinement as definitions;
ghost use Rattle.range_refine.specs.Refinement.{refinement, unless, both_single, are_below};

use crate::table::{where_fails, where_holds};
use bpf_words::{Condition, holds32, holds64};
use interval::Range;

/// The ranges of a 64-bit condition's operands along an edge of its jump, the taken edge or the other (RFC 9669 section
/// 4.3). `a` is the destination's range before the edge and `b` the source's. None says that the edge is never
/// followed.
#[tactic(auto, unfolding(crate::specs::Refinement::refinement, crate::specs::Refinement::as_before))]
pub fn refine64(condition: Condition, taken: bool, a: Range, b: Range) -> Option<(Range, Range)>
    ensures { result ≡ refinement 64 condition taken a b }
{
    if are_plain(condition, u64::MAX, a, b) {
        along(condition, taken, a, b)
    } else {
        as_before(holds64(condition, a.lo(), b.lo()) == taken, a, b)
    }
}

/// The ranges along an edge, as `refine64` gives them, of a condition on the low 32 bits of both operands. The ranges
/// are of all 64 bits.
#[tactic(auto, unfolding(crate::specs::Refinement::refinement, crate::specs::Refinement::as_before))]
pub fn refine32(condition: Condition, taken: bool, a: Range, b: Range) -> Option<(Range, Range)>
    ensures { result ≡ refinement 32 condition taken a b }
{
    if are_plain(condition, u64::from(u32::MAX), a, b) {
        along(condition, taken, a, b)
    } else {
        as_before(holds32(condition, a.lo(), b.lo()) == taken, a, b)
    }
}

/// Returns the ranges along an edge of a condition that compares the numbers as they are.
fn along(condition: Condition, taken: bool, a: Range, b: Range) -> Option<(Range, Range)>
    ensures { result ≡ definitions.along condition taken a b }
{
    if taken {
        where_holds(condition, a, b)
    } else {
        where_fails(condition, a, b)
    }
}

/// The ranges as they were, unless they are one value each that doesn't follow the edge.
fn as_before(followed: bool, a: Range, b: Range) -> Option<(Range, Range)>
    ensures { result ≡ unless (both_single a b && not followed) (a, b) }
{
    if a.is_single() && b.is_single() && !followed {
        None
    } else {
        Some((a, b))
    }
}

/// Tells whether a condition on words up to `greatest` compares all numbers of both ranges as they are.
fn are_plain(condition: Condition, greatest: u64, a: Range, b: Range) -> bool
    ensures { result ≡ are_below (if definitions.is_signed condition then greatest / 2 + 1 else greatest + 1) a b }
{
    let greatest = if is_signed(condition) {
        greatest / 2
    } else {
        greatest
    };
    a.hi() <= greatest && b.hi() <= greatest
}

fn is_signed(condition: Condition) -> bool
    ensures { result ≡ definitions.is_signed condition }
{
    matches!(
        condition,
        Condition::Sgt | Condition::Sge | Condition::Slt | Condition::Sle
    )
}
