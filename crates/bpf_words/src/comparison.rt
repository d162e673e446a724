ghost use Rattle.std.specs.Prelude.{◌≡◌};
ghost use Rattle.bpf_words.specs.Condition.{holds};

use crate::condition::Condition;
use crate::cut::low32;
use crate::{word32, word64};

/// Tells whether a condition holds on 64 bits: `a` is the destination's value and `b` the source's (RFC 9669 section
/// 4.3).
#[tactic(auto, unfolding(crate::specs::Condition::holds))]
pub fn holds64(condition: Condition, a: u64, b: u64) -> bool
    ensures { result ≡ holds 64 condition a b }
{
    word64::comparison(condition, a, b)
}

/// Tells whether a condition holds of the low 32 bits of both values (RFC 9669 section 4.3). `a` is the destination's
/// value and `b` the source's.
#[tactic(auto, unfolding(crate::specs::Condition::holds))]
pub fn holds32(condition: Condition, a: u64, b: u64) -> bool
    ensures { result ≡ holds 32 condition a b }
{
    word32::comparison(condition, low32(a), low32(b))
}
