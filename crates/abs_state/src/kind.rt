//! Kinds: what is known of a value.
ghost use Rattle.std.specs.Prelude.{◌≡◌};
ghost use Rattle.abs_state.specs.State.{kind_join};

use interval::Range;

/// A kind of value: what is known of the value in a register.
#[derive(Clone, Copy, Debug, PartialEq, Eq)]
pub enum Kind {
    /// No value is known: the register may not be read.
    Nothing,
    /// A number of the range.
    Number(Range),
    /// A place of the stack, from the first to the second; the stack is at -512 to -1.
    Stack(i32, i32),
    /// A place of the arguments, from the first to the second; they begin at 0.
    Args(i32, i32),
}

impl Kind {
    /// Returns the join of two kinds: what is known where either of them is.
    pub fn join(self, other: Kind) -> Kind
        ensures { result ≡ kind_join self other }
    {
        match self {
            Kind::Nothing => Kind::Nothing,
            Kind::Number(a) => match other {
                Kind::Number(b) => Kind::Number(a.join(b)),
                _ => Kind::Nothing,
            },
            Kind::Stack(a_lo, a_hi) => match other {
                Kind::Stack(b_lo, b_hi) => Kind::Stack(a_lo.min(b_lo), a_hi.max(b_hi)),
                _ => Kind::Nothing,
            },
            Kind::Args(a_lo, a_hi) => match other {
                Kind::Args(b_lo, b_hi) => Kind::Args(a_lo.min(b_lo), a_hi.max(b_hi)),
                _ => Kind::Nothing,
            },
        }
    }
}
