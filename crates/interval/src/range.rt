//! A range of words.
use std::marker::Model;

/// The 64-bit words from a least word to a greatest word, both included.
#[derive(Clone, Copy, Debug, PartialEq, Eq)]
pub struct Range {
    lo: u64,
    hi: u64,
}

impl Model for Range {
    ghost use Rattle.std.specs.Prelude.{◌≤◌};
    ghost use Rattle.interval.specs.Range.{Bounds};

    ghost Value = { Bounds };

    ghost view = { λ r. record { lo = r.lo; hi = r.hi } };

    ghost inverse = { λ r. record { lo = r.lo; hi = r.hi } };

    ghost invariant = { λ r. r.lo ≤ r.hi };
}

impl Range {
    ghost use Rattle.std.specs.Prelude.{◌≡◌, ◌≤◌};
    ghost use Rattle.interval.specs.Range as ranges;
    ghost use Rattle.interval.specs.Range.{from_to, IsRange};

    /// The words from `lo` to `hi`.
    pub fn new(lo: u64, hi: u64) -> Range
        requires { lo ≤ hi }
        ensures { result ≡ from_to lo hi }
    {
        Range { lo, hi }
    }

    /// One word alone.
    pub fn single(value: u64) -> Range
        ensures { result ≡ ranges.single value }
    {
        Range {
            lo: value,
            hi: value,
        }
    }

    /// The least word.
    pub fn lo(self) -> u64
        ensures lo { result ≡ self.lo }
        ensures range { IsRange self }
    {
        self.lo
    }

    /// The greatest word.
    pub fn hi(self) -> u64
        ensures hi { result ≡ self.hi }
        ensures range { IsRange self }
    {
        self.hi
    }

    /// Tells whether the range has one word alone.
    pub fn is_single(self) -> bool
        ensures { result ≡ ranges.is_single self }
    {
        self.lo == self.hi
    }

    /// The least range round both ranges.
    pub fn join(self, other: Range) -> Range
        ensures { result ≡ ranges.join self other }
    {
        Range {
            lo: self.lo.min(other.lo),
            hi: self.hi.max(other.hi),
        }
    }
}
