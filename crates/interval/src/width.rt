//! The two widths of words.
ghost use Rattle.std.specs.Prelude.{◌≡◌, ◌-◌, ◌^◌};
ghost use Rattle.interval.specs.Table as tables;
ghost use Rattle.interval.specs.Width.{width_bits};

use crate::range::Range;

/// The number of bits that an operation works on.
#[derive(Clone, Copy)]
pub enum Width {
    Bits32,
    Bits64,
}

impl Width {
    /// The number of bits.
    pub fn bits(self) -> u64
        ensures { result ≡ width_bits self }
    {
        match self {
            Width::Bits32 => 32,
            Width::Bits64 => 64,
        }
    }

    /// The greatest word.
    pub fn greatest(self) -> u64
        ensures { result ≡ 2 ^ width_bits self - 1 }
    {
        match self {
            Width::Bits32 => u64::from(u32::MAX),
            Width::Bits64 => u64::MAX,
        }
    }

    /// Every word.
    pub fn any_word(self) -> Range
        ensures { result ≡ tables.any_word (width_bits self) }
    {
        Range::new(0, self.greatest())
    }

    /// The range of the low bits of a range's numbers.
    #[tactic(auto, unfolding(crate::specs::Table::cut))]
    pub fn cut(self, a: Range) -> Range
        ensures { result ≡ tables.cut (width_bits self) a }
    {
        if a.hi() <= self.greatest() {
            a
        } else if a.is_single() {
            Range::single(a.lo() & self.greatest())
        } else {
            self.any_word()
        }
    }
}
