//! Numbers from a seed, the same in every run.

use rand_core::Rng;
use rand_pcg::Pcg32;

#[derive(Drop)]
pub(super) struct Random {
    generator: Pcg32,
}

impl Random {
    pub(super) fn from_seed() -> Random {
        Random {
            generator: Pcg32::new(2026, 11),
        }
    }

    /// A number below the limit, which is at least 1.
    pub(super) fn below(&mut self, limit: u32) -> u32 {
        self.generator.next_u32() % limit.max(1)
    }

    /// One of `count` offsets, from the least on.
    pub(super) fn offset(&mut self, least: i16, count: u32) -> i16 {
        least.saturating_add(i16::try_from(self.below(count)).unwrap_or(0))
    }

    /// One of the choices, or 0 where there is none.
    pub(super) fn pick(&mut self, choices: &[u8]) -> u8 {
        let limit = u32::try_from(choices.len()).unwrap_or(u32::MAX);
        let chosen = usize::try_from(self.below(limit)).unwrap_or(0);
        choices.get(chosen).copied().unwrap_or(0)
    }

    /// A number of 32 bits: a small number, a number next to 0 from below, the least number, or any.
    pub(super) fn immediate(&mut self) -> i32 {
        let low = self.below(16).cast_signed();
        match self.below(8) {
            0..=3 => low,
            4 => low.wrapping_neg(),
            5 => i32::MIN,
            _ => self.generator.next_u32().cast_signed(),
        }
    }

    /// A number of 64 bits, of the same kinds.
    pub(super) fn word(&mut self) -> u64 {
        let low = u64::from(self.below(16));
        match self.below(8) {
            0..=3 => low,
            4 => low.wrapping_neg(),
            5 => 1 << 63,
            _ => self.generator.next_u64(),
        }
    }
}
