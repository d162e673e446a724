//! Ranges by their ends, and the ends that rows of tables have often.
use interval::Range;

/// The range between two words, both included.
pub(super) fn range([lo, hi]: [u64; 2]) -> Range {
    Range::single(lo).join(Range::single(hi))
}

pub(super) const ALL: u64 = 0xffff_ffff_ffff_ffff;

pub(super) const TOP: u64 = 0x8000_0000_0000_0000;

pub(super) const BELOW_TOP: u64 = 0x7fff_ffff_ffff_ffff;

pub(super) const WIDE: u64 = 0x1_0000_0000;

pub(super) const LOW: u64 = 0xffff_ffff;

pub(super) const MIDDLE: u64 = 0x8000_0000;

pub(super) const BELOW_MIDDLE: u64 = 0x7fff_ffff;
