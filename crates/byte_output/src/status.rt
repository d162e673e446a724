//! Exit statuses.

/// The exit status where a file, a stream or memory failed.
pub const FAILED: u8 = 3;
