//! The limits of a database.

/// The greatest number of a table; the least is 1.
pub const MAX_TABLE: u8 = 64;

/// The most bytes of a row; the fewest are 1.
pub const MAX_WIDTH: u16 = 128;

/// The most bytes of a call's arguments.
pub const MAX_ARGUMENTS: u16 = 256;

/// The most replicas of a world or a node; the fewest are 1.
pub const MAX_REPLICAS: u32 = 8;

/// The most entries that a snapshot may fall behind; the fewest are 1.
pub const MAX_WINDOW: u32 = 4_096;

/// The most executing threads of a replica; the fewest are 1.
pub const MAX_EXECUTORS: u32 = 16;

/// The most entries of a log, and calls and additions of a world.
pub const MAX_LOG: u32 = 1_048_576;
