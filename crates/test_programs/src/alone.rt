//! Programs that look at no row and write none.

/// Replies 1, and takes no arguments.
pub const ONE: &str = "b700000001000000 9500000000000000";

/// Jumps to the next instruction, a wide load of 1, which it replies.
pub const JUMP_ON: &str = "0500000000000000 18000000010000000000000000000000 9500000000000000";

/// Replies 1, with a jump over the reading of r6, which holds nothing.
pub const SKIP: &str = "b700000001000000 1500010001000000 bf60000000000000 9500000000000000";

/// Replies the eight bytes of its 256 at the place that the first word gives, or 0 from 249 on.
pub const INDEX: &str = "\
    7912000000000000 25020300f8000000 0f21000000000000 7910000000000000 9500000000000000 b700000000000000 \
    9500000000000000";

/// `INDEX` that gives 0 only from 250 on.
pub const INDEX_TOO_FAR: &str = "\
    7912000000000000 25020300f9000000 0f21000000000000 7910000000000000 9500000000000000 b700000000000000 \
    9500000000000000";

/// Sets one of eight zero bytes of the stack to 1, and replies the lowest of the eight. The first byte of the
/// arguments, modulo 8, gives the place.
pub const STORE_WITHIN: &str = "\
    7112000000000000 5702000007000000 bfa3000000000000 0f23000000000000 7a0af8ff00000000 7203f8ff01000000 \
    71a0f8ff00000000 9500000000000000";

/// Replies the number 2^40 - 8 of a wide load, which as an address would be the last eight bytes of the stack.
pub const STACK_WORD: &str = "18000000f8ffffff00000000ff000000 9500000000000000";
