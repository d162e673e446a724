//! The steps of a world.

/// A step of a world.
#[derive(Clone, Copy, Debug)]
pub enum Step<'a> {
    /// A call of a procedure, by its number, begins at a replica.
    Begin {
        replica: u32,
        procedure: u16,
        args: &'a [u8],
    },
    /// A call begins that carries a request: of the calls with one request at most one commits.
    BeginNumbered {
        replica: u32,
        procedure: u16,
        args: &'a [u8],
        /// The caller that asks, from 1 on. The number behind it, from 1 on too, tells which of the caller's requests
        /// is meant.
        session: u32,
        sequence: u32,
    },
    /// A call runs one instruction further.
    Turn {
        call: u32,
    },
    /// A call at its end is ordered.
    Order {
        call: u32,
    },
    /// The next entry is delivered to a replica.
    Deliver {
        replica: u32,
    },
    /// A replica is made anew from all entries.
    Rebuild {
        replica: u32,
    },
    /// A procedure is appended to the log, by the bytes of its program; its arguments have `args_len` bytes.
    Add {
        name: &'a [u8],
        number: u16,
        args_len: u16,
        bytes: &'a [u8],
    },
}
