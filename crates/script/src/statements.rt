//! The statements of lines.

use crate::procedure_fields::ProcedureFields;
use crate::request_fields::RequestFields;

/// A statement of a line: the line sets something, or it acts. Names, programs and arguments are a `B`.
#[derive(Drop)]
pub enum Statement<B> {
    Setting(Setting<B>),
    Action(Action<B>),
}

/// A setting of a line.
#[derive(Drop)]
pub enum Setting<B> {
    /// The window, 1 to 4,096.
    Window(u32),
    /// The number of replicas, 1 to 8.
    Replicas(u32),
    /// The number of a table, and the width of its rows.
    Table { table: u8, width: u16 },
    Procedure(ProcedureFields<B>),
    /// A row that is there at first.
    Row { table: u8, key: u64, row: B },
    /// A request that was done before.
    Request(RequestFields<B>),
    /// The number of byte strings that came before the order of a site, and the greatest number of their sessions.
    Origin { strings: u64, sessions: u32 },
}

/// An action of a line: a step of a world, or a print of it.
#[derive(Drop)]
pub enum Action<B> {
    Begin {
        replica: u32,
        name: B,
        args: B,
    },
    /// A call that carries a request, whose session and sequence number are at least 1.
    BeginNumbered {
        replica: u32,
        name: B,
        args: B,
        session: u32,
        sequence: u32,
    },
    /// A procedure for the log.
    Add(ProcedureFields<B>),
    /// A turn of at most `most` instructions of a call, which is at least 1.
    Turn {
        call: u32,
        most: u32,
    },
    Exec {
        call: u32,
    },
    Order {
        call: u32,
    },
    /// A delivery of at most `most` entries to a replica, which is at least 1.
    Deliver {
        replica: u32,
        most: u32,
    },
    Rows {
        replica: u32,
    },
    Log,
    Entry {
        position: u32,
    },
    Rebuild {
        replica: u32,
    },
}
