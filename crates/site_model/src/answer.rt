//! The answer of a site to a caller.

use log_model::CallRefusal;
use program_checks::ProgramFault;

/// The outcome of a call that a site runs on its rows. `E` is what is to be ordered.
#[derive(Clone, Copy, Debug, PartialEq, Eq)]
pub enum CallAnswer<E> {
    /// The call can't run.
    Refused(CallRefusal),
    /// The session of the call's request isn't known, or has done a request of a greater number. No call is answered so
    /// where the order opens no sessions.
    OutOfSession,
    /// The request was done at this position, by the committed call there or at 0 before the order, with this reply.
    Repeated { position: u32, reply: u64 },
    /// The call cancelled on the rows at this position, with this code.
    Cancelled { position: u32, code: u64 },
    /// The call wrote nothing on the rows at this position, and gave this reply.
    Read { position: u32, reply: u64 },
    /// The call commits where it is ordered, unless a key that it looked at is written before. A call that has become
    /// stale, or whose request has committed, doesn't commit.
    Submitted(E),
}

/// A cause for which a procedure can't be added.
#[derive(Clone, Copy, Debug, PartialEq, Eq)]
pub enum AdditionRefusal {
    /// The procedure's bytes aren't a program that the verifier accepts.
    Program(ProgramFault),
    /// The procedure's name hasn't the shape of a name.
    Name,
    /// The order takes no additions.
    NoAdditions,
}

/// The outcome of a procedure that is to be added. `E` is what is to be ordered.
#[derive(Clone, Copy, Debug, PartialEq, Eq)]
pub enum AdditionAnswer<E> {
    /// The procedure can't be added.
    Refused(AdditionRefusal),
    /// The procedure is added where it is ordered, unless a procedure has its name or its number by then.
    Submitted(E),
}
