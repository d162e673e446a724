//! A call that begins.

ghost use Rattle.std.specs.Prelude.{◌≡◌};
ghost use Rattle.std.specs.Arc.{arc_value};
ghost use Rattle.locked_replica.specs.Begun.{IsBegun};

use crate::fact::LogSetting;
use bpf_verify::Accepted;
use order_log::Seen;
use std::alloc::{Allocator, Global};
use std::marker::Model;
use std::sync::Arc;

/// A call that begins: what the call has seen of the log, whose rows the call reads, and the program of its procedure
/// after that. Only a replica makes such a call. Contracts see what the call has seen, the procedure's number and the
/// program.
#[derive(Drop)]
pub struct BegunCall<J: LogSetting, P: Allocator + Copy = Global> {
    seen: Seen<J, P>,
    procedure: u16,
    accepted: Arc<Accepted<P, P>, P>,
}

impl<J: LogSetting, P: Allocator + Copy> Model for BegunCall<J, P> {
    ghost use Rattle.std.specs.Arc.{arc_value};
    ghost use Rattle.locked_replica.specs.Begun.{BegunState, begun_code, IsBegun};

    ghost Value = { BegunState P };

    ghost coded = { begun_code };

    ghost view = { λ b. record { entries = b.seen; procedure = b.procedure; accepted = arc_value b.accepted } };

    ghost invariant = { λ b. IsBegun J.setting
        (record { entries = b.seen; procedure = b.procedure; accepted = arc_value b.accepted }) };
}

impl<J: LogSetting, P: Allocator + Copy> BegunCall<J, P> {
    /// A call of a procedure that was found after what was seen.
    pub(crate) fn new(
        seen: Seen<J, P>,
        procedure: u16,
        accepted: Arc<Accepted<P, P>, P>,
    ) -> BegunCall<J, P>
        requires { IsBegun J.setting
            (record { entries = seen; procedure = procedure; accepted = arc_value accepted }) }
        ensures { result ≡ record { entries = seen; procedure = procedure; accepted = arc_value accepted } }
    {
        BegunCall {
            seen,
            procedure,
            accepted,
        }
    }

    /// Returns what the call has seen of the log.
    pub fn seen(&self) -> &Seen<J, P>
        ensures { result.now ≡ self.now.entries }
    {
        &self.seen
    }

    /// The procedure's number.
    pub fn procedure(&self) -> u16
        ensures { result ≡ self.now.procedure }
    {
        self.procedure
    }

    /// The program, as it was accepted.
    pub fn accepted(&self) -> &Accepted<P, P>
        ensures { result.now ≡ self.now.accepted }
    {
        &self.accepted
    }

    /// A call has seen entries of a log, and its program is the procedure's program after these entries.
    pub fn is_of_the_log(&self)
        ensures { IsBegun J.setting self.now }
    {
        // A part is looked at, so that it is known how they fit together.
        let _ = &self.seen;
    }
}
