//! What a site knows of sessions.

ghost use Rattle.std.specs.Prelude.{◌≡◌, ◌+◌, ◌<◌, ◌^◌, IfOk, OnOk};
ghost use Rattle.site_model.specs.Sessions.{is_opening, is_superseded, lasts_of, session_cause};
ghost use Rattle.site_model.specs.Sessions.{session_opened, sessions_with};
ghost use Rattle.std.specs.Option.{option_copied};

use crate::lasts::{LastRequests, done_by, lasts_of};
use catalogue::DoneRequest;
use log_model::RequestId;
use site_model::{EntryOutcome, NothingCause, Origin};
use std::alloc::{AllocError, Allocator, Global};
use std::marker::Model;

/// The sessions that an order opened, and what each session has done last. Contracts see both.
#[derive(Drop)]
pub struct Sessions<A: Allocator = Global> {
    /// The number of sessions that the order opened.
    pub opened: u32,
    /// The last request of each session, in the order or before.
    pub lasts: LastRequests<A>,
}

impl<A: Allocator> Model for Sessions<A> {
    ghost use Rattle.site_model.specs.Sessions.{Sessions};
    ghost use Rattle.site.specs.Replica.{sessions_code};

    ghost Value = { Sessions };

    ghost coded = { sessions_code };

    ghost view = { λ s. record { opened = s.opened; lasts = s.lasts } };
}

/// Tells whether bytes have the shape of those that open a session.
fn is_opening(bytes: &[u8]) -> bool
    ensures { result ≡ is_opening bytes.now }
{
    match bytes {
        [0, 2, more @ ..] => more.len() == 16,
        _ => false,
    }
}

/// Tells whether a session, by its last request, has done a request of a greater number.
pub(crate) fn is_superseded<A: Allocator>(last: Option<&DoneRequest<A>>, request: RequestId) -> bool
    ensures { result ≡ is_superseded (option_copied last.entry) request }
{
    match last {
        Some(last) => request.sequence < last.request().sequence,
        None => false,
    }
}

impl<A: Allocator + Copy> Sessions<A> {
    /// The sessions before an order of this origin, by the requests that were done before. Their arguments are copied.
    pub(crate) fn before<P: Allocator>(
        alloc: A,
        origin: Option<Origin>,
        done: &[DoneRequest<P>],
    ) -> Result<Sessions<A>, AllocError>
        ensures { IfOk result (λ s. s ≡ record { opened = 0; lasts = lasts_of origin done.now }) }
    {
        let lasts = lasts_of(alloc, origin, done)?;
        Ok(Sessions { opened: 0, lasts })
    }

    /// Returns the number of the session that bytes at the next position open.
    pub(crate) fn opened_by(&self, origin: Option<Origin>, bytes: &[u8]) -> Option<u32>
        ensures { result ≡ session_opened origin self.now.opened bytes.now }
    {
        let origin = origin?;
        if !is_opening(bytes) {
            return None;
        }
        origin.sessions.checked_add(self.opened)?.checked_add(1)
    }

    /// Returns why a call with this request can't be taken in an order of this origin, for its session's sake.
    pub(crate) fn cause(
        &self,
        origin: Option<Origin>,
        request: Option<RequestId>,
    ) -> Option<NothingCause>
        ensures { result ≡ session_cause origin self.now request }
    {
        let (Some(_), Some(request)) = (origin, request) else {
            return None;
        };
        let Some(last) = self.lasts.last(request.session) else {
            return Some(NothingCause::UnknownSession);
        };
        if is_superseded(Some(last), request) {
            return Some(NothingCause::Superseded);
        }
        None
    }

    /// Takes bytes that came to this outcome.
    pub(crate) fn note(
        &mut self,
        alloc: A,
        bytes: &[u8],
        outcome: EntryOutcome,
    ) -> Result<(), AllocError>
        requires room { self.old.opened + 1 < 2 ^ 32 }
        ensures { OnOk result (self.new ≡ sessions_with self.old bytes.now outcome) }
    {
        if let EntryOutcome::Session(_) = outcome {
            self.opened += 1;
        }
        match done_by(alloc, bytes, outcome)? {
            Some(done) => self.lasts.note(done),
            None => Ok(()),
        }
    }
}
