//! What each session has done last.

ghost use Rattle.std.specs.Prelude.{◌≡◌, ◌<◌, ◌^◌, length, OnOk, IfOk};
ghost use Rattle.std.specs.Option.{option_copied};
ghost use Rattle.std.specs.FinMap.{empty, get};
ghost use Rattle.log_entry.specs.Head.{head_of};
ghost use Rattle.site_model.specs.Next.{requests_of};
ghost use Rattle.site_model.specs.Sessions.{done_by, lasts_of, nothing_done, told_of, with_done};

use crate::sessions::is_superseded;
use catalogue::DoneRequest;
use log_entry::{EntryHead, head_of};
use log_model::RequestId;
use site_model::{EntryOutcome, Origin};
use std::alloc::{AllocError, Allocator, Global};
use std::collections::BTreeMap;
use std::collections::btree_map::Values;
use std::marker::Model;

/// The request of the greatest number that each session has done, by session. Contracts see a finite map.
#[derive(Drop)]
pub struct LastRequests<A: Allocator = Global> {
    requests: BTreeMap<u32, DoneRequest<A>, A>,
}

impl<A: Allocator> Model for LastRequests<A> {
    ghost use Rattle.std.specs.Coded.{coded_ℕ};
    ghost use Rattle.std.specs.FinMap.{code, from_sorted};
    ghost use Rattle.std.specs.BTreeMap.{IsOrdered};
    ghost use Rattle.std.specs.Ordering.{nat_cmp};
    ghost use Rattle.log_model.specs.Codes.{done_code};
    ghost use Rattle.site_model.specs.Sessions.{LastRequests};

    ghost Value = { LastRequests };

    ghost coded = { code coded_ℕ done_code };

    ghost view = { λ l. from_sorted l.requests.entries };

    ghost invariant = { λ l. IsOrdered nat_cmp l.requests };
}

impl<A: Allocator + Copy> LastRequests<A> {
    /// No requests. Takes no memory.
    pub(crate) fn new(alloc: A) -> LastRequests<A>
        ensures { result ≡ empty }
    {
        LastRequests {
            requests: BTreeMap::new(alloc),
        }
    }

    /// The last request of a session, where there is one.
    pub fn last(&self, session: u32) -> Option<&DoneRequest<A>>
        ensures { option_copied result ≡ get self.now session }
    {
        self.requests.get(&session)
    }

    /// The last request of each session, by session.
    pub fn requests(&self) -> Values<'_, u32, DoneRequest<A>>
        ensures requests { result ≡ requests_of self.now }
        // The requests can be counted.
        ensures few { length result < 2 ^ 63 }
    {
        self.requests.values()
    }

    /// Takes one more request that was done.
    pub(crate) fn note(&mut self, done: DoneRequest<A>) -> Result<(), AllocError>
        ensures noted { OnOk result (self.new ≡ with_done self.old done) }
    {
        let request = done.request();
        if is_superseded(self.last(request.session), request) {
            return Ok(());
        }
        self.requests.insert(request.session, done)?;
        Ok(())
    }
}

/// What a request that was done before an order of this origin tells of its session. The arguments are copied.
fn told_of<A: Allocator + Copy, P: Allocator>(
    alloc: A,
    origin: Option<Origin>,
    done: &DoneRequest<P>,
) -> Result<DoneRequest<A>, AllocError>
    ensures { IfOk result (λ told. told ≡ told_of origin done.now) }
{
    let request = done.request();
    if origin.is_some() && request.sequence == 0 {
        return Ok(nothing_done(alloc, request.session));
    }
    let args = Vec::from_slice(alloc, done.args())?;
    Ok(DoneRequest::new(request, done.reply(), done.procedure(), args))
}

/// The last requests before an order of this origin, of those that were done. Their arguments are copied.
pub(crate) fn lasts_of<A: Allocator + Copy, P: Allocator>(
    alloc: A,
    origin: Option<Origin>,
    done: &[DoneRequest<P>],
) -> Result<LastRequests<A>, AllocError>
    ensures { IfOk result (λ lasts. lasts ≡ lasts_of origin done.now) }
{
    let mut lasts = LastRequests::new(alloc);
    for one in done {
        lasts.note(told_of(alloc, origin, one)?)?;
    }
    Ok(lasts)
}

/// The last request of a session that has done nothing. Takes no memory.
fn nothing_done<A: Allocator>(alloc: A, session: u32) -> DoneRequest<A>
    ensures { result ≡ nothing_done session }
{
    let request = RequestId {
        session,
        sequence: 0,
    };
    DoneRequest::new(request, 0, 0, Vec::new(alloc))
}

/// What a byte string has done of a session. It opened the session, or is a call with a request that committed.
pub(crate) fn done_by<A: Allocator + Copy>(
    alloc: A,
    bytes: &[u8],
    outcome: EntryOutcome,
) -> Result<Option<DoneRequest<A>>, AllocError>
    ensures { IfOk result (λ done. done ≡ done_by outcome (head_of bytes.now)) }
{
    if let EntryOutcome::Session(session) = outcome {
        return Ok(Some(nothing_done(alloc, session)));
    }
    let EntryOutcome::Committed(reply) = outcome else {
        return Ok(None);
    };
    let Some(EntryHead::Call(call)) = head_of(bytes) else {
        return Ok(None);
    };
    let Some(request) = call.request else {
        return Ok(None);
    };
    let args = Vec::from_slice(alloc, call.args)?;
    Ok(Some(DoneRequest::new(request, reply, call.procedure, args)))
}
