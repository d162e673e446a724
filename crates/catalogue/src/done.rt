//! Requests that were done before the log.

ghost use Rattle.std.specs.Prelude.{◌≡◌, ◌++◌, [], ◌∷◌, ℕ, List, OnOk, OnErr};
ghost use Rattle.log_model.specs.Log.{reply_done};
ghost use Rattle.catalogue.specs.Fault.{is_next_session};

use log_model::RequestId;
use row_sets::Bytes;
use std::alloc::{AllocError, Allocator, Global};
use std::marker::Model;

/// A request that was done before the log: the last of its session, with the reply, the number of the procedure and
/// the arguments. A session that has done nothing has the number 0, which no call carries. Contracts see all of this.
#[derive(Drop)]
pub struct DoneRequest<A: Allocator = Global> {
    request: RequestId,
    reply: u64,
    procedure: u16,
    args: Bytes<A>,
}

impl<A: Allocator> Model for DoneRequest<A> {
    ghost use Rattle.log_model.specs.Log.{DoneRequest};
    ghost use Rattle.log_model.specs.Codes.{done_code};

    ghost Value = { DoneRequest };

    ghost coded = { done_code };

    ghost view = { λ d. record { request = d.request; reply = d.reply; procedure = d.procedure; args = d.args } };
}

impl<A: Allocator> DoneRequest<A> {
    /// A request that was done with this reply, by a call of this procedure.
    pub fn new(request: RequestId, reply: u64, procedure: u16, args: Vec<u8, A>) -> DoneRequest<A>
        ensures { result ≡ record { request = request; reply = reply; procedure = procedure; args = args.items } }
    {
        DoneRequest {
            request,
            reply,
            procedure,
            args: Bytes::new(args),
        }
    }

    /// The session and the number within it.
    pub fn request(&self) -> RequestId
        ensures { result ≡ self.now.request }
    {
        self.request
    }

    /// The reply of the call.
    pub fn reply(&self) -> u64
        ensures { result ≡ self.now.reply }
    {
        self.reply
    }

    /// The number of the call's procedure.
    pub fn procedure(&self) -> u16
        ensures { result ≡ self.now.procedure }
    {
        self.procedure
    }

    /// The arguments of the call.
    pub fn args(&self) -> &[u8]
        ensures { result.now ≡ self.now.args }
    {
        self.args.as_slice()
    }
}

/// Requests that were done before the log, by session. Contracts see their list.
#[derive(Drop)]
pub struct DoneRequests<A: Allocator = Global> {
    requests: Vec<DoneRequest<A>, A>,
}

impl<A: Allocator> Model for DoneRequests<A> {
    ghost use Rattle.std.specs.Coded.{coded_list};
    ghost use Rattle.std.specs.Prelude.{List};
    ghost use Rattle.log_model.specs.Log.{DoneRequest};
    ghost use Rattle.log_model.specs.Codes.{done_code};

    ghost Value = { List DoneRequest };

    ghost coded = { coded_list done_code };

    ghost view = { λ d. d.requests.items };
}

/// The reply of a request, where it was done.
fn reply_in<A: Allocator>(done: &[DoneRequest<A>], request: Option<RequestId>) -> Option<u64>
    ensures { result ≡ reply_done done.now request }
{
    for one in done {
        if request == Some(one.request()) {
            return Some(one.reply());
        }
    }
    None
}

/// Tells whether a session is behind that of the last of these requests.
fn is_next<A: Allocator>(done: &[DoneRequest<A>], session: u32) -> bool
    ensures { result ≡ is_next_session done.now session }
{
    match done.last() {
        Some(last) => last.request().session < session,
        None => true,
    }
}

impl<A: Allocator> DoneRequests<A> {
    /// No requests. Takes no memory.
    pub fn new(alloc: A) -> DoneRequests<A>
        ensures { result ≡ [] }
    {
        DoneRequests {
            requests: Vec::new(alloc),
        }
    }

    /// Tells whether a session is behind that of the last request, if there is one.
    pub fn is_next(&self, session: u32) -> bool
        ensures { result ≡ is_next_session self.now session }
    {
        is_next(&self.requests, session)
    }

    /// Adds a request behind the others.
    pub fn add(&mut self, done: DoneRequest<A>) -> Result<(), AllocError>
        ensures added { OnOk result (self.new ≡ self.old ++ done ∷ []) }
        ensures unchanged { OnErr result (self.new ≡ self.old) }
    {
        self.requests.push(done)?;
        Ok(())
    }

    /// The reply of a request, where it was done. The search takes as long as there are sessions.
    pub fn reply(&self, request: Option<RequestId>) -> Option<u64>
        ensures { result ≡ reply_done self.now request }
    {
        reply_in(&self.requests, request)
    }

    /// The requests in order of entry.
    pub fn requests(&self) -> &[DoneRequest<A>]
        ensures { result.now ≡ self.now }
    {
        &self.requests
    }
}
