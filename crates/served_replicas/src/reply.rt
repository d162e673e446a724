//! A caller's request, and an executing thread's reply.

ghost use Rattle.std.specs.Prelude.{◌≡◌, IfSome, IsTrue, IfOk};
ghost use Rattle.tallies.specs.Counted.{no_counts, one_more};
ghost use Rattle.node_calls.specs.Answer.{IsAnswer};
ghost use Rattle.served_replicas.specs.Kinds.{kind_of};

use locked_replica::LogSetting;
use log_model::RequestId;
use node_calls::{Answer, Asked};
use order_log::Seen;
use row_sets::Bytes;
use std::alloc::{AllocError, Allocator, Global};
use std::marker::Model;
use tallies::{Ledgers, Parts};

/// A call that a caller asks for. Contracts see the arguments as a list of bytes.
#[derive(Drop)]
pub struct CallRequest<'a> {
    /// The position of the log up to which the call has to see at least.
    pub least: u32,
    /// The procedure's number.
    pub procedure: u16,
    pub args: &'a [u8],
    pub request: Option<RequestId>,
}

impl<'a> Model for CallRequest<'a> {
    ghost use Rattle.node_calls.specs.Asked.{AskedCall, asked_code};

    ghost Value = { AskedCall };

    ghost coded = { asked_code };

    ghost view = { λ c. record { least = c.least; procedure = c.procedure; args = c.args.now; request = c.request } };
}

impl CallRequest<'_> {
    /// Copies what is asked for, as an executing thread takes it.
    pub fn asked<P: Allocator + Copy>(&self, alloc: P) -> Result<Asked<P>, AllocError>
        ensures { IfOk result (λ asked. asked ≡ self.now) }
    {
        Ok(Asked {
            least: self.least,
            procedure: self.procedure,
            args: Bytes::new(Vec::from_slice(alloc, self.args)?),
            request: self.request,
        })
    }

    /// Tells whether a call is the one that was asked for.
    fn is<P: Allocator + Copy>(&self, asked: &Asked<P>) -> bool
        ensures { IsTrue result → asked.now ≡ self.now }
    {
        let same_place = asked.least == self.least && asked.procedure == self.procedure;
        let same_args = asked.args.as_slice() == self.args;
        let same_request = asked.request == self.request;
        same_place && same_args && same_request
    }
}

/// A reply: it names what was asked, and at which replica. It holds the part of a ledger that shows that the answer was
/// counted, under its kind. Contracts see all else of it.
#[derive(Drop)]
pub struct Reply<J: LogSetting + Ledgers, P: Allocator + Copy = Global> {
    replica: u32,
    asked: Asked<P>,
    answer: Answer,
    seen: Option<Seen<J, P>>,
    part: Parts<J>,
}

impl<J: LogSetting + Ledgers, P: Allocator + Copy> Model for Reply<J, P> {
    ghost use Rattle.served_replicas.specs.Replies.{ReplyState, reply_code};
    ghost use Rattle.std.specs.Prelude.{◌≡◌};
    ghost use Rattle.node_calls.specs.Answer.{IsAnswer};
    ghost use Rattle.tallies.specs.Counted.{no_counts, one_more};
    ghost use Rattle.served_replicas.specs.Kinds.{kind_of};

    ghost Value = { ReplyState P };

    ghost coded = { reply_code };

    ghost view = { λ r. record { replica = r.replica; asked = r.asked; answer = r.answer; seen = r.seen } };

    ghost invariant = { λ r. IsAnswer J.setting r.asked r.answer r.seen × (r.part ≡ one_more (kind_of r.answer) no_counts) };
}

impl<J: LogSetting + Ledgers, P: Allocator + Copy> Reply<J, P> {
    /// Makes a reply of an answer to what was asked at a replica, once the answer is counted.
    pub fn new(
        replica: u32,
        asked: Asked<P>,
        answer: Answer,
        seen: Option<Seen<J, P>>,
        part: Parts<J>,
    ) -> Reply<J, P>
        requires answer { IsAnswer J.setting asked answer seen }
        requires counted { part ≡ one_more (kind_of answer) no_counts }
        ensures { result ≡ record { replica = replica; asked = asked; answer = answer; seen = seen } }
    {
        Reply {
            replica,
            asked,
            answer,
            seen,
            part,
        }
    }

    /// Returns the answer, where this call was asked, at this replica.
    pub fn answer_to(
        self,
        replica: u32,
        request: &CallRequest<'_>,
    ) -> Option<(Answer, Option<Seen<J, P>>)>
        ensures replica { IfSome result (λ _. self.replica ≡ replica) }
        ensures same { IfSome result (λ r. (r.0 ≡ self.answer) × (r.1 ≡ self.seen)) }
        ensures answer { IfSome result (λ r. IsAnswer J.setting request.now r.0 r.1) }
    {
        if self.replica != replica || !request.is(&self.asked) {
            return None;
        }
        Some((self.answer, self.seen))
    }
}
