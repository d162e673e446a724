//! Calls that were asked for, and whose answers are heard later.

ghost use Rattle.std.specs.Prelude.{◌≡◌};
ghost use Rattle.node.specs.Requests.{AreHeard};

use crate::desk::{Answered, Desk};
use locked_replica::{LogSetting, OrderedEntries};
use node_calls::Gate;
use order_log::Fact;
use served_replicas::{CallRequest, Calls};
use std::marker::Model;
use std::sync::{Arc, Wait};
use tallies::Ledgers;

/// Calls that were asked for at a replica of a node. Contracts see the number of replicas, the replica's number and what
/// was asked for. Where it is dropped, the calls run all the same, and nobody hears the answers.
#[derive(Drop)]
pub struct PendingCalls<'a, J: LogSetting + Ledgers, G: Gate>
where
    OrderedEntries<J>: Fact,
{
    pub(crate) desk: &'a Desk<J, G>,
    pub(crate) replica: u32,
    pub(crate) requests: &'a [CallRequest<'a>],
    /// The calls that were sent, and none where none was.
    pub(crate) calls: Option<Arc<Calls<J>>>,
    /// Room for the answers.
    pub(crate) answers: Vec<Answered<J>>,
}

impl<'a, J: LogSetting + Ledgers, G: Gate> Model for PendingCalls<'a, J, G>
where
    OrderedEntries<J>: Fact,
{
    ghost use Rattle.std.specs.Prelude.{◌≡◌, ◌≤◌, vec_len, vec_capacity, length};
    ghost use Rattle.node.specs.Nodes.{PendingState};

    ghost Value = { PendingState };

    ghost view = { λ p. record { replicas = p.desk.now.replicas; replica = p.replica; requests = p.requests.now } };

    ghost invariant = { λ p. (vec_len p.answers ≡ 0) × (length p.requests.now ≤ vec_capacity p.answers) };
}

impl<
    'a,
    J: LogSetting + Ledgers + Send + Sync + 'static,
    G: Gate + Drop + Send + Sync + 'static,
> PendingCalls<'a, J, G> {
    /// Waits for all answers, and returns them in the order of the calls.
    pub fn hear<R: Wait>(self, rt: &R) -> Vec<Answered<J>>
        ensures { AreHeard J.setting self.entry.replicas self.entry.replica self.entry.requests result.items }
    {
        let PendingCalls {
            desk,
            replica,
            requests,
            calls,
            mut answers,
        } = self;
        let calls = calls.as_deref();
        if let Some(calls) = calls {
            calls.wait(rt);
        }
        for (place, request) in requests.iter().enumerate() {
            answers.push_reserved(desk.answer_at(rt, calls, place, replica, request));
        }
        answers
    }
}
