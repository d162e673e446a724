//! A session.

ghost use Rattle.std.specs.Prelude.{◌≡◌, max, Some, None};
ghost use Rattle.node.specs.Requests.{IsHeard};
ghost use Rattle.session.specs.Session.{position_told};

use locked_replica::{LogSetting, OrderedEntries};
use log_model::RequestId;
use node::Desk;
use node_calls::{Answer, Gate};
use order_log::{Fact, Seen};
use std::marker::Model;
use std::sync::Wait;
use tallies::Ledgers;

/// A session of a caller. Contracts see what it keeps: the position of the log that its next call sees at least.
///
/// ```text
/// let mut session = Session::new(node.desk());
/// match session.call(rt, 1, 1, &args).0 {
///     Answer::Committed { position, reply } => { /* it is entry `position` of the order */ }
///     _ => { /* docs/EMBEDDING.md says what to do */ }
/// }
/// ```
#[derive(Drop)]
pub struct Session<'a, J: LogSetting + Ledgers, G: Gate>
where
    OrderedEntries<J>: Fact,
{
    desk: &'a Desk<J, G>,
    position: u32,
}

impl<'a, J: LogSetting + Ledgers, G: Gate> Model for Session<'a, J, G>
where
    OrderedEntries<J>: Fact,
{
    ghost use Rattle.session.specs.Session.{SessionState};

    ghost Value = { SessionState };

    ghost view = { λ s. record { replicas = s.desk.now.replicas; position = s.position } };

    ghost invariant = { λ s. Unit {0} };
}

impl<
    'a,
    J: LogSetting + Ledgers + Send + Sync + 'static,
    G: Gate + Drop + Send + Sync + 'static,
> Session<'a, J, G> {
    /// Makes a session that has seen nothing yet.
    pub fn new(desk: &'a Desk<J, G>) -> Session<'a, J, G>
        ensures replicas { result.replicas ≡ desk.now.replicas }
        ensures position { result.position ≡ 0 }
    {
        Session { desk, position: 0 }
    }

    /// The position of the log up to which the session's next call sees at least.
    pub fn position(&self) -> u32
        ensures { result ≡ self.now.position }
    {
        self.position
    }

    /// Makes a call of a procedure at a replica, and returns the answer. The call sees no less of the log than the
    /// session has seen.
    pub fn call<R: Wait>(
        &mut self,
        rt: &R,
        replica: u32,
        procedure: u16,
        args: &[u8],
    ) -> (Answer, Option<Seen<J>>)
        ensures answer { IsHeard J.setting self.old.replicas replica
            (record {
              least = self.old.position;
              procedure = procedure;
              args = args.now;
              request = None;
            }) result.0 result.1 }
        ensures kept { self.new.position ≡ max self.old.position (position_told result.0) }
        ensures replicas { self.new.replicas ≡ self.old.replicas }
    {
        let (answer, seen) = self
            .desk
            .execute(rt, replica, self.position, procedure, args);
        self.position = self.position.max(position_told(answer));
        (answer, seen)
    }

    /// Makes a call with a request id, and returns the answer. The call may be made again at any replica: at most one
    /// of the calls that share a request id commits.
    pub fn call_numbered<R: Wait>(
        &mut self,
        rt: &R,
        replica: u32,
        procedure: u16,
        args: &[u8],
        request: RequestId,
    ) -> (Answer, Option<Seen<J>>)
        ensures answer { IsHeard J.setting self.old.replicas replica
            (record {
              least = self.old.position;
              procedure = procedure;
              args = args.now;
              request = Some request;
            }) result.0 result.1 }
        ensures kept { self.new.position ≡ max self.old.position (position_told result.0) }
        ensures replicas { self.new.replicas ≡ self.old.replicas }
    {
        let (answer, seen) = self
            .desk
            .execute_numbered(rt, replica, self.position, procedure, args, request);
        self.position = self.position.max(position_told(answer));
        (answer, seen)
    }
}

/// The position that an answer tells: of the entry of an ordered call whose verdict is known, or of the snapshot of
/// another call. An answer about a stale call, about a stopped replica, or about a call that wasn't run tells none.
fn position_told(answer: Answer) -> u32
    ensures { result ≡ position_told answer }
{
    match answer {
        Answer::Committed { position, .. }
        | Answer::Conflict { position, .. }
        | Answer::Repeated { position, .. } => position,
        Answer::Read { snapshot, .. } | Answer::Cancelled { snapshot, .. } => snapshot,
        Answer::Stale
        | Answer::Behind
        | Answer::NoMemory
        | Answer::Full
        | Answer::NoReplica
        | Answer::Stopped { .. }
        | Answer::Refused(_) => 0,
    }
}
