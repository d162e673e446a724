//! The answer to a call.

ghost use Rattle.script_run.specs.Answered.{IsTold, IsUnnamed};

use crate::planned::PlannedCall;
use locked_replica::LogSetting;
use log_model::CallRefusal;
use node::Desk;
use node_calls::{Answer, OpenGate};
use order_log::Seen;
use std::sync::Wait;
use tallies::Ledgers;

/// Returns the answer to a call, and what its caller has seen of the log then. The node isn't asked where no procedure
/// has the call's name.
pub(crate) fn answer_to<J: LogSetting + Ledgers + Send + Sync + 'static, R: Wait>(
    rt: &R,
    desk: &Desk<J, OpenGate>,
    planned: &PlannedCall<J>,
) -> (Answer, Option<Seen<J>>)
    ensures { IsTold J.setting desk.now.replicas planned.now.call result.0 result.1 }
{
    let call = &planned.call;
    let Some(procedure) = planned.procedure else {
        return (unnamed(desk.replicas(), call.replica), None);
    };
    let args = call.args.as_slice();
    match call.request {
        Some(request) => desk.execute_numbered(rt, call.replica, 0, procedure, args, request),
        None => desk.execute(rt, call.replica, 0, procedure, args),
    }
}

/// Returns the answer to a call whose name no procedure has.
fn unnamed(replicas: usize, replica: u32) -> Answer
    ensures { IsUnnamed replicas replica result }
{
    if replica == 0 || replica as usize > replicas {
        Answer::NoReplica
    } else {
        Answer::Refused(CallRefusal::NoProcedure)
    }
}
