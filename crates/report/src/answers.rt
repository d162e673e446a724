//! The lines of a world's answers.

ghost use Rattle.std.specs.Prelude.{◌≡◌, ℕ, List, Option};
ghost use Rattle.log_model.specs.declared.request.RequestId.{RequestId};
ghost use Rattle.dsm_model.specs.World.{Begin, Turn, Order, Deliver, Rebuild, Add};
ghost use Rattle.program_checks.specs.ProgramCheck.{ProgramCheck};
ghost use Rattle.report.specs.declared.printed.DeliveredEntry.{DeliveredEntry};
ghost use Rattle.report.specs.Answers.{answer_line, call_report, replica_report};

use crate::printed::{CallReport, DeliveredEntry, Line, ReplicaReport};
use dsm_model::Outcome;

/// The line of what the beginning of a call at a replica answered. There is no line for an answer that says neither
/// that the call began nor that it was refused.
pub fn begin_line(replica: u32, outcome: Outcome) -> Option<Line<'static>>
    ensures { (procedure : ℕ) (args : List ℕ) (request : Option RequestId) (entry : DeliveredEntry)
        → result ≡ answer_line (Begin replica procedure args request) outcome entry }
{
    match outcome {
        Outcome::Begun { call, snapshot } => Some(Line::Begun {
            call,
            replica,
            snapshot,
        }),
        Outcome::Refused(refusal) => Some(Line::BeginRefused(refusal)),
        _ => None,
    }
}

/// The line of what the addition of a procedure answered. There is no line for an answer that says neither that the
/// procedure was appended nor that it was refused.
pub fn add_line(outcome: Outcome) -> Option<Line<'static>>
    ensures { (name : List ℕ) (number args_len : ℕ) (checked : ProgramCheck) (entry : DeliveredEntry)
        → result ≡ answer_line (Add name number args_len checked) outcome entry }
{
    match outcome {
        Outcome::Added { position } => Some(Line::Added { position }),
        Outcome::Refused(refusal) => Some(Line::AddRefused(refusal)),
        _ => None,
    }
}

/// The line of what a turn of a call, or the ordering of a call, answered. Every such answer has a line, and an answer
/// that no call gets has none.
pub fn call_line(call: u32, outcome: Outcome) -> Option<Line<'static>>
    ensures turn { (entry : DeliveredEntry) → result ≡ answer_line (Turn call) outcome entry }
    ensures order { (entry : DeliveredEntry) → result ≡ answer_line (Order call) outcome entry }
{
    let report = call_report(outcome)?;
    Some(Line::Call { call, report })
}

/// The line of what a delivery to a replica, or the rebuilding of a replica, answered, with what is said of the
/// delivered entry. Every such answer has a line, and an answer that no replica gets has none.
pub fn replica_line(replica: u32, outcome: Outcome, entry: DeliveredEntry) -> Option<Line<'static>>
    ensures deliver { result ≡ answer_line (Deliver replica) outcome entry }
    ensures rebuild { result ≡ answer_line (Rebuild replica) outcome entry }
{
    let report = replica_report(outcome, entry)?;
    Some(Line::Replica { replica, report })
}

fn call_report(outcome: Outcome) -> Option<CallReport>
    ensures { result ≡ call_report outcome }
{
    Some(match outcome {
        Outcome::More => CallReport::More,
        Outcome::Exit { reply } => CallReport::Exit { reply },
        Outcome::Stale => CallReport::Stale,
        Outcome::NoMemory => CallReport::NoMemory,
        Outcome::Ordered { position } => CallReport::Ordered { position },
        Outcome::Read { snapshot, reply } => CallReport::Read { snapshot, reply },
        Outcome::Cancelled { snapshot, code } => CallReport::Cancelled { snapshot, code },
        Outcome::Refused(refusal) => CallReport::Refused(refusal),
        _ => return None,
    })
}

fn replica_report(outcome: Outcome, entry: DeliveredEntry) -> Option<ReplicaReport>
    ensures { result ≡ replica_report outcome entry }
{
    Some(match outcome {
        Outcome::Delivered { position, verdict } => ReplicaReport::Delivered {
            position,
            verdict,
            entry,
        },
        Outcome::Rebuilt { position } => ReplicaReport::Rebuilt { position },
        Outcome::Refused(refusal) => ReplicaReport::Refused(refusal),
        _ => return None,
    })
}
