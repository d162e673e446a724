//! The kind of an answer.

ghost use Rattle.std.specs.Prelude.{◌≡◌};
ghost use Rattle.served_replicas.specs.Kinds.{kind_of};

use node_calls::Answer;
use tallies::AnswerKind;

/// The kind under which an answer is counted.
pub fn kind_of(answer: Answer) -> AnswerKind
    ensures { result ≡ kind_of answer }
{
    match answer {
        Answer::Committed { .. } => AnswerKind::Committed,
        Answer::Read { .. } => AnswerKind::Read,
        Answer::Cancelled { .. } => AnswerKind::Cancelled,
        Answer::Conflict { .. } => AnswerKind::Conflict,
        Answer::Stale => AnswerKind::Stale,
        Answer::Repeated { .. } => AnswerKind::Repeated,
        Answer::Behind
        | Answer::NoMemory
        | Answer::Full
        | Answer::NoReplica
        | Answer::Stopped { .. }
        | Answer::Refused(_) => AnswerKind::Other,
    }
}
