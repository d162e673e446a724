//! The kinds of outcomes, to be counted.

use dsm_model::{Outcome, StepRefusal};
use log_model::{Identifier, Verdict};

/// The number of kinds of outcomes.
pub const KINDS: usize = 30;

/// Returns the place at which an outcome is counted.
pub(crate) fn kind_of(outcome: Outcome) -> usize {
    match outcome {
        Outcome::Begun { .. } => 0,
        Outcome::More => 1,
        Outcome::Exit { .. } => 2,
        Outcome::Stale => 3,
        Outcome::NoMemory => 4,
        Outcome::Ordered { .. } => 5,
        Outcome::Delivered { verdict, .. } => kind_of_verdict(verdict),
        Outcome::Rebuilt { .. } => 12,
        Outcome::Read { .. } => 13,
        Outcome::Cancelled { .. } => 14,
        Outcome::Added { .. } => 15,
        Outcome::Refused(refusal) => kind_of_refusal(refusal),
    }
}

fn kind_of_verdict(verdict: Verdict) -> usize {
    match verdict {
        Verdict::Commit => 6,
        Verdict::Conflict(_) => 7,
        Verdict::Stale => 8,
        Verdict::Repeated(_) => 9,
        Verdict::Taken(Identifier::Name) => 10,
        Verdict::Taken(Identifier::Number) => 11,
    }
}

fn kind_of_refusal(refusal: StepRefusal) -> usize {
    match refusal {
        StepRefusal::NoReplica => 16,
        StepRefusal::NoProcedure => 17,
        StepRefusal::ArgumentsLength => 18,
        StepRefusal::NoCall => 19,
        StepRefusal::NotAtExit => 20,
        StepRefusal::NothingToDeliver => 21,
        StepRefusal::ReplicaStopped => 22,
        StepRefusal::LogFull => 23,
        StepRefusal::NoMemory => 24,
        StepRefusal::TooManyCalls => 25,
        StepRefusal::ArgumentsLimit => 29,
        StepRefusal::ProgramRefused(_) => 26,
        StepRefusal::NameShape => 27,
        StepRefusal::ZeroInRequest => 28,
    }
}
