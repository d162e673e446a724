//! The answers of the world's steps.

ghost use Rattle.std.specs.Prelude.{◌≡◌};
ghost use Rattle.dsm_model.specs.World.{refusal_of_addition, refusal_of_call};

use log_model::{CallRefusal, Verdict};
use program_checks::{AdditionFault, ProgramFault};

/// A cause for which a step is refused. The causes stand in the order of their printed numbers.
#[derive(Clone, Copy, Debug, PartialEq, Eq)]
pub enum StepRefusal {
    NoReplica,
    NoProcedure,
    ArgumentsLength,
    /// The call doesn't exist, or is over.
    NoCall,
    NotAtExit,
    NothingToDeliver,
    ReplicaStopped,
    LogFull,
    NoMemory,
    /// The world has had all its calls and additions.
    TooManyCalls,
    /// An added procedure would have arguments of more than 256 bytes.
    ArgumentsLimit,
    /// The program of an added procedure is refused.
    ProgramRefused(ProgramFault),
    /// An added procedure's name isn't 1 to 32 letters, digits or `_`.
    NameShape,
    /// The session or the number of a request is 0.
    ZeroInRequest,
}

impl From<CallRefusal> for StepRefusal {
    ghost from_gives = { λ refusal step. step ≡ refusal_of_call refusal };

    fn from(refusal: CallRefusal) -> StepRefusal {
        match refusal {
            CallRefusal::NoProcedure => StepRefusal::NoProcedure,
            CallRefusal::ArgumentsLength => StepRefusal::ArgumentsLength,
            CallRefusal::ZeroInRequest => StepRefusal::ZeroInRequest,
        }
    }
}

impl From<AdditionFault> for StepRefusal {
    ghost from_gives = { λ fault step. step ≡ refusal_of_addition fault };

    fn from(fault: AdditionFault) -> StepRefusal {
        match fault {
            AdditionFault::Program(fault) => StepRefusal::ProgramRefused(fault),
            AdditionFault::Name => StepRefusal::NameShape,
        }
    }
}

/// The answer of a step.
#[derive(Clone, Copy, Debug, PartialEq, Eq)]
pub enum Outcome {
    Begun { call: u32, snapshot: u32 },
    More,
    Exit { reply: u64 },
    /// The call is over: the rows of its snapshot are kept no longer.
    Stale,
    /// The call is over: a turn found no memory.
    NoMemory,
    Ordered { position: u32 },
    Read { snapshot: u32, reply: u64 },
    Cancelled { snapshot: u32, code: u64 },
    Delivered { position: u32, verdict: Verdict },
    Rebuilt { position: u32 },
    /// The procedure is appended to the log.
    Added { position: u32 },
    Refused(StepRefusal),
}
