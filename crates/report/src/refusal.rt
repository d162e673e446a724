//! The numbers of refused steps.

ghost use Rattle.std.specs.Prelude.{◌≡◌};
ghost use Rattle.report.specs.Lines.{number_of_step_refusal};

use dsm_model::StepRefusal;

/// The number after the letter P in printed refusals, 1 to 13.
pub fn step_refusal_number(refusal: StepRefusal) -> u8
    ensures { result ≡ number_of_step_refusal refusal }
{
    match refusal {
        StepRefusal::NoReplica => 1,
        StepRefusal::NoProcedure => 2,
        StepRefusal::ArgumentsLength => 3,
        StepRefusal::NoCall => 4,
        StepRefusal::NotAtExit => 5,
        StepRefusal::NothingToDeliver => 6,
        StepRefusal::ReplicaStopped => 7,
        StepRefusal::LogFull => 8,
        StepRefusal::NoMemory => 9,
        StepRefusal::TooManyCalls => 10,
        StepRefusal::ArgumentsLimit | StepRefusal::ProgramRefused(_) => 11,
        StepRefusal::NameShape => 12,
        StepRefusal::ZeroInRequest => 13,
    }
}
