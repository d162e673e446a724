//! The numbers of causes and refusals.

ghost use Rattle.std.specs.Prelude.{◌≡◌};
ghost use Rattle.site_report.specs.Answers.{number_of_call_refusal, number_of_nothing};

use log_model::CallRefusal;
use site_model::NothingCause;

/// The number after the letter E in printed answers, 1 to 7.
pub fn nothing_number(cause: NothingCause) -> u8
    ensures { result ≡ number_of_nothing cause }
{
    match cause {
        NothingCause::Unreadable => 1,
        NothingCause::Addition => 2,
        NothingCause::Snapshot => 3,
        NothingCause::Procedure => 4,
        NothingCause::Untrue => 5,
        NothingCause::Superseded => 6,
        NothingCause::UnknownSession => 7,
    }
}

/// The number after the letter P in printed refusals of calls: 2, 3 or 13.
pub fn call_refusal_number(refusal: CallRefusal) -> u8
    ensures { result ≡ number_of_call_refusal refusal }
{
    match refusal {
        CallRefusal::NoProcedure => 2,
        CallRefusal::ArgumentsLength => 3,
        CallRefusal::ZeroInRequest => 13,
    }
}
