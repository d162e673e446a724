//! The bytes that a site gave to be ordered, when they come back.

ghost use Rattle.std.specs.Prelude.{◌≡◌, ◌≢◌, ◌↔◌, ◌<◌, ◌≤◌, ◌^◌, ℕ, ◌++◌, List, length, None, Some};
ghost use Rattle.bpf_code.specs.Program.{Program};
ghost use Rattle.bpf_bytes.specs.Spelling.{spelling};
ghost use Rattle.schema.specs.declared.limits.TheConstants.{MAX_ARGUMENTS};
ghost use Rattle.log_model.specs.Log.{run_in};
ghost use Rattle.program_checks.specs.ProgramCheck.{Passed};
ghost use Rattle.program_checks.specs.Check.{check_of};
ghost use Rattle.log_entry.specs.Bytes.{sequence_of, session_of};
ghost use Rattle.log_entry.specs.Fit.{AdditionFitsFields};
ghost use Rattle.log_entry.specs.Head.{NamedProcedure};
ghost use Rattle.site_model.specs.declared.answer.AdditionAnswer.TheVariants.{Submitted as AddSubmitted};
ghost use Rattle.site_model.specs.declared.answer.CallAnswer.TheVariants.{Submitted};
ghost use Rattle.site_model.specs.declared.cause.NothingCause.{NothingCause};
ghost use Rattle.site_model.specs.declared.cause.NothingCause.TheVariants.{Superseded};
ghost use Rattle.site_model.specs.declared.outcome.EntryOutcome.TheVariants.{Committed, Nothing};
ghost use Rattle.site_model.specs.Answer.{Asked, addition_answer, asked_call, call_answer, stored_as};
ghost use Rattle.site_model.specs.Sessions.{session_cause};
ghost use Rattle.site_model.specs.Standing.{SiteSetting};
ghost use Rattle.site_model.specs.Order.{Order, next_outcome, order_log, sessions_after};
ghost use Rattle.site_laws.specs.Orders.{IsBytes, IsOfBytes, IsSiteSetting};
ghost use Rattle.site_model.specs.Own.{IsAskedOf};
ghost use Rattle.site_laws.specs.Own.{IsFree};

use crate::fitting::orders_of_bytes_fit;
use crate::laws::{beginnings_have_the_same_entries, orders_have_logs};
use crate::procedures::{procedures_after_each_byte_string, procedures_only_grow};
use bpf_semantics::states_fit;
use log_entry::entries_have_their_heads;
use log_model::{each_call_has_a_verdict, logs_whose_calls_fit, verdicts_in_words_of_the_log};
use program_checks::programs_pass_where_they_are_accepted;
use site_model::{orders_grow, sessions_go_on};

/// The bytes that a call was answered behind an order, to be ordered, aren't nothing wherever that order goes on, but
/// for one cause. The bytes are superseded exactly where the call's session has done a request of a greater number
/// since. An order without an origin supersedes none. The premises are that the procedure has a number of its own and
/// the call's numbers and lengths fit their fields (`IsAskedOf`).
pub fn own_calls_are_not_nothing()
    ensures others { (s : SiteSetting) (order more : Order) (asked : Asked) (bytes : List ℕ) (cause : NothingCause)
        → IsAskedOf s order asked → call_answer s order asked ≡ Submitted bytes → cause ≢ Superseded
        → next_outcome s (order ++ more) bytes ≢ Nothing cause }
    ensures without_origin { (s : SiteSetting) (order more : Order) (asked : Asked) (bytes : List ℕ)
        (cause : NothingCause)
        → IsAskedOf s order asked → call_answer s order asked ≡ Submitted bytes → s.origin ≡ None
        → next_outcome s (order ++ more) bytes ≢ Nothing cause }
    ensures superseded { (s : SiteSetting) (order more : Order) (asked : Asked) (bytes : List ℕ)
        → IsAskedOf s order asked → call_answer s order asked ≡ Submitted bytes
        → (next_outcome s (order ++ more) bytes ≡ Nothing Superseded)
        ↔ (session_cause s.origin (sessions_after s (order ++ more)) asked.request ≡ Some Superseded) }
{
    // Laws:
    beginnings_have_the_same_entries();
    entries_have_their_heads();
    sessions_go_on();
}

/// A call that was answered by bytes is as `IsAskedOf` says. The call's procedure has a number of its own, and its
/// numbers and lengths fit their fields. Its bytes therefore aren't nothing wherever the order goes on, unless they are
/// superseded, and an order without an origin supersedes none. The premises are a setting as sites have them, fewer
/// than 2^32 byte strings, arguments of bytes, and a request within its fields.
pub fn calls_of_sites_fit_their_fields()
    ensures asked { (s : SiteSetting) (order : Order) (asked : Asked) (bytes : List ℕ)
        → IsSiteSetting s.setting → IsOfBytes order → length order < 2 ^ 32 → IsBytes asked.args
        → session_of asked.request < 2 ^ 32 → sequence_of asked.request < 2 ^ 32
        → call_answer s order asked ≡ Submitted bytes → IsAskedOf s order asked }
    ensures something { (s : SiteSetting) (order more : Order) (asked : Asked) (bytes : List ℕ) (cause : NothingCause)
        → IsSiteSetting s.setting → IsOfBytes order → length order < 2 ^ 32 → IsBytes asked.args
        → session_of asked.request < 2 ^ 32 → sequence_of asked.request < 2 ^ 32
        → call_answer s order asked ≡ Submitted bytes → cause ≢ Superseded
        → next_outcome s (order ++ more) bytes ≢ Nothing cause }
    ensures without_origin { (s : SiteSetting) (order more : Order) (asked : Asked) (bytes : List ℕ)
        (cause : NothingCause)
        → IsSiteSetting s.setting → IsOfBytes order → length order < 2 ^ 32 → IsBytes asked.args
        → session_of asked.request < 2 ^ 32 → sequence_of asked.request < 2 ^ 32
        → call_answer s order asked ≡ Submitted bytes → s.origin ≡ None
        → next_outcome s (order ++ more) bytes ≢ Nothing cause }
{
    // Laws:
    logs_whose_calls_fit();
    orders_grow();
    orders_of_bytes_fit();
    own_calls_are_not_nothing();
    procedures_after_each_byte_string();
    procedures_only_grow();
    programs_pass_where_they_are_accepted();
    states_fit();
}

/// The bytes that a call was answered, to be ordered, commit where nothing that came between stands in the call's way.
/// The call is as `IsAskedOf` says. The reply of bytes that commit is that of the run that was answered.
pub fn own_calls_commit_where_nothing_stands_in_their_way()
    ensures free { (s : SiteSetting) (order between : Order) (asked : Asked) (bytes : List ℕ)
        (is : IsAskedOf s order asked)
        → call_answer s order asked ≡ Submitted bytes
        → IsFree s order between (asked_call (order_log s order) is.procedure asked)
        → next_outcome s (order ++ between) bytes
        ≡ Committed (run_in s.setting (order_log s order) (asked_call (order_log s order) is.procedure asked)).reply }
    ensures reply { (s : SiteSetting) (order between : Order) (asked : Asked) (bytes : List ℕ) (reply : ℕ)
        (is : IsAskedOf s order asked)
        → call_answer s order asked ≡ Submitted bytes → next_outcome s (order ++ between) bytes ≡ Committed reply
        → reply ≡ (run_in s.setting (order_log s order) (asked_call (order_log s order) is.procedure asked)).reply }
{
    // Laws:
    beginnings_have_the_same_entries();
    each_call_has_a_verdict();
    entries_have_their_heads();
    orders_grow();
    orders_have_logs();
    verdicts_in_words_of_the_log();
}

/// The bytes that an addition was answered, to be ordered, aren't nothing behind any order. The premises are that the
/// program is spelled by the bytes that it was read from, and that its numbers and lengths fit their fields. A program
/// that is decoded is spelled by its bytes.
pub fn own_additions_are_not_nothing()
    ensures { (s : SiteSetting) (order : Order) (p : NamedProcedure) (program : Program) (bytes : List ℕ)
        (cause : NothingCause)
        → p.args_len ≤ MAX_ARGUMENTS → check_of s.setting.tables p.args_len p.bytes ≡ Passed program
        → spelling program ≡ p.bytes → AdditionFitsFields (stored_as p program)
        → addition_answer s p ≡ AddSubmitted bytes → next_outcome s order bytes ≢ Nothing cause }
{
    // Laws:
    entries_have_their_heads();
}

/// The bytes that an addition was answered, to be ordered, aren't nothing behind any order. The premises are that the
/// program is given as bytes, and that its number and the length of its arguments fit their fields.
pub fn additions_of_sites_are_not_nothing()
    ensures { (s : SiteSetting) (order : Order) (p : NamedProcedure) (bytes : List ℕ) (cause : NothingCause)
        → p.number < 2 ^ 16 → p.args_len ≤ MAX_ARGUMENTS → IsBytes p.bytes
        → addition_answer s p ≡ AddSubmitted bytes → next_outcome s order bytes ≢ Nothing cause }
{
    // Laws:
    own_additions_are_not_nothing();
    programs_pass_where_they_are_accepted();
}
