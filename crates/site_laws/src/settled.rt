//! The commits that answers rule out.

ghost use Rattle.std.specs.Prelude.{◌≡◌, ◌≢◌, ◌<◌, ℕ, ◌∷◌, ◌++◌, List, All, Some};
ghost use Rattle.log_model.specs.declared.request.RequestId.{RequestId};
ghost use Rattle.log_model.specs.Log.{Call};
ghost use Rattle.log_entry.specs.Head.{CallHead, head_of};
ghost use Rattle.site_model.specs.declared.answer.CallAnswer.TheVariants.{OutOfSession};
ghost use Rattle.site_model.specs.declared.origin.Origin.{Origin};
ghost use Rattle.site_model.specs.declared.outcome.EntryOutcome.TheVariants.{Committed, Conflict, Stale};
ghost use Rattle.site_model.specs.Answer.{Asked, call_answer};
ghost use Rattle.site_model.specs.Fit.{AreFitEntries};
ghost use Rattle.site_model.specs.Standing.{SiteSetting};
ghost use Rattle.site_model.specs.Order.{Order, next_outcome, order_entries, sessions_after};
ghost use Rattle.site_laws.specs.Settled.{AsksAgain, AsksTheSame, IsSettled, WasNumbered};

use crate::laws::{beginnings_have_the_same_entries, orders_have_logs};
use log_model::{
    each_call_has_a_verdict, logs_whose_calls_fit, procedures_are_never_lost,
    verdicts_in_words_of_the_log,
};
use site_model::{orders_grow, sessions_go_on, what_stands_is_of_the_log};

/// A call that was answered by a read or a cancellation behind an order settles what is asked. No byte string that asks
/// the same, on rows that aren't newer, commits where that order goes on, whatever its request.
pub fn what_was_answered_commits_no_more()
    ensures { (s : SiteSetting) (order more : Order) (bytes : List ℕ) (asked : Asked) (call : Call) (told reply : ℕ)
        → AreFitEntries s.setting (order_entries s order) → All (λ b. b < 256) bytes
        → IsSettled (call_answer s order asked)
        → head_of bytes ≡ Some (CallHead call told) → AsksTheSame s order asked call
        → next_outcome s (order ++ more) bytes ≢ Committed reply }
{
    // Laws:
    each_call_has_a_verdict();
    beginnings_have_the_same_entries();
    logs_whose_calls_fit();
    orders_grow();
    orders_have_logs();
    procedures_are_never_lost();
    verdicts_in_words_of_the_log();
    what_stands_is_of_the_log();
}

/// A byte string that was refused for a conflict or as stale settles what is asked. No byte string behind it commits
/// that asks the same, on rows that aren't newer, whatever its request.
pub fn what_was_refused_commits_no_more()
    ensures conflict { (s : SiteSetting) (order between : Order) (first second : List ℕ) (a b : Call)
        (told other position reply : ℕ)
        → AreFitEntries s.setting (order_entries s (order ++ first ∷ between)) → All (λ b. b < 256) second
        → head_of first ≡ Some (CallHead a told) → head_of second ≡ Some (CallHead b other) → AsksAgain a b
        → next_outcome s order first ≡ Conflict position
        → next_outcome s (order ++ first ∷ between) second ≢ Committed reply }
    ensures stale { (s : SiteSetting) (order between : Order) (first second : List ℕ) (a b : Call)
        (told other reply : ℕ)
        → All (λ b. b < 256) second
        → head_of first ≡ Some (CallHead a told) → head_of second ≡ Some (CallHead b other) → AsksAgain a b
        → next_outcome s order first ≡ Stale
        → next_outcome s (order ++ first ∷ between) second ≢ Committed reply }
{
    // Laws:
    each_call_has_a_verdict();
    beginnings_have_the_same_entries();
    logs_whose_calls_fit();
    orders_grow();
    orders_have_logs();
    procedures_are_never_lost();
    verdicts_in_words_of_the_log();
    what_stands_is_of_the_log();
}

/// A request that was answered as out of its session is so for good, where the session's number was given before that.
/// No byte string of a call with that request commits where the order goes on. The number of a session's last request
/// never falls. A session of such a number that isn't known stays unknown, since only calls of known sessions commit.
pub fn what_is_out_of_session_commits_no_more()
    ensures { (s : SiteSetting) (order more : Order) (bytes : List ℕ) (asked : Asked) (origin : Origin)
        (request : RequestId) (call : Call) (told reply : ℕ)
        → s.origin ≡ Some origin → asked.request ≡ Some request
        → call_answer s order asked ≡ OutOfSession
        → WasNumbered origin (sessions_after s order) request
        → head_of bytes ≡ Some (CallHead call told) → call.request ≡ Some request
        → next_outcome s (order ++ more) bytes ≢ Committed reply }
{
    // Laws:
    orders_grow();
    sessions_go_on();
}
