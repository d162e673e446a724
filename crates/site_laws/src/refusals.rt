//! Refusals, and how long they hold.

ghost use Rattle.std.specs.Prelude.{◌≡◌, ◌≢◌, ℕ, ◌++◌, List, Some, false};
ghost use Rattle.log_model.specs.declared.refusal.CallRefusal.{CallRefusal};
ghost use Rattle.log_model.specs.declared.refusal.CallRefusal.TheVariants.{ArgumentsLength, NoProcedure, ZeroInRequest};
ghost use Rattle.log_model.specs.declared.verdict.Identifier.{Identifier};
ghost use Rattle.log_model.specs.Log.{Call, StoredProcedure, by_name};
ghost use Rattle.log_entry.specs.Head.{CallHead, head_of};
ghost use Rattle.site_model.specs.declared.answer.CallAnswer.TheVariants.{Refused};
ghost use Rattle.site_model.specs.declared.outcome.EntryOutcome.TheVariants.{Added, Committed, Taken};
ghost use Rattle.site_model.specs.Answer.{Asked, call_answer};
ghost use Rattle.site_model.specs.Standing.{SiteSetting};
ghost use Rattle.site_model.specs.Order.{Order, next_outcome};
ghost use Rattle.site_laws.specs.Orders.{HasDistinctNumbers, procedures_behind};

use crate::laws::orders_have_logs;
use crate::procedures::{procedures_after_each_byte_string, procedures_only_grow};
use log_model::procedures_are_never_lost;
use site_model::{orders_grow, what_stands_is_of_the_log};

/// The refusals P3 and P13 hold for good, P2 up to the next addition. No copy of what was refused commits.
///
/// Arguments of another length than the procedure takes, and half a request, are refused wherever the order goes on. No
/// byte string that asks the same of the same procedure commits there, where the first procedures have distinct
/// numbers. No head of a byte string has half a request. A name without a procedure stays without, wherever the order
/// goes on, where no procedures are added. Where procedures are added, an addition may end that. But whoever asks
/// behind a beginning of the order is refused too, so no copy was submitted before. An addition whose name or number
/// was taken adds nothing wherever the order goes on.
pub fn refusals_hold_for_good()
    ensures kept { (s : SiteSetting) (order more : Order) (asked : Asked) (refusal : CallRefusal)
        → refusal ≢ NoProcedure → call_answer s order asked ≡ Refused refusal
        → call_answer s (order ++ more) asked ≡ Refused refusal }
    ensures unknown { (s : SiteSetting) (order more : Order) (asked : Asked)
        → s.takes_additions ≡ false → call_answer s order asked ≡ Refused NoProcedure
        → call_answer s (order ++ more) asked ≡ Refused NoProcedure }
    ensures before { (s : SiteSetting) (order more : Order) (asked : Asked)
        → call_answer s (order ++ more) asked ≡ Refused NoProcedure
        → call_answer s order asked ≡ Refused NoProcedure }
    ensures arguments { (s : SiteSetting) (order more : Order) (bytes : List ℕ) (asked : Asked) (p : StoredProcedure)
        (call : Call) (told reply : ℕ)
        → HasDistinctNumbers s.setting → call_answer s order asked ≡ Refused ArgumentsLength
        → by_name (procedures_behind s order) asked.name ≡ Some p
        → head_of bytes ≡ Some (CallHead call told) → call.procedure ≡ p.number → call.args ≡ asked.args
        → next_outcome s (order ++ more) bytes ≢ Committed reply }
    ensures request { (s : SiteSetting) (order : Order) (bytes : List ℕ) (asked : Asked) (call : Call) (told : ℕ)
        → call_answer s order asked ≡ Refused ZeroInRequest → head_of bytes ≡ Some (CallHead call told)
        → call.request ≢ asked.request }
    ensures taken { (s : SiteSetting) (order more : Order) (bytes : List ℕ) (identifier : Identifier) (number : ℕ)
        → next_outcome s order bytes ≡ Taken identifier → next_outcome s (order ++ more) bytes ≢ Added number }
{
    // Laws:
    orders_grow();
    orders_have_logs();
    procedures_after_each_byte_string();
    procedures_are_never_lost();
    procedures_only_grow();
    what_stands_is_of_the_log();
}
