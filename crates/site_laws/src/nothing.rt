//! The byte strings that are nothing, or open a session.

ghost use Rattle.std.specs.Prelude.{◌≡◌, ◌≢◌, ◌++◌, suc, List, Option, ℕ, [], ◌∷◌, length};
ghost use Rattle.log_model.specs.declared.request.RequestId.{RequestId};
ghost use Rattle.site_model.specs.declared.cause.NothingCause.{NothingCause};
ghost use Rattle.site_model.specs.declared.outcome.EntryOutcome.TheVariants.{Conflict, Nothing, Session};
ghost use Rattle.site_model.specs.Sessions.{nothing_done, with_done};
ghost use Rattle.site_model.specs.Standing.{SiteSetting};
ghost use Rattle.site_model.specs.Order.{Order, next_outcome, sessions_after};
ghost use Rattle.site_laws.specs.Nothing.{ChangesNothing};
ghost use Rattle.site_laws.specs.Orders.{procedures_behind, rows_behind};
ghost use Rattle.site_laws.specs.Requests.{request_done};

use crate::laws::{
    beginnings_have_the_same_entries, orders_have_logs, rows_after_each_byte_string,
};
use crate::procedures::procedures_after_each_byte_string;
use log_model::{each_call_has_a_verdict, verdicts_in_words_of_the_log};
use site_model::{orders_grow, sessions_go_on};

/// A byte string that is nothing, or opens a session, leaves the rows, the procedures, and where each request was done,
/// with its reply. No byte string behind it is in conflict with it. A byte string that is nothing leaves the last
/// request of each session; the session that is opened has done nothing.
pub fn what_is_nothing_changes_nothing()
    ensures rows { (s : SiteSetting) (order : Order) (bytes : List ℕ)
        → ChangesNothing (next_outcome s order bytes)
        → rows_behind s (order ++ bytes ∷ []) ≡ rows_behind s order }
    ensures procedures { (s : SiteSetting) (order : Order) (bytes : List ℕ)
        → ChangesNothing (next_outcome s order bytes)
        → procedures_behind s (order ++ bytes ∷ []) ≡ procedures_behind s order }
    ensures requests { (s : SiteSetting) (order : Order) (bytes : List ℕ) (request : Option RequestId)
        → ChangesNothing (next_outcome s order bytes)
        → request_done s (order ++ bytes ∷ []) request ≡ request_done s order request }
    ensures lasts { (s : SiteSetting) (order : Order) (bytes : List ℕ) (cause : NothingCause)
        → next_outcome s order bytes ≡ Nothing cause
        → (sessions_after s (order ++ bytes ∷ [])).lasts ≡ (sessions_after s order).lasts }
    ensures opened { (s : SiteSetting) (order : Order) (bytes : List ℕ) (session : ℕ)
        → next_outcome s order bytes ≡ Session session
        → (sessions_after s (order ++ bytes ∷ [])).lasts
        ≡ with_done (sessions_after s order).lasts (nothing_done session) }
    ensures conflicts { (s : SiteSetting) (order between : Order) (bytes later : List ℕ)
        → ChangesNothing (next_outcome s order bytes)
        → next_outcome s (order ++ bytes ∷ between) later ≢ Conflict (suc (length order)) }
{
    // Laws:
    beginnings_have_the_same_entries();
    each_call_has_a_verdict();
    orders_grow();
    orders_have_logs();
    procedures_after_each_byte_string();
    rows_after_each_byte_string();
    sessions_go_on();
    verdicts_in_words_of_the_log();
}
