//! Requests over orders.

ghost use Rattle.std.specs.Prelude.{◌≡◌, ◌≢◌, ◌≤◌, ℕ, ◌∷◌, ◌++◌, List, Some, true};
ghost use Rattle.log_model.specs.declared.request.RequestId.{RequestId};
ghost use Rattle.log_model.specs.Log.{Call, was_done};
ghost use Rattle.log_entry.specs.Head.{CallHead, head_of};
ghost use Rattle.site_model.specs.declared.cause.NothingCause.{NothingCause};
ghost use Rattle.site_model.specs.declared.origin.Origin.{Origin};
ghost use Rattle.site_model.specs.declared.outcome.EntryOutcome.TheVariants.{Committed};
ghost use Rattle.site_model.specs.Sessions.{session_cause};
ghost use Rattle.site_model.specs.Standing.{SiteSetting};
ghost use Rattle.site_model.specs.Order.{Order, next_outcome, sessions_after};
ghost use Rattle.site_laws.specs.Settled.{WasNumbered};
ghost use Rattle.order_chains.specs.GoingOn.{AreNumbered, GoesOn, IsTooLate, LeadsTo};

use site_model::sessions_go_on;

/// A request that was done before an order, as its settings tell, never commits in the order.
pub fn requests_done_before_commit_no_more()
    ensures { (s : SiteSetting) (order : Order) (bytes : List ℕ) (call : Call) (told reply : ℕ)
        → was_done s.setting.beginning.requests call.request ≡ true
        → head_of bytes ≡ Some (CallHead call told) → next_outcome s order bytes ≢ Committed reply }
{}

/// Where orders open sessions, a request for which an order comes too late commits neither in that order nor in any to
/// which it leads. An order comes too late for a request that committed in the order before it, and for one that was
/// out of its session there, where the session's number was given by then.
pub fn too_late_is_so_for_good()
    ensures never { (t : SiteSetting) (order : Order) (bytes : List ℕ) (request : RequestId) (call : Call)
        (told reply : ℕ)
        → IsTooLate t request → 1 ≤ request.sequence
        → head_of bytes ≡ Some (CallHead call told) → call.request ≡ Some request
        → next_outcome t order bytes ≢ Committed reply }
    ensures stays { (t u : SiteSetting) (order : Order) (request : RequestId)
        → IsTooLate t request → 1 ≤ request.sequence → GoesOn t order u → IsTooLate u request }
    ensures committed { (s t : SiteSetting) (order more : Order) (bytes : List ℕ) (request : RequestId) (call : Call)
        (told reply : ℕ) (origin : Origin)
        → s.origin ≡ Some origin → AreNumbered s
        → head_of bytes ≡ Some (CallHead call told) → call.request ≡ Some request
        → next_outcome s order bytes ≡ Committed reply → GoesOn s (order ++ bytes ∷ more) t → IsTooLate t request }
    ensures out_of_session { (s t : SiteSetting) (order more : Order) (request : RequestId) (why : NothingCause)
        (origin : Origin)
        → s.origin ≡ Some origin → WasNumbered origin (sessions_after s order) request
        → session_cause s.origin (sessions_after s order) (Some request) ≡ Some why
        → GoesOn s (order ++ more) t → IsTooLate t request }
{
    // Laws:
    sessions_go_on();
}

/// Where orders open sessions, of all byte strings with one request at most one commits, over any number of orders. Of
/// one order a law of orders says so. Here a byte string commits, and its order leads to later ones.
pub fn each_request_commits_once_over_orders()
    ensures { (s t : SiteSetting) (order more last : Order) (orders : List Order) (a b : List ℕ) (x y : Call)
        (told other reply again : ℕ) (request : RequestId) (origin : Origin)
        → s.origin ≡ Some origin → AreNumbered s → 1 ≤ request.sequence
        → head_of a ≡ Some (CallHead x told) → x.request ≡ Some request
        → head_of b ≡ Some (CallHead y other) → y.request ≡ Some request
        → next_outcome s order a ≡ Committed reply → LeadsTo s ((order ++ a ∷ more) ∷ orders) t
        → next_outcome t last b ≢ Committed again }
{
    // Laws:
    too_late_is_so_for_good();
}
