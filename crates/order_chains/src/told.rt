//! The answers to requests that were done before an order.

ghost use Rattle.std.specs.Prelude.{◌≡◌, None, Some, Ok};
ghost use Rattle.std.specs.FinMap.{get};
ghost use Rattle.log_model.specs.declared.request.RequestId.{RequestId};
ghost use Rattle.log_model.specs.Admission.{admission};
ghost use Rattle.log_model.specs.Log.{DoneRequest, StoredProcedure, by_name, done_under};
ghost use Rattle.site_model.specs.declared.answer.CallAnswer.TheVariants.{Repeated};
ghost use Rattle.site_model.specs.Answer.{Asked, call_answer};
ghost use Rattle.site_model.specs.Sessions.{session_cause};
ghost use Rattle.site_model.specs.Standing.{SiteSetting};
ghost use Rattle.site_model.specs.Order.{Order, sessions_after};
ghost use Rattle.site_laws.specs.Orders.{procedures_behind};

use site_model::orders_grow;

/// A call whose request was done before an order is told the reply of then. The premises are that the call may begin,
/// and that nothing is against the call for its session's sake. Nothing is as long as the request is the session's last.
pub fn requests_done_before_are_told()
    ensures told { (s : SiteSetting) (order : Order) (asked : Asked) (p : StoredProcedure) (done : DoneRequest)
        → by_name (procedures_behind s order) asked.name ≡ Some p
        → admission asked.args asked.request (Some p) ≡ Ok p
        → done_under s.setting.beginning.requests asked.request ≡ Some done
        → session_cause s.origin (sessions_after s order) asked.request ≡ None
        → call_answer s order asked ≡ Repeated 0 done.reply }
    ensures in_session { (s : SiteSetting) (order : Order) (request : RequestId) (last : DoneRequest)
        → get (sessions_after s order).lasts request.session ≡ Some last
        → last.request.sequence ≡ request.sequence
        → session_cause s.origin (sessions_after s order) (Some request) ≡ None }
{
    // Laws:
    orders_grow();
}
