//! Rows over orders.

ghost use Rattle.site_model.specs.Standing.{SiteSetting};
ghost use Rattle.site_model.specs.Order.{Order, order_log};
ghost use Rattle.site_laws.specs.Orders.{IsOfBytes, IsSafeSetting, rows_behind};
ghost use Rattle.site_laws.specs.Serial.{RunInTurn, committed_calls};
ghost use Rattle.order_chains.specs.GoingOn.{GoesOn};

use site_laws::calls_run_one_at_a_time;

/// The rows behind an order that goes on are those that the committed calls of both orders leave. The calls run one at
/// a time, those of the first order from the rows of its settings, and those of the next from what these leave. The
/// reply that is told of each call is that run's. Both settings are safe.
pub fn rows_go_on()
    ensures first { (s t : SiteSetting) (order : Order) → IsSafeSetting s.setting → IsOfBytes order → GoesOn s order t
        → RunInTurn s.setting (order_log s order) s.setting.beginning.rows (committed_calls s order)
        t.setting.beginning.rows }
    ensures next { (s t : SiteSetting) (order more : Order) → IsSafeSetting t.setting → IsOfBytes more
        → GoesOn s order t
        → RunInTurn t.setting (order_log t more) (rows_behind s order) (committed_calls t more) (rows_behind t more) }
{
    // Laws:
    calls_run_one_at_a_time();
}
