//! The outcomes that sites of one order have in common.

ghost use Rattle.std.specs.Prelude.{◌≡◌, ◌++◌, length};
ghost use Rattle.log_model.specs.Log.{procedures_after, rows_after};
ghost use Rattle.site_model.specs.Standing.{SiteSetting};
ghost use Rattle.site_model.specs.Order.{Order, order_log};
ghost use Rattle.site_laws.specs.Answers.{outcomes, outcomes_behind};
ghost use Rattle.site_laws.specs.Orders.{procedures_behind, rows_behind};

use crate::laws::beginnings_have_the_same_entries;
use log_model::a_log_only_grows;
use site_model::orders_grow;

/// The outcome of each byte string of an order is the same where more byte strings are behind that order. The rows and
/// the procedures behind the order are the same too. Two sites of one setting therefore agree on what both were given.
pub fn sites_of_one_order_agree()
    ensures answers { (s : SiteSetting) (order more : Order)
        → outcomes s (order ++ more) ≡ outcomes s order ++ outcomes_behind s order more }
    ensures rows { (s : SiteSetting) (order more : Order)
        → rows_after s.setting (order_log s (order ++ more)) (length order) ≡ rows_behind s order }
    ensures procedures { (s : SiteSetting) (order more : Order)
        → procedures_after s.setting (order_log s (order ++ more)) (length order) ≡ procedures_behind s order }
{
    // Laws:
    a_log_only_grows();
    beginnings_have_the_same_entries();
    orders_grow();
}
