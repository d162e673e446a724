//! The setting of a database that goes on.

ghost use Rattle.site_model.specs.Next.{next_setting};
ghost use Rattle.site_model.specs.Standing.{SiteSetting};
ghost use Rattle.site_model.specs.Order.{Order};
ghost use Rattle.order_chains.specs.GoingOn.{AreNumbered, GoesOn};

use site_model::sessions_go_on;

/// The setting that goes on where an order stops does so. It has the rows and all that came before, and tells of each
/// session what that did last.
pub fn next_settings_go_on()
    ensures { (s : SiteSetting) (order : Order) → AreNumbered s → GoesOn s order (next_setting s order) }
{
    // Laws:
    sessions_go_on();
}
