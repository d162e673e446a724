//! Laws of orders.

ghost use Rattle.std.specs.Prelude.{◌≡◌, ℕ, ◌+◌, ◌<◌, ◌≤◌, Some, List, [], ◌∷◌, ◌++◌, length, All};
ghost use Rattle.log_model.specs.InstalledWrites.{map_after};
ghost use Rattle.log_model.specs.Log.{StoredProcedure, Setting, IsPlaced, rows_after, verdict_of};
ghost use Rattle.log_model.specs.Fit.{IsSafe, FitsLog};
ghost use Rattle.log_model.specs.Entries.{Entry, AdditionEntry, item_of, items_of, IsCarried};
ghost use Rattle.log_model.specs.Entries.{certified_entry, certified_entries_of, installed_from};
ghost use Rattle.site_model.specs.Fit.{AreFitEntries};
ghost use Rattle.site_model.specs.Standing.{SiteSetting, StandsAs, standing};
ghost use Rattle.site_model.specs.Sessions.{Sessions, lasts_of, sessions_with};
ghost use Rattle.site_model.specs.Order.{Order, order_entries, next_entry, next_outcome, sessions_after, with_bytes};

use log_model::{entries_suffice, logs_whose_calls_fit, one_more_entry_carries_its_run};

/// The log of an order has an entry for each byte string, and one more byte string adds one entry.
#[tactic(auto, unfolding(crate::specs::Order::followed))]
pub fn orders_grow()
    ensures first { (s : SiteSetting) → order_entries s [] ≡ [] }
    ensures next { (s : SiteSetting) (order : Order) (bytes : List ℕ)
        → order_entries s (order ++ bytes ∷ [])
        ≡ with_bytes s (sessions_after s order) (order_entries s order) bytes }
    ensures count { (s : SiteSetting) (order : Order) → length (order_entries s order) ≡ length order }
{}

/// Sessions have done last what their requests before an order say, and none is opened. Each byte string of the order
/// changes that by its outcome, and opens one session at most.
#[tactic(auto, unfolding(crate::specs::Order::followed))]
pub fn sessions_go_on()
    ensures first { (s : SiteSetting) → sessions_after s []
        ≡ record { opened = 0; lasts = lasts_of s.origin s.setting.beginning.requests } }
    ensures next { (s : SiteSetting) (order : Order) (bytes : List ℕ) → sessions_after s (order ++ bytes ∷ [])
        ≡ sessions_with (sessions_after s order) bytes (next_outcome s order bytes) }
    ensures count { (s : SiteSetting) (order : Order) → (sessions_after s order).opened ≤ length order }
{}

/// The entry at the next position has a snapshot before it, carries its run, and fits the log. A procedure that the
/// entry adds is safe.
pub fn what_stands_is_of_the_log()
    ensures placed { (s : SiteSetting) (known : Sessions) (entries : List Entry) (bytes : List ℕ)
        → IsPlaced (length entries) (item_of (next_entry s known entries bytes)) }
    ensures carried { (s : SiteSetting) (known : Sessions) (entries : List Entry) (bytes : List ℕ)
        → IsCarried s.setting (items_of entries) (next_entry s known entries bytes) }
    ensures fits { (s : SiteSetting) (known : Sessions) (entries : List Entry) (bytes : List ℕ) → All (λ b. b < 256) bytes
        → ((p : StoredProcedure) → standing s known (items_of entries) bytes ≡ StandsAs (AdditionEntry p)
        → IsSafe s.setting.tables p)
        → FitsLog s.setting (items_of entries) (item_of (next_entry s known entries bytes)) }
{}

/// One more entry behind the entries of an order's log is of that log too. The entry's verdict, and the rows after each
/// position, are those that the entries alone give.
pub fn fit_entries_go_on()
    ensures one_more { (w : Setting) (entries : List Entry) (e : Entry) → AreFitEntries w entries
        → IsPlaced (length entries) (item_of e) → FitsLog w (items_of entries) (item_of e)
        → IsCarried w (items_of entries) e → AreFitEntries w (entries ++ e ∷ []) }
    ensures next { (w : Setting) (entries : List Entry) (e : Entry) → AreFitEntries w entries
        → AreFitEntries w (entries ++ e ∷ [])
        → verdict_of w (items_of (entries ++ e ∷ [])) (length entries + 1)
        ≡ Some (certified_entry w.window (certified_entries_of w.window w.beginning entries) e).verdict }
    ensures rows { (w : Setting) (entries : List Entry) (position : ℕ) → AreFitEntries w entries
        → position ≤ length entries
        → map_after w.beginning.rows (installed_from 1 (certified_entries_of w.window w.beginning entries).certified) position
        ≡ rows_after w (items_of entries) position }
{
    // Laws:
    entries_suffice();
    logs_whose_calls_fit();
    one_more_entry_carries_its_run();
}
