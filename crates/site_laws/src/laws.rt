//! Laws of orders.

ghost use Rattle.std.specs.Prelude.{◌≡◌, ◌≢◌, ℕ, suc, ◌+◌, ◌++◌, List, [], ◌∷◌, length, IsTrue, Some};
ghost use Rattle.log_model.specs.Log.{IsLog, rows_after, same_request};
ghost use Rattle.log_model.specs.Entries.{CallEntry, Entry, ExecutedCall};
ghost use Rattle.site_model.specs.declared.outcome.EntryOutcome.TheVariants.{Committed};
ghost use Rattle.site_model.specs.Fit.{AreFitEntries};
ghost use Rattle.site_model.specs.Standing.{SiteSetting, StandsAs, standing};
ghost use Rattle.site_model.specs.Order.{Order, next_outcome, order_entries, order_log, sessions_after};
ghost use Rattle.site_laws.specs.Serial.{RunsNext};

use dsm_model::{entries_carry_serial_replies, rows_after_each_call};
use log_model::{
    a_log_only_grows, each_call_has_a_verdict, each_request_commits_once, logs_whose_calls_fit,
};
use site_model::{orders_grow, what_stands_is_of_the_log};

/// An order that goes on keeps the entries that it had. Two sites of one setting, of which one was given a beginning of
/// the other's order, have come to the same that far.
pub fn beginnings_have_the_same_entries()
    ensures { (s : SiteSetting) (order more : Order)
        → (later : List Entry) × (order_entries s (order ++ more) ≡ order_entries s order ++ later) }
{}

/// Each call in the log of an order has a snapshot before it.
pub fn orders_have_logs()
    ensures { (s : SiteSetting) (order : Order) → IsLog (order_log s order) }
{
    // Laws:
    orders_grow();
    what_stands_is_of_the_log();
}

/// A byte string that commits makes the rows the effect of its call, run on the rows before it. The reply that is told
/// is that run's. Any other byte string leaves the rows as they were.
pub fn rows_after_each_byte_string()
    ensures committed { (s : SiteSetting) (order : Order) (bytes : List ℕ) (e : ExecutedCall) (reply : ℕ)
        → AreFitEntries s.setting (order_entries s (order ++ bytes ∷ []))
        → standing s (sessions_after s order) (order_log s order) bytes ≡ StandsAs (CallEntry e)
        → next_outcome s order bytes ≡ Committed reply → RunsNext s order bytes e.call reply }
    ensures others { (s : SiteSetting) (order : Order) (bytes : List ℕ)
        → ((reply : ℕ) → next_outcome s order bytes ≢ Committed reply)
        → rows_after s.setting (order_log s (order ++ bytes ∷ [])) (suc (length order))
        ≡ rows_after s.setting (order_log s order) (length order) }
{
    // Laws:
    a_log_only_grows();
    each_call_has_a_verdict();
    entries_carry_serial_replies();
    logs_whose_calls_fit();
    orders_grow();
    orders_have_logs();
    rows_after_each_call();
    what_stands_is_of_the_log();
}

/// Two byte strings with one request never both commit.
pub fn each_request_commits_once_in_an_order()
    ensures { (s : SiteSetting) (first between : Order) (a b : List ℕ) (x y : ExecutedCall) (reply other : ℕ)
        → standing s (sessions_after s first) (order_log s first) a ≡ StandsAs (CallEntry x)
        → next_outcome s first a ≡ Committed reply
        → standing s (sessions_after s (first ++ a ∷ between)) (order_log s (first ++ a ∷ between)) b
        ≡ StandsAs (CallEntry y)
        → IsTrue (same_request x.call.request y.call.request)
        → next_outcome s (first ++ a ∷ between) b ≢ Committed other }
{
    // Laws:
    a_log_only_grows();
    each_call_has_a_verdict();
    each_request_commits_once();
    orders_grow();
    orders_have_logs();
}
