//! Orders over the settings that sites have.

ghost use Rattle.std.specs.Prelude.{◌≡◌, ◌≢◌, ℕ, ◌++◌, List, ◌∷◌, Some};
ghost use Rattle.log_model.specs.Log.{Call};
ghost use Rattle.log_entry.specs.Head.{CallHead, head_of};
ghost use Rattle.site_model.specs.declared.outcome.EntryOutcome.TheVariants.{Committed, Conflict, Stale};
ghost use Rattle.site_model.specs.Answer.{Asked, call_answer};
ghost use Rattle.site_model.specs.Fit.{AreFitEntries};
ghost use Rattle.site_model.specs.Standing.{SiteSetting};
ghost use Rattle.site_model.specs.Order.{Order, next_outcome, order_entries, order_log};
ghost use Rattle.site_laws.specs.Orders.{HasDistinctNumbers, IsBytes, IsOfBytes, IsSafeSetting, rows_behind};
ghost use Rattle.site_laws.specs.Serial.{RunInTurn, committed_calls};
ghost use Rattle.site_laws.specs.Settled.{AsksAgain, AsksTheSame, IsSettled};
ghost use Rattle.catalogue.specs.Catalogue.{system_setting};

use crate::laws::rows_after_each_byte_string;
use crate::settled::{what_was_answered_commits_no_more, what_was_refused_commits_no_more};
use catalogue::{
    Catalogue, accepted_procedures_are_safe, catalogues_are_safe, each_catalogue_is_consistent,
};
use dsm_model::rows_after_each_call;
use program_checks::programs_pass_where_they_are_accepted;
use site_model::{fit_entries_go_on, orders_grow, what_stands_is_of_the_log};
use std::alloc::Allocator;

/// The tables and procedures of a catalogue, which every site begins with, make a safe setting, and no two of the
/// procedures have a number in common.
pub fn catalogues_make_safe_settings<A: Allocator + Copy>(catalogue: &Catalogue<A>)
    ensures safe { (window : ℕ) → IsSafeSetting (system_setting catalogue.now window) }
    ensures numbers { (window : ℕ) → HasDistinctNumbers (system_setting catalogue.now window) }
{
    catalogues_are_safe(catalogue);
    each_catalogue_is_consistent(catalogue);
}

/// Every order of byte strings has fit entries, over safe settings. Calls fit the procedures of their snapshots and
/// carry their runs, and what is added is safe.
pub fn orders_of_bytes_fit()
    ensures { (s : SiteSetting) (order : Order) → IsSafeSetting s.setting → IsOfBytes order
        → AreFitEntries s.setting (order_entries s order) }
{
    // Laws:
    accepted_procedures_are_safe();
    fit_entries_go_on();
    programs_pass_where_they_are_accepted();
    what_stands_is_of_the_log();
}

/// The rows behind an order of byte strings are those that its committed calls leave, where the setting is safe. The
/// calls run one at a time, in order, from the rows of the beginning. The reply that is told of each call is that
/// run's. Nothing is asked of whoever made the strings.
pub fn calls_run_one_at_a_time()
    ensures { (s : SiteSetting) (order : Order) → IsSafeSetting s.setting → IsOfBytes order
        → RunInTurn s.setting (order_log s order) s.setting.beginning.rows (committed_calls s order) (rows_behind s order) }
{
    // Laws:
    orders_grow();
    orders_of_bytes_fit();
    rows_after_each_byte_string();
    rows_after_each_call();
    what_stands_is_of_the_log();
}

/// An answer settles every order of byte strings, over safe settings. The law is about calls answered by a read or a
/// cancellation, and byte strings refused for a conflict or as stale. No byte string behind such an answer commits that
/// asks the same, on rows that aren't newer, whatever its request.
pub fn what_was_told_settles_every_order()
    ensures answered { (s : SiteSetting) (order more : Order) (bytes : List ℕ) (asked : Asked) (call : Call)
        (told reply : ℕ)
        → IsSafeSetting s.setting → IsOfBytes order → IsBytes bytes
        → IsSettled (call_answer s order asked)
        → head_of bytes ≡ Some (CallHead call told) → AsksTheSame s order asked call
        → next_outcome s (order ++ more) bytes ≢ Committed reply }
    ensures conflict { (s : SiteSetting) (order between : Order) (first second : List ℕ) (a b : Call)
        (told other position reply : ℕ)
        → IsSafeSetting s.setting → IsOfBytes (order ++ first ∷ between) → IsBytes second
        → head_of first ≡ Some (CallHead a told) → head_of second ≡ Some (CallHead b other) → AsksAgain a b
        → next_outcome s order first ≡ Conflict position
        → next_outcome s (order ++ first ∷ between) second ≢ Committed reply }
    ensures stale { (s : SiteSetting) (order between : Order) (first second : List ℕ) (a b : Call)
        (told other reply : ℕ)
        → IsBytes second
        → head_of first ≡ Some (CallHead a told) → head_of second ≡ Some (CallHead b other) → AsksAgain a b
        → next_outcome s order first ≡ Stale
        → next_outcome s (order ++ first ∷ between) second ≢ Committed reply }
{
    // Laws:
    orders_of_bytes_fit();
    what_was_answered_commits_no_more();
    what_was_refused_commits_no_more();
}
