//! The procedures behind an order.

ghost use Rattle.std.specs.Prelude.{◌≡◌, ◌≢◌, ◌↔◌, ℕ, ◌++◌, List, [], ◌∷◌, Some};
ghost use Rattle.log_model.specs.Log.{Catalogue, StoredProcedure, by_name, by_number};
ghost use Rattle.site_model.specs.declared.outcome.EntryOutcome.TheVariants.{Added};
ghost use Rattle.site_model.specs.Standing.{SiteSetting};
ghost use Rattle.site_model.specs.Order.{Order, next_outcome};
ghost use Rattle.site_laws.specs.Added.{AddsProcedure};
ghost use Rattle.site_laws.specs.Orders.{HasDistinctNumbers, procedures_behind};

use crate::laws::orders_have_logs;
use log_model::{
    a_log_only_grows, each_call_has_a_verdict, procedures_after_each_item,
    verdicts_on_additions_in_words_of_the_log,
};
use site_model::orders_grow;

/// One more byte string adds one procedure, or leaves the procedures as they were. It adds a procedure exactly where it
/// names one that is accepted, of a name and a number that none has. The outcome then tells of the addition.
pub fn procedures_after_each_byte_string()
    ensures first { (s : SiteSetting) → procedures_behind s [] ≡ s.setting.beginning.procedures }
    ensures told { (s : SiteSetting) (order : Order) (bytes : List ℕ) (number : ℕ)
        → (next_outcome s order bytes ≡ Added number)
        ↔ ((p : StoredProcedure) × AddsProcedure s order bytes p × (p.number ≡ number)) }
    ensures added { (s : SiteSetting) (order : Order) (bytes : List ℕ) (p : StoredProcedure)
        → AddsProcedure s order bytes p
        → procedures_behind s (order ++ bytes ∷ []) ≡ procedures_behind s order ++ p ∷ [] }
    ensures others { (s : SiteSetting) (order : Order) (bytes : List ℕ)
        → ((number : ℕ) → next_outcome s order bytes ≢ Added number)
        → procedures_behind s (order ++ bytes ∷ []) ≡ procedures_behind s order }
{
    // Laws:
    a_log_only_grows();
    each_call_has_a_verdict();
    orders_grow();
    orders_have_logs();
    procedures_after_each_item();
    verdicts_on_additions_in_words_of_the_log();
}

/// An order that goes on adds procedures behind those that there were, so that what is found by its name or its number
/// stays found. Where no two first procedures have a number in common, what is found by its name is found by its
/// number.
pub fn procedures_only_grow()
    ensures later { (s : SiteSetting) (order more : Order)
        → (later : Catalogue) × (procedures_behind s (order ++ more) ≡ procedures_behind s order ++ later) }
    ensures name { (s : SiteSetting) (order more : Order) (name : List ℕ) (p : StoredProcedure)
        → by_name (procedures_behind s order) name ≡ Some p
        → by_name (procedures_behind s (order ++ more)) name ≡ Some p }
    ensures number { (s : SiteSetting) (order more : Order) (number : ℕ) (p : StoredProcedure)
        → by_number (procedures_behind s order) number ≡ Some p
        → by_number (procedures_behind s (order ++ more)) number ≡ Some p }
    ensures own { (s : SiteSetting) (order : Order) (name : List ℕ) (p : StoredProcedure)
        → HasDistinctNumbers s.setting → by_name (procedures_behind s order) name ≡ Some p
        → by_number (procedures_behind s order) p.number ≡ Some p }
{
    // Laws:
    procedures_after_each_byte_string();
}
