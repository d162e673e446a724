//! Laws of exact comparisons.

ghost use Rattle.std.specs.Prelude.{◌≡◌, ◌↔◌, ◌==◌, ℕ, List, IsTrue};
ghost use Rattle.std.specs.List.{list_any};
ghost use Rattle.schema.specs.declared.look.Look.{Look};
ghost use Rattle.log_model.specs.Log.{DoneRequest, CertifiedItem, Call};
ghost use Rattle.certify.specs.Comparisons.{comparisons_after, AreRising, IsCompared};

/// Exact comparisons are made with the calls that committed since the snapshot and share a bit with the looks, up to
/// the first that conflicts. Each such call is compared once, in rising order, and no other is. A repeated or stale
/// call is compared with none.
pub fn comparisons_in_words_of_the_log()
    ensures rising { (window : ℕ) (done : List DoneRequest) (past : List CertifiedItem) (call : Call) (looks : List Look)
        → AreRising (comparisons_after window done past call looks) }
    ensures compared { (window : ℕ) (done : List DoneRequest) (past : List CertifiedItem) (call : Call) (looks : List Look) (position : ℕ)
        → IsTrue (list_any (λ x. x == position) (comparisons_after window done past call looks))
        ↔ IsCompared window done past call looks position }
{}
