//! The laws of what a replica keeps.

ghost use Rattle.std.specs.Prelude.{◌≡◌, ℕ, suc, ◌-◌, ◌≤◌, List, [], ◌∷◌, ◌++◌, length, slice_get, Some, ◌+◌};
ghost use Rattle.std.specs.FinMap.{empty};
ghost use Rattle.schema.specs.Schema.{Tables};
ghost use Rattle.schema.specs.Rows.{Writes, AreWrites, after_writes};
ghost use Rattle.rows_mv.specs.Versions.{Versions, AnswersFrom, HaveTables, width_of, IsInstalled};
ghost use Rattle.log_model.specs.declared.verdict.Verdict.{Verdict};
ghost use Rattle.log_model.specs.Log.{Beginning, DoneRequest, CertifiedItem, Setting, verdict_of, if_commits, rows_after};
ghost use Rattle.log_model.specs.Log.{procedures_after, IsPlaced, certified_addition, verdict_on_addition};
ghost use Rattle.log_model.specs.Fit.{IsItem};
ghost use Rattle.certify.specs.Kept as certifier;
ghost use Rattle.certify.specs.Kept.{Memory};
ghost use Rattle.catalogue.specs.Stored.{ListedProcedure, AreForTables, stored, stored_procedures};
ghost use Rattle.log_model.specs.Entries.{Entry, AdditionEntry, CertifiedEntries, item_of, items_of, IsCarried};
ghost use Rattle.log_model.specs.Entries.{certified_entry, certified_entries_of, with_entry};
ghost use Rattle.key_table.specs.Table.{Table};
ghost use Rattle.certify.specs.declared.certification.Certification.{Certification};
ghost use Rattle.replica.specs.Replica.{AreEntriesOf, FitTables, FollowsLog, Replica, StandsFor, rows_kept};
ghost use Rattle.replica.specs.Delivery.{IsDelivered, IsRefusedDelivery, KeepsCertified};

use log_model::{entries_suffice, map_after_each_write_set, one_more_entry_carries_its_run};
use rows_mv::answers_after_an_install;

/// Tables that have the schema's widths take the schema's writes, and so do others of the same widths.
pub fn tables_take_the_schemas_writes()
    ensures fit { (schema : Tables) (versions : Versions) (writes : Writes)
        → HaveTables schema versions.tables → AreWrites schema writes → FitTables versions writes }
    ensures kept { (schema : Tables) (old new : List Table) → ((t : ℕ) → width_of new t ≡ width_of old t)
        → length new ≡ length old → HaveTables schema old → HaveTables schema new }
{}

/// One more entry lays its writes on the rows where it commits, from its own position on; the rows before stay.
pub fn rows_of_each_delivery()
    ensures later { (window s : ℕ) (base : Beginning) (entries : List Entry) (e : Entry) → suc (length entries) ≤ s
        → rows_kept window base (entries ++ e ∷ []) s
        ≡ if_commits (certified_entry window (certified_entries_of window base entries) e).verdict
        (after_writes (certified_entry window (certified_entries_of window base entries) e).writes
        (rows_kept window base entries s)) (rows_kept window base entries s) }
    ensures before { (window s : ℕ) (base : Beginning) (entries : List Entry) (e : Entry) → s ≤ length entries
        → rows_kept window base (entries ++ e ∷ []) s ≡ rows_kept window base entries s }
{
    // Laws:
    map_after_each_write_set();
}

/// A replica goes on standing for what it delivered, and where a delivery is refused it stands for the same.
pub(crate) fn deliveries_are_kept()
    ensures delivered { (base : Beginning) (old new : Replica) (e : Entry) (c : Certification) (installed : List Table)
        (entries : List Entry)
        → IsDelivered old new e c installed → StandsFor base old entries → StandsFor base new (entries ++ e ∷ []) }
    ensures refused { (base : Beginning) (old new : Replica) (entries : List Entry)
        → IsRefusedDelivery old new → StandsFor base old entries → StandsFor base new entries }
{
    // Laws:
    map_after_each_write_set();
    answers_after_an_install();
}

/// An addition that is taken in is kept, in words of the entries, and installs nothing.
pub(crate) fn additions_are_taken_in()
    ensures kept { (window : ℕ) (old new : Memory) (before after : List ListedProcedure) (l : ListedProcedure)
        → ((done : List DoneRequest) (past : List CertifiedItem) → certifier.IsMemoryOf old done past
        → certifier.IsMemoryOf new done (past ++ certified_addition (stored_procedures before) (stored l) ∷ []))
        → after ≡ if_commits (verdict_on_addition (stored_procedures before) (stored l)) (before ++ l ∷ []) before
        → (past : CertifiedEntries) → KeepsCertified old before past
        → KeepsCertified new after (with_entry window past (AdditionEntry (stored l))) }
    ensures for_tables { (tables : Tables) (v : Verdict) (before : List ListedProcedure) (l : ListedProcedure)
        → AreForTables tables before → l.accepted.tables ≡ tables
        → AreForTables tables (if_commits v (before ++ l ∷ []) before) }
    ensures installs { (position : ℕ) (tables : List Table) → IsInstalled position empty tables tables }
{}

/// Before the first delivery, each position has the rows of the beginning.
pub(crate) fn rows_at_first()
    ensures { (window s : ℕ) (base : Beginning) → rows_kept window base [] s ≡ base.rows }
{
    // Laws:
    map_after_each_write_set();
}

/// A replica that follows a log keeps the log's verdict at each delivered position, the log's rows at each position
/// within the window, and the log's procedures. The verdict on the next entry is that of the entries before it.
pub fn replicas_follow_the_log()
    ensures verdicts { (w : Setting) (r : Replica) (entries : List Entry) (before : ℕ) (c : Certification)
        → FollowsLog w r entries → slice_get r.certifications before ≡ Some c
        → verdict_of w (items_of entries) (before + 1) ≡ Some c.verdict }
    ensures rows { (w : Setting) (r : Replica) (entries : List Entry) (s : ℕ) → FollowsLog w r entries
        → s ≤ r.position → r.position - s ≤ r.window
        → AnswersFrom r.versions.tables s (rows_after w (items_of entries) s) }
    ensures procedures { (w : Setting) (r : Replica) (entries : List Entry) → FollowsLog w r entries
        → stored_procedures r.procedures ≡ procedures_after w (items_of entries) r.position }
    ensures next { (w : Setting) (entries : List Entry) (e : Entry) → AreEntriesOf w (entries ++ e ∷ [])
        → verdict_of w (items_of (entries ++ e ∷ [])) (length entries + 1)
        ≡ Some (certified_entry w.window (certified_entries_of w.window w.beginning entries) e).verdict }
{
    // Laws:
    entries_suffice();
}

/// One more entry behind the entries of a log is of that log too. The entry has to be placed there, to be an item of
/// the log and to carry its run.
pub fn one_more_entry()
    ensures { (w : Setting) (entries : List Entry) (e : Entry) → AreEntriesOf w entries
        → IsPlaced (length entries) (item_of e)
        → IsItem w (items_of entries) (item_of e) → IsCarried w (items_of entries) e
        → AreEntriesOf w (entries ++ e ∷ []) }
{
    // Laws:
    one_more_entry_carries_its_run();
}
