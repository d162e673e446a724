//! Laws of the log: its verdicts, and the rows after each position.

ghost use Rattle.std.specs.Prelude.{◌≡◌, ◌≢◌, ◌↔◌, ◌+◌, ◌-◌, ◌<◌, ◌≤◌, ℕ, suc, List, ◌++◌, length, slice_get, Some};
ghost use Rattle.std.specs.Prelude.{Option, None, IsSome, ◌==◌, IsTrue, [], ◌∷◌};
ghost use Rattle.std.specs.List.{list_any};
ghost use Rattle.schema.specs.declared.look.Look.{Look};
ghost use Rattle.schema.specs.Rows.{Rows, AreRows, after_writes};
ghost use Rattle.log_model.specs.InstalledWrites.{InstalledWrites, map_after};
ghost use Rattle.log_model.specs.declared.verdict.Verdict.TheVariants.{Commit, Conflict, Stale, Repeated, Taken};
ghost use Rattle.log_model.specs.declared.verdict.Identifier.TheVariants.{Name, Number};
ghost use Rattle.log_model.specs.declared.verdict.Verdict.{Verdict};
ghost use Rattle.log_model.specs.Log.{StoredProcedure, CertifiedItem, Setting, Call, CallItem, AdditionItem, Log};
ghost use Rattle.log_model.specs.Log.{IsPlaced, IsLog, same_request, by_number, by_name, if_commits};
ghost use Rattle.log_model.specs.Log.{history, rows_after, procedures_after, verdict_of, moment_at};
ghost use Rattle.log_model.specs.declared.request.RequestId.{RequestId};
ghost use Rattle.log_model.specs.Fit.{AreSafe, BeginsSafely, IsCall, AreItems};
ghost use Rattle.log_model.specs.Verdicts.{IsConflict, IsLeastConflict, IsDoneBefore, IsRepeated, IsNew};
ghost use Rattle.log_model.specs.Entries.{Entry, ExecutedCall, item_of, items_of, CarriesRun, IsCarried, CarryRuns};
ghost use Rattle.log_model.specs.Entries.{certified_entries_of, installed_from};

/// The procedures after each position: those of the beginning at first; a call leaves them; an addition that commits
/// comes behind them.
pub fn procedures_after_each_item()
    ensures first { (w : Setting) (log : Log) → procedures_after w log 0 ≡ w.beginning.procedures }
    ensures call { (w : Setting) (log : Log) (d : ℕ) (call : Call)
        → IsLog log → slice_get log d ≡ Some (CallItem call)
        → procedures_after w log (suc d) ≡ procedures_after w log d }
    ensures addition { (w : Setting) (log : Log) (d : ℕ) (p : StoredProcedure) (v : Verdict)
        → IsLog log → slice_get log d ≡ Some (AdditionItem p) → verdict_of w log (suc d) ≡ Some v
        → procedures_after w log (suc d)
        ≡ if_commits v (procedures_after w log d ++ p ∷ []) (procedures_after w log d) }
{}

/// A verdict on a call, in words of the log, is repeated where its request was done before the log, or by an earlier
/// committed call, however long ago. Else it is stale where more items than the window came since the snapshot. Else it is a conflict
/// with the least item since then that committed and wrote a key that the call looked at. Where there is no such item,
/// the call commits.
pub fn verdicts_in_words_of_the_log()
    ensures repeated { (w : Setting) (log : Log) (d : ℕ) (call : Call) (position : ℕ)
        → IsLog log → slice_get log d ≡ Some (CallItem call)
        → (verdict_of w log (suc d) ≡ Some (Repeated position)) ↔ IsRepeated w log call position (suc d) }
    ensures stale { (w : Setting) (log : Log) (d : ℕ) (call : Call)
        → IsLog log → slice_get log d ≡ Some (CallItem call)
        → (verdict_of w log (suc d) ≡ Some Stale) ↔ (IsNew w log call (suc d) × (w.window < d - call.snapshot)) }
    ensures conflict { (w : Setting) (log : Log) (d : ℕ) (call : Call) (position : ℕ)
        → IsLog log → slice_get log d ≡ Some (CallItem call)
        → (verdict_of w log (suc d) ≡ Some (Conflict position))
        ↔ (IsNew w log call (suc d) × (d - call.snapshot ≤ w.window) × IsLeastConflict w log call position (suc d)) }
    ensures commit { (w : Setting) (log : Log) (d : ℕ) (call : Call)
        → IsLog log → slice_get log d ≡ Some (CallItem call)
        → (verdict_of w log (suc d) ≡ Some Commit)
        ↔ (IsNew w log call (suc d) × (d - call.snapshot ≤ w.window)
        × ((position : ℕ) → IsConflict w log call position (suc d) → ⊥)) }
{}

/// Two calls carry the same request where both carry a request and the two are equal.
pub fn requests_are_the_same_where_they_are_equal()
    ensures { (a b : Option RequestId) → IsTrue (same_request a b) ↔ ((a ≡ b) × IsSome a) }
{}

/// No committed call carries a request that was done before the log, and no two carry one request.
pub fn each_request_commits_once()
    ensures not_before { (w : Setting) (log : Log) (d : ℕ) (call : Call)
        → IsLog log → slice_get log d ≡ Some (CallItem call) → verdict_of w log (suc d) ≡ Some Commit
        → IsDoneBefore w call → ⊥ }
    ensures once { (w : Setting) (log : Log) (d e : ℕ) (a b : Call)
        → IsLog log → slice_get log d ≡ Some (CallItem a) → slice_get log e ≡ Some (CallItem b)
        → verdict_of w log (suc d) ≡ Some Commit → verdict_of w log (suc e) ≡ Some Commit
        → IsTrue (same_request a.request b.request) → d ≡ e }
{}

/// A verdict on an addition: its name is taken where one of the procedures before it has the name. Else its number is
/// taken where one of them has the number; else the addition commits.
pub fn verdicts_on_additions_in_words_of_the_log()
    ensures name { (w : Setting) (log : Log) (d : ℕ) (p : StoredProcedure)
        → IsLog log → slice_get log d ≡ Some (AdditionItem p)
        → (verdict_of w log (suc d) ≡ Some (Taken Name)) ↔ IsSome (by_name (procedures_after w log d) p.name) }
    ensures number { (w : Setting) (log : Log) (d : ℕ) (p : StoredProcedure)
        → IsLog log → slice_get log d ≡ Some (AdditionItem p)
        → (verdict_of w log (suc d) ≡ Some (Taken Number))
        ↔ ((by_name (procedures_after w log d) p.name ≡ None)
        × IsSome (by_number (procedures_after w log d) p.number)) }
    ensures commit { (w : Setting) (log : Log) (d : ℕ) (p : StoredProcedure)
        → IsLog log → slice_get log d ≡ Some (AdditionItem p)
        → (verdict_of w log (suc d) ≡ Some Commit)
        ↔ ((by_name (procedures_after w log d) p.name ≡ None)
        × (by_number (procedures_after w log d) p.number ≡ None)) }
{}

/// Each position of the log has a verdict, and no position beyond its end has one.
pub fn each_call_has_a_verdict()
    ensures within { (w : Setting) (log : Log) (d : ℕ) → d < length log → IsSome (verdict_of w log (suc d)) }
    ensures beyond { (w : Setting) (log : Log) (d : ℕ) → length log ≤ d → verdict_of w log (suc d) ≡ None }
{}

/// The rows after each position are those of the beginning, with the write sets of the calls that commit laid on in
/// order.
pub fn rows_are_installed_writes()
    ensures { (w : Setting) (log : Log) (position : ℕ)
        → BeginsSafely w → IsLog log → AreItems w log → position ≤ length log
        → map_after w.beginning.rows (installed_from 1 (history w log).certified) position ≡ rows_after w log position }
{}

/// A log that grows keeps the rows and procedures after each of its positions, its verdicts, and the runs on its rows.
pub fn a_log_only_grows()
    ensures rows { (w : Setting) (log more : Log) (position : ℕ) → position ≤ length log
        → rows_after w (log ++ more) position ≡ rows_after w log position }
    ensures procedures { (w : Setting) (log more : Log) (position : ℕ) → position ≤ length log
        → procedures_after w (log ++ more) position ≡ procedures_after w log position }
    ensures verdicts { (w : Setting) (log more : Log) (d : ℕ) → d < length log
        → verdict_of w (log ++ more) (suc d) ≡ verdict_of w log (suc d) }
    ensures runs { (w : Setting) (log more : Log) (call : Call) (k : ℕ) → call.snapshot ≤ length log
        → moment_at w (log ++ more) call k ≡ moment_at w log call k }
{}

/// The rows after each position are the schema's.
pub fn rows_fit_the_schema()
    ensures { (w : Setting) (log : Log) (position : ℕ)
        → BeginsSafely w → IsLog log → AreItems w log → position ≤ length log
        → AreRows w.tables (rows_after w log position) }
{}

/// The procedures after each position are safe.
pub fn procedures_stay_safe()
    ensures { (w : Setting) (log : Log) (position : ℕ)
        → BeginsSafely w → IsLog log → AreItems w log → position ≤ length log
        → AreSafe w.tables (procedures_after w log position) }
{}

/// Entries suffice, where each entry that is a call carries its run's looks and writes. The verdicts and procedures by
/// the entries alone are the log's. The rows after each position are those of the beginning, with the write sets of the
/// calls that commit laid on in order.
pub fn entries_suffice()
    ensures verdicts { (w : Setting) (entries : List Entry)
        → IsLog (items_of entries) → CarryRuns w entries
        → (certified_entries_of w.window w.beginning entries).certified ≡ (history w (items_of entries)).certified }
    ensures procedures { (w : Setting) (entries : List Entry)
        → IsLog (items_of entries) → CarryRuns w entries
        → (certified_entries_of w.window w.beginning entries).procedures
        ≡ procedures_after w (items_of entries) (length entries) }
    ensures rows { (w : Setting) (entries : List Entry) (position : ℕ)
        → BeginsSafely w → IsLog (items_of entries) → AreItems w (items_of entries) → CarryRuns w entries
        → position ≤ length entries
        → map_after w.beginning.rows (installed_from 1 (certified_entries_of w.window w.beginning entries).certified) position
        ≡ rows_after w (items_of entries) position }
{}

/// The items up to a call's snapshot alone decide whether it is a call of the log, and whether an entry carries its
/// run.
pub fn calls_ask_up_to_their_snapshots()
    ensures is_call { (w : Setting) (log more : Log) (call : Call) → call.snapshot ≤ length log
        → (IsCall w (log ++ more) call ↔ IsCall w log call) }
    ensures run { (w : Setting) (log more : Log) (e : ExecutedCall) → e.call.snapshot ≤ length log
        → (CarriesRun w (log ++ more) e ↔ CarriesRun w log e) }
{}

/// A procedure that is found at a position is found at each later one.
pub fn procedures_are_never_lost()
    ensures { (w : Setting) (log : Log) (earlier later number : ℕ) (p : StoredProcedure)
        → IsLog log → earlier ≤ later → later ≤ length log
        → by_number (procedures_after w log earlier) number ≡ Some p
        → by_number (procedures_after w log later) number ≡ Some p }
{}

/// Entries that carry their runs still do after one more entry that carries its run or is an addition.
pub fn one_more_entry_carries_its_run()
    ensures { (w : Setting) (entries : List Entry) (e : Entry)
        → IsLog (items_of entries) → CarryRuns w entries → IsPlaced (length entries) (item_of e)
        → IsCarried w (items_of entries) e → CarryRuns w (entries ++ e ∷ []) }
{}

/// The map at each position has the write sets that were installed up to that position. One more write set changes the
/// map from its own position on, and not below.
pub fn map_after_each_write_set()
    ensures none { (rows : Rows) (position : ℕ) → map_after rows [] position ≡ rows }
    ensures later { (rows : Rows) (installed : List InstalledWrites) (next : InstalledWrites) (position : ℕ)
        → next.position ≤ position
        → map_after rows (installed ++ next ∷ []) position
        ≡ after_writes next.writes (map_after rows installed position) }
    ensures before { (rows : Rows) (installed : List InstalledWrites) (next : InstalledWrites) (position : ℕ)
        → position < next.position
        → map_after rows (installed ++ next ∷ []) position ≡ map_after rows installed position }
{}
