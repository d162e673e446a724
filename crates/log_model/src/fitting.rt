//! Laws of logs that may have calls of no procedure besides: these do nothing, and take a position.

ghost use Rattle.std.specs.Prelude.{◌≡◌, ◌≤◌, ◌++◌, [], ◌∷◌, ℕ, suc, length, slice_get, Some};
ghost use Rattle.schema.specs.Rows.{AreRows};
ghost use Rattle.bpf_semantics.specs.Agree.{same_on};
ghost use Rattle.log_model.specs.InstalledWrites.{map_after};
ghost use Rattle.log_model.specs.declared.verdict.Verdict.TheVariants.{Commit};
ghost use Rattle.log_model.specs.Log.{Setting, Call, CallItem, Item, Log, IsLog, IsPlaced, history, rows_after};
ghost use Rattle.log_model.specs.Log.{run_in, run_on, verdict_of};
ghost use Rattle.log_model.specs.Fit.{AllFitLog, AreItems, FitsLog, BeginsSafely};
ghost use Rattle.log_model.specs.Entries.{installed_from};

/// The laws of rows and runs, for a log whose items are calls of its procedures, hold also where calls fit the
/// procedures alone. Such a log may have calls of no procedure.
pub fn logs_whose_calls_fit()
    ensures items { (w : Setting) (log : Log) → AreItems w log → AllFitLog w log }
    ensures one_more { (w : Setting) (log : Log) (item : Item) → IsLog log → AllFitLog w log
        → IsPlaced (length log) item → FitsLog w log item → AllFitLog w (log ++ item ∷ []) }
    ensures installed { (w : Setting) (log : Log) (position : ℕ)
        → BeginsSafely w → IsLog log → AllFitLog w log → position ≤ length log
        → map_after w.beginning.rows (installed_from 1 (history w log).certified) position ≡ rows_after w log position }
    ensures rows { (w : Setting) (log : Log) (position : ℕ)
        → BeginsSafely w → IsLog log → AllFitLog w log → position ≤ length log
        → AreRows w.tables (rows_after w log position) }
    ensures runs { (w : Setting) (log : Log) (d : ℕ) (call : Call)
        → BeginsSafely w → IsLog log → AllFitLog w log → slice_get log d ≡ Some (CallItem call)
        → verdict_of w log (suc d) ≡ Some Commit
        → run_on w log call (rows_after w log d) ≡ same_on (rows_after w log d) (run_in w log call) }
{}
