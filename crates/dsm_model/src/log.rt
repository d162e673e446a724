//! Laws of the log: what a call that commits does, and what its rows are.

ghost use Rattle.std.specs.Prelude.{◌≡◌, ◌≢◌, ◌<◌, ℕ, suc, List, slice_get, Some, None};
ghost use Rattle.schema.specs.Rows.{after_writes};
ghost use Rattle.bpf_semantics.specs.Agree.{same_on};
ghost use Rattle.log_model.specs.declared.verdict.Verdict.{Verdict};
ghost use Rattle.log_model.specs.declared.verdict.Verdict.TheVariants.{Commit, Repeated};
ghost use Rattle.log_model.specs.Log.{StoredProcedure, Setting, Call, CallItem, AdditionItem, Log, IsLog, if_commits};
ghost use Rattle.log_model.specs.Log.{DoneRequest, done_under};
ghost use Rattle.log_model.specs.Log.{rows_after, verdict_of, run_on, run_in};
ghost use Rattle.log_model.specs.Entries.{CallEntry, CarryRuns, Entry, ExecutedCall, items_of};
ghost use Rattle.dsm_model.specs.World.{numbered};
ghost use Rattle.dsm_model.specs.Sound.{IsSerialReply, told_reply};
ghost use Rattle.log_model.specs.Fit.{BeginsSafely, AreItems};

/// The rows after each position. At first they are those of the beginning. A call that commits leaves the effect of its
/// run on the rows before it, and any other call and an addition leave those rows.
pub fn rows_after_each_call()
    ensures first { (w : Setting) (log : Log) → rows_after w log 0 ≡ w.beginning.rows }
    ensures next { (w : Setting) (log : Log) (d : ℕ) (call : Call) (v : Verdict)
        → IsLog log → slice_get log d ≡ Some (CallItem call) → verdict_of w log (suc d) ≡ Some v
        → rows_after w log (suc d)
        ≡ if_commits v (run_on w log call (rows_after w log d)).effect (rows_after w log d) }
    ensures addition { (w : Setting) (log : Log) (d : ℕ) (p : StoredProcedure)
        → IsLog log → slice_get log d ≡ Some (AdditionItem p) → rows_after w log (suc d) ≡ rows_after w log d }
{}

/// A call that commits runs alike on the rows of its snapshot and on those just before it: reply, looks and
/// writes are the same, and its effect is those writes.
pub fn what_commits_is_serial()
    ensures run { (w : Setting) (log : Log) (d : ℕ) (call : Call)
        → BeginsSafely w → IsLog log → AreItems w log → slice_get log d ≡ Some (CallItem call)
        → verdict_of w log (suc d) ≡ Some Commit
        → run_on w log call (rows_after w log d) ≡ same_on (rows_after w log d) (run_in w log call) }
    ensures rows { (w : Setting) (log : Log) (d : ℕ) (call : Call)
        → BeginsSafely w → IsLog log → AreItems w log → slice_get log d ≡ Some (CallItem call)
        → verdict_of w log (suc d) ≡ Some Commit
        → rows_after w log (suc d) ≡ after_writes (run_in w log call).writes (rows_after w log d) }
{}

/// The reply that is told of a call that commits is its reply where it runs in its turn. The reply that is told of a
/// repeated call is that of the call that it repeats. Where its request was done before the log, it is that request's.
pub fn what_is_told_is_serial()
    ensures committed { (w : Setting) (log : Log) (d : ℕ) (call : Call)
        → BeginsSafely w → IsLog log → AreItems w log → slice_get log d ≡ Some (CallItem call)
        → verdict_of w log (suc d) ≡ Some Commit
        → (reply : ℕ) × (told_reply w log (suc d) ≡ Some reply) × IsSerialReply w log (suc d) reply }
    ensures repeated { (w : Setting) (log : Log) (d : ℕ) (call : Call) (earlier : ℕ)
        → BeginsSafely w → IsLog log → AreItems w log → slice_get log d ≡ Some (CallItem call)
        → 0 < earlier → verdict_of w log (suc d) ≡ Some (Repeated earlier)
        → (reply : ℕ) × (told_reply w log (suc d) ≡ Some reply) × IsSerialReply w log earlier reply }
    ensures done { (w : Setting) (log : Log) (d : ℕ) (call : Call)
        → IsLog log → slice_get log d ≡ Some (CallItem call) → verdict_of w log (suc d) ≡ Some (Repeated 0)
        → (before : DoneRequest) × (done_under w.beginning.requests call.request ≡ Some before)
        × (told_reply w log (suc d) ≡ Some before.reply) }
    ensures untold { (w : Setting) (log : Log) (position : ℕ)
        → verdict_of w log position ≢ Some Commit
        → ((earlier : ℕ) → verdict_of w log position ≢ Some (Repeated earlier))
        → told_reply w log position ≡ None }
{}

/// An entry among entries that carry their runs has the reply of its call's run on the rows of its snapshot. Where the
/// call commits, this is the reply of the run on the rows just before it too.
pub fn entries_carry_serial_replies()
    ensures carried { (w : Setting) (entries : List Entry) (position : ℕ) (e : ExecutedCall)
        → CarryRuns w entries → numbered entries position ≡ Some (CallEntry e)
        → e.reply ≡ (run_in w (items_of entries) e.call).reply }
    ensures serial { (w : Setting) (entries : List Entry) (position : ℕ) (e : ExecutedCall)
        → BeginsSafely w → IsLog (items_of entries) → AreItems w (items_of entries) → CarryRuns w entries
        → numbered entries position ≡ Some (CallEntry e) → verdict_of w (items_of entries) position ≡ Some Commit
        → IsSerialReply w (items_of entries) position e.reply }
{}
