//! Laws of replicas that run no call again: they follow the log by its entries alone.

ghost use Rattle.std.specs.Prelude.{◌≡◌, ◌≤◌, suc, List, ◌++◌, length, slice_get, Some};
ghost use Rattle.std.specs.List.{fold};
ghost use Rattle.log_model.specs.Log.{Setting, Log, IsLog, verdict_of};
ghost use Rattle.log_model.specs.Fit.{BeginsSafely, AreItems};
ghost use Rattle.log_model.specs.Entries.{Entry, item_of, items_of, IsCarried, CarryRuns};
ghost use Rattle.dsm_model.specs.Contents.{ReplicaContents, IsContentsOf, first_contents, certified_next};
ghost use Rattle.dsm_model.specs.Contents.{with_delivered};

/// A copy that is what the log says of its position stays so by a delivery, and where the log grows. The delivery's
/// verdict is the log's.
pub fn deliveries_follow_the_log()
    ensures first { (w : Setting) (log : Log) → IsContentsOf w log (first_contents w) }
    ensures verdict { (w : Setting) (log : Log) (copy : ReplicaContents) (e : Entry)
        → IsLog log → IsContentsOf w log copy → IsCarried w log e
        → slice_get log (length copy.certified) ≡ Some (item_of e)
        → verdict_of w log (suc (length copy.certified))
        ≡ Some (certified_next w copy e).verdict }
    ensures next { (w : Setting) (log : Log) (copy : ReplicaContents) (e : Entry)
        → BeginsSafely w → IsLog log → AreItems w log → IsContentsOf w log copy → IsCarried w log e
        → slice_get log (length copy.certified) ≡ Some (item_of e)
        → IsContentsOf w log (with_delivered w copy e) }
    ensures grown { (w : Setting) (log more : Log) (copy : ReplicaContents)
        → length copy.certified ≤ length log → IsContentsOf w log copy → IsContentsOf w (log ++ more) copy }
{}

/// A copy that is made anew from all entries is what the log says of its end.
pub fn new_contents_follow_the_log()
    ensures copy { (w : Setting) (entries : List Entry)
        → BeginsSafely w → IsLog (items_of entries) → AreItems w (items_of entries) → CarryRuns w entries
        → IsContentsOf w (items_of entries) (fold (with_delivered w) (first_contents w) entries) }
    ensures position { (w : Setting) (entries : List Entry)
        → BeginsSafely w → IsLog (items_of entries) → AreItems w (items_of entries) → CarryRuns w entries
        → length (fold (with_delivered w) (first_contents w) entries).certified ≡ length entries }
{}
