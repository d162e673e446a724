//! Laws about the entries of a log.

ghost use Rattle.std.specs.Prelude.{◌≡◌, ◌≤◌, List, length};
ghost use mathlib.Core.List.{IsPrefix};
ghost use Rattle.log_model.specs.Log.{Setting, rows_after, verdict_of};
ghost use Rattle.log_model.specs.Entries.{items_of};
ghost use Rattle.log_entry.specs.declared.entry.Entry.{Entry as LogEntry};
ghost use Rattle.replica.specs.Replica.{entries_of};

use log_model::a_log_only_grows;
use std::alloc::Allocator;

/// A beginning of a log says of its last position what every longer list of the log's entries says.
pub(crate) fn beginnings_say_the_same<A: Allocator>()
    ensures rows { (w : Setting) (seen entries : List (LogEntry A)) → IsPrefix seen entries
        → rows_after w (items_of (entries_of entries)) (length seen)
        ≡ rows_after w (items_of (entries_of seen)) (length seen) }
    ensures verdicts { (w : Setting) (seen entries : List (LogEntry A)) → IsPrefix seen entries → 1 ≤ length seen
        → verdict_of w (items_of (entries_of entries)) (length seen)
        ≡ verdict_of w (items_of (entries_of seen)) (length seen) }
{
    // Laws:
    a_log_only_grows();
}
