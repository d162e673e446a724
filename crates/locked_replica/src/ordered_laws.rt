ghost use Rattle.std.specs.Prelude.{ℕ, List, [], ◌∷◌, ◌++◌, length};
ghost use Rattle.schema.specs.Schema.{AreTables};
ghost use Rattle.schema.specs.Rows.{AreWrites};
ghost use Rattle.log_model.specs.Log.{Setting, IsPlaced};
ghost use Rattle.log_model.specs.Entries.{item_of};
ghost use Rattle.log_entry.specs.declared.entry.Entry.{Entry as LogEntry};
ghost use Rattle.log_entry.specs.Kind.{entry_of};
ghost use Rattle.order_log.specs.Facts.{HasFactAfter};
ghost use Rattle.replica.specs.Replica.{AreEntriesOf, IsForTables, IsNamed, entries_of, writes_in};
ghost use Rattle.locked_replica.specs.Ordered.{IsOrdered};

use catalogue::accepted_procedures_are_safe;
use log_model::calls_ask_up_to_their_snapshots;
use replica::one_more_entry;
use std::alloc::Allocator;

/// An entry that comes with its fact after the entries of a log is of that log too. The entry meets what a replica
/// requires of entries.
pub fn entries_with_facts_are_a_logs<A: Allocator + Copy>()
    ensures of_log { (w : Setting) (entries : List (LogEntry A)) (e : LogEntry A) → AreTables w.tables
        → AreEntriesOf w (entries_of entries) → HasFactAfter (IsOrdered w) entries e
        → AreEntriesOf w (entries_of (entries ++ e ∷ [])) }
    ensures placed { (w : Setting) (entries : List (LogEntry A)) (e : LogEntry A)
        → HasFactAfter (IsOrdered w) entries e → IsPlaced (length entries) (item_of (entry_of e)) }
    ensures writes { (w : Setting) (entries : List (LogEntry A)) (e : LogEntry A)
        → HasFactAfter (IsOrdered w) entries e → AreWrites w.tables (writes_in (entry_of e)) }
    ensures named { (w : Setting) (entries : List (LogEntry A)) (e : LogEntry A)
        → HasFactAfter (IsOrdered w) entries e → IsNamed (entry_of e) }
    ensures for_tables { (w : Setting) (entries : List (LogEntry A)) (e : LogEntry A)
        → HasFactAfter (IsOrdered w) entries e → IsForTables w.tables e }
{
    // Laws:
    accepted_procedures_are_safe();
    calls_ask_up_to_their_snapshots();
    one_more_entry();
}
