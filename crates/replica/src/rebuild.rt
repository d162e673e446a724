//! A replica made anew from all entries.

ghost use Rattle.std.specs.Prelude.{◌≡◌, ◌<◌, ◌^◌, All, length, false, IfOk};
ghost use Rattle.schema.specs.Rows.{AreWrites};
ghost use Rattle.rows_mv.specs.Versions.{HaveTables};
ghost use Rattle.log_model.specs.Log.{IsLog};
ghost use Rattle.log_model.specs.Entries.{items_of};
ghost use Rattle.log_entry.specs.Kind.{entry_of};
ghost use Rattle.catalogue.specs.Catalogue.{beginning_of};
ghost use Rattle.catalogue.specs.Stored.{AreForTables};
ghost use Rattle.replica.specs.Replica.{IsForTables, IsNamed, StandsFor, entries_of, writes_in};

use crate::laws::tables_take_the_schemas_writes;
use crate::replica::Replica;
use catalogue::Catalogue;
use log_entry::Entry;
use std::alloc::{AllocError, Allocator};

/// A replica to which these entries were delivered.
pub(crate) fn replica_of<A: Allocator + Copy, P: Allocator + Copy>(
    alloc: A,
    window: u32,
    catalogue: &Catalogue<P>,
    entries: &[Entry<P>],
) -> Result<Replica<A, P>, AllocError>
    requires few { length entries.now < 2 ^ 32 }
    requires log { IsLog (items_of (entries_of entries.now)) }
    requires fit { All (λ e. AreWrites catalogue.now.tables (writes_in (entry_of e))) entries.now }
    requires named { All (λ e. IsNamed (entry_of e)) entries.now }
    requires for_tables { All (λ e. IsForTables catalogue.now.tables e) entries.now }
    ensures stands { IfOk result (λ r. StandsFor (beginning_of catalogue.now) r (entries_of entries.now)) }
    ensures window { IfOk result (λ r. r.window ≡ window) }
    ensures running { IfOk result (λ r. r.stopped ≡ false) }
    ensures tables { IfOk result (λ r. HaveTables catalogue.now.tables r.versions.tables) }
    ensures procedures { IfOk result (λ r. AreForTables catalogue.now.tables r.procedures) }
{
    // Laws:
    tables_take_the_schemas_writes();
    let mut replica = Replica::new(alloc, window, catalogue)?;
    for entry in entries {
        let Ok(_) = replica.deliver(entry) else {
            return Err(AllocError);
        };
    }
    Ok(replica)
}
