//! The rows of a replica at one position, from a key on.

ghost use Rattle.std.specs.Prelude.{◌≡◌, ◌↔◌, ◌⊎◌, ◌≤◌, ◌≢◌, ◌++◌, ◌∷◌, [], false, length, true, Err, Ok, OnOk, IfOk, IfErr};
ghost use Rattle.std.specs.FinMap as map;
ghost use Rattle.replica.specs.Replica.{AreEntriesOf, entries_of};
ghost use Rattle.row_scan.specs.Left.{first_rows, rows_left};
ghost use Rattle.served_replicas.specs.Replicas.{IsNoReplica};
ghost use Rattle.served_replicas.specs.Scanned.{rows_seen};
ghost use Rattle.served_replicas.specs.declared.scan.ScanFault.TheVariants.{NoReplica, NoTable};

use crate::shared::Shared;
use locked_replica::{LockedReplica, LogSetting};
use node_calls::Gate;
use order_log::Seen;
use row_scan::RowScan;
use row_sets::{Keyed, Row};
use schema::Look;
use std::alloc::{AllocError, Allocator, Global};
use std::sync::{RwLock, Wait};
use txn_view::Store;

/// The most rows that are copied under one hold of a lock, so that deliveries aren't kept out for long.
const PAGE: u32 = 256;

/// Rows of a replica at one position.
#[derive(Drop)]
pub struct ScannedRows<J: LogSetting, P: Allocator + Copy = Global> {
    /// The rows, in the order of their keys.
    pub rows: Vec<Row<P>, P>,
    /// The entries after which the rows stand so.
    pub seen: Seen<J, P>,
}

/// A cause for which rows aren't scanned.
#[derive(Clone, Copy, Debug, PartialEq, Eq, Drop)]
pub enum ScanFault {
    /// The number has no replica.
    NoReplica,
    /// The database has no such table.
    NoTable,
    /// The rows were kept no longer: more entries than the window were delivered before the scan was at its end.
    Gone,
    NoMemory,
}

impl<J: LogSetting, P: Allocator + Copy> ScannedRows<J, P> {
    /// Copies rows of a replica behind those that were copied: a page, or as many as are asked for, or as there are.
    /// Tells whether the scan is at its end then.
    fn copy_page<A: Allocator + Copy, R: Wait>(
        &mut self,
        rt: &R,
        alloc: P,
        replica: &RwLock<LockedReplica<J, A, P>>,
        scan: &mut RowScan,
        most: u32,
    ) -> Result<bool, ScanFault>
        requires few { length self.old.rows.items ≤ most }
        ensures few { OnOk result (length self.new.rows.items ≤ most) }
        ensures split { IfOk result (λ _. self.new.rows.items ++ rows_left scan.new.left (rows_seen J.setting self.old.seen)
            ≡ self.old.rows.items ++ rows_left scan.old.left (rows_seen J.setting self.old.seen)) }
        ensures end { result ≡ Ok true
            → (rows_left scan.new.left (rows_seen J.setting self.old.seen) ≡ []) ⊎ (length self.new.rows.items ≡ most) }
        ensures seen { self.new.seen ≡ self.old.seen }
        ensures replica { IfErr result (λ fault. fault ≢ NoReplica) }
        ensures table { IfErr result (λ fault. fault ≢ NoTable) }
    {
        let locked = replica.read(rt);
        if locked.position() < self.seen.len() {
            return Err(ScanFault::Gone);
        }
        let rows = locked.at(&self.seen);
        // Any look tells whether the rows are kept still.
        if rows.get(0, 0).is_err() {
            return Err(ScanFault::Gone);
        }
        for _ in 0..PAGE {
            if self.rows.len() >= most as usize {
                return Ok(true);
            }
            let Some((key, row)) = scan.next(&rows) else {
                return Ok(true);
            };
            let Ok(()) = self.copy_row(alloc, scan.table(), key, row) else {
                return Err(ScanFault::NoMemory);
            };
        }
        Ok(self.rows.len() >= most as usize)
    }

    /// Copies a row behind those that were copied.
    fn copy_row(&mut self, alloc: P, table: u8, key: u64, row: &[u8]) -> Result<(), AllocError>
        ensures rows { OnOk result (self.new.rows.items ≡ self.old.rows.items ++ ((table, key), row.now) ∷ []) }
        ensures seen { self.new.seen ≡ self.old.seen }
    {
        let bytes = Vec::from_slice(alloc, row)?;
        self.rows.push(Keyed::new(table, key, bytes))?;
        Ok(())
    }
}

impl<J: LogSetting, A: Allocator + Copy, P: Allocator + Copy, G: Gate> Shared<J, A, P, G> {
    /// Returns the rows that a look covers at one position, where the replica of a number is when the scan begins: the
    /// first `most`, or all where there are fewer. The replica delivers and answers calls meanwhile.
    pub fn scan<R: Wait>(
        &self,
        rt: &R,
        replica: u32,
        look: Look,
        most: u32,
    ) -> Result<ScannedRows<J, P>, ScanFault>
        ensures rows { IfOk result (λ scanned. scanned.rows.items ≡ first_rows most look (rows_seen J.setting scanned.seen)) }
        ensures entries { IfOk result (λ scanned. AreEntriesOf J.setting (entries_of scanned.seen)) }
        ensures replica { (result ≡ Err NoReplica) ↔ IsNoReplica self.now.replicas replica }
        ensures table { result ≡ Err NoTable → map.contains_key J.setting.tables look.table ≡ false }
        ensures known { IfOk result (λ _. map.contains_key J.setting.tables look.table ≡ true) }
    {
        let Some(replica) = self.locked(replica) else {
            return Err(ScanFault::NoReplica);
        };
        if self.catalogue.schema().width(look.table).is_none() {
            return Err(ScanFault::NoTable);
        }
        let mut scanned = ScannedRows {
            rows: Vec::new(self.alloc),
            seen: seen_by(rt, replica),
        };
        let mut scan = RowScan::new(look);
        for _ in rt.forever() {
            if scanned.copy_page(rt, self.alloc, replica, &mut scan, most)? {
                return Ok(scanned);
            }
        }
        unreachable!()
    }
}

/// Returns what was delivered to a replica.
fn seen_by<J: LogSetting, A: Allocator + Copy, P: Allocator + Copy, R: Wait>(
    rt: &R,
    replica: &RwLock<LockedReplica<J, A, P>>,
) -> Seen<J, P>
    ensures { AreEntriesOf J.setting (entries_of result) }
{
    let locked = replica.read(rt);
    locked.keeps_what_was_delivered();
    locked.seen()
}
