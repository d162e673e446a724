//! A replica.

ghost use Rattle.std.specs.Prelude.{◌≡◌, ℕ, ◌+◌, ◌-◌, ◌≤◌, ◌<◌, ◌^◌, nat_lt, List, [], ◌∷◌, ◌++◌, length, slice_get};
ghost use Rattle.std.specs.Prelude.{Some, true, false, is_err, All, IfOk, OnOk, OnErr};
ghost use Rattle.schema.specs.Rows.{AreWrites};
ghost use Rattle.std.specs.FinMap as map;
ghost use Rattle.schema.specs.Schema.{Tables};
ghost use Rattle.log_model.specs.Log.{Beginning, IsLog, IsPlaced, Setting, procedures_after, rows_after};
ghost use Rattle.log_model.specs.Log.{verdict_of, done_at};
ghost use Rattle.log_model.specs.Entries.{Entry as Delivered, item_of, items_of, certified_entry, certified_entries_of};
ghost use Rattle.log_entry.specs.Kind.{entry_of};
ghost use Rattle.catalogue.specs.Catalogue.{beginning_of};
ghost use Rattle.catalogue.specs.Stored.{AreForTables, stored_procedures};
ghost use Rattle.rows_mv.specs.Versions.{AnswersFrom, HaveTables, slots_of, width_of};
ghost use Rattle.replica.specs.Replica.{AreEntriesOf, FitTables, IsForTables, IsNamed, StandsFor, StandsIn};
ghost use Rattle.replica.specs.Replica.{certification_of, entries_of, rows_kept, writes_in};
ghost use Rattle.replica.specs.Replica.{HasDelivered, HasStopped, HasSameTables};

use crate::at::At;
use crate::begin::certifier_over;
use crate::deliver::{Pruning, drop_unseen, take_entry, written_by};
use crate::laws::{deliveries_are_kept, rows_at_first, tables_take_the_schemas_writes};
use crate::rebuild::replica_of;
use crate::stopped::Stopped;
use catalogue::{Catalogue, StoredProcedures};
use certify::{Certification, Certifications, Certifier};
use log_entry::Entry;
use log_model::{RequestId, Verdict, entries_suffice};
use row_sets::Row;
use rows_mv::Versions;
use std::alloc::{AllocError, Allocator, Global};
use std::marker::Model;
use txn_view::Store;

/// A replica of the database. Contracts see what it keeps of the entries that were delivered to it. Programs, in the
/// memory of `P`, are shared with the catalogue and with the entries that added them.
///
/// ```text
/// let mut replica = Replica::new(alloc, 64, &catalogue)?;
/// let verdict = replica.deliver(&entry)?;
/// assert_eq!(rt; replica.position(), 1);
/// // Reads of a call that began before that entry.
/// let rows = replica.at(0);
/// ```
#[derive(Drop)]
pub struct Replica<A: Allocator + Copy = Global, P: Allocator + Copy = A> {
    alloc: A,
    window: u32,
    position: u32,
    stopped: bool,
    certifications: Certifications<A>,
    certifier: Certifier<A>,
    versions: Versions<A>,
    procedures: StoredProcedures<A, P>,
    pruning: Pruning,
}

impl<A: Allocator + Copy, P: Allocator + Copy> Model for Replica<A, P> {
    ghost use Rattle.replica.specs.Replica.{Replica, IsReplica};
    ghost use Rattle.replica.specs.Codes.{replica_code};

    ghost Value = { Replica };

    ghost coded = { replica_code };

    ghost use Rattle.replica.specs.Fields.{replica_of};

    ghost view = { replica_of };

    ghost invariant = { λ r. IsReplica (replica_of r) };
}

impl<A: Allocator + Copy, P: Allocator + Copy> Replica<A, P> {
    /// A replica to which nothing was delivered, with the tables, rows, requests and procedures of a catalogue. A call
    /// finds its rows no more where more entries than the window were delivered since its snapshot.
    pub fn new(alloc: A, window: u32, catalogue: &Catalogue<P>) -> Result<Replica<A, P>, AllocError>
        ensures stands { IfOk result (λ r. StandsFor (beginning_of catalogue.now) r []) }
        ensures window { IfOk result (λ r. r.window ≡ window) }
        ensures running { IfOk result (λ r. r.stopped ≡ false) }
        ensures tables { IfOk result (λ r. HaveTables catalogue.now.tables r.versions.tables) }
        ensures for_tables { IfOk result (λ r. AreForTables catalogue.now.tables r.procedures) }
    {
        // Laws:
        rows_at_first();
        let certifier = certifier_over(alloc, window, catalogue.requests().requests())?;
        let versions = Versions::beginning_with(alloc, catalogue.schema(), catalogue.rows())?;
        let procedures = catalogue.procedures().share(alloc)?;
        Ok(Replica {
            alloc,
            window,
            position: 0,
            stopped: false,
            certifications: Certifications::new(alloc),
            certifier,
            versions,
            procedures,
            pruning: Pruning::from(window),
        })
    }

    /// Returns the number of entries that were delivered.
    pub fn position(&self) -> u32
        ensures { result ≡ self.now.position }
    {
        self.position
    }

    /// Returns the number of pages in which the keys of a table lie. Keys whose versions no kept position sees, and
    /// that are yet to be dropped, count too.
    pub fn pages(&self, table: u8) -> usize
        ensures { result ≤ length (slots_of self.now.versions.tables table) }
    {
        self.versions.pages(table)
    }

    /// Tells whether a delivery found no memory; then there are no more deliveries.
    pub fn stopped(&self) -> bool
        ensures { result ≡ self.now.stopped }
    {
        self.stopped
    }

    /// Returns the number of latest positions that the replica keeps besides the last.
    pub fn window(&self) -> u32
        ensures { result ≡ self.now.window }
    {
        self.window
    }

    /// The snapshot of a call that begins now: the position.
    pub fn begin(&self) -> u32
        ensures { result ≡ self.now.position }
    {
        self.position()
    }

    /// The replica's procedures, at its position.
    pub fn procedures(&self) -> &StoredProcedures<A, P>
        ensures { result.now ≡ self.now.procedures }
    {
        &self.procedures
    }

    /// The position at which a request was done, however long ago. A request that was done before the log is at 0.
    pub fn repeated(&self, request: Option<RequestId>) -> Option<u32>
        ensures { (base : Beginning) (entries : List Delivered) → StandsFor base self.now entries
            → result ≡ done_at base.requests (certified_entries_of self.now.window base entries).certified request }
    {
        self.certifier.repeated(request)
    }

    /// The rows at a position that was reached. The rows are gone where the position is out of the window.
    pub fn at<'a>(&'a self, position: u32) -> At<'a, A>
        requires { position ≤ self.now.position }
        ensures answers { (base : Beginning) (entries : List Delivered) → StandsFor base self.now entries
            → ⟦<At<'a, A> as Store>⟧.answers_from result (rows_kept self.now.window base entries position) }
        ensures gone { ⟦<At<'a, A> as Store>⟧.is_gone result ≡ nat_lt self.now.window (self.now.position - position) }
    {
        At {
            versions: &self.versions,
            position,
            gone: self.position - position > self.window,
        }
    }

    /// The rows after the last position, in the order of tables and keys.
    pub fn rows<B: Allocator + Copy>(&self, alloc: B) -> Result<Vec<Row<B>, B>, AllocError>
        ensures { IfOk result (λ list. (base : Beginning) (entries : List Delivered) → StandsFor base self.now entries
            → list.items ≡ map.entries (rows_kept self.now.window base entries self.now.position)) }
    {
        self.versions.rows_at(alloc, self.position)
    }

    /// Takes the next entry in and tells its verdict. Where there is no memory the replica stops, and its procedures
    /// and the rows at each position stay as they were. The replica goes on standing, in each setting in which it stood,
    /// for what was delivered.
    pub fn deliver(&mut self, entry: &Entry<P>) -> Result<Verdict, Stopped>
        requires placed { IsPlaced self.old.position (item_of (entry_of entry.now)) }
        requires room { self.old.position + 1 < 2 ^ 32 }
        requires fit { FitTables self.old.versions (writes_in (entry_of entry.now)) }
        requires named { IsNamed (entry_of entry.now) }
        ensures delivered { IfOk result (HasDelivered self.old self.new (entry_of entry.now)) }
        ensures stopped { OnErr result (HasStopped self.old self.new) }
        ensures refused { self.old.stopped ≡ true → (is_err result ≡ true) × (self.new ≡ self.old) }
        ensures same_tables { HasSameTables self.old self.new }
        ensures for_tables { (tables : Tables) → AreForTables tables self.old.procedures → IsForTables tables entry.now
            → AreForTables tables self.new.procedures }
        ensures one_more { OnOk result ((w : Setting) (past : List Delivered) → StandsIn w self.old past
            → IsForTables w.tables entry.now → StandsIn w self.new (past ++ entry_of entry.now ∷ [])) }
        ensures no_more { OnErr result ((w : Setting) (past : List Delivered) → StandsIn w self.old past
            → StandsIn w self.new past) }
    {
        // Laws:
        deliveries_are_kept();
        entries_suffice();
        tables_take_the_schemas_writes();
        if self.stopped {
            return Err(Stopped);
        }
        let position = self.position + 1;
        let taken = take_entry(
            &mut self.certifier,
            &mut self.versions,
            &mut self.procedures,
            &mut self.certifications,
            position,
            entry,
        );
        let Ok(certification) = taken else {
            self.stopped = true;
            return Err(Stopped);
        };
        self.position = position;
        let written = written_by(entry, certification.verdict);
        self.pruning = drop_unseen(
            &mut self.versions,
            self.window,
            position,
            written,
            self.pruning,
        );
        Ok(certification.verdict)
    }

    /// Takes all entries in anew, from the first on. The replica changes only where all are taken in.
    pub fn rebuild(
        &mut self,
        catalogue: &Catalogue<P>,
        entries: &[Entry<P>],
    ) -> Result<u32, AllocError>
        requires few { length entries.now < 2 ^ 32 }
        requires log { IsLog (items_of (entries_of entries.now)) }
        requires fit { All (λ e. AreWrites catalogue.now.tables (writes_in (entry_of e))) entries.now }
        requires named { All (λ e. IsNamed (entry_of e)) entries.now }
        requires for_tables { All (λ e. IsForTables catalogue.now.tables e) entries.now }
        ensures stands { OnOk result (StandsFor (beginning_of catalogue.now) self.new (entries_of entries.now)) }
        ensures position { IfOk result (λ p. p ≡ length entries.now) }
        ensures running { OnOk result (self.new.stopped ≡ false) }
        ensures window { self.new.window ≡ self.old.window }
        ensures tables { OnOk result (HaveTables catalogue.now.tables self.new.versions.tables) }
        ensures procedures { OnOk result (AreForTables catalogue.now.tables self.new.procedures) }
        ensures unchanged { OnErr result (self.new ≡ self.old) }
    {
        let fresh = replica_of(self.alloc, self.window, catalogue, entries)?;
        let position = fresh.position;
        *self = fresh;
        Ok(position)
    }

    /// Returns the certification of the entry at a position that was reached, from 1 on.
    pub fn verdict_at(&self, position: u32) -> Certification
        requires from { 1 ≤ position }
        requires to { position ≤ self.now.position }
        ensures kept { (base : Beginning) (entries : List Delivered) (e : Delivered) → StandsFor base self.now entries
            → slice_get entries (position - 1) ≡ Some e
            → result ≡ certification_of self.now.window base entries (position - 1) e }
        ensures log_verdict { (w : Setting) (entries : List Delivered) → w.window ≡ self.now.window
            → StandsFor w.beginning self.now entries → AreEntriesOf w entries
            → verdict_of w (items_of entries) position ≡ Some result.verdict }
    {
        // Laws:
        entries_suffice();
        self.certifications.at(position as usize - 1)
    }
}
