//! Replicas and versions that are asked only what they may be asked.

ghost use Rattle.std.specs.Prelude.{◌≡◌};

use crate::fit::{entries_fit, entry_fits};
use catalogue::Catalogue;
use log_entry::Entry;
use log_model::Verdict;
use replica::{Replica, Stopped, tables_take_the_schemas_writes};
use std::alloc::{AllocError, Allocator, Global};
use std::marker::Model;

/// A replica with the catalogue of its tables.
#[derive(Drop)]
pub struct CheckedReplica<'a, A: Allocator + Copy = Global, P: Allocator + Copy = A> {
    catalogue: &'a Catalogue<P>,
    replica: Replica<A, P>,
}

impl<'a, A: Allocator + Copy, P: Allocator + Copy> Model for CheckedReplica<'a, A, P> {
    ghost use Rattle.rows_mv.specs.Versions.{HaveTables};
    ghost use Rattle.replica.specs.Replica.{Replica};
    ghost use Rattle.replica.specs.Codes.{replica_code};

    ghost Value = { Replica };

    ghost coded = { replica_code };

    ghost view = { λ c. c.replica };

    ghost invariant = { λ c. HaveTables c.catalogue.now.tables c.replica.versions.tables };
}

impl<'a, A: Allocator + Copy, P: Allocator + Copy> CheckedReplica<'a, A, P> {
    /// A replica to which nothing was delivered.
    pub fn new(
        alloc: A,
        window: u32,
        catalogue: &'a Catalogue<P>,
    ) -> Result<CheckedReplica<'a, A, P>, AllocError> {
        let replica = Replica::new(alloc, window, catalogue)?;
        Ok(CheckedReplica { catalogue, replica })
    }

    /// Delivers an entry, where it may be delivered next to a replica of the catalogue.
    pub fn deliver(&mut self, entry: &Entry<P>) -> Option<Result<Verdict, Stopped>> {
        // Laws:
        tables_take_the_schemas_writes();
        let position = self.replica.position();
        if position == u32::MAX || !entry_fits(self.catalogue.schema(), entry, position) {
            return None;
        }
        Some(self.replica.deliver(entry))
    }

    /// Takes all entries in anew, where they may be delivered one after the other to a replica of the catalogue.
    pub fn rebuild(&mut self, entries: &[Entry<P>]) -> Option<Result<u32, AllocError>> {
        if entries.len() > u32::MAX as usize || !entries_fit(self.catalogue.schema(), entries) {
            return None;
        }
        Some(self.replica.rebuild(self.catalogue, entries))
    }

    /// The replica itself.
    pub fn replica(&self) -> &Replica<A, P>
        ensures { result.now ≡ self.now }
    {
        &self.replica
    }
}
