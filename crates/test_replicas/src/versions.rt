//! Versions that take any writes.

ghost use Rattle.std.specs.Prelude.{◌≡◌};

use crate::fit::writes_fit;
use replica::tables_take_the_schemas_writes;
use row_sets::WriteSet;
use rows_mv::Versions;
use schema::Schema;
use std::alloc::{AllocError, Allocator, Global};
use std::marker::Model;

/// Versions with the schema of their tables.
#[derive(Drop)]
pub struct CheckedVersions<'a, A: Allocator + Copy = Global> {
    schema: &'a Schema<A>,
    versions: Versions<A>,
}

impl<'a, A: Allocator + Copy> Model for CheckedVersions<'a, A> {
    ghost use Rattle.rows_mv.specs.Versions.{Versions, HaveTables};

    ghost Value = { Versions };

    ghost view = { λ c. c.versions };

    ghost invariant = { λ c. HaveTables c.schema.now c.versions.tables };
}

impl<'a, A: Allocator + Copy> CheckedVersions<'a, A> {
    /// Versions of no rows.
    pub fn new(alloc: A, schema: &'a Schema<A>) -> Result<CheckedVersions<'a, A>, AllocError> {
        let versions = Versions::new(alloc, schema)?;
        Ok(CheckedVersions { schema, versions })
    }

    /// Makes room for writes and installs them, where they are of the schema's tables.
    pub fn install<B: Allocator + Copy>(
        &mut self,
        position: u32,
        writes: &WriteSet<B>,
    ) -> Result<bool, AllocError> {
        // Laws:
        tables_take_the_schemas_writes();
        if !writes_fit(self.schema, writes) {
            return Ok(false);
        }
        self.versions.prepare(writes)?;
        self.versions.install(position, writes);
        Ok(true)
    }

    /// Drops the versions that no position from this one on sees.
    pub fn prune(&mut self, below: u32) {
        self.versions.prune(below);
    }

    /// Drops the versions that no position from this one on sees, in the next page of keys. Answers true where there
    /// was no page.
    pub fn prune_page(&mut self, below: u32) -> bool {
        self.versions.prune_page(below)
    }

    /// The versions themselves.
    pub fn versions(&self) -> &Versions<A>
        ensures { result.now ≡ self.now }
    {
        &self.versions
    }
}
