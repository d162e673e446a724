//! The tables of a database, and the width of each.

ghost use Rattle.std.specs.Prelude.{◌≡◌, ◌⊎◌, ◌↔◌, ℕ, ◌<◌, ◌^◌, length, IsTrue, Some, None, Ok, Err, IfOk, IfErr, OnOk};
ghost use Rattle.std.specs.Prelude.{OnErr};
ghost use Rattle.std.specs.FinMap as map;
ghost use Rattle.schema.specs.Schema.{Tables, AreTables, fault_of, schema_of, tables_eq};
ghost use Rattle.schema.specs.Rows.{IsRow};
ghost use Rattle.schema.specs.declared.fault.SchemaFault.TheVariants.{NoMemory};

use crate::fault::SchemaFault;
use crate::limits::{MAX_TABLE, MAX_WIDTH};
use std::alloc::{AllocError, Allocator, Global};
use std::collections::BTreeMap;
use std::marker::Model;

/// The tables of a database, and the widths of their rows. Contracts see a map from a table's number to its width in
/// bytes.
///
/// ```text
/// let schema = Schema::new(alloc, &[(1, 8), (2, 40)])?;
/// assert_eq!(rt; schema.width(2), Some(40));
/// assert!(rt; schema.fits(1, &[0; 8]));
/// ```
#[derive(Debug, Drop)]
pub struct Schema<A: Allocator = Global> {
    widths: BTreeMap<u8, u16, A>,
    /// The allocator of the map, for what is kept beside a copy of the schema.
    alloc: A,
}

impl<A: Allocator> Model for Schema<A> {
    ghost use Rattle.std.specs.Coded.{coded_ℕ};
    ghost use Rattle.std.specs.FinMap as map;
    ghost use Rattle.schema.specs.Schema.{Tables, AreTables};

    ghost Value = { Tables };

    ghost coded = { map.code coded_ℕ coded_ℕ };

    ghost view = { λ schema. map.from_entries schema.widths.entries };

    ghost invariant = { λ schema. AreTables (map.from_entries schema.widths.entries) };
}

impl<A: Allocator + Clone> Schema<A> {
    /// The schema of these pairs of a table's number and its width, or the fault of the first faulty pair.
    pub fn new(alloc: A, pairs: &[(u8, u16)]) -> Result<Schema<A>, SchemaFault>
        ensures exact { IfOk result (λ schema. schema_of pairs.now ≡ Ok schema) }
        // Which pair is refused, and why, is the definition's; memory may also run out.
        ensures fault { IfErr result (λ fault.
            (fault ≡ NoMemory) ⊎ (schema_of pairs.now ≡ Err fault)) }
        ensures tables { IfOk result AreTables }
    {
        let Ok(map_alloc) = alloc.clone() else {
            return Err(SchemaFault::NoMemory);
        };
        let mut schema = Schema {
            widths: BTreeMap::new(map_alloc),
            alloc,
        };
        for &(table, width) in pairs {
            schema.add(table, width)?;
        }
        Ok(schema)
    }

    /// Adds a table, unless the pair is faulty.
    fn add(&mut self, table: u8, width: u16) -> Result<(), SchemaFault>
        ensures fits { OnOk result (fault_of self.old table width ≡ None) }
        ensures added { OnOk result (self.new ≡ map.insert self.old table width) }
        ensures tables { AreTables self.new }
        ensures fault { IfErr result (λ fault.
            (fault ≡ NoMemory) ⊎ (fault_of self.old table width ≡ Some fault)) }
    {
        if let Some(fault) = self.fault(table, width) {
            return Err(fault);
        }
        self.widths.insert(table, width)?;
        Ok(())
    }
}

impl<A: Allocator> Schema<A> {
    /// Every schema has tables and widths within the limits. A call of this law does nothing.
    pub fn known(&self)
        ensures { AreTables self.now }
    {
        let _ = &self.widths;
    }

    /// The allocator of the schema's memory. Contracts see no allocator.
    pub fn allocator(&self) -> &A {
        &self.alloc
    }

    /// The width of a table's rows, 1 to 128; none where the schema hasn't the table.
    pub fn width(&self, table: u8) -> Option<u16>
        ensures { result ≡ map.get self.now table }
    {
        self.widths.get(&table).copied()
    }

    /// Tells whether these bytes may stand as a row of this table, whatever its key.
    pub fn fits(&self, table: u8, bytes: &[u8]) -> bool
        ensures width { IsTrue result ↔ (map.get self.now table ≡ Some (length bytes.now)) }
        ensures row { (key : ℕ) → key < 2 ^ 64 → (IsTrue result ↔ IsRow self.now table key bytes.now) }
    {
        self.width(table)
            .is_some_and(|width| usize::from(width) == bytes.len())
    }

    /// Returns the fault of this pair, given the tables so far, where there is a fault.
    fn fault(&self, table: u8, width: u16) -> Option<SchemaFault>
        ensures { result ≡ fault_of self.now table width }
    {
        if !(1..=MAX_TABLE).contains(&table) {
            Some(SchemaFault::TableNumber)
        } else if !(1..=MAX_WIDTH).contains(&width) {
            Some(SchemaFault::Width)
        } else if self.width(table).is_some() {
            Some(SchemaFault::RepeatedTable)
        } else {
            None
        }
    }
}

impl<A: Allocator> PartialEq for Schema<A> {
    ghost use Rattle.std.specs.Cmp.{partial_equiv_from_equiv};
    ghost use Rattle.schema.specs.Schema.{tables_eq_equiv};

    ghost eq = { tables_eq };

    ghost laws = { partial_equiv_from_equiv tables_eq_equiv };

    /// Two schemas are equal exactly where they have the same tables of the same widths.
    fn eq(&self, other: &Schema<A>) -> bool
        ensures test { result ≡ tables_eq self.now other.now }
        ensures exact { IsTrue result ↔ (self.now ≡ other.now) }
    {
        self.widths.len() == other.widths.len() && self.widths == other.widths
    }
}

impl<A: Allocator> Eq for Schema<A> {
    ghost use Rattle.schema.specs.Schema.{tables_eq_equiv};

    ghost laws = { tables_eq_equiv };
}

impl<A: Allocator + Clone> Clone for Schema<A> {
    ghost use Rattle.std.specs.Prelude.{◌≡◌};

    ghost is_clone = { λ schema copy. copy ≡ schema };

    fn clone(&self) -> Result<Schema<A>, AllocError> {
        let widths = self.widths.clone()?;
        let alloc = self.alloc.clone()?;
        Ok(Schema { widths, alloc })
    }
}
