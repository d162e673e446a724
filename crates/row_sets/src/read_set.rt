//! The looks of a call.

ghost use Rattle.std.specs.Prelude.{◌≡◌, [], ◌∷◌, ◌++◌, OnOk, OnErr};

use crate::room::take_room;
use schema::Look;
use std::alloc::{AllocError, Allocator, Global};
use std::marker::Model;

/// The looks of a call in the order in which it made them, repeats kept. Contracts see their list.
#[derive(Drop)]
pub struct ReadSet<A: Allocator = Global> {
    looks: Vec<Look, A>,
}

impl<A: Allocator> Model for ReadSet<A> {
    ghost use Rattle.std.specs.Prelude.{List};
    ghost use Rattle.schema.specs.declared.look.Look.{Look};
    ghost use Rattle.row_sets.specs.Codes.{looks_code};

    ghost Value = { List Look };

    ghost coded = { looks_code };

    ghost view = { λ s. s.looks.items };
}

impl<A: Allocator> ReadSet<A> {
    /// No looks. Takes no memory.
    pub fn new(alloc: A) -> ReadSet<A>
        ensures { result ≡ [] }
    {
        ReadSet {
            looks: Vec::new(alloc),
        }
    }

    /// Adds a look at one key, behind the others.
    pub fn add_point(&mut self, table: u8, key: u64) -> Result<(), AllocError>
        ensures added { OnOk result
            (self.new ≡ self.old ++ record { table = table; lo = key; hi = key } ∷ []) }
        ensures unchanged { OnErr result (self.new ≡ self.old) }
    {
        self.add_range(Look {
            table,
            lo: key,
            hi: key,
        })
    }

    /// Adds a look, behind the others.
    pub fn add_range(&mut self, look: Look) -> Result<(), AllocError>
        ensures added { OnOk result (self.new ≡ self.old ++ look ∷ []) }
        ensures unchanged { OnErr result (self.new ≡ self.old) }
    {
        take_room(&mut self.looks)?;
        self.looks.push(look)?;
        Ok(())
    }

    /// The looks in the order in which they were made.
    pub fn looks(&self) -> &[Look]
        ensures { result.now ≡ self.now }
    {
        &self.looks
    }
}
