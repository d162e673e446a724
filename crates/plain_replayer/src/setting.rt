//! The setting that all replicas have in common, as the definitions have it.

ghost use Rattle.std.specs.Prelude.{◌≡◌, [], option_map};
ghost use Rattle.std.specs.FinMap.{empty};
ghost use Rattle.log_model.specs.Log.{by_name, by_number};

use bpf_code::Code;
use schema::Schema;
use std::alloc::{Allocator, Global};
use std::marker::Model;

/// A stored procedure. Contracts see the definition's record.
#[derive(Drop)]
pub struct PlainProcedure<A: Allocator = Global> {
    name: Vec<u8, A>,
    number: u16,
    code: Code<A>,
    args_len: u16,
}

impl<A: Allocator> Model for PlainProcedure<A> {
    ghost use Rattle.log_model.specs.Log.{StoredProcedure};

    ghost Value = { StoredProcedure };

    ghost view = { λ p. record {
      name = p.name.items;
      number = p.number;
      program = p.code;
      args_len = p.args_len;
    } };
}

impl<A: Allocator> PlainProcedure<A> {
    /// A program under a name and a number, that takes arguments of `args_len` bytes.
    pub fn new(name: Vec<u8, A>, number: u16, code: Code<A>, args_len: u16) -> PlainProcedure<A>
        ensures { result ≡ record {
          name = name.items;
          number = number;
          program = code;
          args_len = args_len;
        } }
    {
        PlainProcedure {
            name,
            number,
            code,
            args_len,
        }
    }

    /// The bytes of the procedure's name.
    pub fn name(&self) -> &[u8]
        ensures { result.now ≡ self.now.name }
    {
        &self.name
    }

    /// The number of the procedure.
    pub fn number(&self) -> u16
        ensures { result ≡ self.now.number }
    {
        self.number
    }

    /// The program of the procedure.
    pub fn code(&self) -> &Code<A>
        ensures { result.now ≡ self.now.program }
    {
        &self.code
    }

    /// Returns the number of bytes of the procedure's arguments.
    pub fn args_len(&self) -> u16
        ensures { result ≡ self.now.args_len }
    {
        self.args_len
    }
}

/// The setting that all replicas have in common. Contracts see the definition's record.
#[derive(Drop)]
pub struct PlainSetting<A: Allocator = Global> {
    schema: Schema<A>,
    catalogue: Vec<PlainProcedure<A>, A>,
    window: u32,
}

impl<A: Allocator> Model for PlainSetting<A> {
    ghost use Rattle.std.specs.Prelude.{[]};
    ghost use Rattle.std.specs.FinMap.{empty};
    ghost use Rattle.log_model.specs.Log.{Setting};
    ghost use Rattle.plain_replayer.specs.LogCodes.{setting_code};

    ghost Value = { Setting };

    ghost coded = { setting_code };

    ghost view = { λ w. record {
      tables = w.schema;
      beginning = record { rows = empty; procedures = w.catalogue.items; requests = [] };
      window = w.window;
    } };
}

impl<A: Allocator> PlainSetting<A> {
    /// A setting of tables, of procedures in order of entry, and of the number of items that a verdict goes back.
    pub fn new(
        schema: Schema<A>,
        catalogue: Vec<PlainProcedure<A>, A>,
        window: u32,
    ) -> PlainSetting<A>
        ensures { result ≡ record {
          tables = schema;
          beginning = record { rows = empty; procedures = catalogue.items; requests = [] };
          window = window;
        } }
    {
        PlainSetting {
            schema,
            catalogue,
            window,
        }
    }

    /// The setting begins without rows, and no request was done before its log.
    pub(crate) fn begins_empty(&self)
        ensures rows { self.now.beginning.rows ≡ empty }
        ensures requests { self.now.beginning.requests ≡ [] }
    {
        // A part is looked at, so that the record is known.
        let _ = &self.window;
    }

    /// The tables.
    pub fn schema(&self) -> &Schema<A>
        ensures { result.now ≡ self.now.tables }
    {
        &self.schema
    }

    /// Returns the number of items that a verdict goes back.
    pub fn window(&self) -> u32
        ensures { result ≡ self.now.window }
    {
        self.window
    }

    /// The procedure of a number, the first that was entered.
    pub fn procedure(&self, number: u16) -> Option<&PlainProcedure<A>>
        ensures { option_map (λ p. p.now) result ≡ by_number self.now.beginning.procedures number }
    {
        self.catalogue
            .iter()
            .find(|procedure| procedure.number == number)
    }

    /// The procedure of a name, the first that was entered.
    pub fn procedure_named(&self, name: &[u8]) -> Option<&PlainProcedure<A>>
        ensures { option_map (λ p. p.now) result ≡ by_name self.now.beginning.procedures name.now }
    {
        self.catalogue
            .iter()
            .find(|procedure| procedure.name.as_slice() == name)
    }
}
