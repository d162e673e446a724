//! An accepted program.
ghost use Rattle.std.specs.Prelude.{◌≡◌, ◌≤◌, ◌<◌, ◌^◌};
ghost use Rattle.bpf_semantics.specs.Path.{longest_path};
ghost use Rattle.bpf_code.specs.Program.{IsProgram};
ghost use Rattle.schema.specs.Schema.{AreTables};
ghost use Rattle.schema.specs.declared.limits.TheConstants.{MAX_ARGUMENTS};
ghost use Rattle.flat_code.specs.Flat.{LaidOut};
ghost use Rattle.bpf_verify.specs.Flow.{IsAccepted};

use bpf_code::Code;
use flat_code::FlatInstruction;
use schema::Schema;
use std::alloc::{Allocator, Global};
use std::marker::Model;

/// A program that was verified, with the schema and the length of arguments for which it was verified. Contracts see
/// these three. The program's layout is kept too, in the schema's memory.
#[derive(Drop)]
pub struct Accepted<A: Allocator = Global, B: Allocator = Global> {
    code: Code<A>,
    schema: Schema<B>,
    args_len: u16,
    bound: u32,
    layout: Vec<FlatInstruction, B>,
}

impl<A: Allocator, B: Allocator> Model for Accepted<A, B> {
    ghost use Rattle.std.specs.Prelude.{◌≡◌, ◌≤◌};
    ghost use Rattle.bpf_semantics.specs.Path.{longest_path};
    ghost use Rattle.schema.specs.declared.limits.TheConstants.{MAX_ARGUMENTS};
    ghost use Rattle.flat_code.specs.Flat.{LaidOut};
    ghost use Rattle.bpf_verify.specs.Flow.{Procedure, IsAccepted};
    ghost use Rattle.bpf_verify.specs.Procedure.{procedure_code};

    ghost Value = { Procedure };

    ghost coded = { procedure_code };

    ghost view = { λ a. record { program = a.code; tables = a.schema; args_len = a.args_len } };

    ghost invariant = { λ a.
        IsAccepted (record { program = a.code; tables = a.schema; args_len = a.args_len })
        × (a.args_len ≤ MAX_ARGUMENTS) × (a.bound ≡ longest_path a.code) × LaidOut a.code a.layout.items };
}

impl<A: Allocator, B: Allocator> Accepted<A, B> {
    pub(crate) fn new(
        code: Code<A>,
        schema: Schema<B>,
        args_len: u16,
        bound: u32,
        layout: Vec<FlatInstruction, B>,
    ) -> Accepted<A, B>
        requires accepted { IsAccepted (record { program = code; tables = schema; args_len = args_len }) }
        requires few { args_len ≤ MAX_ARGUMENTS }
        requires bound { bound ≡ longest_path code }
        requires layout { LaidOut code layout.items }
        ensures { result ≡ record { program = code; tables = schema; args_len = args_len } }
    {
        Accepted {
            code,
            schema,
            args_len,
            bound,
            layout,
        }
    }

    /// Every accepted program is a program that the definition accepts, and its schema, its argument length and its
    /// bound are within the limits. A call of this law does nothing.
    pub fn known(&self)
        ensures program { IsProgram self.now.program }
        ensures tables { AreTables self.now.tables }
        ensures accepted { IsAccepted self.now }
        ensures few { self.now.args_len ≤ MAX_ARGUMENTS }
        ensures bound { longest_path self.now.program < 2 ^ 32 }
    {
        self.code.known();
        self.schema.known();
        prove!(self.bound <= u32::MAX);
    }

    /// The program.
    pub fn code(&self) -> &Code<A>
        ensures { result.now ≡ self.now.program }
    {
        &self.code
    }

    /// The schema whose tables the program may name.
    pub fn schema(&self) -> &Schema<B>
        ensures { result.now ≡ self.now.tables }
    {
        &self.schema
    }

    /// Returns the number of bytes of the program's arguments, at most 256.
    pub fn args_len(&self) -> u16
        ensures length { result ≡ self.now.args_len }
        ensures few { result ≤ MAX_ARGUMENTS }
    {
        self.args_len
    }

    /// The most instructions that the program may run: those on the longest path, whatever the conditions say.
    pub fn bound(&self) -> u32
        ensures { result ≡ longest_path self.now.program }
    {
        self.bound
    }
    /// The program's layout: its slots as flat instructions, which a machine runs.
    pub fn layout(&self) -> &[FlatInstruction]
        ensures { LaidOut self.now.program result.now }
    {
        &self.layout
    }
}
