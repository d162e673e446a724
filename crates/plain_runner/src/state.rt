//! The state of the plain runner.

ghost use Rattle.std.specs.Prelude.{◌≡◌, ◌<◌, ◌^◌, ◌+◌};
ghost use Rattle.bpf_semantics.specs.State.{register, with_register, past};
ghost use Rattle.bpf_semantics.specs.Step.{operand};
ghost use Rattle.plain_runner.specs.State.{state_of};

use crate::key_map::KeyMap;
use bpf_code::{Register, Source};
use bpf_semantics::Value;
use row_sets::Bytes;
use schema::Look;
use std::alloc::{AllocError, Allocator};

/// The definition's state, field by field.
#[derive(Drop)]
pub struct State<A: Allocator> {
    pub slot: usize,
    pub registers: [Value; 11],
    pub stack: Vec<Option<u8>, A>,
    pub args: Vec<u8, A>,
    pub rows: KeyMap<Bytes<A>, A>,
    pub cancel_code: Option<u64>,
    pub looks: Vec<Look, A>,
    pub writes: KeyMap<Option<Bytes<A>>, A>,
    pub steps: usize,
}

impl<A: Allocator> State<A> {
    /// Returns what a register holds.
    pub fn register(&self, src: Register) -> Value
        ensures { result ≡ register (state_of self.now) src }
    {
        self.registers[usize::from(src.number())]
    }

    /// The second operand.
    pub fn operand(&self, source: Source) -> Value
        ensures { result ≡ operand (state_of self.now) source }
    {
        match source {
            Source::Immediate(immediate) => Value::Number(i64::from(immediate).cast_unsigned()),
            Source::Register(register) => self.register(register),
        }
    }

    /// The state with a value in a register.
    pub fn with_register(mut self, dst: Register, value: Value) -> State<A>
        ensures { state_of result ≡ with_register (state_of self) dst value }
    {
        self.registers[usize::from(dst.number())] = value;
        self
    }

    /// The state one instruction further, and `slots` slots on.
    pub fn past(mut self, slots: usize) -> State<A>
        requires slot { self.slot + slots < 2 ^ 64 }
        requires steps { self.steps + 1 < 2 ^ 64 }
        ensures { state_of result ≡ past slots (state_of self) }
    {
        self.slot += slots;
        self.steps += 1;
        self
    }
}
