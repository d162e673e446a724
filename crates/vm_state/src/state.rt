//! The words, and how they are read and written.

ghost use Rattle.std.specs.Prelude.{◌≡◌, ◌^◌, ◌+◌, ◌%◌, ◌<◌, ◌≤◌, List, ◌++◌, ℕ, length, take, drop, Some};
ghost use Rattle.schema.specs.declared.limits.TheConstants.{MAX_ARGUMENTS};
ghost use Rattle.byteorder.specs.Endian.{little_bytes};
ghost use Rattle.bpf_code.specs.declared.instruction.Register.TheVariants.{R0};
ghost use Rattle.bpf_code.specs.Sizes.{size_bytes};
ghost use Rattle.schema.specs.Rows.{Rows};
ghost use Rattle.bpf_semantics.specs.declared.value.Value.{Value};
ghost use Rattle.bpf_semantics.specs.State.{State, entry_state, past};
ghost use Rattle.bpf_semantics.specs.Memory.{known_bytes, stack_with};
ghost use Rattle.bpf_semantics.specs.Helpers.{buffer_of, with_answer, with_stack};
ghost use Rattle.vm_state.specs.Words.{Holds, IsWordOf, word};
ghost use Rattle.vm_state.specs.Memory.{args_of};
ghost use Rattle.vm_state.specs.Access.{InStack, CanLoad, stack_from, bytes_from};
ghost use Rattle.vm_state.specs.Access.{words_past, with_word, with_bytes, at_slot};

use bpf_code::{Register, Size};
use schema::MAX_ARGUMENTS;
use std::marker::Model;

/// The address of the stack's end.
const STACK_END: u64 = 1 << 40;

/// The address of the first argument.
const ARGS_START: u64 = 1 << 41;

/// The number of bytes of the memory, with the arguments from 0 on and the stack from 512 on. Nobody reads or writes
/// the bytes between.
const MEMORY_BYTES: usize = 1024;

/// A run's state in bare words.
#[derive(Drop)]
pub struct WordState {
    slot: usize,
    registers: [u64; 11],
    /// The arguments, and behind them the stack.
    memory: [u8; MEMORY_BYTES],
    /// The number of bytes of the arguments.
    args_len: usize,
}

impl Model for WordState {
    ghost use Rattle.std.specs.Prelude.{◌≤◌};
    ghost use Rattle.schema.specs.declared.limits.TheConstants.{MAX_ARGUMENTS};
    ghost use Rattle.vm_state.specs.Words.{Words};
    ghost use Rattle.vm_state.specs.Memory.{stack_of, args_of};

    ghost Value = { Words };

    ghost view = { λ m. record {
      slot = m.slot;
      registers = m.registers;
      stack = stack_of m.memory;
      args = args_of m.args_len m.memory;
    } };

    ghost invariant = { λ m. m.args_len ≤ MAX_ARGUMENTS };
}

impl WordState {
    /// The state in which a run on these arguments begins.
    pub fn start(args: &[u8]) -> WordState
        requires { length args.now ≤ MAX_ARGUMENTS }
        ensures { (rows : Rows) → Holds (entry_state args.now rows) result }
    {
        WordState {
            slot: 0,
            registers: [0, ARGS_START, 0, 0, 0, 0, 0, 0, 0, 0, STACK_END],
            memory: memory_with(args),
            args_len: args.len(),
        }
    }

    /// Makes these words the state in which a run on these arguments begins, in the same memory. Bytes that an earlier
    /// run left in the stack stay there: no accepted program reads a byte that its own run hasn't written.
    pub fn restart(&mut self, args: &[u8])
        requires { length args.now ≤ MAX_ARGUMENTS }
        ensures { (rows : Rows) → Holds (entry_state args.now rows) self.new }
    {
        self.slot = 0;
        self.registers = [0, ARGS_START, 0, 0, 0, 0, 0, 0, 0, 0, STACK_END];
        write(&mut self.memory, 0, args);
        self.args_len = args.len();
    }

    /// The slot of the instruction that is next.
    pub fn slot(&self) -> usize
        ensures { result ≡ self.now.slot }
    {
        self.slot
    }

    /// Returns the word that a register holds.
    pub fn word(&self, register: Register) -> u64
        ensures { result ≡ word self.now register }
    {
        self.registers[usize::from(register.number())]
    }

    /// Moves `slots` slots on.
    pub(crate) fn advance(&mut self, slots: usize)
        requires slot { self.old.slot < 2 ^ 32 }
        requires slots { slots ≤ 2 ^ 32 }
        ensures { self.new ≡ words_past slots self.old }
    {
        self.slot += slots;
    }

    pub(crate) fn set_slot(&mut self, slot: usize)
        ensures { self.new ≡ at_slot slot self.old }
    {
        self.slot = slot;
    }

    pub(crate) fn set(&mut self, register: Register, word: u64)
        ensures { self.new ≡ with_word self.old register word }
    {
        self.registers[usize::from(register.number())] = word;
    }

    fn stack_bytes(&self, address: u64, count: usize) -> &[u8]
        requires { InStack address count }
        ensures { result.now ≡ take count (stack_from self.now address) }
    {
        part(&self.memory, address, count)
    }

    /// The bytes of a buffer in the stack, from an address on.
    pub fn buffer(&self, address: u64, count: usize) -> &[u8]
        requires { InStack address count }
        ensures exact { result.now ≡ take count (stack_from self.now address) }
        ensures known { (s : State) (v : Value) (k : ℕ) (bytes : List ℕ)
            → Holds s self.now → IsWordOf v address → buffer_of v count ≡ Some k
            → known_bytes s.stack k count ≡ Some bytes → result.now ≡ bytes }
    {
        self.stack_bytes(address, count)
    }

    /// The bytes of stack or arguments from an address on.
    pub(crate) fn bytes(&self, address: u64, count: usize) -> &[u8]
        requires { CanLoad self.now address count }
        ensures { result.now ≡ take count (bytes_from self.now address) }
    {
        part(&self.memory, address, count)
    }

    fn put(&mut self, address: u64, bytes: &[u8])
        requires { InStack address (length bytes.now) }
        ensures { self.new ≡ with_bytes self.old address bytes.now }
    {
        write(&mut self.memory, place(address), bytes);
    }

    /// Writes a buffer in the stack, from an address on.
    pub fn put_bytes(&mut self, address: u64, bytes: &[u8])
        requires { InStack address (length bytes.now) }
        ensures exact { self.new ≡ with_bytes self.old address bytes.now }
        ensures held { (s : State) (v : Value) (k : ℕ)
            → Holds s self.old → IsWordOf v address → buffer_of v (length bytes.now) ≡ Some k
            → Holds (with_stack (stack_with s.stack k bytes.now) s) self.new }
    {
        self.put(address, bytes);
    }

    /// Writes the low bytes of a number, the least first.
    pub(crate) fn put_number(&mut self, address: u64, size: Size, number: u64)
        requires { InStack address (size_bytes size) }
        ensures { self.new ≡ with_bytes self.old address (little_bytes (size_bytes size) number) }
    {
        let bytes = number.to_le_bytes();
        self.put(address, &bytes[..usize::from(size.bytes())]);
    }

    /// Moves to the next instruction, with a call's answer in r0. The words in r1 to r5 say nothing from then on.
    #[tactic(auto, using(crate::proofs::Holding::answer_holds))]
    pub fn answer(&mut self, answer: u64)
        requires { self.old.slot < 2 ^ 32 }
        ensures exact { self.new ≡ words_past 1 (with_word self.old R0 answer) }
        ensures held { (s : State) → Holds s self.old → Holds (past 1 (with_answer answer s)) self.new }
    {
        self.set(Register::R0, answer);
        self.advance(1);
    }
}

/// Returns the index in the memory of the byte at an address, by the low ten bits of the address. The stack's end and
/// the first argument are 0 by them, so neither has to be told from the other, and nothing is added.
#[inline(always)]
fn place(address: u64) -> usize
    ensures { result ≡ address % 1024 }
{
    (address % 1024) as usize
}

/// The bytes of a memory, `count` of them, from an address on.
#[inline(always)]
fn part(memory: &[u8], address: u64, count: usize) -> &[u8]
    requires { address % 1024 + count ≤ length memory.now }
    ensures { result.now ≡ take count (drop (address % 1024) memory.now) }
{
    let from = place(address);
    &memory[from..from + count]
}

/// Writes these bytes at an index.
#[inline(always)]
fn write(memory: &mut [u8], from: usize, bytes: &[u8])
    requires { from + length bytes.now ≤ length memory.old }
    ensures { memory.new ≡ take from memory.old ++ bytes.now ++ drop (from + length bytes.now) memory.old }
{
    memory[from..from + bytes.len()].copy_from_slice(bytes);
}

/// Returns a memory of these arguments, with zeros behind them.
fn memory_with(args: &[u8]) -> [u8; MEMORY_BYTES]
    requires { length args.now ≤ MAX_ARGUMENTS }
    ensures { args_of (length args.now) result ≡ args.now }
{
    let mut memory = [0; MEMORY_BYTES];
    write(&mut memory, 0, args);
    memory
}
