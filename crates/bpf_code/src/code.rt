ghost use Rattle.std.specs.Prelude.{◌≡◌, length, IfSome};
ghost use Rattle.bpf_code.specs.Program.{instruction_at, IsInRange, IsProgram};

use crate::instruction::Instruction;
use std::alloc::{Allocator, Global};
use std::marker::Model;

/// The most slots that a program has.
pub const MAX_SLOTS: usize = 4096;

/// A program. Contracts see its slots, each an instruction or the second half of
/// the wide load before it.
#[derive(Drop)]
pub struct Code<A: Allocator = Global> {
    slots: Vec<Option<Instruction>, A>,
}

impl<A: Allocator> Model for Code<A> {
    ghost use Rattle.bpf_code.specs.Program.{Program, IsProgram};

    ghost Value = { Program };

    ghost view = { λ code. code.slots.items };

    ghost invariant = { λ code. IsProgram code.slots.items };
}

impl<A: Allocator> Code<A> {
    /// The program of these slots.
    pub fn new(slots: Vec<Option<Instruction>, A>) -> Code<A>
        requires { IsProgram slots.items }
        ensures { result ≡ slots.items }
    {
        Code { slots }
    }

    /// Every value of this type is a program. A call of this law does nothing.
    pub fn known(&self)
        ensures { IsProgram self.now }
    {
        let _ = &self.slots;
    }

    /// Returns the number of slots of eight bytes that the program has, 1 to 4,096.
    pub fn slots(&self) -> usize
        ensures count { result ≡ length self.now }
        // Every value of this type is a program.
        ensures program { IsProgram self.now }
    {
        self.slots.len()
    }

    /// The instruction that begins at this slot; none at a second half and past the end.
    pub fn at(&self, slot: usize) -> Option<Instruction>
        ensures instruction { result ≡ instruction_at self.now slot }
        ensures in_range { IfSome result IsInRange }
        ensures program { IsProgram self.now }
    {
        self.slots.get(slot).copied().flatten()
    }
}
