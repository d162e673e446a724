//! The longest path.
ghost use Rattle.std.specs.Prelude.{◌≡◌, ℕ, ◌+◌, ◌<◌, ◌≤◌, ◌^◌, length, slice_index_or, IfSome};
ghost use Rattle.bpf_code.specs.Program.{instruction_at};
ghost use Rattle.bpf_semantics.specs.Path.{longest_path, one_more, from_there};

use crate::path::{fall_through, jump_of};
use bpf_code::{Code, Instruction};
use std::alloc::Allocator;

/// The most instructions that a run may have.
pub(crate) fn bound<A: Allocator>(code: &Code<A>) -> u32
    ensures { result ≡ longest_path code.now }
{
    let slots = code.slots();
    let mut lengths = [0u32; 4096];
    for done in 0..slots {
        let slot = slots - 1 - done;
        lengths[slot] = length_from(&lengths, slot, code.at(slot));
    }
    lengths[0]
}

fn length_from(lengths: &[u32], slot: usize, instruction: Option<Instruction>) -> u32
    requires short { slot < 2 ^ 32 }
    requires few { (k : ℕ) → slice_index_or lengths.now k 0 ≤ 4096 }
    ensures { result ≡ one_more (λ k. slice_index_or lengths.now k 0) slot instruction }
{
    let Some(instruction) = instruction else {
        return 0;
    };
    let next = there(lengths, slot, fall_through(instruction));
    let jump = there(lengths, slot, jump_of(instruction));
    1 + next.max(jump)
}

fn there(lengths: &[u32], slot: usize, slots: Option<usize>) -> u32
    requires short { slot < 2 ^ 32 }
    requires near { IfSome slots (λ n. n < 2 ^ 33) }
    requires few { (k : ℕ) → slice_index_or lengths.now k 0 ≤ 4096 }
    ensures length { result ≡ from_there (λ k. slice_index_or lengths.now k 0) slot slots }
    ensures few { result ≤ 4096 }
{
    match slots {
        None => 0,
        Some(slots) => lengths.get(slot + slots).copied().unwrap_or(0),
    }
}
