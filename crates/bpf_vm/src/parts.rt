//! The parts of a call that its registers name, and what it writes back.

ghost use Rattle.std.specs.Prelude.{◌≡◌, ◌≢◌, ℕ, ◌≤◌, None, Some, option_map};
ghost use Rattle.std.specs.FinMap.{get};
ghost use Rattle.schema.specs.declared.limits.TheConstants.{MAX_WIDTH};
ghost use Rattle.bpf_code.specs.declared.instruction.Register.TheVariants.{R1};
ghost use Rattle.bpf_semantics.specs.Helpers.{flag, row_or_zeros, key_or_zeros, row_of};
ghost use Rattle.txn_view.specs.Found.{row_found};
ghost use Rattle.vm_state.specs.Words.{word};

use bpf_code::Register;
use schema::{MAX_WIDTH, Schema};
use std::alloc::Allocator;
use vm_state::WordState;

/// A row of zeros, as wide as any.
static ZEROS: [u8; MAX_WIDTH as usize] = [0; MAX_WIDTH as usize];

/// The table that r1 names, and the width of its rows.
pub fn named_table<B: Allocator>(words: &WordState, schema: &Schema<B>) -> (u8, usize)
    requires { get schema.now (word words.now R1) ≢ None }
    ensures table { result.0 ≡ word words.now R1 }
    ensures width { get schema.now (word words.now R1) ≡ Some result.1 }
    ensures few { result.1 ≤ MAX_WIDTH }
{
    schema.known();
    let table = words.word(Register::R1) as u8;
    let Some(width) = schema.width(table) else {
        unreachable!();
    };
    (table, usize::from(width))
}

/// 1 where something was found, 0 where nothing was.
pub fn flag<T: Copy>(found: Option<T>) -> u64
    ensures { result ≡ flag found }
{
    match found {
        Some(_) => 1,
        None => 0,
    }
}

/// The row, or zeros.
#[tactic(auto, using(crate::proofs::PartLemmas::zeros_taken))]
pub fn row_or_zeros<'a>(found: Option<&'a [u8]>, width: usize) -> &'a [u8]
    requires { width ≤ MAX_WIDTH }
    ensures { result.now ≡ row_or_zeros width (option_map (λ row. row.now) found.entry) }
{
    match found {
        Some(bytes) => bytes,
        None => &ZEROS[..width],
    }
}

/// The key's bytes, the least first, or zeros.
pub fn key_or_zeros(found: Option<(u64, &[u8])>) -> [u8; 8]
    ensures { (table : ℕ) → result ≡ key_or_zeros (row_found table found.entry) }
{
    match found {
        Some((key, _)) => key.to_le_bytes(),
        None => [0; 8],
    }
}

/// The row of what was found.
pub fn row_of<'a>(found: Option<(u64, &'a [u8])>) -> Option<&'a [u8]>
    ensures { (table : ℕ) → option_map (λ row. row.now) result ≡ row_of (row_found table found.entry) }
{
    match found {
        Some((_, row)) => Some(row),
        None => None,
    }
}
