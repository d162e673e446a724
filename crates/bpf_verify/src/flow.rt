//! One pass over a program: what is known before each slot goes on to the slots ahead.
ghost use Rattle.std.specs.Prelude.{◌≡◌, ℕ, ◌+◌, ◌<◌, ◌≤◌, ◌^◌, ◌==◌, length, slice_index_or, replicate};
ghost use Rattle.std.specs.Prelude.{if◌then◌else◌, [], ◌∷◌, Some, None, IfSome, IfNone, IfErr, IfOk};
ghost use Rattle.bpf_code.specs.Program.{instruction_at};
ghost use Rattle.schema.specs.declared.limits.TheConstants.{MAX_ARGUMENTS};
ghost use Rattle.flat_code.specs.Flat.{LaidOut};
ghost use Rattle.bpf_verify.specs.Flow.{join_one, join_with, states_from, cause_if, IsAccepted, edge_states, IsRefused};
ghost use Rattle.bpf_verify.specs.Refusal.{RefusedBy};

use crate::accepted::Accepted;
use crate::bound::bound;
use crate::path::{fall_through, jump_of};
use crate::refusal::Refusal;
use abs_state::AbsState;
use abs_step::{Cause, cause_of, jump_state, next_state};
use bpf_code::Code;
use flat_code::{FlatInstruction, lay_out};
use schema::Schema;
use std::alloc::{AllocError, Allocator};

/// Verifies a program on arguments of `args_len` bytes and with the schema's tables: the answer is the accepted
/// program, or the refusal. The call takes as much memory as there are slots, by one growth, and gives it back. The
/// accepted program keeps, in the schema's memory, a copy of the schema and the program's layout. The layout takes by
/// one growth 16 bytes a slot, 64 KB for 4,096 slots.
///
/// ```text
/// let schema = Schema::new(alloc, &[(1, 8)])?;
/// let accepted = verify(alloc, decode(alloc, bytes)?, &schema, 16)?;
/// // No call of it runs more instructions than this.
/// let most = accepted.bound();
/// ```
pub fn verify<A: Allocator, B: Allocator + Clone, C: Allocator>(
    alloc: C,
    code: Code<A>,
    schema: &Schema<B>,
    args_len: u16,
) -> Result<Accepted<A, B>, Refusal>
    requires { args_len ≤ MAX_ARGUMENTS }
    ensures given { IfOk result (λ accepted.
        accepted ≡ record { program = code; tables = schema.now; args_len = args_len }) }
    ensures accepted { IfOk result IsAccepted }
    ensures refused { IfErr result
        (RefusedBy (record { program = code; tables = schema.now; args_len = args_len })) }
{
    let Ok(mut pending) = vec![in alloc; None; code.slots()] else {
        return Err(Refusal::NoMemory);
    };
    if let Some((slot, cause)) = scan(&code, schema, args_len, &mut pending) {
        return Err(Refusal::At {
            slot: slot as u16,
            cause,
        });
    }
    let Ok(schema) = schema.clone() else {
        return Err(Refusal::NoMemory);
    };
    let Ok(layout) = layout_beside(&schema, &code) else {
        return Err(Refusal::NoMemory);
    };
    let bound = bound(&code);
    Ok(Accepted::new(code, schema, args_len, bound, layout))
}

/// A program's layout, in the schema's memory.
fn layout_beside<A: Allocator, B: Allocator + Clone>(
    schema: &Schema<B>,
    code: &Code<A>,
) -> Result<Vec<FlatInstruction, B>, AllocError>
    ensures { IfOk result (λ layout. LaidOut code.now layout.items) }
{
    lay_out(schema.allocator().clone()?, code)
}

/// The lowest slot that is refused, and its lowest cause.
#[tactic(auto, unfolding(crate::specs::Flow::join_with))]
fn scan<A: Allocator, B: Allocator>(
    code: &Code<A>,
    schema: &Schema<B>,
    args_len: u16,
    pending: &mut [Option<AbsState>],
) -> Option<(usize, Cause)>
    requires empty { pending.old ≡ replicate (length code.now) None }
    requires short { length pending.old < 2 ^ 32 }
    ensures accepted { IfNone result
        (IsAccepted (record { program = code.now; tables = schema.now; args_len = args_len })) }
    ensures refused { IfSome result (λ r.
        IsRefused (record { program = code.now; tables = schema.now; args_len = args_len }) r.0 r.1) }
    ensures inside { IfSome result (λ r. r.0 < length code.now) }
{
    arrive(pending, 0, AbsState::entry());
    for slot in 0..pending.len() {
        if let Some(cause) = visit(code, schema, args_len, slot, pending) {
            return Some((slot, cause));
        }
    }
    None
}

/// The cause for which a slot is refused. Where there is no cause, what the slot sends arrives.
fn visit<A: Allocator, B: Allocator>(
    code: &Code<A>,
    schema: &Schema<B>,
    args_len: u16,
    slot: usize,
    pending: &mut [Option<AbsState>],
) -> Option<Cause>
    requires slot { slot < length pending.old }
    requires short { slot < 2 ^ 32 }
    ensures cause { result ≡ cause_if schema.now args_len (instruction_at code.now slot)
        (slice_index_or pending.old slot None) }
    ensures sent { result ≡ None → (j : ℕ) → slot < j → j < length pending.old
        → slice_index_or pending.new j None
        ≡ join_with (slice_index_or pending.old j None)
        (states_from schema.now slot j (instruction_at code.now slot) (slice_index_or pending.old slot None)) }
{
    let state = pending[slot].take()?;
    let instruction = code.at(slot)?;
    let cause = cause_of(schema, args_len, instruction, &state);
    if cause.is_some() {
        return cause;
    }
    send(
        pending,
        slot,
        fall_through(instruction),
        next_state(schema, instruction, &state),
    );
    send(
        pending,
        slot,
        jump_of(instruction),
        jump_state(instruction, &state),
    );
    None
}

#[tactic(auto, unfolding(crate::specs::Flow::join_with))]
fn send(
    pending: &mut [Option<AbsState>],
    slot: usize,
    slots: Option<usize>,
    state: Option<AbsState>,
)
    requires short { slot < 2 ^ 32 }
    requires near { IfSome slots (λ n. n < 2 ^ 32) }
    ensures { (j : ℕ) → j < length pending.old
        → slice_index_or pending.new j None ≡ join_with (slice_index_or pending.old j None)
        (edge_states slot j slots state) }
{
    let Some(slots) = slots else {
        return;
    };
    let Some(state) = state else {
        return;
    };
    arrive(pending, slot + slots, state);
}

#[tactic(auto, using(crate::proofs::FlowLemmas::arrived, crate::proofs::FlowLemmas::not_arrived), unfolding(crate::specs::Flow::join_with))]
fn arrive(pending: &mut [Option<AbsState>], target: usize, state: AbsState)
    ensures { (j : ℕ) → j < length pending.old → slice_index_or pending.new j None
        ≡ join_with (slice_index_or pending.old j None) (if j == target then state ∷ [] else []) }
{
    if target < pending.len() {
        let known = pending[target].take();
        pending[target] = Some(join_one(known, state));
    }
}

fn join_one(known: Option<AbsState>, state: AbsState) -> AbsState
    ensures { result ≡ join_one known state }
{
    match known {
        None => state,
        Some(mut known) => {
            known.join(&state);
            known
        }
    }
}
