//! The calls of a world, each in its place or over.

ghost use Rattle.std.specs.Prelude.{◌≡◌, ℕ, ◌+◌, ◌<◌, ◌++◌, [], ◌∷◌, length, map, option_map, slice_get, slice_set};
ghost use Rattle.std.specs.Prelude.{vec_len, Some, None, IfSome, IfOk, OnOk, OnErr};
ghost use Rattle.bpf_vm.specs.declared.turn.Turn.TheVariants.{Exit};
ghost use Rattle.log_model.specs.Log.{Setting, Log};
ghost use Rattle.world_calls.specs.OpenCall.{open_call_of, call_of, call_before_its_run, FollowsInItsLogs, Follows};
ghost use Rattle.world_calls.specs.OpenCall.{IsCompletion};
ghost use Rattle.dsm_model.specs.World.{flatten, numbered};

use crate::numbers::index_of;
use bpf_verify::Accepted;
use std::alloc::{AllocError, Allocator};
use world_calls::{CallStart, Completion, OpenCall};

/// Calls in the order of their numbers; none in the place of a call that is over.
pub type Calls<A> = Vec<Option<Box<OpenCall<A>, A>>, A>;

/// A call that is over, in whose memory another may begin.
pub type Spare<A> = Option<Box<OpenCall<A>, A>>;

/// A call that has run nothing yet, in the memory of a call that is over, where there is one.
pub(crate) fn begin_call<A: Allocator + Copy, P: Allocator, Q: Allocator>(
    spare: &mut Spare<A>,
    alloc: A,
    start: CallStart,
    accepted: &Accepted<P, Q>,
    args: &[u8],
) -> Result<Box<OpenCall<A>, A>, AllocError>
    requires { length args.now ≡ accepted.now.args_len }
    ensures begun { IfOk result (λ b. open_call_of b.value
        ≡ call_before_its_run start args.now) }
    ensures follows { IfOk result (λ b. FollowsInItsLogs accepted.now start b.value) }
{
    let Some(mut open_call) = spare.take() else {
        let begun = OpenCall::begin(alloc, start, accepted, args)?;
        return Ok(Box::new(alloc, begun)?);
    };
    open_call.begin_again(alloc, start, accepted, args)?;
    Ok(open_call)
}

/// Returns the completion of a call that is at its end. The call's memory is kept, for another to begin in.
pub(crate) fn end_call<A: Allocator + Copy>(
    spare: &mut Spare<A>,
    alloc: A,
    open_call: Box<OpenCall<A>, A>,
) -> Completion<A>
    requires { (reply : ℕ) × (open_call.value.machine.last ≡ Exit reply) }
    ensures { (w : Setting) (log : Log) → Follows w log open_call.value
        → IsCompletion w log (call_of open_call.value) result }
{
    let mut ended = open_call;
    let completion = ended.complete(alloc);
    *spare = Some(ended);
    completion
}

/// Puts a call behind the others.
pub(crate) fn enter<A: Allocator + Copy>(
    calls: &mut Calls<A>,
    open_call: Box<OpenCall<A>, A>,
) -> Result<(), AllocError>
    ensures entered { OnOk result (map (λ slot. option_map (λ b. b.value) slot) calls.new.items
        ≡ map (λ slot. option_map (λ b. b.value) slot) calls.old.items ++ Some open_call.value ∷ []) }
    ensures unchanged { OnErr result (calls.new.items ≡ calls.old.items) }
{
    calls.push(Some(open_call))?;
    Ok(())
}

/// Takes a call out of its place, and tells that place.
pub(crate) fn take_call<A: Allocator + Copy>(
    calls: &mut Calls<A>,
    number: u32,
) -> Option<(usize, Box<OpenCall<A>, A>)>
    ensures place { IfSome result (λ r. number ≡ r.0 + 1) }
    ensures stood { IfSome result (λ r. slice_get (map (λ slot. option_map (λ b. b.value) slot) calls.old.items) r.0
        ≡ Some (Some r.1.value)) }
    ensures taken { IfSome result (λ r. map (λ slot. option_map (λ b. b.value) slot) calls.new.items
        ≡ slice_set (map (λ slot. option_map (λ b. b.value) slot) calls.old.items) r.0 None) }
    ensures none { result ≡ None
        → flatten (numbered (map (λ slot. option_map (λ b. b.value) slot) calls.old.items) number) ≡ None }
    ensures unchanged { result ≡ None → calls.new.items ≡ calls.old.items }
{
    let at = index_of(number, calls.len())?;
    let open_call = calls[at].take()?;
    Some((at, open_call))
}

/// Puts a call into a place.
pub(crate) fn put_call<A: Allocator + Copy>(
    calls: &mut Calls<A>,
    at: usize,
    open_call: Box<OpenCall<A>, A>,
)
    requires { at < vec_len calls.old }
    ensures { map (λ slot. option_map (λ b. b.value) slot) calls.new.items
        ≡ slice_set (map (λ slot. option_map (λ b. b.value) slot) calls.old.items) at (Some open_call.value) }
{
    calls[at] = Some(open_call);
}
