//! A call is run, from its beginning to its end.

ghost use Rattle.std.specs.Prelude.{◌≡◌, ◌-◌, ◌≤◌, length, List, IfOk};
ghost use Rattle.log_model.specs.Log.{Setting};
ghost use Rattle.log_model.specs.Entries.{Entry, items_of};
ghost use Rattle.world_calls.specs.OpenCall.{IsCompletion};
ghost use Rattle.site.specs.Run.{CanRun, named_call};

use bpf_verify::Accepted;
use bpf_vm::Turn;
use log_model::{RequestId, logs_whose_calls_fit};
use replica::Replica;
use site_model::fit_entries_go_on;
use std::alloc::{AllocError, Allocator};
use world_calls::{CallStart, Completion, OpenCall};

/// A call that is to be run, on the rows of its snapshot.
#[derive(Clone, Copy)]
pub struct NamedCall<'a> {
    /// The call's number, as the call's entry has it.
    pub number: u32,
    /// The procedure's number.
    pub procedure: u16,
    pub args: &'a [u8],
    pub snapshot: u32,
    pub request: Option<RequestId>,
}

/// Runs a call whole on the rows of its snapshot, which the replica keeps, and returns the outcome.
pub fn complete<A: Allocator + Copy>(
    alloc: A,
    replica: &Replica<A>,
    accepted: &Accepted<A, A>,
    call: NamedCall<'_>,
) -> Result<Completion<A>, AllocError>
    requires reached { call.snapshot ≤ replica.now.position }
    requires kept { replica.now.position - call.snapshot ≤ replica.now.window }
    requires count { length call.args.now ≡ accepted.now.args_len }
    requires can { (w : Setting) × (entries : List Entry)
        × CanRun w entries replica.now accepted.now (named_call call) }
    ensures { IfOk result (λ completion. (w : Setting) (entries : List Entry)
        → CanRun w entries replica.now accepted.now (named_call call.entry)
        → IsCompletion w (items_of entries) (named_call call.entry) completion) }
{
    // Laws:
    fit_entries_go_on();
    logs_whose_calls_fit();
    let NamedCall {
        number,
        procedure,
        args,
        snapshot,
        request,
    } = call;
    let start = CallStart {
        replica: 0,
        number,
        procedure,
        snapshot,
        request,
    };
    let mut open_call = OpenCall::begin(alloc, start, accepted, args)?;
    match open_call.run(alloc, accepted, replica.at(snapshot)) {
        Turn::Exit(_) => Ok(open_call.complete(alloc)),
        Turn::NoMemory => Err(AllocError),
        Turn::More | Turn::Stale => unreachable!(),
    }
}
