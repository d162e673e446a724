//! An executing thread runs a call.

ghost use Rattle.std.specs.Prelude.{◌≡◌, ◌≢◌, ◌≤◌, length};
ghost use Rattle.bpf_vm.specs.declared.turn.Turn.TheVariants.{More};
ghost use Rattle.node_calls.specs.Running.{node_call};
ghost use Rattle.node_calls.specs.Ran.{IsAdvance, IsRan};
ghost use Rattle.node_calls.specs.declared.run.Advance.TheVariants.{Open};

use crate::bells::Waiter;
use crate::gate::Gate;
use crate::running::RunningCall;
use bpf_vm::Turn;
use locked_replica::{BegunCall, LockedReplica, LogSetting};
use log_model::RequestId;
use order_log::Seen;
use std::alloc::{Allocator, Global};
use std::sync::{RwLock, Wait};
use world_calls::Completion;

/// The outcome of running on.
#[derive(Drop)]
pub(crate) enum Advance<J: LogSetting, P: Allocator + Copy = Global> {
    /// The call isn't over.
    Open,
    /// The call would look at rows that are kept no longer. The value is what was seen of the log by then.
    Stale(Seen<J, P>),
    NoMemory,
}

/// The outcome of a call's run.
#[derive(Drop)]
pub(crate) enum Ran<J: LogSetting, P: Allocator + Copy = Global> {
    /// The call is at its end. The second value is what the call has seen of the log.
    Ended(Completion<P>, Seen<J, P>),
    /// The call would look at rows that are kept no longer. The value is what was seen of the log by then.
    Stale(Seen<J, P>),
    NoMemory,
}

/// Runs the next instruction at a replica that has come no less far than the call has seen.
fn next_at<J: LogSetting, A: Allocator + Copy, P: Allocator + Copy>(
    alloc: P,
    replica: &LockedReplica<J, A, P>,
    call: &mut RunningCall<J, P>,
) -> Advance<J, P>
    requires going { call.old.last ≡ More }
    requires reached { length call.old.entries ≤ length replica.now.entries }
    ensures { IsAdvance J.setting call.old result call.new }
{
    call.is_of_the_log();
    match call.turn(alloc, replica) {
        Turn::More | Turn::Exit(_) => Advance::Open,
        Turn::NoMemory => Advance::NoMemory,
        Turn::Stale => {
            let seen = replica.seen();
            call.seen().agrees(&seen);
            Advance::Stale(seen)
        }
    }
}

/// Waits until a replica has come to a position. A call begins at a replica that has come so far. The replica is behind
/// only where another replica that has come less far was put in its place.
fn await_position<J: LogSetting, A: Allocator + Copy, P: Allocator + Copy, R: Wait>(
    rt: &R,
    replica: &RwLock<LockedReplica<J, A, P>>,
    waiter: &Waiter,
    position: u32,
) {
    waiter.announce(position);
    for _ in rt.forever() {
        let key = waiter.prepare();
        let reached = replica.read(rt).position();
        if reached >= position {
            break;
        }
        key.wait(rt);
    }
    waiter.announce(0);
}

/// Runs the next instruction under the replica's lock.
fn next_locked<J: LogSetting, A: Allocator + Copy, P: Allocator + Copy, R: Wait>(
    rt: &R,
    alloc: P,
    replica: &RwLock<LockedReplica<J, A, P>>,
    waiter: &Waiter,
    call: &mut RunningCall<J, P>,
) -> Advance<J, P>
    requires { call.old.last ≡ More }
    ensures { IsAdvance J.setting call.old result call.new }
{
    for _ in rt.forever() {
        let locked = replica.read(rt);
        if call.seen().len() <= locked.position() {
            return next_at(alloc, &locked, call);
        }
        drop(locked);
        await_position(rt, replica, waiter, call.seen().len());
    }
    unreachable!()
}

/// Runs on: the instructions up to the next call, long jump or end at once, and that instruction. Only an instruction
/// that reads or writes rows goes through the gate and takes the replica's lock.
fn run_further<J: LogSetting, A: Allocator + Copy, P: Allocator + Copy, G: Gate, R: Wait>(
    rt: &R,
    alloc: P,
    replica: &RwLock<LockedReplica<J, A, P>>,
    gate: &G,
    waiter: &Waiter,
    call: &mut RunningCall<J, P>,
) -> Advance<J, P>
    requires { call.old.last ≡ More }
    ensures { IsAdvance J.setting call.old result call.new }
{
    call.run_plain();
    if call.at_row_helper() {
        gate.at_look(rt, call.procedure());
        return next_locked(rt, alloc, replica, waiter, call);
    }
    let _turn = call.turn_alone(alloc);
    Advance::Open
}

/// Runs all instructions of a call to its end.
fn run_to_the_end<J: LogSetting, A: Allocator + Copy, P: Allocator + Copy, G: Gate, R: Wait>(
    rt: &R,
    alloc: P,
    replica: &RwLock<LockedReplica<J, A, P>>,
    gate: &G,
    waiter: &Waiter,
    call: &mut RunningCall<J, P>,
) -> Advance<J, P>
    requires { call.old.last ≡ More }
    ensures advance { IsAdvance J.setting call.old result call.new }
    ensures ended { result ≡ Open → call.new.last ≢ More }
{
    for _ in rt.forever() {
        if call.last() != Turn::More {
            return Advance::Open;
        }
        match run_further(rt, alloc, replica, gate, waiter, call) {
            Advance::Open => {}
            over => return over,
        }
    }
    unreachable!()
}

/// Runs a call that has begun, on arguments that its procedure takes.
pub(crate) fn run<J: LogSetting, A: Allocator + Copy, P: Allocator + Copy, G: Gate, R: Wait>(
    rt: &R,
    alloc: P,
    replica: &RwLock<LockedReplica<J, A, P>>,
    gate: &G,
    waiter: &Waiter,
    begun: BegunCall<J, P>,
    args: &[u8],
    request: Option<RequestId>,
) -> Ran<J, P>
    requires { length args.now ≡ begun.accepted.args_len }
    ensures { IsRan J.setting begun.entries (node_call begun.procedure args.now (length begun.entries) request) result }
{
    let Ok(mut call) = RunningCall::start(alloc, begun, args, request) else {
        return Ran::NoMemory;
    };
    match run_to_the_end(rt, alloc, replica, gate, waiter, &mut call) {
        Advance::Open => {
            let seen = call.seen().again();
            Ran::Ended(call.complete(alloc), seen)
        }
        Advance::Stale(seen) => Ran::Stale(seen),
        Advance::NoMemory => Ran::NoMemory,
    }
}
