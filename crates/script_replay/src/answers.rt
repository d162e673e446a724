//! Steps of a world, each with the line of its answer.

ghost use Rattle.std.specs.Prelude.{◌≡◌, ◌≤◌, Some, IfOk, OnErr};
ghost use Rattle.byte_output.specs.Pending.{output_of, Passes};
ghost use Rattle.dsm_model.specs.declared.outcome.Outcome.{Outcome as ModelOutcome};
ghost use Rattle.dsm_model.specs.World.{IsStep, Begin as BeginStep, Turn as TurnStep, numbered};
ghost use Rattle.dsm_model.specs.Sound.{reply_of, request_of_item, told_by};
ghost use Rattle.log_model.specs.declared.verdict.Verdict.TheVariants.{Repeated};
ghost use Rattle.log_model.specs.Log.{Setting, reply_done};
ghost use Rattle.dsm_world.specs.System.{setting_of, world_of, step_of};
ghost use Rattle.report.specs.Answers.{answer_line};
ghost use Rattle.script.specs.declared.statements.Action.TheVariants as action;
ghost use Rattle.script_replay.specs.Printed.{delivered_entry, step_text};
ghost use Rattle.script_replay.specs.Actions.{begin_action, is_more, is_delivery, OneStep, Turns};
ghost use Rattle.script_replay.specs.Acting.{PassesBeginning, HasDone, HasPrinted};

use crate::output::put_answer;
use byte_output::paged::PagedOutput;
use dsm_model::{Outcome, StepRefusal};
use dsm_world::{Step, World};
use log_entry::Entry;
use log_model::{RequestId, Verdict};
use report::{DeliveredEntry, Line, add_line, begin_line, call_line, replica_line};
use std::alloc::Allocator;
use std::io;
use std::io::Write;

/// Makes one step, and prints its line. Returns the step's outcome.
fn step<A: Allocator + Copy, W: Write>(
    world: &mut World<A>,
    output: &mut PagedOutput<'_, W>,
    step: Step<'_>,
) -> io::Result<Outcome>
    ensures same_output { (output_of output.new).ghost_name ≡ (output_of output.old).ghost_name }
    ensures setting { setting_of world.new ≡ setting_of world.old }
    ensures stepped { IfOk result (λ outcome.
        IsStep (setting_of world.old) (world_of world.old) (step_of (setting_of world.old) step.entry) outcome
        (world_of world.new)
        × Passes W.contents output.old output.new
        (step_text (setting_of world.old) (world_of world.new).log
        (step_of (setting_of world.old) step.entry) outcome)) }
    ensures failed { OnErr result ((outcome : ModelOutcome)
        × IsStep (setting_of world.old) (world_of world.old) (step_of (setting_of world.old) step.entry) outcome
        (world_of world.new)
        × PassesBeginning W.contents output.old output.new
        (step_text (setting_of world.old) (world_of world.new).log
        (step_of (setting_of world.old) step.entry) outcome)) }
{
    let outcome = world.step(step);
    let entry = delivered_entry(world, outcome);
    put_answer(output, answer_line(step, outcome, entry))?;
    Ok(outcome)
}

/// Makes one step, and prints its line.
pub(crate) fn take_step<A: Allocator + Copy, W: Write>(
    world: &mut World<A>,
    output: &mut PagedOutput<'_, W>,
    taken: Step<'_>,
) -> io::Result<()>
    ensures same_output { (output_of output.new).ghost_name ≡ (output_of output.old).ghost_name }
    ensures setting { setting_of world.new ≡ setting_of world.old }
    ensures done { HasPrinted W.contents
        (OneStep (setting_of world.old) (world_of world.old) (step_of (setting_of world.old) taken.entry))
        output.old output.new result (world_of world.new) }
{
    step(world, output, taken)?;
    Ok(())
}

/// The line of a step's answer.
fn answer_line(step: Step<'_>, outcome: Outcome, entry: DeliveredEntry) -> Option<Line<'static>>
    ensures { (w : Setting) → result ≡ answer_line (step_of w step.entry) outcome entry }
{
    match step {
        Step::Begin { replica, .. } => begin_line(replica, outcome),
        Step::BeginNumbered { replica, .. } => begin_line(replica, outcome),
        Step::Turn { call } => call_line(call, outcome),
        Step::Order { call } => call_line(call, outcome),
        Step::Deliver { replica } => replica_line(replica, outcome, entry),
        Step::Rebuild { replica } => replica_line(replica, outcome, entry),
        Step::Add { .. } => add_line(outcome),
    }
}

/// Returns what is said of the delivered entry.
fn delivered_entry<A: Allocator + Copy>(world: &World<A>, outcome: Outcome) -> DeliveredEntry
    ensures { result ≡ delivered_entry (setting_of world.now) (world_of world.now).log outcome }
{
    let Outcome::Delivered { position, verdict } = outcome else {
        return DeliveredEntry::Call { reply: None };
    };
    match world.entry(position) {
        Some(Entry::Addition(added)) => DeliveredEntry::Addition {
            procedure: added.number,
        },
        _ => DeliveredEntry::Call {
            reply: told_reply(world, position, verdict),
        },
    }
}

/// The reply that the caller of the call at a position is told, by the call's verdict. A call that commits has its own
/// reply, and a repeated call has that of its request: the earlier call's, or what was replied before the log.
fn told_reply<A: Allocator + Copy>(world: &World<A>, position: u32, verdict: Verdict) -> Option<u64>
    ensures { result ≡ told_by (setting_of world.now) (world_of world.now).log position (Some verdict) }
{
    match verdict {
        Verdict::Commit => reply_at(world, position),
        Verdict::Repeated(earlier) => repeated_reply(world, position, earlier),
        _ => None,
    }
}

/// The reply to the request of the call at a position, which was done at an earlier position, or before the log.
fn repeated_reply<A: Allocator + Copy>(world: &World<A>, position: u32, earlier: u32) -> Option<u64>
    ensures { result ≡ told_by (setting_of world.now) (world_of world.now).log position (Some (Repeated earlier)) }
{
    if earlier == 0 {
        return reply_before(world, position);
    }
    reply_at(world, earlier)
}

/// The request of the call at a position.
fn request_at<A: Allocator + Copy>(world: &World<A>, position: u32) -> Option<RequestId>
    ensures { result ≡ request_of_item (numbered (world_of world.now).log position) }
{
    match world.entry(position) {
        Some(Entry::Call(call)) => call.request,
        _ => None,
    }
}

/// What was replied before the log to the request of the call at a position.
fn reply_before<A: Allocator + Copy>(world: &World<A>, position: u32) -> Option<u64>
    ensures { result ≡ reply_done (setting_of world.now).beginning.requests
        (request_of_item (numbered (world_of world.now).log position)) }
{
    world.reply_done(request_at(world, position))
}

/// The reply of the call at a position.
fn reply_at<A: Allocator + Copy>(world: &World<A>, position: u32) -> Option<u64>
    ensures { result ≡ reply_of (setting_of world.now) (world_of world.now).log
        (numbered (world_of world.now).log position) }
{
    world.keeps_what_was_delivered();
    match world.entry(position) {
        Some(Entry::Call(call)) => Some(call.reply),
        _ => None,
    }
}

/// Begins a call of the procedure of a name, with a request or without one, and prints the answer.
pub(crate) fn begin<A: Allocator + Copy, W: Write>(
    world: &mut World<A>,
    output: &mut PagedOutput<'_, W>,
    replica: u32,
    name: &[u8],
    args: &[u8],
    request: Option<RequestId>,
) -> io::Result<()>
    ensures same_output { (output_of output.new).ghost_name ≡ (output_of output.old).ghost_name }
    ensures setting { setting_of world.new ≡ setting_of world.old }
    ensures done { HasDone W.contents (setting_of world.old) (world_of world.old)
        (begin_action replica name.now args.now request)
        output.old output.new result (world_of world.new) }
{
    let Some(procedure) = world.by_name(replica, name) else {
        let refusal = match world.replica(replica) {
            None => StepRefusal::NoReplica,
            Some(_) => StepRefusal::NoProcedure,
        };
        return put_answer(output, begin_line(replica, Outcome::Refused(refusal)));
    };
    take_step(world, output, begin_step(replica, procedure, args, request))
}

/// The step of a call that begins.
fn begin_step<'a>(
    replica: u32,
    procedure: u16,
    args: &'a [u8],
    request: Option<RequestId>,
) -> Step<'a>
    ensures { (w : Setting) → step_of w result ≡ BeginStep replica procedure args.now request }
{
    match request {
        None => Step::Begin {
            replica,
            procedure,
            args,
        },
        Some(RequestId { session, sequence }) => Step::BeginNumbered {
            replica,
            procedure,
            args,
            session,
            sequence,
        },
    }
}

/// Makes at most `most` turns of a call, as long as there is more to run, and prints the last turn's line.
pub(crate) fn turn<A: Allocator + Copy, W: Write>(
    world: &mut World<A>,
    output: &mut PagedOutput<'_, W>,
    call: u32,
    most: u32,
) -> io::Result<()>
    requires { 1 ≤ most }
    ensures same_output { (output_of output.new).ghost_name ≡ (output_of output.old).ghost_name }
    ensures setting { setting_of world.new ≡ setting_of world.old }
    ensures done { HasDone W.contents (setting_of world.old) (world_of world.old) (action.Turn call most)
        output.old output.new result (world_of world.new) }
{
    let outcome = last_turn(world, call, most);
    put_answer(output, call_line(call, outcome))
}

/// Runs a call to its end, and prints its last turn's line.
pub(crate) fn exec<A: Allocator + Copy, W: Write>(
    world: &mut World<A>,
    output: &mut PagedOutput<'_, W>,
    call: u32,
) -> io::Result<()>
    ensures same_output { (output_of output.new).ghost_name ≡ (output_of output.old).ghost_name }
    ensures setting { setting_of world.new ≡ setting_of world.old }
    ensures done { HasDone W.contents (setting_of world.old) (world_of world.old) (action.Exec call)
        output.old output.new result (world_of world.new) }
{
    let outcome = world.exec(call);
    put_answer(output, call_line(call, outcome))
}

/// Makes at most `most` turns of a call, and returns what the last one answers.
fn last_turn<A: Allocator + Copy>(world: &mut World<A>, call: u32, most: u32) -> Outcome
    requires { 1 ≤ most }
    ensures setting { setting_of world.new ≡ setting_of world.old }
    ensures turned { Turns (setting_of world.old) (world_of world.old) call most
        (step_text (setting_of world.old) (world_of world.new).log (TurnStep call) result) (world_of world.new) }
{
    for _ in 1..most {
        let outcome = world.step(Step::Turn { call });
        if !is_more(outcome) {
            return outcome;
        }
    }
    world.step(Step::Turn { call })
}

fn is_more(outcome: Outcome) -> bool
    ensures { result ≡ is_more outcome }
{
    matches!(outcome, Outcome::More)
}

/// Makes at most `most` deliveries to a replica, each with its line. The first that is refused is the last.
pub(crate) fn deliver<A: Allocator + Copy, W: Write>(
    world: &mut World<A>,
    output: &mut PagedOutput<'_, W>,
    replica: u32,
    most: u32,
) -> io::Result<()>
    ensures same_output { (output_of output.new).ghost_name ≡ (output_of output.old).ghost_name }
    ensures setting { setting_of world.new ≡ setting_of world.old }
    ensures done { HasDone W.contents (setting_of world.old) (world_of world.old) (action.Deliver replica most)
        output.old output.new result (world_of world.new) }
{
    for _ in 0..most {
        let outcome = step(world, output, Step::Deliver { replica })?;
        if !is_delivery(outcome) {
            return Ok(());
        }
    }
    Ok(())
}

fn is_delivery(outcome: Outcome) -> bool
    ensures { result ≡ is_delivery outcome }
{
    matches!(outcome, Outcome::Delivered { .. })
}
