//! The plain runner: a run as the definitions say it, step by step.

ghost use Rattle.std.specs.Prelude.{◌≡◌, IfOk, replicate, None};
ghost use Rattle.std.specs.FinMap.{entries};
ghost use Rattle.bpf_semantics.specs.State.{entry_state};
ghost use Rattle.bpf_semantics.specs.Run.{run, run_at, run_of};
ghost use Rattle.plain_runner.specs.Listed.{rows_of};
ghost use Rattle.plain_runner.specs.State.{state_of};
ghost use Rattle.plain_runner.specs.Runner.{moment_of};

use crate::key_map::KeyMap;
use crate::state::State;
use crate::step::Moment;
use bpf_code::Code;
use bpf_semantics::Value;
use row_sets::{Row, Write};
use schema::{Look, Schema};
use std::alloc::{AllocError, Allocator, Global};
use std::marker::Model;

/// A run that reached EXIT, and what came of it. Contracts see the definition's record.
#[derive(Debug, Drop)]
pub struct CompletedRun<A: Allocator = Global> {
    steps: usize,
    reply: u64,
    looks: Vec<Look, A>,
    writes: Vec<Write<A>, A>,
    cancel_code: Option<u64>,
    rows: Vec<Row<A>, A>,
}

impl<A: Allocator> Model for CompletedRun<A> {
    ghost use Rattle.std.specs.FinMap.{from_entries};
    ghost use Rattle.bpf_semantics.specs.Run.{Run};
    ghost use Rattle.plain_runner.specs.Listed.{AreInOrder};
    ghost use Rattle.plain_runner.specs.Runner.{run_code};

    ghost Value = { Run };

    ghost coded = { run_code };

    ghost view = { λ r. record {
      steps = r.steps;
      reply = r.reply;
      looks = r.looks.items;
      writes = from_entries r.writes.items;
      cancel_code = r.cancel_code;
      effect = from_entries r.rows.items;
    } };

    ghost invariant = { λ r. AreInOrder r.writes.items × AreInOrder r.rows.items };
}

impl<A: Allocator> CompletedRun<A> {
    /// Returns the number of instructions that the run had, EXIT included.
    pub fn steps(&self) -> usize
        ensures { result ≡ self.now.steps }
    {
        self.steps
    }

    /// Returns what r0 held at EXIT.
    pub fn reply(&self) -> u64
        ensures { result ≡ self.now.reply }
    {
        self.reply
    }

    /// Returns the looks of the run, in order, repeats kept.
    pub fn looks(&self) -> &[Look]
        ensures { result.now ≡ self.now.looks }
    {
        &self.looks
    }

    /// Returns the writes of the run, in the order of tables and keys; none where the run cancelled.
    pub fn writes(&self) -> &[Write<A>]
        ensures { result.now ≡ entries self.now.writes }
    {
        &self.writes
    }

    /// The last cancel code, where the run cancelled.
    pub fn cancel_code(&self) -> Option<u64>
        ensures { result ≡ self.now.cancel_code }
    {
        self.cancel_code
    }

    /// The rows afterwards, in the order of tables and keys; the rows before where the run cancelled.
    pub fn rows(&self) -> &[Row<A>]
        ensures { result.now ≡ entries self.now.effect }
    {
        &self.rows
    }

    /// The same rows themselves, with no memory taken.
    pub fn into_rows(self) -> Vec<Row<A>, A>
        ensures { result.items ≡ entries self.effect }
    {
        let run = self;
        run.rows
    }
}

/// Runs a program on arguments, of any length, and rows, of which a later one at a key replaces an
/// earlier one. The answer is the definition's, and none where the run is stuck. The error is want of
/// memory, which may come in place of any answer. Rows are meant to be the schema's; others are taken
/// as the definition takes them.
pub fn run_program<A: Allocator + Copy, B: Allocator, C: Allocator, D: Allocator>(
    alloc: A,
    code: &Code<B>,
    schema: &Schema<C>,
    args: &[u8],
    rows: &[Row<D>],
) -> Result<Option<CompletedRun<A>>, AllocError>
    ensures { IfOk result (λ answer.
        answer ≡ run code.now schema.now args.now (rows_of rows.now)) }
{
    let mut moment = Moment::Going(entry(alloc, args, rows)?);
    for _ in 0..code.slots() {
        moment = moment.next(alloc, code, schema)?;
    }
    run_at(alloc, moment, rows)
}

/// The stack at entry.
fn unknown_bytes<A: Allocator>(alloc: A) -> Result<Vec<Option<u8>, A>, AllocError>
    ensures { IfOk result (λ stack. stack.items ≡ replicate 512 None) }
{
    vec![in alloc; None; 512]
}

/// The state at entry.
fn entry<A: Allocator + Copy, D: Allocator>(
    alloc: A,
    args: &[u8],
    rows: &[Row<D>],
) -> Result<State<A>, AllocError>
    ensures { IfOk result (λ s. state_of s ≡ entry_state args.now (rows_of rows.now)) }
{
    let mut registers = [Value::Nothing; 11];
    registers[1] = Value::Args(0);
    registers[10] = Value::Stack(0);
    Ok(State {
        slot: 0,
        registers,
        stack: unknown_bytes(alloc)?,
        args: Vec::from_slice(alloc, args)?,
        rows: KeyMap::from_rows(alloc, rows)?,
        cancel_code: None,
        looks: Vec::new(alloc),
        writes: KeyMap::new(alloc),
        steps: 0,
    })
}

/// Returns what is read off the last moment of a run on these rows.
fn run_at<A: Allocator + Copy, D: Allocator>(
    alloc: A,
    moment: Moment<A>,
    rows: &[Row<D>],
) -> Result<Option<CompletedRun<A>>, AllocError>
    ensures { IfOk result (λ answer. answer ≡ run_at (rows_of rows.now) (moment_of moment)) }
{
    match moment {
        Moment::Ended(reply, state) => {
            let run = completed_run(alloc, reply, state, rows)?;
            Ok(Some(run))
        }
        Moment::Going(_state) => Ok(None),
        Moment::Stuck => Ok(None),
    }
}

/// Returns what is read off the end of a run on these rows.
fn completed_run<A: Allocator + Copy, D: Allocator>(
    alloc: A,
    reply: u64,
    mut state: State<A>,
    rows: &[Row<D>],
) -> Result<CompletedRun<A>, AllocError>
    ensures { IfOk result (λ r. r ≡ run_of (rows_of rows.now) reply (state_of state)) }
{
    match state.cancel_code {
        None => listed_run(alloc, reply, state),
        Some(_) => {
            state.writes = KeyMap::new(alloc);
            state.rows = KeyMap::from_rows(alloc, rows)?;
            listed_run(alloc, reply, state)
        }
    }
}

/// The end of a run that keeps its writes and rows.
fn listed_run<A: Allocator + Copy>(
    alloc: A,
    reply: u64,
    state: State<A>,
) -> Result<CompletedRun<A>, AllocError>
    ensures { IfOk result (λ r. r ≡ record {
      steps = state.steps;
      reply = reply;
      looks = state.looks.items;
      writes = state.writes;
      cancel_code = state.cancel_code;
      effect = state.rows;
    }) }
{
    let writes = state.writes.into_list(alloc)?;
    let rows = state.rows.into_list(alloc)?;
    Ok(CompletedRun {
        steps: state.steps,
        reply,
        looks: state.looks,
        writes,
        cancel_code: state.cancel_code,
        rows,
    })
}
