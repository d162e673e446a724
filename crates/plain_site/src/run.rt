//! Whole calls.

ghost use Rattle.std.specs.Prelude.{◌≡◌, ◌≢◌, ◌≤◌, ℕ, length, IfOk, IfErr, IfSome};
ghost use Rattle.acceptance.specs.Description.{Suits};
ghost use Rattle.schema.specs.Rows.{AreRows};
ghost use Rattle.plain_runner.specs.Listed.{rows_of};
ghost use Rattle.bpf_semantics.specs.Path.{longest_path};
ghost use Rattle.bpf_vm.specs.declared.turn.Turn.TheVariants.{More, Exit};
ghost use Rattle.bpf_vm.specs.Run.{HasRun, HasEnded, no_effects, own_effects};
ghost use Rattle.plain_site.specs.Completed.{CompletesIn};
ghost use Rattle.plain_site.specs.declared.run.SiteFault.TheVariants.{ArgsLength};

use crate::store::PlainStore;
use bpf_verify::Accepted;
use bpf_vm::{Machine, Turn, open_calls_can_turn, runs_go_on_or_end};
use plain_runner::{Bytes, KeyMap, Row};
use row_sets::{ReadSet, WriteSet};
use schema::{Schema, rows_stay_the_schemas};
use std::alloc::{AllocError, Allocator, Global};
use thiserror::Error;
use txn_view::{Own, View};

/// The fault for which a call didn't begin.
#[derive(Clone, Copy, Debug, PartialEq, Eq, Error)]
pub enum SiteFault {
    #[error("the arguments aren't as long as the procedure's")]
    ArgsLength,
    #[error("a row isn't one of the procedure's schema")]
    ForeignRow,
    #[error("out of memory")]
    NoMemory,
}

/// A call, after its last turn.
#[derive(Drop)]
pub struct SiteRun<A: Allocator + Copy = Global> {
    /// The number of turns that the call had, the last included.
    pub turns: u32,
    /// The answer of the last turn.
    pub last: Turn,
    pub own: Own<A>,
}

/// A call that came to its end. Nothing was written where it cancelled.
#[derive(Drop)]
pub struct CompletedCall<A: Allocator + Copy = Global> {
    pub reply: u64,
    pub reads: ReadSet<A>,
    pub writes: WriteSet<A>,
    pub cancel_code: Option<u64>,
}

/// Runs a call on these rows, of which a later one at a key replaces an earlier one, to its end.
pub fn complete_call<A: Allocator, B: Allocator, C: Allocator + Copy, D: Allocator>(
    alloc: C,
    procedure: &Accepted<A, B>,
    args: &[u8],
    rows: &[Row<D>],
) -> Result<CompletedCall<C>, SiteFault>
    ensures run { IfOk result (λ r. (n : ℕ) × CompletesIn procedure.now args.now (rows_of rows.now) n
        r.reply r.reads r.writes r.cancel_code) }
    ensures length { IfErr result (λ fault. fault ≡ ArgsLength → length args.now ≢ procedure.now.args_len) }
{
    let (map, mut machine) = begin(alloc, procedure, args, rows)?;
    let store = PlainStore {
        rows: &map,
        gone: false,
    };
    let mut view = View::over(store, Own::new(alloc));
    let Turn::Exit(reply) = machine.run(procedure, &mut view) else {
        return Err(SiteFault::NoMemory);
    };
    let (reads, writes, cancel_code) = view.finish();
    Ok(CompletedCall {
        reply,
        reads,
        writes,
        cancel_code,
    })
}

/// Runs a call on these rows, of which a later one at a key replaces an earlier one, until a turn doesn't answer
/// that there is more. From a turn on, numbered from 1, the store has its rows no more.
pub fn run_call<A: Allocator, B: Allocator, C: Allocator + Copy, D: Allocator>(
    alloc: C,
    procedure: &Accepted<A, B>,
    args: &[u8],
    rows: &[Row<D>],
    gone_from: u32,
) -> Result<SiteRun<C>, SiteFault>
    ensures ended { IfOk result (λ r. (reply : ℕ) → r.last ≡ Exit reply
        → HasEnded procedure.now args.now (rows_of rows.now) r.turns reply (own_effects r.own)) }
    ensures over { IfOk result (λ r. r.last ≢ More) }
    ensures short { IfOk result (λ r. r.turns ≤ longest_path procedure.now.program) }
    ensures length { IfErr result (λ fault. fault ≡ ArgsLength → length args.now ≢ procedure.now.args_len) }
{
    let (map, machine) = begin(alloc, procedure, args, rows)?;
    Ok(take_turns(alloc, procedure, args, &map, machine, gone_from))
}

/// The rows as a map, and a machine that has run nothing yet.
fn begin<A: Allocator, B: Allocator, C: Allocator + Copy, D: Allocator>(
    alloc: C,
    procedure: &Accepted<A, B>,
    args: &[u8],
    rows: &[Row<D>],
) -> Result<(KeyMap<Bytes<C>, C>, Machine), SiteFault>
    ensures rows { IfOk result (λ r. r.0 ≡ rows_of rows.now) }
    ensures suits { IfOk result (λ r. Suits procedure.now args.now r.0) }
    ensures first { IfOk result (λ r. HasRun procedure.now args.now r.0 0 r.1 no_effects) }
    ensures length { IfErr result (λ fault. fault ≡ ArgsLength → length args.now ≢ procedure.now.args_len) }
{
    let Ok(found) = site_rows(alloc, procedure.schema(), rows) else {
        return Err(SiteFault::NoMemory);
    };
    let Some(map) = found else {
        return Err(SiteFault::ForeignRow);
    };
    let Ok(machine) = Machine::start(procedure, args) else {
        return Err(SiteFault::ArgsLength);
    };
    Ok((map, machine))
}

/// Takes turns on rows of a map, from the first on.
fn take_turns<A: Allocator, B: Allocator, C: Allocator + Copy>(
    alloc: C,
    procedure: &Accepted<A, B>,
    args: &[u8],
    map: &KeyMap<Bytes<C>, C>,
    machine: Machine,
    gone_from: u32,
) -> SiteRun<C>
    requires suits { Suits procedure.now args.now map.now }
    requires first { HasRun procedure.now args.now map.now 0 machine no_effects }
    ensures ended { (reply : ℕ) → result.last ≡ Exit reply
        → HasEnded procedure.now args.now map.now result.turns reply (own_effects result.own) }
    ensures over { result.last ≢ More }
    ensures short { result.turns ≤ longest_path procedure.now.program }
{
    // Laws:
    runs_go_on_or_end();
    let mut machine = machine;
    let store = PlainStore {
        rows: map,
        gone: false,
    };
    let mut view = View::over(store, Own::new(alloc));
    for turn in 0..procedure.bound() {
        view.store.gone = gone_from <= turn + 1;
        // Laws:
        open_calls_can_turn(&view);
        match machine.turn(procedure, &mut view) {
            Turn::More => {}
            last => {
                return SiteRun {
                    turns: turn + 1,
                    last,
                    own: view.pause(),
                };
            }
        }
    }
    unreachable!()
}

/// The rows as a map, where each is one of the schema's.
fn site_rows<A: Allocator + Copy, B: Allocator, D: Allocator>(
    alloc: A,
    schema: &Schema<B>,
    rows: &[Row<D>],
) -> Result<Option<KeyMap<Bytes<A>, A>>, AllocError>
    ensures rows { IfOk result (λ found. IfSome found (λ map. map ≡ rows_of rows.now)) }
    ensures fit { IfOk result (λ found. IfSome found (AreRows schema.now)) }
{
    // Laws:
    rows_stay_the_schemas();
    let mut map = KeyMap::new(alloc);
    for row in rows {
        if !schema.fits(row.table(), row.bytes()) {
            return Ok(None);
        }
        let bytes = Vec::from_slice(alloc, row.bytes())?;
        map.insert(row.table(), row.key(), Bytes::new(bytes))?;
    }
    Ok(Some(map))
}
