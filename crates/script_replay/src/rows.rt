//! The rows of a replica.

ghost use Rattle.std.specs.Prelude.{◌≡◌, ◌≤◌, ◌^◌, ◌+◌, ◌-◌, false, List, ℕ, IfOk, IfSome};
ghost use Rattle.byte_output.specs.Pending.{output_of};
ghost use Rattle.dsm_model.specs.World.{numbered};
ghost use Rattle.dsm_world.specs.System.{setting_of, world_of};
ghost use Rattle.schema.specs.Rows.{Key, Rows, first_in};
ghost use Rattle.txn_view.specs.Found.{row_found};
ghost use Rattle.script_replay.specs.Printed.{rows_text};
ghost use Rattle.script_replay.specs.Acting.{Gives};
ghost use Rattle.script_replay.specs.Listing.{HasRowKeys, AreBefore, ListsMore, GivesAll};

use crate::output::put_line;
use byte_output::paged::PagedOutput;
use dsm_model::StepRefusal;
use dsm_world::World;
use log_model::rows_fit_the_schema;
use report::{Line, ReplicaReport};
use schema::{Look, MAX_TABLE, first_is_least, looks_cover_from_lo_to_hi};
use std::alloc::Allocator;
use std::io;
use std::io::Write;
use txn_view::Store;

/// Prints the rows of a replica as far as it has come.
pub(crate) fn put_rows<A: Allocator + Copy, W: Write>(
    world: &World<A>,
    output: &mut PagedOutput<'_, W>,
    replica: u32,
) -> io::Result<()>
    ensures same_output { (output_of output.new).ghost_name ≡ (output_of output.old).ghost_name }
    ensures given { Gives W.contents output.old output.new result
        (rows_text (setting_of world.now) (world_of world.now).log replica
        (numbered (world_of world.now).replicas replica)) }
{
    // Laws:
    rows_fit_the_schema();
    world.keeps_what_was_delivered();
    let Some(kept) = world.replica(replica) else {
        let report = ReplicaReport::Refused(StepRefusal::NoReplica);
        return put_line(output, &Line::Replica { replica, report });
    };
    let position = kept.position();
    let Some(rows_there) = world.at(replica, position) else {
        unreachable!()
    };
    let rows = put_each(output, &rows_there)?;
    let report = ReplicaReport::Rows { position, rows };
    put_line(output, &Line::Replica { replica, report })
}

/// Prints each row that a store has, in the order of tables and keys, and counts them.
fn put_each<S: Store, W: Write>(output: &mut PagedOutput<'_, W>, rows: &S) -> io::Result<u128>
    requires { S.is_gone rows.now ≡ false }
    ensures same_output { (output_of output.new).ghost_name ≡ (output_of output.old).ghost_name }
    ensures given { (all : Rows) → S.answers_from rows.now all → HasRowKeys all
        → GivesAll W.contents output.old output.new all result }
{
    let mut count: u128 = 0;
    for table in 1..MAX_TABLE + 1 {
        count += put_table(output, rows, table)?;
    }
    Ok(count)
}

/// Prints the rows of a table by key, and counts them.
fn put_table<S: Store, W: Write>(
    output: &mut PagedOutput<'_, W>,
    rows: &S,
    table: u8,
) -> io::Result<u128>
    requires { S.is_gone rows.now ≡ false }
    ensures same_output { (output_of output.new).ghost_name ≡ (output_of output.old).ghost_name }
    ensures few { IfOk result (λ count. count ≤ 2 ^ 64) }
    ensures given { (all : Rows) (listed : List (Key × List ℕ)) → S.answers_from rows.now all → HasRowKeys all
        → AreBefore (table, 0) listed all
        → ListsMore W.contents output.old output.new all (table + 1, 0) listed result }
{
    // Laws:
    first_is_least();
    looks_cover_from_lo_to_hi();
    let mut count: u128 = 0;
    let mut lo = 0;
    while let Some((key, bytes)) = first_from(rows, table, lo) {
        put_line(output, &Line::Row { table, key, bytes })?;
        count += 1;
        match key.checked_add(1) {
            Some(next) => lo = next,
            None => return Ok(count),
        }
    }
    Ok(count)
}

/// The least key of a table from `lo` on, and its row, where there is one.
fn first_from<S: Store>(rows: &S, table: u8, lo: u64) -> Option<(u64, &[u8])>
    requires { S.is_gone rows.now ≡ false }
    ensures found { (all : Rows) → S.answers_from rows.now all
        → row_found table result ≡ first_in (record { table = table; lo = lo; hi = 2 ^ 64 - 1 }) all }
    ensures covered { IfSome result (λ row. (lo ≤ row.0) × (row.0 ≤ 2 ^ 64 - 1)) }
{
    let hi = u64::MAX;
    rows.next(Look { table, lo, hi }).ok().flatten()
}
