//! A program that opens a node of its own, makes a call in a session, and stops the node. docs/EMBEDDING.md goes through
//! it.
#![tactic(auto)]

ghost use Rattle.std.specs.Prelude.{◌≡◌};
ghost use Rattle.tallies.specs.Tallies.{names_by_place};
ghost use Rattle.catalogue.specs.Catalogue.{system_setting};

use bpf_bytes::decode;
use bpf_verify::verify;
use catalogue::Catalogue;
use locked_replica::LogSetting;
use node::Node;
use node_calls::{Answer, OpenGate};
use order_log::GroupCells;
use schema::Schema;
use session::Session;
use std::alloc::Global;
use std::marker::Brand;
use std::process::ExitCode;
use std::sync::Wait;
use std::thread::Threads;
use tallies::{Blanks, Ledgers};

/// `add KEY AMOUNT` adds to a row of table 1 and replies with the sum: what `sdk/c/build` makes of its source in C.
const ADD: &str = "79160000000000007917080000000000b701000001000000bf62000000000000\
bfa300000000000007030000f8ffffff850000000100000079a8f8ff00000000\
0f780000000000007b8af8ff00000000b701000001000000bf62000000000000\
bfa300000000000007030000f8ffffff8500000002000000bf80000000000000\
9500000000000000";

const WINDOW: u32 = 64;

/// One table of rows of 8 bytes, and one procedure, which takes 16 bytes of arguments.
fn database(alloc: Global) -> Option<Catalogue> {
    let schema = Schema::new(alloc, &[(1, 8)]).ok()?;
    let code = decode(alloc, &hex::decode(alloc, ADD).ok()?).ok()?;
    let accepted = verify(alloc, code, &schema, 16).ok()?;
    let mut catalogue = Catalogue::new(alloc, schema);
    catalogue.add(b"add", 1, accepted).ok()?;
    Some(catalogue)
}

/// Opens a node of three replicas with two executing threads each, adds 10 to row 5 at the first replica, and stops the
/// node. Returns the sum.
fn use_node<
    J: LogSetting + Ledgers + Send + Sync + 'static,
    R: Threads + Wait + Copy + Send + Sync + 'static,
>(
    rt: &R,
    alloc: Global,
    cells: GroupCells,
    blanks: Blanks,
    catalogue: Catalogue,
    window: u32,
) -> Option<u64>
    requires cells { cells ≡ J.groups }
    requires ledgers { J.names ≡ names_by_place blanks }
    requires setting { J.setting ≡ system_setting catalogue window }
{
    let node = Node::<J, OpenGate>::start(rt, alloc, cells, blanks, 3, 2, window, catalogue).ok()?;
    let mut session = Session::new(node.desk());
    let args = [5, 0, 0, 0, 0, 0, 0, 0, 10, 0, 0, 0, 0, 0, 0, 0];
    let (answer, _) = session.call(rt, 1, 1, &args);
    node.stop(rt);
    match answer {
        Answer::Committed { reply, .. } => Some(reply),
        _ => None,
    }
}

fn main(rt: HostRuntime) -> ExitCode {
    let alloc = rt.alloc();
    let (Some(catalogue), Ok(cells)) = (database(alloc), GroupCells::new(alloc)) else {
        return ExitCode::FAILURE;
    };
    let sum = use_node::<Brand, _>(&rt, alloc, cells, Blanks::new(), catalogue, WINDOW);
    let Some(sum) = sum else {
        return ExitCode::FAILURE;
    };
    match println!(rt; "the sum is {sum}") {
        Ok(()) => ExitCode::SUCCESS,
        Err(_) => ExitCode::FAILURE,
    }
}
