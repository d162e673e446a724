//! A node from its making to its end.

ghost use Rattle.std.specs.Prelude.{◌≡◌};
ghost use Rattle.tallies.specs.Tallies.{names_by_place};
ghost use Rattle.catalogue.specs.Catalogue.{system_setting};

use crate::asked::Asked;
use crate::callers::ask_all;
use crate::ending::{Ending, ending_of};
use crate::gate::{Hold, HoldingGate, gate_of};
use catalogue::Catalogue;
use locked_replica::LogSetting;
use node::{Node, Options};
use order_log::GroupCells;
use std::alloc::Global;
use std::marker::Brand;
use std::sync::Wait;
use std::thread::Threads;
use tallies::{Blanks, Ledgers};
use test_programs::{TABLES, catalogue_of};

/// The parts of a node that is to be started.
#[derive(Drop)]
struct NodeParts {
    options: Options,
    catalogue: Catalogue,
    gate: HoldingGate,
}

/// The questions to a node, the hold of its gate, and the key whose rows its end tells.
struct Inquiry<'a, A> {
    asked: &'a A,
    hold: &'a Hold,
    key: u64,
}

/// Starts a node of these parts, has it asked, and finishes it.
fn run_node<
    J: LogSetting + Ledgers + Send + Sync + 'static,
    R: Threads + Wait + Copy + Send + Sync + 'static,
    A: Asked + Sync,
>(
    rt: &R,
    alloc: Global,
    cells: GroupCells,
    blanks: Blanks,
    parts: NodeParts,
    inquiry: Inquiry<'_, A>,
) -> Option<Ending>
    requires cells { cells ≡ J.groups }
    requires ledgers { J.names ≡ names_by_place blanks }
    requires setting { J.setting ≡ system_setting parts.catalogue parts.options.window }
{
    let NodeParts {
        options,
        catalogue,
        gate,
    } = parts;
    let Inquiry { asked, hold, key } = inquiry;
    let started = Node::<J, HoldingGate>::start_with(
        rt, alloc, cells, blanks, options, catalogue, gate,
    );
    let node = started.ok()?;
    let stray = ask_all(rt, alloc, node.desk(), hold, asked);
    let finish = node.finish(rt);
    ending_of(rt, alloc, &finish, key, stray)
}

/// Makes a node with these options and procedures over table 1 of rows of 8 bytes. A procedure is a number, a program,
/// and the number of words that the program takes. Has the node asked, its calls of procedure 1 held where its gate is
/// armed, and finishes it. Returns the node's end, with its replicas' rows at a key. Returns `None` where the node
/// can't be made, or memory is wanting.
pub fn run_at_a_node<R: Threads + Wait + Copy + Send + Sync + 'static, A: Asked + Sync>(
    rt: &R,
    alloc: Global,
    options: Options,
    armed: bool,
    procedures: &[(u16, &str, usize)],
    asked: &A,
    key: u64,
) -> Option<Ending> {
    let (gate, hold) = gate_of(alloc, armed)?;
    let cells = GroupCells::new(alloc).ok()?;
    let parts = NodeParts {
        options,
        catalogue: catalogue_of(alloc, &TABLES, procedures)?,
        gate,
    };
    let hold = &hold;
    let inquiry = Inquiry { asked, hold, key };
    run_node::<Brand, R, A>(rt, alloc, cells, Blanks::new(), parts, inquiry)
}
