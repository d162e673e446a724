//! Two replicas in memory of their own, the threads of a scope that serve and deliver to them, and who asks both.

ghost use Rattle.std.specs.Prelude.{◌≡◌};
ghost use Rattle.tallies.specs.Tallies.{names_by_place};
ghost use Rattle.catalogue.specs.Catalogue.{system_setting};

use crate::asked::Mismatch;
use crate::cases::Case;
use crate::requests::{Memories, ToReplica, ask_all};
use catalogue::Catalogue;
use crossbeam_channel::{Receiver, bounded};
use locked_replica::LogSetting;
use node_calls::OpenGate;
use order_log::{GroupCells, OrderLog};
use served_replicas::{Calls, Shared, deliver_all, serve};
use std::alloc::{AllocError, Allocator, Global};
use std::sync::{Arc, Wait};
use std::thread;
use std::thread::Threads;
use tallies::{Blanks, FreshTally, Ledgers};

/// The parts that two replicas share, each in memory of its own of the first kind. Calls and entries take memory of the
/// second.
type TwoReplicas<J, A, P> = Shared<J, A, P, OpenGate>;

/// The beginning of a log: the catalogue and the window.
#[derive(Drop)]
pub struct LogStart<P: Allocator + Copy> {
    pub catalogue: Catalogue<P>,
    pub window: u32,
}

/// The channels to both, until nobody asks any more.
type Callers<J, P> = Option<[ToReplica<J, P>; 2]>;

/// Who asks both: where requests take memory, the replicas' memory, and the case.
#[derive(Drop)]
struct Asker<'a, P: Allocator + Copy> {
    alloc: P,
    memories: Memories<'a>,
    case: &'a mut Case,
}

/// The ends of the channels to both replicas, and the tallies in which each counts its answers.
#[derive(Drop)]
struct Served<'a, J: LogSetting + Ledgers, P: Allocator + Copy> {
    asked: &'a [Receiver<Arc<Calls<J, P>, P>, P>; 2],
    one: FreshTally<J>,
    other: FreshTally<J>,
}

/// Serves a replica until no caller is left.
fn serve_one<J: LogSetting + Ledgers, A: Allocator + Copy, P: Allocator + Copy, R: Wait>(
    rt: &R,
    shared: &TwoReplicas<J, A, P>,
    replica: u32,
    asked: &Receiver<Arc<Calls<J, P>, P>, P>,
    fresh: FreshTally<J>,
) {
    serve(rt, shared, replica, 0, asked, fresh);
}

/// Asks both, and lets the channels to them go, so that nobody serves them any more. Returns the first answer that may
/// not be heard.
fn ask_to_the_end<J: LogSetting + Ledgers, A: Allocator + Copy, P: Allocator + Copy, R: Wait>(
    rt: &R,
    shared: &TwoReplicas<J, A, P>,
    asker: &mut Asker<'_, P>,
    callers: &mut Callers<J, P>,
) -> Option<Mismatch> {
    let senders = callers.as_ref()?;
    let mismatch = ask_all(rt, asker.alloc, shared, asker.memories, senders, asker.case);
    *callers = None;
    mismatch
}

/// Serves both until no caller is left. Then stops the deliveries.
fn serve_both<
    J: LogSetting + Ledgers + Send + Sync,
    A: Allocator + Copy + Send + Sync,
    P: Allocator + Copy + Send + Sync,
    R: Threads + Wait + Sync,
>(rt: &R, shared: &TwoReplicas<J, A, P>, served: Served<'_, J, P>) {
    let Served { asked, one, other } = served;
    thread::join(
        rt,
        || serve_one(rt, shared, 1, &asked[0], one),
        || serve_one(rt, shared, 2, &asked[1], other),
    );
    shared.stop_deliveries();
}

/// Delivers to both until the deliveries are stopped.
fn deliver_to_both<
    J: LogSetting + Ledgers + Send + Sync,
    A: Allocator + Copy + Send + Sync,
    P: Allocator + Copy + Send + Sync,
    R: Threads + Wait + Sync,
>(rt: &R, shared: &TwoReplicas<J, A, P>) {
    thread::join(
        rt,
        || deliver_all(rt, shared, 1),
        || deliver_all(rt, shared, 2),
    );
}

/// Has both served and delivered to by threads of a scope, until no caller is left.
fn serve_and_deliver<
    J: LogSetting + Ledgers + Send + Sync,
    A: Allocator + Copy + Send + Sync,
    P: Allocator + Copy + Send + Sync,
    R: Threads + Wait + Copy + Sync,
>(rt: &R, shared: &TwoReplicas<J, A, P>, served: Served<'_, J, P>) {
    thread::join(
        rt,
        || serve_both(rt, shared, served),
        || deliver_to_both(rt, shared),
    );
}

/// Adds two replicas that take memory from these.
fn add_both<J: LogSetting + Ledgers, A: Allocator + Copy, P: Allocator + Copy>(
    shared: &mut TwoReplicas<J, A, P>,
    replicas: (A, A),
) -> Result<(), AllocError> {
    shared.add_replica(replicas.0, 1)?;
    shared.add_replica(replicas.1, 1)
}

/// Makes what two replicas share that take memory from these.
fn shared_by<J: LogSetting + Ledgers, A: Allocator + Copy, P: Allocator + Copy>(
    global: Global,
    alloc: P,
    cells: GroupCells<P>,
    start: LogStart<P>,
    replicas: (A, A),
) -> Result<TwoReplicas<J, A, P>, AllocError>
    requires cells { cells ≡ J.groups }
    requires setting { J.setting ≡ system_setting start.catalogue start.window }
{
    let log = OrderLog::new(global, cells)?;
    let LogStart { catalogue, window } = start;
    let mut shared = Shared::new(alloc, log, catalogue, window, OpenGate, 2)?;
    add_both(&mut shared, replicas)?;
    Ok(shared)
}

/// Makes the channels to both. Has both served and delivered to while they are asked, until nobody asks
/// any more. Returns the first answer that may not be heard.
fn serve_two<
    J: LogSetting + Ledgers + Send + Sync,
    A: Allocator + Copy + Send + Sync,
    P: Allocator + Copy + Send + Sync,
    R: Threads + Wait + Copy + Sync,
>(
    rt: &R,
    asker: &mut Asker<'_, P>,
    shared: &TwoReplicas<J, A, P>,
    one: FreshTally<J>,
    other: FreshTally<J>,
) -> Result<Option<Mismatch>, AllocError> {
    let (to_first, at_first) = bounded(asker.alloc, 4)?;
    let (to_second, at_second) = bounded(asker.alloc, 4)?;
    let mut callers = Some([to_first, to_second]);
    let asked = [at_first, at_second];
    let served = Served {
        asked: &asked,
        one,
        other,
    };
    let (_, mismatch) = thread::join(
        rt,
        || serve_and_deliver(rt, shared, served),
        || ask_to_the_end(rt, shared, asker, &mut callers),
    );
    Ok(mismatch)
}

/// Tries a case at two replicas, each with an allocator of its own (`replicas`), whose growths `memories` refuse. The
/// second replica finds no memory at first, where the case is that it stops. Returns the first answer that may not be
/// heard.
pub fn try_two<
    J: LogSetting + Ledgers + Send + Sync,
    A: Allocator + Copy + Send + Sync,
    P: Allocator + Copy + Send + Sync,
    R: Threads + Wait + Copy + Sync,
>(
    rt: &R,
    global: Global,
    alloc: P,
    cells: GroupCells<P>,
    blanks: Blanks,
    start: LogStart<P>,
    replicas: (A, A),
    memories: Memories<'_>,
    case: &mut Case,
) -> Result<Option<Mismatch>, AllocError>
    requires cells { cells ≡ J.groups }
    requires ledgers { J.names ≡ names_by_place blanks }
    requires setting { J.setting ≡ system_setting start.catalogue start.window }
{
    let mut whole = blanks.open();
    let one = whole.split();
    let other = whole.split();
    let shared: TwoReplicas<J, A, P> = shared_by(global, alloc, cells, start, replicas)?;
    memories.1.refuse_all(matches!(case, Case::Stopped(_)));
    let mut asker = Asker {
        alloc,
        memories,
        case,
    };
    serve_two(rt, &mut asker, &shared, one, other)
}
