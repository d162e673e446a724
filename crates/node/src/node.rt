//! A node: replicas of one log, their threads, and what callers share.

ghost use Rattle.std.specs.Prelude.{◌≡◌, ◌≤◌, ◌<◌, ◌+◌, ◌↔◌, true, All, IfOk, IfErr, IfSome, IfNone, OnOk, Err, length};
ghost use Rattle.std.specs.Prelude.{vec_len, vec_capacity};
ghost use Rattle.std.specs.Arc.{arc_value};
ghost use Rattle.replica.specs.Replica.{AreEntriesOf, entries_of};
ghost use Rattle.tallies.specs.declared.ledgers.TheConstants.{THREADS};
ghost use Rattle.tallies.specs.Counted.{no_counts};
ghost use Rattle.tallies.specs.Tallies.{names_by_place};
ghost use Rattle.served_replicas.specs.Added.{IsAddedAnswer};
ghost use Rattle.served_replicas.specs.Replicas.{IsNoReplica};
ghost use Rattle.served_replicas.specs.declared.rebuild.RebuildFault.TheVariants.{NoReplica};
ghost use Rattle.node.specs.Agreement.{AgreeBy};
ghost use Rattle.node.specs.Options.{AreInBounds, IsStartFault, IsWant, options_of};
ghost use Rattle.catalogue.specs.Catalogue.{system_setting};

use crate::crew::Crew;
use crate::desk::Desk;
use crate::ended::{EndedReplica, agree_all};
use crate::options::{Options, StartFault};
use catalogue::Catalogue;
use crossbeam_channel::Sender;
use locked_replica::{LockedReplica, LogSetting, OrderedEntries};
use node_calls::{Gate, OpenGate};
use order_log::{Fact, GroupCells, OrderLog, Seen};
use schema::MAX_LOG;
use served_replicas::{Added, Calls, RebuildFault, Shared};
use std::alloc::{AllocError, Global};
use std::marker::Model;
use std::sync::{Arc, RwLock, Wait};
use std::thread::Threads;
use tallies::{Blanks, Counts, Ledgers, Tally};

/// The end of a node.
#[derive(Drop)]
pub struct Finish<J: LogSetting + Ledgers, G: Gate>
where
    OrderedEntries<J>: Fact,
{
    /// The number of answers of each kind.
    pub totals: Counts,
    pub replicas: Vec<EndedReplica<J>>,
    /// True where, for each two replicas, what was delivered to one is a prefix of what was delivered to the other.
    pub agreement: bool,
    /// The tally of all threads, in which the answers were counted.
    pub tally: Tally<J>,
    shared: Arc<Shared<J, Global, Global, G>>,
    ghost all: { vec_len replicas ≡ (arc_value shared).replicas },
}

/// The ends of a node's replicas.
#[derive(Drop)]
pub struct Ended<J: LogSetting> {
    pub replicas: Vec<EndedReplica<J>>,
    /// True where, for each two replicas, what was delivered to one is a prefix of what was delivered to the other.
    pub agreement: bool,
}

/// A node whose threads run. A node has to be ended, by `stop` or `finish`. Contracts see the number of replicas.
pub struct Node<J: LogSetting + Ledgers, G: Gate>
where
    OrderedEntries<J>: Fact,
{
    desk: Desk<J, G>,
    crew: Crew<J>,
    tally: Tally<J>,
    /// Room for the ends of the replicas.
    ended: Vec<EndedReplica<J>>,
}

impl<J: LogSetting + Ledgers, G: Gate> Model for Node<J, G>
where
    OrderedEntries<J>: Fact,
{
    ghost use Rattle.std.specs.Prelude.{◌≡◌, ◌≤◌, ◌+◌, vec_len, vec_capacity};
    ghost use Rattle.schema.specs.declared.limits.TheConstants.{MAX_REPLICAS};
    ghost use Rattle.tallies.specs.declared.ledgers.TheConstants.{THREADS};
    ghost use Rattle.tallies.specs.Counted.{no_counts};
    ghost use Rattle.node.specs.Nodes.{NodeState};

    ghost Value = { NodeState };

    ghost view = { λ n. record { replicas = n.desk.replicas } };

    ghost invariant = { λ n. (n.tally.threads + n.crew.executors ≡ THREADS)
        × (n.tally.counts ≡ no_counts) × (n.desk.replicas ≤ MAX_REPLICAS)
        × (vec_len n.ended ≡ 0) × (n.desk.replicas ≤ vec_capacity n.ended) };
}

impl<J: LogSetting + Ledgers + Send + Sync + 'static, G: Gate + Drop + Send + Sync + 'static> Node<
    J,
    G,
> {
    /// Starts the threads of a node with these options, whose executing threads pass a gate before they read or write
    /// rows. The ledgers, the log's cells and the catalogue are the node's own.
    pub fn start_with<R: Threads + Wait + Copy + Send + Sync + 'static>(
        rt: &R,
        alloc: Global,
        cells: GroupCells,
        blanks: Blanks,
        options: Options,
        catalogue: Catalogue,
        gate: G,
    ) -> Result<Node<J, G>, StartFault>
        requires cells { cells ≡ J.groups }
        requires ledgers { J.names ≡ names_by_place blanks }
        requires setting { J.setting ≡ system_setting catalogue options.window }
        ensures started { IfOk result (λ node. AreInBounds options × (node.replicas ≡ options.replicas)) }
        ensures fault { IfErr result (IsStartFault options) }
    {
        options.check()?;
        let tally = blanks.open();
        match shared_of(alloc, cells, options, catalogue, gate) {
            Ok(shared) => start_threads(rt, alloc, shared, tally, options),
            Err(_) => Err(StartFault::NoMemory),
        }
    }

    /// The part of the node that callers share.
    pub fn desk(&self) -> &Desk<J, G>
        ensures { result.now.replicas ≡ self.now.replicas }
    {
        &self.desk
    }

    /// Adds a procedure as `Desk::add` does.
    pub fn add<R: Wait>(
        &self,
        rt: &R,
        name: &[u8],
        number: u16,
        args_len: u16,
        bytes: &[u8],
    ) -> (Added, Option<Seen<J>>)
        ensures { IsAddedAnswer J.setting
            (record { name = name.now; number = number; args_len = args_len; bytes = bytes.now }) result.0 result.1 }
    {
        self.desk.add(rt, name, number, args_len, bytes)
    }

    /// Makes the replica of a number anew as `Desk::rebuild` does.
    pub fn rebuild<R: Wait>(&self, rt: &R, replica: u32) -> Result<u32, RebuildFault>
        ensures none { (result ≡ Err NoReplica) ↔ IsNoReplica self.now.replicas replica }
        ensures some { IfOk result (λ _. (1 ≤ replica) × (replica ≤ self.now.replicas)) }
    {
        self.desk.rebuild(rt, replica)
    }

    /// Ends the threads as `finish` does, and returns no sums.
    pub fn stop<R: Threads + Wait>(self, rt: &R) -> Ended<J>
        ensures replicas { length result.replicas.items ≡ self.replicas }
        ensures entries { All (λ e. AreEntriesOf J.setting (entries_of e.seen)) result.replicas.items }
        ensures agreement { AgreeBy (λ e. e.seen) result.replicas.items }
        ensures agree { result.agreement ≡ true }
    {
        let finish = self.finish(rt);
        Ended {
            replicas: finish.replicas,
            agreement: finish.agreement,
        }
    }

    /// Ends the threads when all that was asked is answered and all that was ordered is delivered. A replica that has
    /// stopped delivers no more.
    pub fn finish<R: Threads + Wait>(self, rt: &R) -> Finish<J, G>
        ensures totals { result.totals ≡ result.tally.counts }
        ensures threads { result.tally.threads ≡ THREADS }
        ensures replicas { length result.replicas.items ≡ self.replicas }
        ensures entries { All (λ e. AreEntriesOf J.setting (entries_of e.seen)) result.replicas.items }
        ensures agreement { AgreeBy (λ e. e.seen) result.replicas.items }
        ensures agree { result.agreement ≡ true }
    {
        let Node {
            desk,
            crew,
            mut tally,
            mut ended,
        } = self;
        let Desk {
            shared,
            senders,
            executors: _,
            alloc: _,
        } = desk;
        drop(senders);
        crew.end(rt, &shared, &mut tally);
        tally.count_others(shared.unserved());
        for place in 0..shared.replicas() as u32 {
            push_end(rt, &shared, place + 1, &mut ended);
        }
        agree_all(&ended);
        Finish {
            totals: tally.counts(),
            replicas: ended,
            agreement: true,
            tally,
            shared,
        }
    }
}

impl<J: LogSetting + Ledgers + Send + Sync + 'static> Node<J, OpenGate> {
    /// Starts a node as `start_with` does, with a log of at most 1,048,576 entries and a gate that is always open.
    pub fn start<R: Threads + Wait + Copy + Send + Sync + 'static>(
        rt: &R,
        alloc: Global,
        cells: GroupCells,
        blanks: Blanks,
        replicas: u32,
        executors: u32,
        window: u32,
        catalogue: Catalogue,
    ) -> Result<Node<J, OpenGate>, StartFault>
        requires cells { cells ≡ J.groups }
        requires ledgers { J.names ≡ names_by_place blanks }
        requires setting { J.setting ≡ system_setting catalogue window }
        ensures started { IfOk result (λ node. node.replicas ≡ replicas) }
        ensures fault { IfErr result (IsStartFault (options_of replicas executors window)) }
    {
        let options = Options {
            replicas,
            executors,
            window,
            limit: MAX_LOG,
        };
        Node::start_with(rt, alloc, cells, blanks, options, catalogue, OpenGate)
    }
}

impl<J: LogSetting + Ledgers, G: Gate> Finish<J, G> {
    /// The log, whose entries everyone who has seen them can read.
    pub fn log(&self) -> &OrderLog<J, OrderedEntries<J>> {
        self.shared.log()
    }

    /// The replica of a number, from 1 on, behind its lock.
    pub fn replica(&self, number: u32) -> Option<&RwLock<LockedReplica<J>>>
        ensures some { IfSome result (λ _. (1 ≤ number) × (number ≤ vec_len self.now.replicas)) }
        ensures none { IfNone result (IsNoReplica (vec_len self.now.replicas) number) }
    {
        self.shared.locked(number)
    }
}

/// Adds the end of a replica, by its number, within the room that `ended` has.
fn push_end<J: LogSetting + Ledgers, G: Gate, R: Wait>(
    rt: &R,
    shared: &Shared<J, Global, Global, G>,
    number: u32,
    ended: &mut Vec<EndedReplica<J>>,
)
    requires number { (1 ≤ number) × (number ≤ shared.now.replicas) }
    requires room { vec_len ended.old < vec_capacity ended.old }
    requires entries { All (λ e. AreEntriesOf J.setting (entries_of e.seen)) ended.old.items }
    ensures len { vec_len ended.new ≡ vec_len ended.old + 1 }
    ensures room { vec_capacity ended.old ≤ vec_capacity ended.new }
    ensures entries { All (λ e. AreEntriesOf J.setting (entries_of e.seen)) ended.new.items }
{
    if let Some(replica) = shared.locked(number) {
        ended.push_reserved(EndedReplica::of(&replica.read(rt)));
    }
}

/// Adds as many replicas as a node with these options has.
fn add_all_replicas<J: LogSetting + Ledgers, G: Gate>(
    shared: &mut Shared<J, Global, Global, G>,
    alloc: Global,
    options: Options,
) -> Result<(), AllocError>
    requires { shared.old.replicas ≡ 0 }
    ensures { OnOk result (shared.new.replicas ≡ options.replicas) }
{
    for place in 0..options.replicas {
        shared.add_replica(alloc, options.executors as usize)?;
    }
    Ok(())
}

/// Makes what the threads of a node with these options share.
fn shared_of<J: LogSetting + Ledgers, G: Gate + Drop>(
    alloc: Global,
    cells: GroupCells,
    options: Options,
    catalogue: Catalogue,
    gate: G,
) -> Result<Arc<Shared<J, Global, Global, G>>, AllocError>
    requires options { AreInBounds options }
    requires cells { cells ≡ J.groups }
    requires setting { J.setting ≡ system_setting catalogue options.window }
    ensures { IfOk result (λ shared. (arc_value shared).replicas ≡ options.replicas) }
{
    let log = OrderLog::with_limit(alloc, cells, options.limit)?;
    let replicas = options.replicas as usize;
    let mut shared = Shared::new(alloc, log, catalogue, options.window, gate, replicas)?;
    add_all_replicas(&mut shared, alloc, options)?;
    Ok(Arc::new(alloc, shared)?)
}

/// Starts the threads of a node. Where a thread isn't started, the others that were have ended.
fn start_threads<
    J: LogSetting + Ledgers + Send + Sync + 'static,
    G: Gate + Drop + Send + Sync + 'static,
    R: Threads + Wait + Copy + Send + Sync + 'static,
>(
    rt: &R,
    alloc: Global,
    shared: Arc<Shared<J, Global, Global, G>>,
    tally: Tally<J>,
    options: Options,
) -> Result<Node<J, G>, StartFault>
    requires options { AreInBounds options }
    requires tally { tally ≡ record { threads = THREADS; counts = no_counts } }
    requires replicas { (arc_value shared).replicas ≡ options.replicas }
    ensures started { IfOk result (λ node. node.replicas ≡ options.replicas) }
    ensures fault { IfErr result (IsStartFault options) }
{
    let mut tally = tally;
    let mut crew = Crew::new(alloc);
    let mut senders = Vec::new(alloc);
    let started = start_replicas(
        rt,
        alloc,
        &shared,
        &mut crew,
        &mut senders,
        &mut tally,
        options,
    );
    match started {
        Ok(ended) => Ok(Node {
            desk: Desk {
                shared,
                senders,
                executors: options.executors as usize,
                alloc,
            },
            crew,
            tally,
            ended,
        }),
        Err(fault) => {
            drop(senders);
            crew.end(rt, &shared, &mut tally);
            Err(fault)
        }
    }
}

/// Starts the threads of all replicas. Returns room for the ends of the replicas.
fn start_replicas<
    J: LogSetting + Ledgers + Send + Sync + 'static,
    G: Gate + Drop + Send + Sync + 'static,
    R: Threads + Wait + Copy + Send + Sync + 'static,
>(
    rt: &R,
    alloc: Global,
    shared: &Arc<Shared<J, Global, Global, G>>,
    crew: &mut Crew<J>,
    senders: &mut Vec<Sender<Arc<Calls<J>>>>,
    tally: &mut Tally<J>,
    options: Options,
) -> Result<Vec<EndedReplica<J>>, StartFault>
    requires options { AreInBounds options }
    requires tally { tally.old ≡ record { threads = THREADS; counts = no_counts } }
    requires crew { crew.old.executors ≡ 0 }
    requires none { vec_len senders.old ≡ 0 }
    ensures threads { tally.new.threads + crew.new.executors ≤ THREADS }
    ensures all { OnOk result (tally.new.threads + crew.new.executors ≡ THREADS) }
    ensures nothing { tally.new.counts ≡ no_counts }
    ensures senders { OnOk result (vec_len senders.new ≡ options.replicas) }
    ensures room { IfOk result (λ ended. (vec_len ended ≡ 0) × (options.replicas ≤ vec_capacity ended)) }
    ensures fault { IfErr result IsWant }
{
    let Ok(ended) = Vec::with_capacity(alloc, options.replicas as usize) else {
        return Err(StartFault::NoMemory);
    };
    for place in 0..options.replicas {
        let sender = crew.start_replica(rt, shared, tally, place + 1, options.executors)?;
        if senders.push(sender).is_err() {
            return Err(StartFault::NoMemory);
        }
    }
    Ok(ended)
}
