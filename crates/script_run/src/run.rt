//! The run of a script on a node.

ghost use Rattle.std.specs.Prelude.{◌≡◌, ◌⊎◌, ◌<◌, ◌^◌, IfOk, IfSome, false, vec_len};
ghost use Rattle.byte_output.specs.Writes.{WritesText};
ghost use Rattle.byte_output.specs.declared.status.TheConstants.{FAILED};
ghost use Rattle.tallies.specs.Tallies.{names_by_place};
ghost use Rattle.script_run.specs.Reading.{said_by};
ghost use Rattle.script_run.specs.Answered.{AreToldOf};
ghost use Rattle.script_run.specs.Planned.{planned_calls};
ghost use Rattle.script_run.specs.Printed.{IsReportOf, IsRun, PrintsNoMore, PrintsReport, PrintsRun, SaysFault};
ghost use Rattle.script_run.specs.Printed.{report_of, run_text};
ghost use Rattle.catalogue.specs.Catalogue.{system_setting};

use crate::answers::{answers_of, ends_of};
use crate::asking::Asking;
use crate::call::ScriptCall;
use crate::call_script::{CallScript, read_script};
use crate::text::{ReplicaEnd, text_of};
use byte_output::{FAILED, put};
use catalogue::Catalogue;
use locked_replica::LogSetting;
use node::{Desk, Node, Options, StartFault};
use node_calls::{Answer, OpenGate};
use order_log::{GroupCells, Seen};
use row_sets::Bytes;
use script::{Stop, out_of_memory, tell};
use std::alloc::{AllocError, Global};
use std::io;
use std::io::{BufRead, Write};
use std::marker::Brand;
use std::sync::Wait;
use std::thread::Threads;
use tallies::{Blanks, Counts, Ledgers};

/// A cause for which a run ends before it has printed anything.
#[derive(Clone, Copy, Drop)]
enum Failure {
    NoMemory,
    Start(StartFault),
}

/// The report of a run.
#[derive(Drop)]
struct Report {
    answers: Vec<Answer>,
    totals: Counts,
    replicas: Vec<ReplicaEnd>,
    agrees: bool,
}

/// The options of a script's run.
#[derive(Clone, Copy, Debug, PartialEq, Eq)]
pub struct RunOptions {
    /// The number of threads that run the calls of each replica, 1 to 16.
    pub executors: u32,
    /// The most entries of the log, 1 to 1,048,576.
    pub log_limit: u32,
    /// True where the writer for faults is told how many calls of a long script were made so far.
    pub shows_progress: bool,
}

/// Runs the script in the input on a node. Reads the script whole, makes its calls, and prints the answer to each, and
/// the end of the node. The exit status is 0 where all was done, and 1 where a line is at fault. The status is 3 where
/// memory, a stream or a thread failed.
pub fn run_over<R: Threads + Wait + Copy + Send + Sync + 'static, I: BufRead, W: Write, E: Write>(
    rt: &R,
    alloc: Global,
    input: &mut I,
    output: &mut W,
    faults: &mut E,
    options: RunOptions,
) -> u8
    ensures range { ((result ≡ 0) ⊎ (result ≡ 1)) ⊎ (result ≡ FAILED) }
    // An answer to each call of the script, and how the node has ended, all of it true of one log.
    ensures done { result ≡ 0 → IfSome (I.remaining input.old)
        (λ bytes. PrintsRun bytes (W.contents output.old) (W.contents output.new)) }
    // The script's first fault, or as much of its line as the writer takes. Nothing was run.
    ensures fault { result ≡ 1 → IfSome (I.remaining input.old)
        (λ bytes. SaysFault bytes (E.contents faults.old) (E.contents faults.new)) }
    ensures untouched { result ≡ 1 → output.new ≡ output.old }
    // Nothing is said where all was done, unless progress is to be shown.
    ensures silent { result ≡ 0 → options.shows_progress ≡ false → faults.new ≡ faults.old }
    // Something failed: nothing was written, or a beginning of what a run of the script prints.
    ensures failed { result ≡ FAILED → PrintsNoMore (I.remaining input.old) (W.contents output.old)
        (W.contents output.new) }
{
    let script = match read_script(alloc, input) {
        Ok(script) => script,
        Err(stop) => return tell(faults, stop),
    };
    let report = match run_script(rt, alloc, script, faults, options) {
        Ok(report) => report,
        Err(Failure::NoMemory) => return tell(faults, out_of_memory(0)),
        Err(Failure::Start(fault)) => {
            let _ = writeln!(faults, "dsmdb: {}", start_fault_text(fault));
            return FAILED;
        }
    };
    match print(alloc, output, &report) {
        Ok(()) => 0,
        Err(stop) => tell(faults, stop),
    }
}

/// Prints the report of a run.
fn print<W: Write>(alloc: Global, output: &mut W, report: &Report) -> Result<(), Stop>
    requires { vec_len report.now.replicas < 2 ^ 32 }
    ensures { PrintsReport (W.contents output.old) (W.contents output.new) (run_text (report_of report.now)) result }
{
    let text = text_of(
        alloc,
        &report.answers,
        report.totals,
        &report.replicas,
        report.agrees,
    );
    let Ok(text) = text else {
        return Err(out_of_memory(0));
    };
    match put_out(output, &text) {
        Ok(()) => Ok(()),
        Err(error) => Err(Stop::Output(error)),
    }
}

/// Writes a text, and flushes the output.
fn put_out<W: Write>(output: &mut W, text: &[u8]) -> io::Result<()>
    ensures { WritesText (W.contents output.old) (W.contents output.new) result text.now }
{
    put(output, text)?;
    output.flush()
}

/// Makes a node for a script, and runs it there.
fn run_script<R: Threads + Wait + Copy + Send + Sync + 'static, E: Write>(
    rt: &R,
    alloc: Global,
    script: CallScript,
    faults: &mut E,
    options: RunOptions,
) -> Result<Report, Failure>
    ensures report { IfOk result (λ report. IsReportOf (said_by script) (report_of report)) }
    ensures few { IfOk result (λ report. vec_len report.replicas < 2 ^ 32) }
    ensures silent { options.shows_progress ≡ false → faults.new ≡ faults.old }
{
    let CallScript {
        window,
        replicas,
        catalogue,
        calls,
    } = script;
    let Ok(cells) = GroupCells::new(alloc) else {
        return Err(Failure::Start(StartFault::NoMemory));
    };
    let node_options = Options {
        replicas,
        executors: options.executors,
        window,
        limit: options.log_limit,
    };
    let blanks = Blanks::new();
    run_on_node::<Brand, R, E>(
        rt,
        alloc,
        cells,
        blanks,
        node_options,
        catalogue,
        calls,
        faults,
        options.shows_progress,
    )
}

/// Starts a node, has its calls made, and ends it.
fn run_on_node<
    J: LogSetting + Ledgers + Send + Sync + 'static,
    R: Threads + Wait + Copy + Send + Sync + 'static,
    E: Write,
>(
    rt: &R,
    alloc: Global,
    cells: GroupCells,
    blanks: Blanks,
    options: Options,
    catalogue: Catalogue,
    calls: Vec<ScriptCall<Bytes<Global>>>,
    faults: &mut E,
    shows_progress: bool,
) -> Result<Report, Failure>
    requires cells { cells ≡ J.groups }
    requires ledgers { J.names ≡ names_by_place blanks }
    requires setting { J.setting ≡ system_setting catalogue options.window }
    ensures run { IfOk result (λ report. IsRun J.setting options.replicas calls.items (report_of report)) }
    ensures silent { shows_progress ≡ false → faults.new ≡ faults.old }
{
    let Ok(asking) = Asking::<J>::new(alloc, &catalogue, options.replicas, calls) else {
        return Err(Failure::NoMemory);
    };
    let started = Node::<J, OpenGate>::start_with(
        rt, alloc, cells, blanks, options, catalogue, OpenGate,
    );
    let node = match started {
        Ok(node) => node,
        Err(fault) => return Err(Failure::Start(fault)),
    };
    let answered = ask(
        rt,
        alloc,
        node.desk(),
        &asking,
        options.executors,
        faults,
        shows_progress,
    );
    let finish = node.finish(rt);
    let mut totals = finish.totals;
    totals.other = totals.other.saturating_add(asking.unnamed());
    let Ok((answers, mut log)) = answered else {
        return Err(Failure::NoMemory);
    };
    let Ok(replicas) = ends_of(alloc, &mut log, &finish.replicas) else {
        return Err(Failure::NoMemory);
    };
    Ok(Report {
        answers,
        totals,
        replicas,
        agrees: finish.agreement,
    })
}

/// Makes the calls at a node. Returns the answer to each, and the longest beginning of the log that a caller had seen.
fn ask<J: LogSetting + Ledgers + Send + Sync + 'static, R: Threads + Wait + Sync, E: Write>(
    rt: &R,
    alloc: Global,
    desk: &Desk<J, OpenGate>,
    asking: &Asking<J>,
    executors: u32,
    faults: &mut E,
    shows_progress: bool,
) -> Result<(Vec<Answer>, Seen<J>), AllocError>
    ensures len { IfOk result (λ r. vec_len r.0 ≡ vec_len asking.now.calls) }
    ensures told { IfOk result (λ r. AreToldOf J.setting desk.now.replicas r.1
        (planned_calls asking.now.calls.items) r.0.items) }
    ensures silent { shows_progress ≡ false → faults.new ≡ faults.old }
{
    let shares = asking.ask_all(rt, alloc, desk, executors, faults, shows_progress)?;
    answers_of(rt, alloc, desk, asking, shares)
}

/// Returns the text of the cause for which a node didn't start.
fn start_fault_text(fault: StartFault) -> &'static str {
    match fault {
        StartFault::Replicas => "N1: replicas outside 1 to 8",
        StartFault::Executors => "N2: executing threads outside 1 to 16",
        StartFault::Window => "N3: window outside 1 to 4096",
        StartFault::NoMemory => "N4: out of memory",
        StartFault::NoThread => "N5: a thread wasn't started",
        StartFault::Limit => "N6: limit of the log outside 1 to 1048576",
    }
}
