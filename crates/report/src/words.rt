//! The words and numbers of a line.

ghost use Rattle.std.specs.Prelude.{◌≡◌, ◌≤◌, ◌+◌, ◌++◌, codes, None};
ghost use Rattle.std.specs.Fmt.{decimal};
ghost use Rattle.arrayvec.specs.ArrayVec.{array_vec_len};
ghost use Rattle.byte_output.specs.Column.{right_in};
ghost use Rattle.report.specs.Lines.{program_fault_text, cause_words, step_refusal_words, verdict_words};
ghost use Rattle.report.specs.Lines.{addition_words, snapshot_words, reply_words, added_words, delivered_words};
ghost use Rattle.report.specs.Lines.{certified_words, call_words, replica_words, entry_words, line_words, read_words};
ghost use Rattle.report.specs.Lines.{cancelled_words, answer_words, mark_words};
ghost use Rattle.report.specs.declared.printed.Line.TheVariants as line;

use crate::printed::{CallReport, DeliveredEntry, LoggedEntry, ReplicaReport};
use crate::refusal::step_refusal_number;
use byte_output::line::{LineBuffer, push, push_column, push_right, push_unsigned};
use dsm_model::StepRefusal;
use itoa::Buffer;
use log_model::{Identifier, Verdict};
use node_calls::Answer;
use program_checks::ProgramFault;
use tallies::Counts;

pub(crate) fn push_refused(words: &mut LineBuffer, refusal: StepRefusal)
    requires { array_vec_len words.old ≤ 60 }
    ensures items { words.new.items ≡ words.old.items ++ step_refusal_words refusal }
    ensures len { array_vec_len words.new ≤ 150 }
{
    push_unsigned(words, "refused P", u64::from(step_refusal_number(refusal)));
    push_cause(words, refusal);
}

/// Appends what a refusal says besides its number.
fn push_cause(words: &mut LineBuffer, refusal: StepRefusal)
    requires { array_vec_len words.old ≤ 90 }
    ensures items { words.new.items ≡ words.old.items ++ cause_words refusal }
    ensures len { array_vec_len words.new ≤ array_vec_len words.old + 50 }
{
    match refusal {
        StepRefusal::ArgumentsLimit => push(words, b" args"),
        StepRefusal::ProgramRefused(fault) => {
            push(words, b" ");
            push_program_fault(words, fault);
        }
        _ => {}
    }
}

/// Appends a fault of a program, such as `B1 slot 0` or `V5 slot 6`.
pub fn push_program_fault(words: &mut LineBuffer, fault: ProgramFault)
    requires { array_vec_len words.old ≤ 91 }
    ensures items { words.new.items ≡ words.old.items ++ program_fault_text fault }
    ensures len { array_vec_len words.new ≤ array_vec_len words.old + 49 }
{
    let (letter, number, slot) = match fault {
        ProgramFault::Bytes(fault) => ("B", fault.cause.number(), fault.slot),
        ProgramFault::Instruction { slot, cause } => ("V", cause.number(), slot),
    };
    push_unsigned(words, letter, u64::from(number));
    push_unsigned(words, " slot ", u64::from(slot));
}

pub(crate) fn push_call(words: &mut LineBuffer, report: CallReport)
    requires { array_vec_len words.old ≤ 40 }
    ensures items { words.new.items ≡ words.old.items ++ call_words report }
    ensures len { array_vec_len words.new ≤ 150 }
{
    match report {
        CallReport::More => push(words, b"more"),
        CallReport::Exit { reply } => push_unsigned(words, "exit ", reply),
        CallReport::Stale => push(words, b"stale"),
        CallReport::NoMemory => push(words, b"no memory"),
        CallReport::Ordered { position } => push_unsigned(words, "number ", u64::from(position)),
        CallReport::Read { snapshot, reply } => push_read(words, snapshot, reply),
        CallReport::Cancelled { snapshot, code } => push_cancelled(words, snapshot, code),
        CallReport::Refused(refusal) => push_refused(words, refusal),
    }
}

fn push_read(words: &mut LineBuffer, snapshot: u32, reply: u64)
    requires { array_vec_len words.old ≤ 60 }
    ensures items { words.new.items ≡ words.old.items ++ read_words snapshot reply }
    ensures len { array_vec_len words.new ≤ 150 }
{
    push_unsigned(words, "read ", u64::from(snapshot));
    push_unsigned(words, " reply ", reply);
}

fn push_cancelled(words: &mut LineBuffer, snapshot: u32, code: u64)
    requires { array_vec_len words.old ≤ 60 }
    ensures items { words.new.items ≡ words.old.items ++ cancelled_words snapshot code }
    ensures len { array_vec_len words.new ≤ 150 }
{
    push_unsigned(words, "cancelled ", u64::from(snapshot));
    push_unsigned(words, " code ", code);
}

pub(crate) fn push_answer(words: &mut LineBuffer, answer: Answer)
    requires { array_vec_len words.old ≤ 40 }
    ensures items { words.new.items ≡ words.old.items ++ answer_words answer }
    ensures len { array_vec_len words.new ≤ 150 }
{
    match answer {
        Answer::Committed { position, reply } => {
            push_unsigned(words, "committed ", u64::from(position));
            push_unsigned(words, " reply ", reply);
        }
        Answer::Read { snapshot, reply } => push_read(words, snapshot, reply),
        Answer::Cancelled { snapshot, code } => push_cancelled(words, snapshot, code),
        Answer::Conflict { position, other } => {
            push_unsigned(words, "conflict ", u64::from(position));
            push_unsigned(words, " ", u64::from(other));
        }
        Answer::Stale => push(words, b"stale"),
        Answer::Repeated {
            position,
            earlier,
            reply,
        } => {
            push_unsigned(words, "repeat ", u64::from(position));
            push_unsigned(words, " ", u64::from(earlier));
            push_unsigned(words, " reply ", reply);
        }
        Answer::NoMemory => push(words, b"no memory"),
        Answer::Full => push(words, b"full"),
        Answer::Stopped { position } => push_unsigned(words, "stopped ", u64::from(position)),
        Answer::Behind => push(words, b"behind"),
        Answer::NoReplica => push_refused(words, StepRefusal::NoReplica),
        Answer::Refused(refusal) => push_refused(words, StepRefusal::from(refusal)),
    }
}

fn push_verdict(words: &mut LineBuffer, verdict: Verdict)
    requires { array_vec_len words.old ≤ 120 }
    ensures items { words.new.items ≡ words.old.items ++ verdict_words verdict }
    ensures len { array_vec_len words.new ≤ array_vec_len words.old + 30 }
{
    match verdict {
        Verdict::Commit => push(words, b"commit"),
        Verdict::Conflict(position) => push_unsigned(words, "conflict ", u64::from(position)),
        Verdict::Stale => push(words, b"stale"),
        Verdict::Repeated(position) => push_unsigned(words, "repeat ", u64::from(position)),
        Verdict::Taken(Identifier::Name) => push(words, b"taken C1"),
        Verdict::Taken(Identifier::Number) => push(words, b"taken C2"),
    }
}

fn push_addition(words: &mut LineBuffer, verdict: Verdict)
    requires { array_vec_len words.old ≤ 120 }
    ensures items { words.new.items ≡ words.old.items ++ addition_words verdict }
    ensures len { array_vec_len words.new ≤ array_vec_len words.old + 30 }
{
    match verdict {
        Verdict::Commit => push(words, b"added"),
        _ => push_verdict(words, verdict),
    }
}

fn push_reply(words: &mut LineBuffer, reply: Option<u64>)
    requires { array_vec_len words.old ≤ 120 }
    ensures items { words.new.items ≡ words.old.items ++ reply_words reply }
    ensures len { array_vec_len words.new ≤ array_vec_len words.old + 30 }
{
    if let Some(reply) = reply {
        push_unsigned(words, " reply ", reply);
    }
}

/// Appends the procedure of an addition, where the addition commits.
fn push_added(words: &mut LineBuffer, verdict: Verdict, procedure: u16)
    requires { array_vec_len words.old ≤ 120 }
    ensures items { words.new.items ≡ words.old.items ++ added_words verdict procedure }
    ensures len { array_vec_len words.new ≤ array_vec_len words.old + 30 }
{
    if matches!(verdict, Verdict::Commit) {
        push_unsigned(words, " ", u64::from(procedure));
    }
}

fn push_delivered(words: &mut LineBuffer, verdict: Verdict, entry: DeliveredEntry)
    requires { array_vec_len words.old ≤ 90 }
    ensures items { words.new.items ≡ words.old.items ++ delivered_words verdict entry }
    ensures len { array_vec_len words.new ≤ 150 }
{
    match entry {
        DeliveredEntry::Call { reply } => {
            push_verdict(words, verdict);
            push_reply(words, reply);
        }
        DeliveredEntry::Addition { procedure } => {
            push_addition(words, verdict);
            push_added(words, verdict, procedure);
        }
    }
}

/// Appends the verdict on a call of this snapshot, or on an addition, which has none.
fn push_certified(words: &mut LineBuffer, snapshot: Option<u32>, verdict: Verdict)
    requires { array_vec_len words.old ≤ 120 }
    ensures items { words.new.items ≡ words.old.items ++ certified_words snapshot verdict }
    ensures len { array_vec_len words.new ≤ array_vec_len words.old + 30 }
{
    match snapshot {
        Some(_) => push_verdict(words, verdict),
        None => push_addition(words, verdict),
    }
}

pub(crate) fn push_replica(words: &mut LineBuffer, report: ReplicaReport)
    requires { array_vec_len words.old ≤ 40 }
    ensures items { words.new.items ≡ words.old.items ++ replica_words report }
    ensures len { array_vec_len words.new ≤ 150 }
{
    match report {
        ReplicaReport::Delivered {
            position,
            verdict,
            entry,
        } => {
            push_unsigned(words, "number ", u64::from(position));
            push(words, b" ");
            push_delivered(words, verdict, entry);
        }
        ReplicaReport::Rebuilt { position } => push_unsigned(
            words,
            "rebuilt ",
            u64::from(position),
        ),
        ReplicaReport::Rows { position, rows } => {
            push_unsigned(words, "position ", u64::from(position));
            push(words, b" rows ");
            push(words, Buffer::new().format(rows).as_bytes());
        }
        ReplicaReport::Ended {
            position,
            commits,
            is_stopped,
        } => {
            push_unsigned(words, "position ", u64::from(position));
            push_unsigned(words, " commits ", u64::from(commits));
            push(words, b" ");
            push_mark(words, is_stopped);
        }
        ReplicaReport::Refused(refusal) => push_refused(words, refusal),
    }
}

fn push_mark(words: &mut LineBuffer, is_stopped: bool)
    requires { array_vec_len words.old ≤ 120 }
    ensures items { words.new.items ≡ words.old.items ++ mark_words is_stopped }
    ensures len { array_vec_len words.new ≤ array_vec_len words.old + 7 }
{
    if is_stopped {
        push(words, b"stopped");
    } else {
        push(words, b"running");
    }
}

/// Appends the columns that an entry of the log has in any case.
fn push_entry(words: &mut LineBuffer, entry: LoggedEntry)
    requires { array_vec_len words.old ≤ 0 }
    ensures items { words.new.items ≡ words.old.items ++ entry_words entry }
    ensures len { array_vec_len words.new ≤ 84 }
{
    push_column(words, 7, u64::from(entry.position));
    push(words, b" ");
    push_column(words, 5, u64::from(entry.procedure));
    push(words, b" ");
    push_snapshot(words, entry.snapshot);
    push(words, b" ");
    push_column(words, 5, entry.writes as u64);
    push(words, b" ");
}

fn push_snapshot(words: &mut LineBuffer, snapshot: Option<u32>)
    requires { array_vec_len words.old ≤ 100 }
    ensures items { words.new.items ≡ words.old.items ++ right_in 7 (snapshot_words snapshot) }
    ensures len { array_vec_len words.new ≤ array_vec_len words.old + 20 }
{
    match snapshot {
        Some(snapshot) => push_column(words, 7, u64::from(snapshot)),
        None => push_right(words, 7, b"-"),
    }
}

#[tactic(auto, unfolding(crate::specs::Lines::line_words))]
pub(crate) fn begun(call: u32, replica: u32, snapshot: u32) -> LineBuffer
    ensures items { result.items ≡ line_words (line.Begun call replica snapshot) }
    ensures len { array_vec_len result ≤ 150 }
{
    let mut words = LineBuffer::new();
    push_unsigned(&mut words, "call ", u64::from(call));
    push_unsigned(&mut words, " replica ", u64::from(replica));
    push_unsigned(&mut words, " snapshot ", u64::from(snapshot));
    words
}

#[tactic(auto, unfolding(crate::specs::Lines::line_words))]
pub(crate) fn begin_refused(refusal: StepRefusal) -> LineBuffer
    ensures items { result.items ≡ line_words (line.BeginRefused refusal) }
    ensures len { array_vec_len result ≤ 150 }
{
    let mut words = LineBuffer::new();
    push(&mut words, b"begin ");
    push_refused(&mut words, refusal);
    words
}

#[tactic(auto, unfolding(crate::specs::Lines::line_words))]
pub(crate) fn added(position: u32) -> LineBuffer
    ensures items { result.items ≡ line_words (line.Added position) }
    ensures len { array_vec_len result ≤ 150 }
{
    let mut words = LineBuffer::new();
    push_unsigned(&mut words, "add number ", u64::from(position));
    words
}

#[tactic(auto, unfolding(crate::specs::Lines::line_words))]
pub(crate) fn add_refused(refusal: StepRefusal) -> LineBuffer
    ensures items { result.items ≡ line_words (line.AddRefused refusal) }
    ensures len { array_vec_len result ≤ 150 }
{
    let mut words = LineBuffer::new();
    push(&mut words, b"add ");
    push_refused(&mut words, refusal);
    words
}

#[tactic(auto, unfolding(crate::specs::Lines::line_words))]
pub(crate) fn call(number: u32, report: CallReport) -> LineBuffer
    ensures items { result.items ≡ line_words (line.Call number report) }
    ensures len { array_vec_len result ≤ 150 }
{
    let mut words = LineBuffer::new();
    push_unsigned(&mut words, "call ", u64::from(number));
    push(&mut words, b" ");
    push_call(&mut words, report);
    words
}

#[tactic(auto, unfolding(crate::specs::Lines::line_words))]
pub(crate) fn replica(number: u32, report: ReplicaReport) -> LineBuffer
    ensures items { result.items ≡ line_words (line.Replica number report) }
    ensures len { array_vec_len result ≤ 150 }
{
    let mut words = LineBuffer::new();
    push_unsigned(&mut words, "replica ", u64::from(number));
    push(&mut words, b" ");
    push_replica(&mut words, report);
    words
}

#[tactic(auto, unfolding(crate::specs::Lines::line_words))]
pub(crate) fn certified(entry: LoggedEntry, compared: u64, verdict: Verdict) -> LineBuffer
    ensures items { result.items ≡ line_words (line.Certified entry compared verdict) }
    ensures len { array_vec_len result ≤ 150 }
{
    let mut words = LineBuffer::new();
    push_entry(&mut words, entry);
    push_column(&mut words, 5, compared);
    push(&mut words, b" ");
    push_certified(&mut words, entry.snapshot, verdict);
    words
}

#[tactic(auto, unfolding(crate::specs::Lines::line_words))]
pub(crate) fn open(entry: LoggedEntry) -> LineBuffer
    ensures items { result.items ≡ line_words (line.Open entry) }
    ensures len { array_vec_len result ≤ 150 }
{
    let mut words = LineBuffer::new();
    push_entry(&mut words, entry);
    push_right(&mut words, 5, b"-");
    push(&mut words, b" open");
    words
}

#[tactic(auto, unfolding(crate::specs::Lines::line_words))]
pub(crate) fn log(entries: u32) -> LineBuffer
    ensures items { result.items ≡ line_words (line.Log entries) }
    ensures len { array_vec_len result ≤ 150 }
{
    let mut words = LineBuffer::new();
    push_unsigned(&mut words, "log ", u64::from(entries));
    words
}

#[tactic(auto, unfolding(crate::specs::Lines::line_words))]
pub(crate) fn no_entry(position: u32) -> LineBuffer
    ensures items { result.items ≡ line_words (line.Entry position None) }
    ensures len { array_vec_len result ≤ 150 }
{
    let mut words = LineBuffer::new();
    push_unsigned(&mut words, "entry ", u64::from(position));
    push(&mut words, b" none");
    words
}

#[tactic(auto, unfolding(crate::specs::Lines::line_words))]
pub(crate) fn answered(call: u64, answer: Answer) -> LineBuffer
    ensures items { result.items ≡ line_words (line.Answered call answer) }
    ensures len { array_vec_len result ≤ 150 }
{
    let mut words = LineBuffer::new();
    push_unsigned(&mut words, "call ", call);
    push(&mut words, b" ");
    push_answer(&mut words, answer);
    words
}

#[tactic(auto, unfolding(crate::specs::Lines::line_words))]
pub(crate) fn agreement(agrees: bool) -> LineBuffer
    ensures items { result.items ≡ line_words (line.Agreement agrees) }
    ensures len { array_vec_len result ≤ 150 }
{
    let mut words = LineBuffer::new();
    push(&mut words, b"agreement ");
    if agrees {
        push(&mut words, b"yes");
    } else {
        push(&mut words, b"no");
    }
    words
}

/// The first half of the line of totals.
pub(crate) fn first_totals(counts: Counts) -> LineBuffer
    ensures items { result.items ≡ codes "total committed " ++ decimal counts.committed ++ codes " read "
        ++ decimal counts.read
        ++ codes " cancelled " ++ decimal counts.cancelled ++ codes " conflict " ++ decimal counts.conflict }
    ensures len { array_vec_len result ≤ 130 }
{
    let mut words = LineBuffer::new();
    push_unsigned(&mut words, "total committed ", counts.committed);
    push_unsigned(&mut words, " read ", counts.read);
    push_unsigned(&mut words, " cancelled ", counts.cancelled);
    push_unsigned(&mut words, " conflict ", counts.conflict);
    words
}

/// The rest of the line of totals.
pub(crate) fn other_totals(counts: Counts) -> LineBuffer
    ensures items { result.items ≡ codes " stale " ++ decimal counts.stale ++ codes " repeat "
        ++ decimal counts.repeated
        ++ codes " other " ++ decimal counts.other ++ codes "\n" }
    ensures len { array_vec_len result ≤ 130 }
{
    let mut words = LineBuffer::new();
    push_unsigned(&mut words, " stale ", counts.stale);
    push_unsigned(&mut words, " repeat ", counts.repeated);
    push_unsigned(&mut words, " other ", counts.other);
    push(&mut words, b"\n");
    words
}
