//! The text that a run prints.

ghost use Rattle.std.specs.Prelude.{◌≡◌, IfOk, OnOk, ◌++◌, ◌<◌, ◌^◌, length};
ghost use Rattle.report.specs.Lines.{line_text};
ghost use Rattle.script_run.specs.Printed.{answers_text, replicas_text, run_text};

use node_calls::Answer;
use report::{Line, ReplicaReport, line};
use std::alloc::{AllocError, Global};
use tallies::Counts;

/// The end of a replica.
#[derive(Clone, Copy)]
pub struct ReplicaEnd {
    pub position: u32,
    pub commits: u32,
    pub is_stopped: bool,
}

/// Adds a line to a text.
fn add(alloc: Global, text: &mut Vec<u8>, printed: &Line<'_>) -> Result<(), AllocError>
    ensures { OnOk result (text.new.items ≡ text.old.items ++ line_text printed.now) }
{
    let words = line(alloc, printed)?;
    text.extend_from_slice(&words)
}

/// Adds a line for each answer, in the order of the script's calls.
fn add_answers(alloc: Global, text: &mut Vec<u8>, answers: &[Answer]) -> Result<(), AllocError>
    ensures { OnOk result (text.new.items ≡ text.old.items ++ answers_text 0 answers.now) }
{
    let mut before = 0u64;
    let mut rest = answers;
    while let Some((answer, others)) = rest.split_first() {
        let answered = Line::Answered {
            call: before + 1,
            answer: *answer,
        };
        add(alloc, text, &answered)?;
        before += 1;
        rest = others;
    }
    Ok(())
}

/// Adds a line for each replica.
fn add_replicas(
    alloc: Global,
    text: &mut Vec<u8>,
    replicas: &[ReplicaEnd],
) -> Result<(), AllocError>
    requires { length replicas.now < 2 ^ 32 }
    ensures { OnOk result (text.new.items ≡ text.old.items ++ replicas_text 0 replicas.now) }
{
    let mut before = 0u32;
    let mut rest = replicas;
    while let Some((end, others)) = rest.split_first() {
        let ended = Line::Replica {
            replica: before + 1,
            report: ReplicaReport::Ended {
                position: end.position,
                commits: end.commits,
                is_stopped: end.is_stopped,
            },
        };
        add(alloc, text, &ended)?;
        before += 1;
        rest = others;
    }
    Ok(())
}

/// The whole text that is printed: the answer to each call, in the order of the script, and the end of the node.
pub(crate) fn text_of(
    alloc: Global,
    answers: &[Answer],
    totals: Counts,
    replicas: &[ReplicaEnd],
    agrees: bool,
) -> Result<Vec<u8>, AllocError>
    requires { length replicas.now < 2 ^ 32 }
    ensures { IfOk result (λ text. text.items ≡ run_text (record {
      answers = answers.now;
      totals = totals;
      replicas = replicas.now;
      agrees = agrees;
    })) }
{
    let mut text = Vec::new(alloc);
    add_answers(alloc, &mut text, answers)?;
    add(alloc, &mut text, &Line::Totals(totals))?;
    add_replicas(alloc, &mut text, replicas)?;
    add(alloc, &mut text, &Line::Agreement { agrees })?;
    Ok(text)
}
