//! The report of a replay on an item.

ghost use Rattle.std.specs.Prelude.{◌≡◌};
ghost use Rattle.std.specs.FinMap.{empty, entries};
ghost use Rattle.log_model.specs.Log.{or_idle};
ghost use Rattle.plain_replayer.specs.Report.{report_by_run, report_of_addition};

use log_model::{RequestId, Verdict};
use plain_runner::{CompletedRun, Write};
use schema::Look;
use std::alloc::{Allocator, Global};
use std::marker::Model;

/// The report of a replay on an item. Contracts see a record.
#[derive(Drop)]
pub struct ItemReport<A: Allocator = Global> {
    request: Option<RequestId>,
    run: Option<CompletedRun<A>>,
    verdict: Verdict,
    comparisons: Vec<u32, A>,
    told: Option<u64>,
}

impl<A: Allocator> Model for ItemReport<A> {
    ghost use Rattle.plain_replayer.specs.Report.{Report, report_by_run};
    ghost use Rattle.plain_replayer.specs.LogCodes.{report_code};

    ghost Value = { Report };

    ghost coded = { report_code };

    ghost view = { λ report. report_by_run report.request report.run report.verdict
        report.comparisons.items report.told };
}

impl<A: Allocator> ItemReport<A> {
    /// Makes the report on a call with a request and a run, or with no run. The caller is told the reply `told`.
    pub fn of_call(
        request: Option<RequestId>,
        run: Option<CompletedRun<A>>,
        verdict: Verdict,
        comparisons: Vec<u32, A>,
        told: Option<u64>,
    ) -> ItemReport<A>
        ensures { result ≡ report_by_run request run verdict comparisons.items told }
    {
        ItemReport {
            request,
            run,
            verdict,
            comparisons,
            told,
        }
    }

    /// Makes the report on an addition: its verdict alone. Takes no memory.
    pub fn of_addition(alloc: A, verdict: Verdict) -> ItemReport<A>
        ensures { result ≡ report_of_addition verdict }
    {
        ItemReport {
            request: None,
            run: None,
            verdict,
            comparisons: Vec::new(alloc),
            told: None,
        }
    }

    /// The request that the call carried.
    pub fn request(&self) -> Option<RequestId>
        ensures { result ≡ self.now.request }
    {
        self.request
    }

    /// Returns the reply of the call's run, where it ran: on the rows of its snapshot.
    pub fn reply(&self) -> u64
        ensures { result ≡ self.now.reply }
    {
        reply_of(&self.run)
    }

    /// The reply that the call's caller is told: its own where it commits. Where it is repeated, the reply is that of
    /// the earlier call.
    pub fn told_reply(&self) -> Option<u64>
        ensures { result ≡ self.now.told }
    {
        self.told
    }

    /// Returns the looks of the call's run, in order, repeats kept.
    pub fn looks(&self) -> &[Look]
        ensures { result.now ≡ self.now.looks }
    {
        looks_of(&self.run)
    }

    /// Returns the writes of the call's run, in the order of tables and keys, be they installed or not.
    pub fn writes(&self) -> &[Write<A>]
        ensures { result.now ≡ entries self.now.writes }
    {
        match &self.run {
            Some(run) => run.writes(),
            None => &[],
        }
    }

    /// The verdict on the item.
    pub fn verdict(&self) -> Verdict
        ensures { result ≡ self.now.verdict }
    {
        self.verdict
    }

    /// The positions of the items with which the verdict compares the call key by key, in rising order.
    pub fn comparisons(&self) -> &[u32]
        ensures { result.now ≡ self.now.comparisons }
    {
        &self.comparisons
    }
}

/// Returns the looks of a run, where there is one.
pub fn looks_of<A: Allocator>(run: &Option<CompletedRun<A>>) -> &[Look]
    ensures { result.now ≡ (or_idle empty run.now).looks }
{
    match run {
        Some(run) => run.looks(),
        None => &[],
    }
}

/// Returns the reply of a run, where there is one.
pub fn reply_of<A: Allocator>(run: &Option<CompletedRun<A>>) -> u64
    ensures { result ≡ (or_idle empty run.now).reply }
{
    match run {
        Some(run) => run.reply(),
        None => 0,
    }
}
