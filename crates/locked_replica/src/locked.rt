//! A replica beside what was delivered to it.

ghost use Rattle.std.specs.Prelude.{◌≡◌, ◌-◌, ◌<◌, ◌≤◌, ℕ, [], length, nat_lt, false, IfOk, IsFalse, IsTrue, Some};
ghost use Rattle.std.specs.Prelude.{cond, slice_get, ◌+◌};
ghost use Rattle.schema.specs.declared.limits.TheConstants.{MAX_LOG};
ghost use Rattle.schema.specs.Schema.{AreTables};
ghost use Rattle.rows_mv.specs.Versions.{AnswersFrom};
ghost use Rattle.log_model.specs.Log.{is_commit, procedures_after, rows_after, verdict_of};
ghost use Rattle.log_model.specs.Entries.{items_of};
ghost use Rattle.catalogue.specs.Stored.{AreForTables, stored_procedures};
ghost use Rattle.replica.specs.Replica.{AreEntriesOf, entries_of};
ghost use Rattle.certify.specs.declared.certification.Certification.{Certification};
ghost use Rattle.locked_replica.specs.Begin.{Begins};
ghost use Rattle.locked_replica.specs.Commits.{commits_of};
ghost use Rattle.locked_replica.specs.Locked.{Delivers, Finds};
ghost use Rattle.catalogue.specs.Catalogue.{system_setting};

use crate::answers::{Delivery, Found};
use crate::begin::Begin;
use crate::begun::BegunCall;
use crate::fact::{LogSetting, OrderedEntries};
use crate::laws::beginnings_say_the_same;
use crate::ordered_laws::entries_with_facts_are_a_logs;
use catalogue::{Catalogue, StoredProcedures, catalogues_are_safe, each_catalogue_is_consistent};
use log_model::{RequestId, Verdict, each_call_has_a_verdict, entries_suffice};
use order_log::{OrderLog, Seen};
use replica::{At, Replica, replicas_follow_the_log, tables_take_the_schemas_writes};
use std::alloc::{AllocError, Allocator, Global};
use std::marker::Model;
use std::mem;
use txn_view::Store;

/// Returns 1 for an entry that committed, and 0 for another.
fn commits_of_one(verdict: Verdict) -> u32
    ensures one { result ≡ cond (is_commit verdict) 1 0 }
    ensures few { result ≤ 1 }
{
    match verdict {
        Verdict::Commit => 1,
        _ => 0,
    }
}

/// A replica beside what was delivered to it. Contracts see both. Each value of the type stands for what was delivered,
/// so that the same holds wherever a lock that guards the value is free.
#[derive(Drop)]
pub struct LockedReplica<J: LogSetting, A: Allocator + Copy = Global, P: Allocator + Copy = A> {
    replica: Replica<A, P>,
    seen: Seen<J, P>,
}

impl<J: LogSetting, A: Allocator + Copy, P: Allocator + Copy> Model for LockedReplica<J, A, P> {
    ghost use Rattle.locked_replica.specs.Locked.{LockedState, locked_code, Keeps};

    ghost Value = { LockedState P };

    ghost coded = { locked_code };

    ghost view = { λ l. record { replica = l.replica; entries = l.seen } };

    ghost invariant = { λ l. Keeps J.setting (record { replica = l.replica; entries = l.seen }) };
}

impl<J: LogSetting, A: Allocator + Copy, P: Allocator + Copy> LockedReplica<J, A, P> {
    /// A replica to which nothing was delivered.
    pub fn new(
        alloc: A,
        window: u32,
        catalogue: &Catalogue<P>,
    ) -> Result<LockedReplica<J, A, P>, AllocError>
        requires { J.setting ≡ system_setting catalogue.now window }
        ensures entries { IfOk result (λ l. l.entries ≡ []) }
        ensures running { IfOk result (λ l. l.replica.stopped ≡ false) }
    {
        catalogues_are_safe(catalogue);
        each_catalogue_is_consistent(catalogue);
        Ok(LockedReplica {
            replica: Replica::new(alloc, window, catalogue)?,
            seen: Seen::new(),
        })
    }

    /// Returns the number of entries that were delivered.
    pub fn position(&self) -> u32
        ensures position { result ≡ length self.now.entries }
        ensures few { length self.now.entries ≤ MAX_LOG }
    {
        self.seen.len()
    }

    /// Tells whether the replica delivers no more.
    pub fn stopped(&self) -> bool
        ensures { result ≡ self.now.replica.stopped }
    {
        self.replica.stopped()
    }

    /// Returns what was delivered.
    pub fn seen(&self) -> Seen<J, P>
        ensures { result ≡ self.now.entries }
    {
        self.seen.again()
    }

    /// The replica's procedures, after what was delivered.
    pub fn procedures(&self) -> &StoredProcedures<A, P>
        ensures procedures { result.now ≡ self.now.replica.procedures }
        ensures log { stored_procedures result.now
            ≡ procedures_after J.setting (items_of (entries_of self.now.entries)) (length self.now.entries) }
        ensures for_tables { AreForTables J.setting.tables result.now }
    {
        // Laws:
        replicas_follow_the_log();
        self.replica.procedures()
    }

    /// Delivers the next entry that the log shows, unless the replica has stopped.
    pub fn deliver(&mut self, log: &OrderLog<J, OrderedEntries<J>, P>) -> Delivery
        ensures { Delivers J.setting self.old result self.new }
    {
        if self.replica.stopped() {
            return Delivery::Stopped;
        }
        // Laws:
        entries_with_facts_are_a_logs::<P>();
        tables_take_the_schemas_writes();
        let mut seen = self.seen.again();
        let Some(entry) = log.get(&mut seen) else {
            return Delivery::Nothing;
        };
        match self.replica.deliver(entry) {
            Ok(verdict) => {
                self.seen = seen;
                Delivery::Delivered(verdict)
            }
            Err(_) => Delivery::Stopped,
        }
    }

    /// The rows after what a call has seen, whatever was delivered since. The rows are gone where more entries than the
    /// window were delivered since.
    pub fn at<'a>(&'a self, seen: &Seen<J, P>) -> At<'a, A>
        requires { length seen.now ≤ length self.now.entries }
        ensures answers { ⟦<At<'a, A> as Store>⟧.answers_from result
            (rows_after J.setting (items_of (entries_of seen.now)) (length seen.now)) }
        ensures gone { ⟦<At<'a, A> as Store>⟧.is_gone result
            ≡ nat_lt J.setting.window (length self.now.entries - length seen.now) }
    {
        // Laws:
        beginnings_say_the_same::<P>();
        entries_suffice();
        seen.agrees(&self.seen);
        self.replica.at(seen.len())
    }

    /// Begins a call of a procedure, unless fewer entries than `least` were delivered. The call sees what was
    /// delivered.
    pub fn begin(
        &self,
        least: u32,
        procedure: u16,
        args: &[u8],
        request: Option<RequestId>,
    ) -> Result<Begin<J, P>, AllocError>
        ensures { IfOk result (λ begin. Begins J.setting self.now least procedure args.now request begin) }
    {
        if self.position() < least {
            return Ok(Begin::Behind);
        }
        self.keeps_what_was_delivered();
        let seen = self.seen();
        let procedures = self.procedures();
        if let Err(refusal) = procedures.admit(procedure, args, request) {
            return Ok(Begin::Refused(refusal, seen));
        }
        let Some(accepted) = procedures.shared(procedure)? else {
            unreachable!()
        };
        Ok(Begin::Begun(BegunCall::new(seen, procedure, accepted)))
    }

    /// Returns the verdict on the entry at a position that was delivered, from 1 on.
    pub fn verdict_at(&self, position: u32) -> Verdict
        requires { (1 ≤ position) × (position ≤ length self.now.entries) }
        ensures { verdict_of J.setting (items_of (entries_of self.now.entries)) position ≡ Some result }
    {
        // This shows that the position is the replica's.
        let _position = self.position();
        self.replica.verdict_at(position).verdict
    }

    /// Counts the entries that were delivered and committed: calls and additions.
    pub fn commits(&self) -> u32
        ensures { result ≡ commits_of J.setting (items_of (entries_of self.now.entries)) }
    {
        // Laws:
        each_call_has_a_verdict();
        let mut commits = 0;
        for before in 0..self.position() {
            commits += commits_of_one(self.verdict_at(before + 1));
        }
        commits
    }

    /// Returns what became of the last entry that was seen.
    pub fn find(&self, seen: &Seen<J, P>) -> Found
        requires { 1 ≤ length seen.now }
        ensures { Finds J.setting self.now seen.now result }
    {
        // Laws:
        beginnings_say_the_same::<P>();
        if seen.len() <= self.seen.len() {
            seen.agrees(&self.seen);
            return Found::Verdict(self.replica.verdict_at(seen.len()).verdict);
        }
        if self.replica.stopped() {
            Found::Stopped
        } else {
            Found::NotYet
        }
    }

    /// Exchanges the replica with `fresh`, and returns true, unless `fresh` has come less far.
    pub fn exchange(&mut self, fresh: &mut LockedReplica<J, A, P>) -> bool
        ensures exchanged { IsTrue result → (self.new ≡ fresh.old) × (fresh.new ≡ self.old)
            × (length self.old.entries ≤ length fresh.old.entries) }
        ensures kept { IsFalse result → (self.new ≡ self.old) × (fresh.new ≡ fresh.old)
            × (length fresh.old.entries < length self.old.entries) }
    {
        if fresh.position() < self.position() {
            return false;
        }
        mem::swap(self, fresh);
        true
    }

    /// The entries are of a log of this setting. The replica's verdicts and procedures are that log's, and so are its
    /// rows at each position within the window.
    pub fn keeps_what_was_delivered(&self)
        ensures schema { AreTables J.setting.tables }
        ensures position { self.now.replica.position ≡ length self.now.entries }
        ensures entries { AreEntriesOf J.setting (entries_of self.now.entries) }
        ensures count { length self.now.replica.certifications ≡ length self.now.entries }
        ensures window { self.now.replica.window ≡ J.setting.window }
        ensures verdicts { (before : ℕ) (c : Certification) → slice_get self.now.replica.certifications before ≡ Some c
            → verdict_of J.setting (items_of (entries_of self.now.entries)) (before + 1) ≡ Some c.verdict }
        ensures rows { (s : ℕ) → s ≤ length self.now.entries → length self.now.entries - s ≤ J.setting.window
            → AnswersFrom self.now.replica.versions.tables s
            (rows_after J.setting (items_of (entries_of self.now.entries)) s) }
        ensures procedures { stored_procedures self.now.replica.procedures
            ≡ procedures_after J.setting (items_of (entries_of self.now.entries)) (length self.now.entries) }
    {
        // Laws:
        replicas_follow_the_log();
        // A part is looked at, so that it is known how both fit together.
        let _ = &self.replica;
    }
}
