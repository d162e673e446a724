//! A world of replicas.

ghost use Rattle.std.specs.Prelude.{false, ◌≡◌, ℕ, suc, IsTrue, ◌+◌, ◌<◌, ◌≤◌, ◌++◌, [], ◌∷◌, length, map, option_map, slice_get};
ghost use Rattle.std.specs.Prelude.{◌≢◌, Some, None, IfOk, OnErr, vec_len, vec_capacity};
ghost use Rattle.schema.specs.declared.limits.TheConstants.{MAX_REPLICAS, MAX_WINDOW};
ghost use Rattle.log_model.specs.declared.verdict.Verdict.{Verdict as ModelVerdict};
ghost use Rattle.log_model.specs.declared.verdict.Verdict.TheVariants.{Commit};
ghost use Rattle.dsm_model.specs.declared.outcome.Outcome.TheVariants.{Exit, Ordered, Delivered};
ghost use Rattle.bpf_semantics.specs.Path.{longest_path};
ghost use Rattle.log_model.specs.Log.{Call, CallItem, Log, StoredProcedure, by_name, procedure_of, procedures_after};
ghost use Rattle.log_model.specs.Log.{reply_done, run_in, same_request, verdict_of};
ghost use Rattle.log_model.specs.Verdicts.{IsDoneBefore};
ghost use Rattle.log_model.specs.Entries.{CallEntry, ExecutedCall};
ghost use Rattle.log_entry.specs.Kind.{entry_of};
ghost use Rattle.log_model.specs.Fit.{BeginsSafely};
ghost use Rattle.dsm_model.specs.World.{Turn as TurnStep, Order as OrderStep, IsStep, AreSteps, first_world, numbered};
ghost use Rattle.dsm_model.specs.World.{open_call};
ghost use Rattle.log_model.specs.OpenCall.{OpenCall as ModelCall};
ghost use Rattle.dsm_model.specs.Sound.{IsGiven, IsSound, IsSerialReply, IsWorld};
ghost use Rattle.dsm_model.specs.Worlds.{HasExited, IsCallNumbered, turns_of};
ghost use Rattle.replica.specs.Replica.{Replica as ReplicaState, AreEntriesOf};
ghost use Rattle.catalogue.specs.Catalogue.{IsCatalogue, system_setting};
ghost use Rattle.dsm_world.specs.System.{setting_of, world_of, step_of, progress_of, KeepsDelivered};
ghost use Rattle.dsm_world.specs.Together.{IsReplicaOf};

use crate::calls::{Calls, Spare};
use crate::numbers::index_of;
use crate::step::Step;
use catalogue::{Catalogue, catalogues_are_safe, each_catalogue_is_consistent};
use dsm_model::{
    Outcome, delivered_verdicts_are_the_logs, enough_turns_reach_exit,
    entries_carry_serial_replies, open_calls_are_sound, open_calls_keep_their_replies,
    replies_are_serial, steps_keep_a_world,
};
use log_entry::Entry;
use log_model::{RequestId, a_log_only_grows, each_request_commits_once};
use replica::{Replica, replicas_follow_the_log};
use std::alloc::{AllocError, Allocator, Global};
use std::marker::Model;

/// A world of replicas of one database, which share one log. Contracts see what it holds, and by that the world of the
/// definitions.
///
/// ```text
/// let mut world = World::new(alloc, 2, 64, catalogue)?;
/// let outcomes = world.run(&[
///     Step::Begin { replica: 1, procedure: 1, args: &args },
///     Step::Turn { call: 1 },
/// ])?;
/// ```
#[derive(Drop)]
pub struct World<A: Allocator + Copy = Global> {
    /// The allocator of all its memory.
    pub(crate) alloc: A,
    /// The number of positions, besides its last, whose rows each replica keeps.
    pub(crate) window: u32,
    /// The tables, and the procedures that the log begins with.
    pub(crate) catalogue: Catalogue<A>,
    /// The entries that were ordered.
    pub(crate) entries: Vec<Entry<A>, A>,
    /// The number of entries that are additions.
    pub(crate) additions: u32,
    /// The replicas in the order of their numbers.
    pub(crate) replicas: Vec<Replica<A>, A>,
    /// The calls that were begun.
    pub(crate) calls: Calls<A>,
    /// A call that is over, in whose memory the next begins.
    pub(crate) spare: Spare<A>,
}

impl<A: Allocator + Copy> Model for World<A> {
    ghost use Rattle.dsm_world.specs.System.{SystemWorld};
    ghost use Rattle.dsm_world.specs.Codes.{world_code};

    ghost Value = { SystemWorld };

    ghost coded = { world_code };

    ghost use Rattle.dsm_world.specs.Fields.{system_of, IsConsistent};

    ghost view = { system_of };

    ghost invariant = { IsConsistent };
}

/// Returns `count` replicas to which nothing was delivered.
fn replicas_of<A: Allocator + Copy>(
    alloc: A,
    count: u32,
    window: u32,
    catalogue: &Catalogue<A>,
) -> Result<Vec<Replica<A>, A>, AllocError>
    ensures count { IfOk result (λ v. length v.items ≡ count) }
    ensures first { IfOk result (λ v. (k : ℕ) (r : ReplicaState) → slice_get v.items k ≡ Some r
        → IsReplicaOf catalogue.now window [] r) }
    ensures running { IfOk result (λ v. (k : ℕ) (r : ReplicaState) → slice_get v.items k ≡ Some r
        → progress_of r ≡ record { position = 0; stopped = false }) }
{
    catalogues_are_safe(catalogue);
    let mut replicas = Vec::new(alloc);
    for _ in 0..count {
        replicas.push(Replica::new(alloc, window, catalogue)?)?;
    }
    Ok(replicas)
}

/// Puts an outcome behind the others, in room that there is.
fn push_within<A: Allocator>(outcomes: &mut Vec<Outcome, A>, outcome: Outcome)
    requires { vec_len outcomes.old < vec_capacity outcomes.old }
    ensures items { outcomes.new.items ≡ outcomes.old.items ++ outcome ∷ [] }
    ensures len { vec_len outcomes.new ≡ vec_len outcomes.old + 1 }
    ensures capacity { vec_capacity outcomes.old ≤ vec_capacity outcomes.new }
{
    let pushed = outcomes.push(outcome);
    prove!(pushed.is_ok());
}

impl<A: Allocator + Copy> World<A> {
    /// A world of `replicas` replicas that run at position 0, in which nothing was begun or ordered. The world has 1 to
    /// 8 replicas, and each keeps the rows of 1 to 4,096 positions besides the last.
    pub fn new(
        alloc: A,
        replicas: u32,
        window: u32,
        catalogue: Catalogue<A>,
    ) -> Result<World<A>, AllocError>
        requires replicas { (1 ≤ replicas) × (replicas ≤ MAX_REPLICAS) }
        requires window { (1 ≤ window) × (window ≤ MAX_WINDOW) }
        ensures first { IfOk result (λ w. world_of w ≡ first_world replicas) }
        ensures setting { IfOk result (λ w. setting_of w ≡ system_setting catalogue window) }
    {
        catalogues_are_safe(&catalogue);
        // Laws:
        steps_keep_a_world();
        let replicas = replicas_of(alloc, replicas, window, &catalogue)?;
        Ok(World {
            alloc,
            window,
            catalogue,
            entries: Vec::new(alloc),
            additions: 0,
            replicas,
            calls: Vec::new(alloc),
            spare: None,
        })
    }

    /// Takes one step, and answers as the definitions of the world say.
    pub fn step(&mut self, step: Step<'_>) -> Outcome
        ensures step { IsStep (setting_of self.old) (world_of self.old) (step_of (setting_of self.old) step.entry)
            result (world_of self.new) }
        ensures setting { setting_of self.new ≡ setting_of self.old }
        // The arguments are bytes by their type, and an added program is safe since the verifier accepted it.
        ensures given { IsGiven (setting_of self.old) (step_of (setting_of self.old) step.entry) result }
    {
        match step {
            Step::Begin {
                replica,
                procedure,
                args,
            } => self.begin(replica, procedure, args, None),
            Step::BeginNumbered {
                replica,
                procedure,
                args,
                session,
                sequence,
            } => {
                let request = RequestId { session, sequence };
                self.begin(replica, procedure, args, Some(request))
            }
            Step::Turn { call } => self.turn(call),
            Step::Order { call } => self.order(call),
            Step::Deliver { replica } => self.deliver(replica),
            Step::Rebuild { replica } => self.rebuild(replica),
            Step::Add {
                name,
                number,
                args_len,
                bytes,
            } => self.add(name, number, args_len, bytes),
        }
    }

    /// Takes steps, one after another, and returns what each answers. Room for all answers is made first; where there
    /// is no memory for it, no step is taken.
    ///
    /// The following holds whatever the steps are, and whichever of them find no memory. The steps go on as the
    /// definitions of the world say, and each open call is sound. Each ordered call is committed exactly where the
    /// written test says so, and no two committed calls carry one request. The verdicts, rows and procedures that a
    /// replica keeps are those of the log as far as the replica has come. A reply that was answered is that of the call
    /// run in its turn, where the call commits; and enough turns have answered a reply.
    pub fn run(&mut self, steps: &[Step<'_>]) -> Result<Vec<Outcome, A>, AllocError>
        ensures steps { IfOk result (λ outcomes. AreSteps (setting_of self.old) (world_of self.old)
            (map (step_of (setting_of self.old)) steps.now) outcomes.items (world_of self.new)) }
        ensures sound { (c : ℕ) (o : ModelCall) → open_call (world_of self.new) c ≡ Some o
            → IsSound (setting_of self.new) (world_of self.new).log o }
        ensures verdicts { IfOk result (λ outcomes. (j position : ℕ) (v : ModelVerdict)
            → slice_get outcomes.items j ≡ Some (Delivered position v)
            → verdict_of (setting_of self.new) (world_of self.new).log position ≡ Some v) }
        ensures rows { (r : ℕ) (k : ReplicaState) → numbered self.new.replicas r ≡ Some k → KeepsDelivered self.new k }
        ensures replies { IfOk result (λ outcomes. (c i j position reply : ℕ)
            → slice_get (map (step_of (setting_of self.old)) steps.now) i ≡ Some (TurnStep c)
            → slice_get outcomes.items i ≡ Some (Exit reply)
            → slice_get (map (step_of (setting_of self.old)) steps.now) j ≡ Some (OrderStep c)
            → slice_get outcomes.items j ≡ Some (Ordered position)
            → i < j → verdict_of (setting_of self.new) (world_of self.new).log position ≡ Some Commit
            → IsSerialReply (setting_of self.new) (world_of self.new).log position reply) }
        // Two committed calls with one request are one call.
        ensures once { (d e : ℕ) (a b : Call)
            → slice_get (world_of self.new).log d ≡ Some (CallItem a)
            → slice_get (world_of self.new).log e ≡ Some (CallItem b)
            → verdict_of (setting_of self.new) (world_of self.new).log (suc d) ≡ Some Commit
            → verdict_of (setting_of self.new) (world_of self.new).log (suc e) ≡ Some Commit
            → IsTrue (same_request a.request b.request) → d ≡ e }
        // No committed call has a request that was done before the log.
        ensures not_before { (d : ℕ) (call : Call) → slice_get (world_of self.new).log d ≡ Some (CallItem call)
            → verdict_of (setting_of self.new) (world_of self.new).log (suc d) ≡ Some Commit
            → IsDoneBefore (setting_of self.new) call → ⊥ }
        // A call of which as many turns ran an instruction as its longest path has was answered Exit, by one of these
        // steps.
        ensures exits { IfOk result (λ outcomes. (c : ℕ) (call : Call) (p : StoredProcedure)
            → IsCallNumbered (world_of self.old) (map (step_of (setting_of self.old)) steps.now) outcomes.items c call
            → procedure_of (setting_of self.new) (world_of self.new).log call ≡ Some p
            → longest_path p.program ≤ turns_of c (map (step_of (setting_of self.old)) steps.now) outcomes.items
            → HasExited c (run_in (setting_of self.new) (world_of self.new).log call).reply
            (map (step_of (setting_of self.old)) steps.now) outcomes.items) }
        ensures setting { setting_of self.new ≡ setting_of self.old }
        ensures unchanged { OnErr result (self.new ≡ self.old) }
    {
        // Laws:
        delivered_verdicts_are_the_logs();
        each_request_commits_once();
        enough_turns_reach_exit();
        open_calls_are_sound();
        replies_are_serial();
        self.keeps_what_was_delivered();
        let mut outcomes = Vec::with_capacity(self.alloc, steps.len())?;
        for step in steps {
            let outcome = self.step(*step);
            push_within(&mut outcomes, outcome);
        }
        self.keeps_what_was_delivered();
        Ok(outcomes)
    }

    /// Every world keeps what was delivered. Steps lead to such a world. Its catalogue's procedures were accepted. The
    /// world begins with safe procedures and rows of its tables. Its entries are those of a log and carry their runs.
    /// The verdicts, rows and procedures that a replica keeps are those of the log as far as the replica has come. Each
    /// open call is sound. Its run, with the reply that a turn answers at its end, stays the same however long the log
    /// becomes. An entry carries the reply of its call's run, and where the call commits that of the call run in its
    /// turn. So whoever takes single steps knows what becomes of a reply.
    pub fn keeps_what_was_delivered(&self)
        ensures world { IsWorld (setting_of self.now) (world_of self.now) }
        ensures catalogue { IsCatalogue self.now.catalogue }
        ensures begins { BeginsSafely (setting_of self.now) }
        ensures entries { AreEntriesOf (setting_of self.now) self.now.entries }
        ensures replicas { (r : ℕ) (k : ReplicaState) → numbered self.now.replicas r ≡ Some k
            → KeepsDelivered self.now k }
        ensures sound { (c : ℕ) (o : ModelCall) → open_call (world_of self.now) c ≡ Some o
            → IsSound (setting_of self.now) (world_of self.now).log o }
        ensures stays { (c : ℕ) (o : ModelCall) (more : Log) → open_call (world_of self.now) c ≡ Some o
            → run_in (setting_of self.now) ((world_of self.now).log ++ more) o.call
            ≡ run_in (setting_of self.now) (world_of self.now).log o.call }
        ensures carried { (position : ℕ) (e : ExecutedCall) → numbered self.now.entries position ≡ Some (CallEntry e)
            → e.reply ≡ (run_in (setting_of self.now) (world_of self.now).log e.call).reply }
        ensures serial { (position : ℕ) (e : ExecutedCall) → numbered self.now.entries position ≡ Some (CallEntry e)
            → verdict_of (setting_of self.now) (world_of self.now).log position ≡ Some Commit
            → IsSerialReply (setting_of self.now) (world_of self.now).log position e.reply }
    {
        // Laws:
        a_log_only_grows();
        entries_carry_serial_replies();
        open_calls_are_sound();
        open_calls_keep_their_replies();
        replicas_follow_the_log();
        // A part is looked at, so that it is known how all fit together.
        each_catalogue_is_consistent(&self.catalogue);
    }

    /// Returns the number of entries of the log.
    pub fn log_len(&self) -> u32
        ensures { result ≡ length self.now.entries }
    {
        self.entries.len() as u32
    }

    /// The entry at a position, from 1 on.
    pub fn entry(&self, position: u32) -> Option<&Entry<A>>
        ensures { option_map (λ e. entry_of e.now) result ≡ numbered self.now.entries position }
    {
        let at = index_of(position, self.entries.len())?;
        Some(&self.entries[at])
    }

    /// The reply of a request that was done before the log.
    pub fn reply_done(&self, request: Option<RequestId>) -> Option<u64>
        ensures { result ≡ reply_done (setting_of self.now).beginning.requests request }
    {
        self.catalogue.requests().reply(request)
    }

    /// A replica, by its number from 1 on.
    pub fn replica(&self, number: u32) -> Option<&Replica<A>>
        ensures { option_map (λ r. r.now) result ≡ numbered self.now.replicas number }
    {
        let at = index_of(number, self.replicas.len())?;
        Some(&self.replicas[at])
    }

    /// The replicas, in the order of their numbers.
    pub fn replicas(&self) -> &[Replica<A>]
        ensures { result.now ≡ self.now.replicas }
    {
        &self.replicas
    }

    /// The number of a procedure, by its name, at a replica's position.
    pub fn by_name(&self, replica: u32, name: &[u8]) -> Option<u16>
        ensures there { (r : ReplicaState) → numbered self.now.replicas replica ≡ Some r
            → result ≡ option_map (λ p. p.number)
            (by_name (procedures_after (setting_of self.now) (world_of self.now).log r.position) name.now) }
        ensures no_replica { numbered self.now.replicas replica ≡ None → result ≡ None }
    {
        self.keeps_what_was_delivered();
        self.replica(replica)?.procedures().by_name(name)
    }
}
