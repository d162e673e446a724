//! The meaning of the bytes at the next position.

ghost use Rattle.std.specs.Prelude.{◌≡◌, ◌-◌, ◌≤◌, false, List, Option, option_map, IfOk};
ghost use Rattle.std.specs.Option.{option_copied};
ghost use Rattle.log_model.specs.Log.{Call, Setting, by_number, procedures_after};
ghost use Rattle.log_model.specs.Entries.{Entry as ModelEntry, items_of};
ghost use Rattle.catalogue.specs.Catalogue.{accepted_of};
ghost use Rattle.world_calls.specs.OpenCall.{IsCompletion};
ghost use Rattle.site_model.specs.Standing.{addition_standing, call_standing, is_decided, run_standing, standing};
ghost use Rattle.log_entry.specs.Named.{named_of};
ghost use Rattle.site.specs.Replica.{StandsForLog, setting_of};
ghost use Rattle.site.specs.Standing.{IsReady, IsStanding, head_call};

use crate::additions::since;
use crate::run::{NamedCall, complete};
use crate::same_bytes::has_bytes;
use crate::state::SiteReplica;
use bpf_verify::Accepted;
use catalogue::{accepted_procedures_are_safe, each_catalogue_is_consistent};
use log_entry::{CallHead, Entry, EntryHead, NamedProgram, check_addition, head_of};
use log_model::{RequestId, entries_suffice};
use schema::{MAX_ARGUMENTS, OrNoMemory};
use site_model::NothingCause;
use std::alloc::{AllocError, Allocator};
use world_calls::Completion;

/// The meaning of the bytes at the next position.
#[derive(Drop)]
pub enum Standing<A: Allocator + Copy> {
    StandsAs(Entry<A>),
    /// A call that is repeated or stale, whatever its bytes tell of its run.
    Decided {
        snapshot: u32,
        request: Option<RequestId>,
    },
    /// The session of this number is opened.
    Opens(u32),
    Nothing(NothingCause),
}

impl<A: Allocator + Copy> SiteReplica<A> {
    /// Tells whether a call is repeated or stale.
    pub(crate) fn is_decided(&self, request: Option<RequestId>, snapshot: u32) -> bool
        requires { snapshot ≤ self.now.replica.position }
        ensures decided { (entries : List ModelEntry) (call : Call) → StandsForLog self.now entries
            → call.request ≡ request → call.snapshot ≡ snapshot
            → result ≡ is_decided (setting_of self.now).setting (items_of entries) call }
        ensures kept { result ≡ false → self.now.replica.position - snapshot ≤ self.now.replica.window }
    {
        // Laws:
        entries_suffice();
        self.replica.repeated(request).is_some()
            || self.replica.position() - snapshot > self.replica.window()
    }

    /// The program of a procedure at a position that was reached.
    pub(crate) fn program_at(&self, number: u16, position: u32) -> Option<&Accepted<A, A>>
        requires { position ≤ self.now.replica.position }
        ensures { (entries : List ModelEntry) → StandsForLog self.now entries
            → option_copied result ≡ option_map (accepted_of self.now.catalogue.tables)
            (by_number (procedures_after (setting_of self.now).setting (items_of entries) position) number) }
    {
        // Laws:
        entries_suffice();
        if since(&self.additions, number) > position {
            return None;
        }
        self.replica.procedures().by_number(number)
    }
}

impl<A: Allocator + Copy> SiteReplica<A> {
    /// Returns what the bytes of a call stand for.
    fn call_standing(&self, head: CallHead<'_>, bytes: &[u8]) -> Result<Standing<A>, AllocError>
        requires stands { (entries : List ModelEntry) × StandsForLog self.now entries }
        ensures is { IfOk result (λ st. (entries : List ModelEntry) → StandsForLog self.now entries
            → IsStanding (call_standing (setting_of self.now) self.now.sessions (items_of entries)
            (head_call head.entry) bytes.now) st) }
        ensures ready { IfOk result (IsReady self.now.catalogue.tables) }
    {
        if head.snapshot > self.replica.position() {
            return Ok(Standing::Nothing(NothingCause::Snapshot));
        }
        if let Some(cause) = self.session_cause(head.request) {
            return Ok(Standing::Nothing(cause));
        }
        if self.is_decided(head.request, head.snapshot) {
            return Ok(Standing::Decided {
                snapshot: head.snapshot,
                request: head.request,
            });
        }
        let Some(accepted) = self.program_at(head.procedure, head.snapshot) else {
            return Ok(Standing::Nothing(NothingCause::Procedure));
        };
        if usize::from(accepted.args_len()) != head.args.len() {
            return Ok(Standing::Nothing(NothingCause::Procedure));
        }
        let call = NamedCall {
            number: head.number,
            procedure: head.procedure,
            args: head.args,
            snapshot: head.snapshot,
            request: head.request,
        };
        let completion = complete(self.alloc, &self.replica, accepted, call)?;
        Ok(standing_of_run(completion, bytes))
    }
}

impl<A: Allocator + Copy> SiteReplica<A> {
    /// Returns what the bytes of an addition stand for.
    fn addition_standing(&self, head: NamedProgram<'_>) -> Result<Standing<A>, AllocError>
        ensures is { IfOk result (IsStanding (addition_standing (setting_of self.now) (named_of head.entry))) }
        ensures ready { IfOk result (IsReady self.now.catalogue.tables) }
    {
        // Laws:
        accepted_procedures_are_safe();
        each_catalogue_is_consistent(&self.catalogue);
        if !self.takes_additions || head.args_len > MAX_ARGUMENTS {
            return Ok(Standing::Nothing(NothingCause::Addition));
        }
        match check_addition(self.alloc, head, self.catalogue.schema()) {
            Ok(added) => Ok(Standing::StandsAs(Entry::Addition(added))),
            Err(OrNoMemory::NoMemory) => Err(AllocError),
            Err(OrNoMemory::Fault(_)) => Ok(Standing::Nothing(NothingCause::Addition)),
        }
    }

    /// Returns what bytes at the next position stand for. Changes nothing.
    pub fn standing(&self, bytes: &[u8]) -> Result<Standing<A>, AllocError>
        requires stands { (entries : List ModelEntry) × StandsForLog self.now entries }
        ensures is { IfOk result (λ st. (entries : List ModelEntry) → StandsForLog self.now entries
            → IsStanding (standing (setting_of self.now) self.now.sessions (items_of entries) bytes.now) st) }
        ensures ready { IfOk result (IsReady self.now.catalogue.tables) }
    {
        if let Some(session) = self.sessions.opened_by(self.origin, bytes) {
            return Ok(Standing::Opens(session));
        }
        match head_of(bytes) {
            None => Ok(Standing::Nothing(NothingCause::Unreadable)),
            Some(EntryHead::Call(head)) => self.call_standing(head, bytes),
            Some(EntryHead::Addition(head)) => self.addition_standing(head),
        }
    }
}

/// Returns what a call that isn't decided stands for, by the outcome of its run and the bytes that tell of it.
fn standing_of_run<A: Allocator + Copy>(completion: Completion<A>, bytes: &[u8]) -> Standing<A>
    ensures is { (w : Setting) (entries : List ModelEntry) (call : Call)
        → IsCompletion w (items_of entries) call completion
        → IsStanding (run_standing w (items_of entries) call bytes.now) result }
    ensures ready { (w : Setting) (entries : List ModelEntry) (call : Call)
        → IsCompletion w (items_of entries) call completion → IsReady w.tables result }
{
    let Completion::Wrote(executed) = completion else {
        return Standing::Nothing(NothingCause::Untrue);
    };
    let entry = Entry::Call(executed);
    if has_bytes(&entry, bytes) {
        Standing::StandsAs(entry)
    } else {
        Standing::Nothing(NothingCause::Untrue)
    }
}
