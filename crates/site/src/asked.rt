//! A call that a caller asks for.

ghost use Rattle.std.specs.Prelude.{◌≡◌, ◌<◌, ◌^◌, ℕ, List, IfOk, OnErr, IsTrue};
ghost use Rattle.log_model.specs.Log.{Call, Setting};
ghost use Rattle.log_model.specs.Entries.{Entry as ModelEntry, items_of};
ghost use Rattle.world_calls.specs.OpenCall.{IsCompletion};
ghost use Rattle.log_entry.specs.Bytes.{sequence_of, session_of};
ghost use Rattle.site_model.specs.Answer.{answer_of_run, call_answer_behind, takes_memory};
ghost use Rattle.site_model.specs.declared.answer.CallAnswer.TheVariants.{Submitted};
ghost use Rattle.site_model.specs.Own.{IsAskedBehind};
ghost use Rattle.site.specs.Replica.{StandsForLog, setting_of};
ghost use Rattle.site.specs.Answered.{HasShortReply, answered, asked_of};

use crate::run::{NamedCall, complete};
use crate::state::SiteReplica;
use catalogue::{found_by_name_is_found_by_number, stored_procedures_are_consistent};
use log_entry::Entry;
use log_model::{CallRefusal, RequestId, entries_suffice};
use site_model::CallAnswer;
use std::alloc::{AllocError, Allocator};
use world_calls::Completion;

/// A call that a caller asks for, by the name of its procedure.
#[derive(Clone, Copy)]
pub struct Asked<'a> {
    pub name: &'a [u8],
    pub args: &'a [u8],
    /// The request that the call carries; a session or a number of 0 is refused.
    pub request: Option<RequestId>,
}

/// Returns the answer to a call, by the completion of its run.
fn answer_of<A: Allocator + Copy>(completion: Completion<A>) -> CallAnswer<Entry<A>>
    ensures answer { (w : Setting) (entries : List ModelEntry) (call : Call)
        → IsCompletion w (items_of entries) call completion
        → answered result ≡ answer_of_run w (items_of entries) call }
    ensures short { HasShortReply completion }
{
    match completion {
        Completion::Cancelled { snapshot, code } => CallAnswer::Cancelled {
            position: snapshot,
            code,
        },
        Completion::Read { snapshot, reply } => CallAnswer::Read {
            position: snapshot,
            reply,
        },
        Completion::Wrote(executed) => {
            // The reply is read, so that its range is known.
            let _reply = executed.reply;
            CallAnswer::Submitted(Entry::Call(executed))
        }
    }
}

/// The numbers of a call fit their fields, as their types say.
fn numbers_fit(procedure: u16, args_len: u16, snapshot: u32, request: Option<RequestId>)
    ensures procedure { procedure < 2 ^ 16 }
    ensures args { args_len < 2 ^ 16 }
    ensures snapshot { snapshot < 2 ^ 32 }
    ensures session { session_of request < 2 ^ 32 }
    ensures sequence { sequence_of request < 2 ^ 32 }
{
    let Some(request) = request else {
        return;
    };
    let _session = request.session;
    let _sequence = request.sequence;
}

/// Runs a call whole on the rows at the last position, and returns the answer. Changes nothing. Only a run takes memory.
pub fn call<A: Allocator + Copy>(
    site: &SiteReplica<A>,
    asked: Asked<'_>,
) -> Result<CallAnswer<Entry<A>>, AllocError>
    requires stands { (entries : List ModelEntry) × StandsForLog site.now entries }
    ensures answer { IfOk result (λ answer. (entries : List ModelEntry) → StandsForLog site.now entries
        → answered answer ≡ call_answer_behind (setting_of site.now) site.now.sessions entries (asked_of asked.entry)) }
    ensures fits { IfOk result (λ answer. (entries : List ModelEntry) (bytes : List ℕ) → StandsForLog site.now entries
        → answered answer ≡ Submitted bytes
        → IsAskedBehind (setting_of site.now).setting entries (asked_of asked.entry)) }
    ensures memory { OnErr result ((entries : List ModelEntry) → StandsForLog site.now entries
        → IsTrue (takes_memory
        (call_answer_behind (setting_of site.now) site.now.sessions entries (asked_of asked.entry)))) }
{
    // Laws:
    entries_suffice();
    found_by_name_is_found_by_number();
    let procedures = site.replica().procedures();
    stored_procedures_are_consistent(procedures);
    let Some(procedure) = procedures.by_name(asked.name) else {
        return Ok(CallAnswer::Refused(CallRefusal::NoProcedure));
    };
    let accepted = match procedures.admit(procedure, asked.args, asked.request) {
        Ok(accepted) => accepted,
        Err(refusal) => return Ok(CallAnswer::Refused(refusal)),
    };
    if site.session_cause(asked.request).is_some() {
        return Ok(CallAnswer::OutOfSession);
    }
    if let Some(position) = site.repeated(asked.request) {
        let reply = site.reply_to(asked.request, position);
        return Ok(CallAnswer::Repeated { position, reply });
    }
    let snapshot = site.position();
    numbers_fit(procedure, accepted.args_len(), snapshot, asked.request);
    let named = NamedCall {
        number: 0,
        procedure,
        args: asked.args,
        snapshot,
        request: asked.request,
    };
    let completion = complete(site.allocator(), site.replica(), accepted, named)?;
    Ok(answer_of(completion))
}
