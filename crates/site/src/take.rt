//! The taking in of a byte string.

ghost use Rattle.std.specs.Prelude.{◌≡◌, ◌+◌, ◌<◌, ◌^◌, ◌++◌, ℕ, [], ◌∷◌, List, length, All, IfOk, OnOk};
ghost use Rattle.std.specs.FinMap.{empty};
ghost use Rattle.log_model.specs.Log.{verdict_of};
ghost use Rattle.log_model.specs.Entries.{CallEntry, Entry as ModelEntry, items_of};
ghost use Rattle.log_entry.specs.Kind.{entry_of};
ghost use Rattle.site_model.specs.Order.{outcome_behind, outcome_by, with_bytes, reply_to};
ghost use Rattle.site.specs.Replica.{StandsForLog, setting_of};
ghost use Rattle.site.specs.Taking.{Follows, request_carried};

use crate::outcome::{committed_outcome, outcome_by, request_of};
use crate::standing::Standing;
use crate::state::SiteReplica;
use log_entry::{Entry, ExecutedCall};
use log_model::RequestId;
use row_sets::{Bytes, ReadSet, WriteSet};
use site_model::{EntryOutcome, what_stands_is_of_the_log};
use std::alloc::{AllocError, Allocator};

/// Makes the entry of a call that did nothing, of this snapshot and with this request. Takes no memory.
fn entry_of_none<A: Allocator + Copy>(
    alloc: A,
    snapshot: u32,
    request: Option<RequestId>,
) -> Entry<A>
    ensures { entry_of result ≡ CallEntry (record {
      call = record { number = 0; procedure = 0; args = []; snapshot = snapshot; request = request };
      looks = [];
      writes = empty;
      reply = 0;
    }) }
{
    Entry::Call(ExecutedCall {
        call: 0,
        procedure: 0,
        args: Bytes::new(Vec::new(alloc)),
        snapshot,
        request,
        reads: ReadSet::new(alloc),
        writes: WriteSet::new(alloc),
        reply: 0,
    })
}

/// The bytes are less than 256, as their type says.
fn are_bytes(bytes: &[u8])
    ensures { All (λ b. b < 256) bytes.now }
{}

/// Takes in an entry, and returns its outcome by its verdict. The outcome is `committed` where the entry commits.
fn take_entry<A: Allocator + Copy>(
    replica: &mut SiteReplica<A>,
    entry: &Entry<A>,
    committed: EntryOutcome,
) -> Result<EntryOutcome, AllocError>
    requires room { replica.old.replica.position + 1 < 2 ^ 32 }
    requires follows { (entries : List ModelEntry) × (e : ModelEntry) × Follows replica.old entries e entry.now }
    ensures outcome { IfOk result (λ outcome. (entries : List ModelEntry) (e : ModelEntry)
        → Follows replica.old entries e entry.now → outcome ≡ outcome_by
        (reply_to (setting_of replica.old).setting (entries ++ e ∷ []) (request_carried e)) committed
        (verdict_of (setting_of replica.old).setting (items_of (entries ++ e ∷ [])) (length entries + 1))) }
    ensures stands { OnOk result ((entries : List ModelEntry) (e : ModelEntry)
        → Follows replica.old entries e entry.now → StandsForLog replica.new (entries ++ e ∷ [])) }
    ensures setting { OnOk result (setting_of replica.new ≡ setting_of replica.old) }
    ensures sessions { OnOk result (replica.new.sessions ≡ replica.old.sessions) }
{
    let verdict = replica.deliver(entry)?;
    Ok(outcome_by(replica, request_of(entry), committed, verdict))
}

/// Takes in the byte string at the next position, and returns its outcome.
pub(crate) fn take<A: Allocator + Copy>(
    replica: &mut SiteReplica<A>,
    bytes: &[u8],
) -> Result<EntryOutcome, AllocError>
    requires room { replica.old.replica.position + 1 < 2 ^ 32 }
    requires stands { (entries : List ModelEntry) × StandsForLog replica.old entries }
    ensures outcome { IfOk result (λ outcome. (entries : List ModelEntry) → StandsForLog replica.old entries
        → outcome ≡ outcome_behind (setting_of replica.old) replica.old.sessions entries bytes.now) }
    ensures stands { OnOk result ((entries : List ModelEntry) → StandsForLog replica.old entries
        → StandsForLog replica.new (with_bytes (setting_of replica.old) replica.old.sessions entries bytes.now)) }
    ensures setting { OnOk result (setting_of replica.new ≡ setting_of replica.old) }
    ensures sessions { OnOk result (replica.new.sessions ≡ replica.old.sessions) }
{
    // Laws:
    what_stands_is_of_the_log();
    are_bytes(bytes);
    let alloc = replica.allocator();
    match replica.standing(bytes)? {
        Standing::StandsAs(entry) => {
            let committed = committed_outcome(&entry);
            take_entry(replica, &entry, committed)
        }
        Standing::Decided { snapshot, request } => {
            let entry = entry_of_none(alloc, snapshot, request);
            take_entry(replica, &entry, EntryOutcome::Stale)
        }
        Standing::Opens(session) => {
            let opening = entry_of_none(alloc, replica.position(), None);
            take_entry(replica, &opening, EntryOutcome::Session(session))?;
            Ok(EntryOutcome::Session(session))
        }
        Standing::Nothing(cause) => {
            let entry = entry_of_none(alloc, replica.position(), None);
            take_entry(replica, &entry, EntryOutcome::Nothing(cause))?;
            Ok(EntryOutcome::Nothing(cause))
        }
    }
}
