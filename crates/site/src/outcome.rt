//! The outcome of an entry.

ghost use Rattle.std.specs.Prelude.{◌≡◌, List, map, Some};
ghost use Rattle.log_model.specs.Entries.{Entry as ModelEntry};
ghost use Rattle.log_entry.specs.Kind.{entry_of};
ghost use Rattle.site_model.specs.Order.{committed_outcome, outcome_by, reply_to};
ghost use Rattle.site.specs.Replica.{reply_of, setting_of};
ghost use Rattle.site.specs.Taking.{request_carried};

use crate::state::SiteReplica;
use log_entry::Entry;
use log_model::{RequestId, Verdict};
use site_model::EntryOutcome;
use std::alloc::Allocator;

/// The outcome of an entry that has a verdict, which is `committed` where the entry commits. The outcome of a call that is
/// repeated has the reply to its request.
pub(crate) fn outcome_by<A: Allocator + Copy>(
    site: &SiteReplica<A>,
    request: Option<RequestId>,
    committed: EntryOutcome,
    verdict: Verdict,
) -> EntryOutcome
    ensures { (entries : List ModelEntry) → site.now.replies ≡ map reply_of entries
        → result ≡ outcome_by (reply_to (setting_of site.now).setting entries request) committed (Some verdict) }
{
    match verdict {
        Verdict::Commit => committed,
        Verdict::Conflict(position) => EntryOutcome::Conflict(position),
        Verdict::Stale => EntryOutcome::Stale,
        Verdict::Repeated(position) => EntryOutcome::Repeated {
            position,
            reply: site.reply_to(request, position),
        },
        Verdict::Taken(identifier) => EntryOutcome::Taken(identifier),
    }
}

/// The request that an entry carries, where the entry is a call that has a request.
pub(crate) fn request_of<A: Allocator + Copy>(entry: &Entry<A>) -> Option<RequestId>
    ensures { result ≡ request_carried (entry_of entry.now) }
{
    match entry {
        Entry::Call(call) => call.request,
        Entry::Addition(_) => None,
    }
}

/// The outcome of an entry that commits.
pub(crate) fn committed_outcome<A: Allocator + Copy>(entry: &Entry<A>) -> EntryOutcome
    ensures { result ≡ committed_outcome (entry_of entry.now) }
{
    match entry {
        Entry::Call(call) => EntryOutcome::Committed(call.reply),
        Entry::Addition(added) => EntryOutcome::Added(added.number),
    }
}
