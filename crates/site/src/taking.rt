//! The taking in of what stands at the next position.

ghost use Rattle.std.specs.Prelude.{◌≡◌, ◌+◌, ◌<◌, ◌^◌, ◌++◌, [], ◌∷◌, List, length, Some, IfOk, OnOk};
ghost use Rattle.log_model.specs.Log.{verdict_of};
ghost use Rattle.log_model.specs.Entries.{Entry as ModelEntry, items_of};
ghost use Rattle.log_entry.specs.Kind.{entry_of};
ghost use Rattle.site.specs.Replica.{StandsForLog, reply_of, setting_of};
ghost use Rattle.site.specs.Taking.{Follows, additions_after};

use crate::state::SiteReplica;
use log_entry::Entry;
use log_model::{
    Verdict, a_log_only_grows, procedures_after_each_item, procedures_are_never_lost,
    verdicts_on_additions_in_words_of_the_log,
};
use replica::tables_take_the_schemas_writes;
use site_model::fit_entries_go_on;
use std::alloc::{AllocError, Allocator};

/// The reply that an entry tells, and 0 where the entry is an addition.
fn reply_of<A: Allocator + Copy>(entry: &Entry<A>) -> u64
    ensures { result ≡ reply_of (entry_of entry.now) }
{
    match entry {
        Entry::Call(call) => call.reply,
        Entry::Addition(_) => 0,
    }
}

/// Keeps the position of an addition that commits.
fn keep_addition<A: Allocator + Copy>(
    additions: &mut Vec<(u16, u32), A>,
    entry: &Entry<A>,
    verdict: Verdict,
    position: u32,
) -> Result<(), AllocError>
    ensures { OnOk result (additions.new.items
        ≡ additions_after additions.old.items (entry_of entry.now) verdict position) }
{
    match (entry, verdict) {
        (Entry::Addition(added), Verdict::Commit) => {
            additions.push((added.number, position))?;
            Ok(())
        }
        _ => Ok(()),
    }
}

impl<A: Allocator + Copy> SiteReplica<A> {
    /// Takes in an entry at the next position, and returns its verdict. The site is of no use any more where there is
    /// no memory.
    pub fn deliver(&mut self, entry: &Entry<A>) -> Result<Verdict, AllocError>
        requires room { self.old.replica.position + 1 < 2 ^ 32 }
        requires follows { (entries : List ModelEntry) × (e : ModelEntry) × Follows self.old entries e entry.now }
        ensures verdict { IfOk result (λ verdict. (entries : List ModelEntry) (e : ModelEntry)
            → Follows self.old entries e entry.now
            → verdict_of (setting_of self.old).setting (items_of (entries ++ e ∷ [])) (length entries + 1)
            ≡ Some verdict) }
        ensures stands { OnOk result ((entries : List ModelEntry) (e : ModelEntry)
            → Follows self.old entries e entry.now → StandsForLog self.new (entries ++ e ∷ [])) }
        ensures setting { setting_of self.new ≡ setting_of self.old }
        ensures sessions { self.new.sessions ≡ self.old.sessions }
    {
        // Laws:
        a_log_only_grows();
        fit_entries_go_on();
        procedures_after_each_item();
        procedures_are_never_lost();
        tables_take_the_schemas_writes();
        verdicts_on_additions_in_words_of_the_log();
        let Ok(verdict) = self.replica.deliver(entry) else {
            return Err(AllocError);
        };
        self.replies.push(reply_of(entry))?;
        keep_addition(&mut self.additions, entry, verdict, self.replica.position())?;
        Ok(verdict)
    }
}
