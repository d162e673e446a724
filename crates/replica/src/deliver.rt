//! One delivery, in what a replica keeps.

ghost use Rattle.std.specs.Prelude.{◌≡◌, ℕ, ◌+◌, ◌-◌, ◌<◌, ◌≤◌, List, [], ◌∷◌, ◌++◌, length, true, false, IfOk, OnOk};
ghost use Rattle.std.specs.Prelude.{OnErr};
ghost use Rattle.schema.specs.Rows.{Rows};
ghost use Rattle.rows_mv.specs.Versions.{AnswersFrom, IsInstalled, width_of};
ghost use Rattle.schema.specs.Schema.{Tables};
ghost use Rattle.log_model.specs.Log.{DoneRequest, CertifiedItem, IsPlaced, certified_call_after, is_commit};
ghost use Rattle.log_model.specs.Entries.{item_of};
ghost use Rattle.log_entry.specs.Kind.{entry_of};
ghost use Rattle.catalogue.specs.Stored.{AreForTables};
ghost use Rattle.certify.specs.Kept.{IsMemoryOf};
ghost use Rattle.replica.specs.Replica.{FitTables, IsForTables, IsNamed, certification_after, writes_in};
ghost use Rattle.replica.specs.Delivery.{HasSameVersions, IsLeft, IsTakenIn, holdings};

use crate::addition::take_addition;
use crate::laws::additions_are_taken_in;
use catalogue::StoredProcedures;
use certify::{CallToCertify, Certification, Certifications, Certifier};
use log_entry::{Entry, ExecutedCall};
use log_model::Verdict;
use row_sets::WriteSet;
use rows_mv::{Versions, answers_after_pruning_in_part};
use std::alloc::{AllocError, Allocator};

/// Installs the writes of a call that commits and enters its certification. Where memory is refused each key has the
/// versions that it had.
fn install<A: Allocator + Copy, B: Allocator + Copy>(
    versions: &mut Versions<A>,
    certifications: &mut Certifications<A>,
    certification: Certification,
    position: u32,
    writes: &WriteSet<B>,
) -> Result<(), AllocError>
    requires { FitTables versions.old writes.now }
    ensures installs { OnOk result (is_commit certification.verdict ≡ true
        → IsInstalled position writes.now versions.old.tables versions.new.tables) }
    ensures refuses { OnOk result (is_commit certification.verdict ≡ false
        → HasSameVersions versions.old.tables versions.new.tables) }
    ensures entered { OnOk result (certifications.new.items ≡ certifications.old.items ++ certification ∷ []) }
    ensures same { OnErr result (HasSameVersions versions.old.tables versions.new.tables) }
    ensures unchanged { OnErr result (certifications.new.items ≡ certifications.old.items) }
    ensures widths { (t : ℕ) → width_of versions.new.tables t ≡ width_of versions.old.tables t }
    ensures count { length versions.new.tables ≡ length versions.old.tables }
    ensures horizon { versions.new.horizon ≡ versions.old.horizon }
{
    if !matches!(certification.verdict, Verdict::Commit) {
        certifications.reserve()?;
        certifications.push(certification);
        return Ok(());
    }
    versions.prepare(writes)?;
    certifications.reserve()?;
    certifications.push(certification);
    versions.install(position, writes);
    Ok(())
}

/// Takes a call in at the next position. Where memory is refused the certifier and the certifications are as before,
/// and each key has the versions that it had.
fn take_call<A: Allocator + Copy, B: Allocator + Copy>(
    certifier: &mut Certifier<A>,
    versions: &mut Versions<A>,
    certifications: &mut Certifications<A>,
    position: u32,
    call: &ExecutedCall<B>,
) -> Result<Certification, AllocError>
    requires next { position ≡ certifier.old.memory.count + 1 }
    requires snapshot { call.now.call.snapshot < position }
    requires fit { FitTables versions.old call.now.writes }
    ensures certified { IfOk result (λ c. (done : List DoneRequest) (past : List CertifiedItem) → IsMemoryOf certifier.old.memory done past
        → c ≡ certification_after certifier.old.memory.window done past call.now.call call.now.looks) }
    ensures memory { OnOk result ((done : List DoneRequest) (past : List CertifiedItem) → IsMemoryOf certifier.old.memory done past
        → IsMemoryOf certifier.new.memory done
        (past ++ certified_call_after certifier.old.memory.window done past call.now.call call.now.looks call.now.writes
        ∷ [])) }
    ensures window { certifier.new.memory.window ≡ certifier.old.memory.window }
    ensures taken { OnOk result (certifier.new.memory.count ≡ position) }
    ensures same_memory { OnErr result (certifier.new.memory ≡ certifier.old.memory) }
    ensures installs { IfOk result (λ c. is_commit c.verdict ≡ true
        → IsInstalled position call.now.writes versions.old.tables versions.new.tables) }
    ensures refuses { IfOk result (λ c. is_commit c.verdict ≡ false
        → HasSameVersions versions.old.tables versions.new.tables) }
    ensures same_versions { OnErr result (HasSameVersions versions.old.tables versions.new.tables) }
    ensures entered { IfOk result (λ c. certifications.new.items ≡ certifications.old.items ++ c ∷ []) }
    ensures same_certifications { OnErr result (certifications.new.items ≡ certifications.old.items) }
    ensures widths { (t : ℕ) → width_of versions.new.tables t ≡ width_of versions.old.tables t }
    ensures tables { length versions.new.tables ≡ length versions.old.tables }
    ensures horizon { versions.new.horizon ≡ versions.old.horizon }
{
    let to_certify = CallToCertify {
        request: call.request,
        snapshot: call.snapshot,
        reads: &call.reads,
        writes: &call.writes,
    };
    let verdict = certifier.verdict(&to_certify, position);
    let certification = Certification {
        verdict,
        compared: certifier.compared(),
    };
    let prepared = certifier.prepare(&to_certify)?;
    install(
        versions,
        certifications,
        certification,
        position,
        &call.writes,
    )?;
    certifier.keep(position, verdict, prepared);
    Ok(certification)
}

/// Takes an entry in at the next position. Where memory is refused the certifier, the certifications and the procedures
/// are as before, and each key has the versions that it had.
pub(crate) fn take_entry<A: Allocator + Copy, P: Allocator + Copy>(
    certifier: &mut Certifier<A>,
    versions: &mut Versions<A>,
    procedures: &mut StoredProcedures<A, P>,
    certifications: &mut Certifications<A>,
    position: u32,
    entry: &Entry<P>,
) -> Result<Certification, AllocError>
    requires next { position ≡ certifier.old.memory.count + 1 }
    requires placed { IsPlaced (position - 1) (item_of (entry_of entry.now)) }
    requires fit { FitTables versions.old (writes_in (entry_of entry.now)) }
    requires named { IsNamed (entry_of entry.now) }
    ensures taken { IfOk result (IsTakenIn position (entry_of entry.now)
        (holdings certifier.old.memory procedures.old versions.old.tables certifications.old.items)
        (holdings certifier.new.memory procedures.new versions.new.tables certifications.new.items)) }
    ensures left { OnErr result (IsLeft
        (holdings certifier.old.memory procedures.old versions.old.tables certifications.old.items)
        (holdings certifier.new.memory procedures.new versions.new.tables certifications.new.items)) }
    ensures window { certifier.new.memory.window ≡ certifier.old.memory.window }
    ensures for_tables { (tables : Tables) → AreForTables tables procedures.old → IsForTables tables entry.now
        → AreForTables tables procedures.new }
    ensures widths { (t : ℕ) → width_of versions.new.tables t ≡ width_of versions.old.tables t }
    ensures tables { length versions.new.tables ≡ length versions.old.tables }
    ensures horizon { versions.new.horizon ≡ versions.old.horizon }
{
    // Laws:
    additions_are_taken_in();
    match entry {
        Entry::Call(call) => take_call(certifier, versions, certifications, position, call),
        Entry::Addition(added) => {
            take_addition(certifier, procedures, certifications, position, added)
        }
    }
}

/// The number of keys that are written for each page that is pruned. Pages are split in half, so keys that rise make a
/// page of each 32 that are written. Twice as many pages are pruned, so that a pass over all pages comes to its end.
const KEYS_A_PAGE: u32 = 16;

/// The most pages that are pruned in one delivery.
const MOST_PAGES: u32 = 64;

/// The part of pruning that is still due for what was written.
#[derive(Clone, Copy)]
pub(crate) struct Pruning {
    /// The number of keys that were written and for which no page was pruned yet.
    written: u32,
    /// The position from which the next pass over all pages is due, or the pass under way was.
    due: u32,
}

impl Pruning {
    /// Makes the next pass due at a position.
    pub(crate) fn from(position: u32) -> Pruning {
        Pruning {
            written: 0,
            due: position,
        }
    }

    /// Returns the number of pages to prune after `written` more keys were written, and the pruning that is left then.
    fn next(self, written: usize, position: u32) -> (u32, Pruning) {
        if position < self.due {
            return (0, self);
        }
        let written = u32::try_from(written).unwrap_or(u32::MAX);
        let written = self.written.saturating_add(written);
        let pages = (written / KEYS_A_PAGE).min(MOST_PAGES);
        let written = written.saturating_sub(pages.saturating_mul(KEYS_A_PAGE));
        (pages, Pruning { written, ..self })
    }
}

/// Returns the number of keys that an entry of this verdict wrote.
pub(crate) fn written_by<A: Allocator + Copy>(entry: &Entry<A>, verdict: Verdict) -> usize {
    match (entry, verdict) {
        (Entry::Call(call), Verdict::Commit) => call.writes.len(),
        _ => 0,
    }
}

/// Prunes up to `pages` pages of keys of the versions that no position from `below` on sees. Returns true where no page
/// was left to prune, so that the pass over all pages has ended.
fn prune_pages<A: Allocator + Copy>(versions: &mut Versions<A>, below: u32, pages: u32) -> bool
    requires { versions.old.horizon ≤ below }
    ensures seen { (s : ℕ) (rows : Rows) → below ≤ s
        → AnswersFrom versions.old.tables s rows → AnswersFrom versions.new.tables s rows }
    ensures horizon { versions.new.horizon ≤ below }
    ensures widths { (t : ℕ) → width_of versions.new.tables t ≡ width_of versions.old.tables t }
    ensures tables { length versions.new.tables ≡ length versions.old.tables }
{
    // Laws:
    answers_after_pruning_in_part();
    for _ in 0..pages {
        if versions.prune_page(below) {
            return true;
        }
    }
    false
}

/// Prunes the pages of keys that are due after `written` keys were written, of the versions that no position within the
/// window sees.
pub(crate) fn drop_unseen<A: Allocator + Copy>(
    versions: &mut Versions<A>,
    window: u32,
    position: u32,
    written: usize,
    pruning: Pruning,
) -> Pruning
    requires { versions.old.horizon ≤ position - window }
    ensures seen { (s : ℕ) (rows : Rows) → position - s ≤ window
        → AnswersFrom versions.old.tables s rows → AnswersFrom versions.new.tables s rows }
    ensures horizon { versions.new.horizon ≤ position - window }
    ensures widths { (t : ℕ) → width_of versions.new.tables t ≡ width_of versions.old.tables t }
    ensures tables { length versions.new.tables ≡ length versions.old.tables }
{
    let (pages, left) = pruning.next(written, position);
    if prune_pages(versions, position.saturating_sub(window), pages) {
        return Pruning::from(position.saturating_add(window));
    }
    left
}
