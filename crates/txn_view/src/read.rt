//! A call's reads, each with the look that it makes. They take a view's parts, so that what was read
//! may be used while the call goes on.

ghost use Rattle.std.specs.Prelude.{◌≡◌, ◌↔◌, ℕ, ◌≤◌, ◌%◌, ◌^◌, Err, None, IsTrue, IfOk, OnErr, option_map};
ghost use Rattle.std.specs.FinMap.{get};
ghost use Rattle.txn_view.specs.Found.{row_found};
ghost use Rattle.txn_view.specs.Gone.{gone};
ghost use Rattle.schema.specs.Rows.{row_at, count_in, first_in};
ghost use Rattle.bpf_semantics.specs.State.{State};
ghost use Rattle.bpf_semantics.specs.Helpers.{with_point_look, with_range_look, last_seen};
ghost use Rattle.txn_view.specs.View.{IsReadOf};

use crate::seen::{count_seen, first_seen, row_seen};
use crate::store::{Gone, Store};
use row_sets::{ReadSet, WriteSet};
use schema::{Look, OrNoMemory};
use std::alloc::Allocator;

/// The row of a table at a key. A write of the call's own answers without a look.
pub fn read_row<'a, S: Store, A: Allocator + Copy>(
    store: &'a S,
    writes: &'a WriteSet<A>,
    looks: &mut ReadSet<A>,
    table: u8,
    key: u64,
) -> Result<Option<&'a [u8]>, OrNoMemory<Gone>>
    ensures found { (s : State) → IsReadOf (S.answers_from store.now) looks.old writes.now s
        → IfOk result (λ found. option_map (λ row. row.now) found ≡ row_at s.rows table key) }
    ensures looked { (s : State) → IsReadOf (S.answers_from store.now) looks.old writes.now s
        → IfOk result (λ _. IsReadOf (S.answers_from store.now) looks.new writes.now
        (with_point_look table key s)) }
    ensures gone { (result ≡ Err (OrNoMemory.Fault gone))
        ↔ (IsTrue (S.is_gone store.now) × (get writes.now (table, key) ≡ None)) }
    ensures memory { (result ≡ Err OrNoMemory.NoMemory) → get writes.now (table, key) ≡ None }
    ensures unchanged { OnErr result (looks.new ≡ looks.old) }
{
    let found = row_seen(store, writes, table, key).map_err(OrNoMemory::Fault)?;
    if !writes.contains(table, key) {
        looks.add_point(table, key)?;
    }
    Ok(found)
}

/// Counts the rows that a look covers, modulo 2^64. Where lo is above hi no look is made.
pub fn count_rows<S: Store, A: Allocator + Copy>(
    store: &S,
    writes: &WriteSet<A>,
    looks: &mut ReadSet<A>,
    look: Look,
) -> Result<u64, OrNoMemory<Gone>>
    ensures counted { (s : State) → IsReadOf (S.answers_from store.now) looks.old writes.now s
        → IfOk result (λ count. count ≡ count_in look s.rows % 2 ^ 64) }
    ensures looked { (s : State) → IsReadOf (S.answers_from store.now) looks.old writes.now s
        → IfOk result (λ _. IsReadOf (S.answers_from store.now) looks.new writes.now
        (with_range_look look.table look.lo look.hi look.hi s)) }
    ensures gone { (result ≡ Err (OrNoMemory.Fault gone))
        ↔ (IsTrue (S.is_gone store.now) × (look.lo ≤ look.hi)) }
    ensures memory { (result ≡ Err OrNoMemory.NoMemory) → look.lo ≤ look.hi }
    ensures unchanged { OnErr result (looks.new ≡ looks.old) }
{
    let count = count_seen(store, writes, look).map_err(OrNoMemory::Fault)?;
    if look.lo <= look.hi {
        looks.add_range(look)?;
    }
    Ok(count)
}

/// The key and the row of the least key that a look covers, where there is such a row. The call has looked up to that
/// key, or at all of the look where there is no row. Where lo is above hi no look is made.
pub fn next_row<'a, S: Store, A: Allocator + Copy>(
    store: &'a S,
    writes: &'a WriteSet<A>,
    looks: &mut ReadSet<A>,
    look: Look,
) -> Result<Option<(u64, &'a [u8])>, OrNoMemory<Gone>>
    ensures found { (s : State) → IsReadOf (S.answers_from store.now) looks.old writes.now s
        → IfOk result (λ found. row_found look.table found
        ≡ first_in look s.rows) }
    ensures looked { (s : State) → IsReadOf (S.answers_from store.now) looks.old writes.now s
        → IfOk result (λ _. IsReadOf (S.answers_from store.now) looks.new writes.now
        (with_range_look look.table look.lo look.hi (last_seen look.hi (first_in look s.rows)) s)) }
    ensures gone { (result ≡ Err (OrNoMemory.Fault gone))
        ↔ (IsTrue (S.is_gone store.now) × (look.lo ≤ look.hi)) }
    ensures memory { (result ≡ Err OrNoMemory.NoMemory) → look.lo ≤ look.hi }
    ensures unchanged { OnErr result (looks.new ≡ looks.old) }
{
    let found = first_seen(store, writes, look).map_err(OrNoMemory::Fault)?;
    if look.lo <= look.hi {
        let hi = last_seen(look.hi, found);
        looks.add_range(Look { hi, ..look })?;
    }
    Ok(found)
}

/// The last key that the answer depends on: the found one, or hi where there is none.
fn last_seen(hi: u64, found: Option<(u64, &[u8])>) -> u64
    ensures { (table : ℕ) → result ≡ last_seen hi (row_found table found.entry) }
{
    match found {
        Some((key, _)) => key,
        None => hi,
    }
}
