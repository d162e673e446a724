//! Reads of the rows of a store after writes that were made over them. To call a law of `schema` does
//! nothing: its clause is then known.

ghost use Rattle.std.specs.Prelude.{◌≡◌, ℕ, ◌≤◌, ◌%◌, ◌^◌, ◌&&◌, not, nat_le, IsTrue, IfOk, is_err, option_map};
ghost use Rattle.std.specs.FinMap.{contains_key};
ghost use Rattle.txn_view.specs.Found.{row_found};
ghost use Rattle.schema.specs.Rows.{Rows, row_at, count_in, first_in, after_writes, puts, rows_under, rows_elsewhere};
ghost use Rattle.schema.specs.Rows.{lesser_row};

use crate::store::{Gone, Store};
use row_sets::WriteSet;
use schema::{
    Look, count_in_after_writes, count_is_zero_where_none, first_elsewhere_is_found_in_turn,
    first_in_after_writes, first_is_least, row_at_after_writes,
};
use std::alloc::Allocator;

/// The row at a key: the row of a write there, or else the store's row. The store isn't asked where there is a write.
pub fn row_seen<'a, S: Store, A: Allocator + Copy>(
    store: &'a S,
    writes: &'a WriteSet<A>,
    table: u8,
    key: u64,
) -> Result<Option<&'a [u8]>, Gone>
    ensures found { (rows : Rows) → S.answers_from store.now rows
        → IfOk result (λ found.
        option_map (λ row. row.now) found ≡ row_at (after_writes writes.now rows) table key) }
    ensures gone { is_err result
        ≡ (S.is_gone store.now && not (contains_key writes.now (table, key))) }
{
    // Laws:
    row_at_after_writes();
    match writes.get(table, key) {
        Some(write) => Ok(write),
        None => store.get(table, key),
    }
}

/// Counts the rows that a look covers, modulo 2^64. Where lo is above hi there are none, and the store isn't asked.
pub fn count_seen<S: Store, A: Allocator + Copy>(
    store: &S,
    writes: &WriteSet<A>,
    look: Look,
) -> Result<u64, Gone>
    ensures counted { (rows : Rows) → S.answers_from store.now rows
        → IfOk result (λ count. count ≡ count_in look (after_writes writes.now rows) % 2 ^ 64) }
    ensures gone { is_err result ≡ (nat_le look.lo look.hi && S.is_gone store.now) }
{
    // Laws:
    count_in_after_writes();
    count_is_zero_where_none();
    if look.lo > look.hi {
        return Ok(0);
    }
    let standing = store.count(look)?;
    let written_over = count_under(store, writes, look)?;
    Ok(
        standing
            .wrapping_sub(written_over)
            .wrapping_add(count_puts(writes, look)),
    )
}

/// The key and the row of the least key that a look covers; none where lo is above hi, and then the
/// store isn't asked.
pub fn first_seen<'a, S: Store, A: Allocator + Copy>(
    store: &'a S,
    writes: &'a WriteSet<A>,
    look: Look,
) -> Result<Option<(u64, &'a [u8])>, Gone>
    ensures found { (rows : Rows) → S.answers_from store.now rows
        → IfOk result (λ found. row_found look.table found
        ≡ first_in look (after_writes writes.now rows)) }
    ensures gone { is_err result ≡ (nat_le look.lo look.hi && S.is_gone store.now) }
{
    // Laws:
    first_in_after_writes();
    first_is_least();
    if look.lo > look.hi {
        return Ok(None);
    }
    let elsewhere = first_elsewhere(store, writes, look)?;
    Ok(lesser(first_put(writes, look), elsewhere))
}

/// Counts the writes that a look covers and that are at keys where the store has a row.
fn count_under<S: Store, A: Allocator + Copy>(
    store: &S,
    writes: &WriteSet<A>,
    look: Look,
) -> Result<u64, Gone>
    ensures counted { (rows : Rows) → S.answers_from store.now rows
        → IfOk result (λ count. count ≡ count_in look (rows_under writes.now rows)) }
    ensures gone { IsTrue (is_err result) → IsTrue (S.is_gone store.now) }
{
    // Laws:
    count_in_after_writes();
    let mut count = 0;
    for (key, _) in writes.range(look) {
        if store.get(key.0, key.1)?.is_some() {
            count += 1;
        }
    }
    Ok(count)
}

/// Counts the writes that a look covers and that are puts.
fn count_puts<A: Allocator + Copy>(writes: &WriteSet<A>, look: Look) -> u64
    ensures { result ≡ count_in look (puts writes.now) }
{
    // Laws:
    count_in_after_writes();
    writes.range(look).filter(|write| write.1.is_some()).count() as u64
}

/// The first put that a look covers.
fn first_put<A: Allocator + Copy>(writes: &WriteSet<A>, look: Look) -> Option<(u64, &[u8])>
    ensures { row_found look.table result ≡ first_in look (puts writes.now) }
{
    // Laws:
    first_in_after_writes();
    let (key, write) = writes.range(look).find(|write| write.1.is_some())?;
    let bytes = write.as_ref()?;
    Some((key.1, bytes.as_slice()))
}

/// The first row of the store that a look covers and whose key isn't written. The store is asked again
/// above each written key.
fn first_elsewhere<'a, S: Store, A: Allocator + Copy>(
    store: &'a S,
    writes: &WriteSet<A>,
    look: Look,
) -> Result<Option<(u64, &'a [u8])>, Gone>
    ensures found { (rows : Rows) → S.answers_from store.now rows
        → IfOk result (λ found. row_found look.table found
        ≡ first_in look (rows_elsewhere writes.now rows)) }
    ensures gone { is_err result ≡ S.is_gone store.now }
{
    // Laws:
    first_elsewhere_is_found_in_turn();
    first_is_least();
    let mut lo = look.lo;
    loop {
        let Some((key, row)) = store.next(Look { lo, ..look })? else {
            return Ok(None);
        };
        if !writes.contains(look.table, key) {
            return Ok(Some((key, row)));
        }
        if key >= look.hi {
            return Ok(None);
        }
        lo = key + 1;
    }
}

/// Returns the row of the lesser key of two rows, either of which may be missing.
fn lesser<'a>(a: Option<(u64, &'a [u8])>, b: Option<(u64, &'a [u8])>) -> Option<(u64, &'a [u8])>
    ensures { (table : ℕ) → row_found table result
        ≡ lesser_row (row_found table a.entry) (row_found table b.entry) }
{
    match (a, b) {
        (Some(a), Some(b)) => Some(if a.0 <= b.0 { a } else { b }),
        (Some(a), None) => Some(a),
        (None, b) => b,
    }
}
