//! Writes in the order of their keys, each key once.

ghost use Rattle.std.specs.Prelude.{◌≡◌, length, filter, not, option_map, IfOk, IfErr, OnOk, OnErr, T};
ghost use Rattle.std.specs.List.{HoldsAt};
ghost use Rattle.std.specs.List.Sorted.{IsSearchInRange, IsPartitionPoint};
ghost use Rattle.std.specs.Ordering.{is_le, is_lt};
ghost use Rattle.std.specs.declared.cmp.Ordering.TheVariants.{Less, Equal, Greater};
ghost use Rattle.std.specs.FinMap.{find, put, is_sorted};
ghost use Rattle.schema.specs.Rows.{covers, key_cmp};

use crate::room::take_room;
use crate::row::Bytes;
use schema::Look;
use std::alloc::{AllocError, Allocator};

/// A key, of table and key, and its last write: the bytes that were put, or none where the row was removed.
pub(crate) type KeyAndWrite<A> = ((u8, u64), Option<Bytes<A>>);

/// Returns the index where a key stands, or where it would stand.
fn search<A: Allocator>(writes: &[KeyAndWrite<A>], key: (u8, u64)) -> Result<usize, usize>
    requires { T (is_sorted key_cmp writes.now) }
    ensures within { IsSearchInRange result (length writes.now) }
    ensures found { IfOk result (HoldsAt (λ w. key_cmp w.0 key ≡ Equal) writes.now) }
    ensures absent { IfErr result (IsPartitionPoint (λ w. key_cmp w.0 key ≡ Less) (λ w. key_cmp w.0 key ≡ Greater)
        writes.now) }
{
    writes.binary_search_by_key(&key, |write| write.0)
}

/// The write at a key, if there is one.
pub(crate) fn find<A: Allocator>(
    writes: &[KeyAndWrite<A>],
    key: (u8, u64),
) -> Option<&Option<Bytes<A>>>
    requires { T (is_sorted key_cmp writes.now) }
    ensures { option_map (λ write. write.now) result ≡ find key_cmp key writes.now }
{
    match search(writes, key) {
        Ok(at) => Some(&writes[at].1),
        Err(_) => None,
    }
}

/// Puts a write at its key, in place of a write that stands there.
pub(crate) fn put<A: Allocator>(
    writes: &mut Vec<KeyAndWrite<A>, A>,
    key: (u8, u64),
    write: Option<Bytes<A>>,
) -> Result<(), AllocError>
    requires { T (is_sorted key_cmp writes.old.items) }
    ensures done { OnOk result (writes.new.items ≡ put key_cmp key write writes.old.items) }
    ensures unchanged { OnErr result (writes.new.items ≡ writes.old.items) }
{
    match search(writes, key) {
        Ok(at) => writes[at] = (key, write),
        Err(at) => {
            take_room(writes)?;
            writes.insert(at, (key, write))?;
        }
    }
    Ok(())
}

/// The writes from a key on.
fn since<A: Allocator>(writes: &[KeyAndWrite<A>], key: (u8, u64)) -> &[KeyAndWrite<A>]
    requires { T (is_sorted key_cmp writes.now) }
    ensures { result.now ≡ filter (λ w. not (is_lt (key_cmp w.0 key))) writes.now }
{
    let from = writes.partition_point(|write| write.0 < key);
    &writes[from..]
}

/// The writes up to a key.
fn up_to<A: Allocator>(writes: &[KeyAndWrite<A>], key: (u8, u64)) -> &[KeyAndWrite<A>]
    requires { T (is_sorted key_cmp writes.now) }
    ensures { result.now ≡ filter (λ w. is_le (key_cmp w.0 key)) writes.now }
{
    let to = writes.partition_point(|write| write.0 <= key);
    &writes[..to]
}

/// The writes of the keys that a look covers.
pub(crate) fn between<A: Allocator>(writes: &[KeyAndWrite<A>], look: Look) -> &[KeyAndWrite<A>]
    requires { T (is_sorted key_cmp writes.now) }
    ensures { result.now ≡ filter (λ write. covers look write.0) writes.now }
{
    let from = since(writes, (look.table, look.lo));
    up_to(from, (look.table, look.hi))
}
