//! Changes of one key among all tables, and of each key of a write set.

ghost use Rattle.std.specs.Prelude.{◌≡◌, ◌≢◌, ◌==◌, ◌<◌, ◌++◌, [], ◌∷◌, ℕ, length, is_ok, if◌then◌else◌, IfSome, OnOk};
ghost use Rattle.std.specs.Prelude.{slice_index_or, slice_set, ◌&&◌, IfOk, unwrap_or};
ghost use Rattle.std.specs.FinMap.{get};
ghost use Rattle.std.specs.Option.{option_copied};
ghost use Rattle.schema.specs.Rows.{Key};
ghost use Rattle.key_table.specs.Table.{Table, versions_at, HasRoomAt};
ghost use Rattle.rows_mv.specs.Versions.{slots_of, width_of, IsTableReserved, IsTablePut, AreOfTables, IsPrepared};
ghost use Rattle.rows_mv.specs.Versions.{HaveWidths, IsInstalled, IsPrunedAt, IsTablePruned, AreEmpty};
ghost use Rattle.rows_mv.specs.Versions.{ArePartlyPruned, IsTablePartlyPruned};

use key_table::{KeyTable, Split};
use row_sets::{Bytes, WriteSet};
use schema::Schema;
use std::alloc::{AllocError, Allocator};

/// The width of a table's rows, 0 where the schema hasn't the table.
fn row_width<B: Allocator>(schema: &Schema<B>, table: u8) -> u16
    ensures { result ≡ unwrap_or (get schema.now table) 0 }
{
    schema.width(table).unwrap_or(0)
}

/// A table without keys for each number up to the greatest that a schema's table may have.
pub fn new_tables<A: Allocator + Copy, B: Allocator>(
    alloc: A,
    schema: &Schema<B>,
) -> Result<Vec<KeyTable<A>, A>, AllocError>
    ensures tables { IfOk result (λ tables. (t : ℕ) → t < 65
        → width_of tables.items t ≡ unwrap_or (get schema.now t) 0) }
    ensures count { IfOk result (λ tables. length tables.items ≡ 65) }
    ensures none { IfOk result (λ tables. AreEmpty tables.items) }
{
    let mut tables = Vec::new(alloc);
    for number in 0..65u8 {
        tables.push(KeyTable::new(alloc, row_width(schema, number)))?;
    }
    Ok(tables)
}

fn reserve_at<A: Allocator + Copy>(
    tables: &mut Vec<KeyTable<A>, A>,
    alloc: A,
    at: usize,
    key: u64,
    split: Split,
) -> Result<(), AllocError>
    requires { at < length tables.old.items }
    ensures { (d : Table) → IsTableReserved (is_ok result) key (slice_index_or tables.old.items at d)
        (slice_index_or tables.new.items at d)
        × (tables.new.items ≡ slice_set tables.old.items at (slice_index_or tables.new.items at d)) }
{
    tables[at].reserve(alloc, key, split)
}

/// Makes room for one more version of a key. `split` says how a full page takes the key. After want of memory each key
/// has the versions it had.
pub fn reserve<A: Allocator + Copy>(
    tables: &mut Vec<KeyTable<A>, A>,
    alloc: A,
    table: usize,
    key: u64,
    split: Split,
) -> Result<(), AllocError>
    requires { table < length tables.old.items }
    ensures versions { (k : Key) → versions_at (slots_of tables.new.items k.0) k.1
        ≡ versions_at (slots_of tables.old.items k.0) k.1 }
    ensures room { OnOk result (HasRoomAt (slots_of tables.new.items table) key) }
    ensures more { (k : Key) → HasRoomAt (slots_of tables.old.items k.0) k.1
        → HasRoomAt (slots_of tables.new.items k.0) k.1 }
    ensures widths { (t : ℕ) → width_of tables.new.items t ≡ width_of tables.old.items t }
    ensures count { length tables.new.items ≡ length tables.old.items }
{
    reserve_at(tables, alloc, table, key, split)
}

fn put_at<A: Allocator>(
    tables: &mut Vec<KeyTable<A>, A>,
    at: usize,
    key: u64,
    position: u32,
    row: Option<&[u8]>,
)
    requires at { at < length tables.old.items }
    requires room { (d : Table) → HasRoomAt (slice_index_or tables.old.items at d).slots key }
    requires width { (d : Table) → IfSome row (λ r. length r.now ≡ (slice_index_or tables.old.items at d).width) }
    ensures { (d : Table)
        → IsTablePut key position (option_copied row.entry) (slice_index_or tables.old.items at d)
        (slice_index_or tables.new.items at d)
        × (tables.new.items ≡ slice_set tables.old.items at (slice_index_or tables.new.items at d)) }
{
    tables[at].push(key, position, row);
}

/// Adds one version of a key.
pub fn put<A: Allocator>(
    tables: &mut Vec<KeyTable<A>, A>,
    table: usize,
    key: u64,
    position: u32,
    row: Option<&[u8]>,
)
    requires table { table < length tables.old.items }
    requires room { (d : Table) → HasRoomAt (slice_index_or tables.old.items table d).slots key }
    requires width { (d : Table) → IfSome row (λ r. length r.now ≡ (slice_index_or tables.old.items table d).width) }
    ensures versions { (k : Key) → versions_at (slots_of tables.new.items k.0) k.1 ≡ (if (table == k.0) && (key == k.1)
        then versions_at (slots_of tables.old.items k.0) k.1
        ++ record { position = position; row = option_copied row.entry } ∷ []
        else versions_at (slots_of tables.old.items k.0) k.1) }
    ensures room { (k : Key) → k ≢ (table, key)
        → HasRoomAt (slots_of tables.old.items k.0) k.1 → HasRoomAt (slots_of tables.new.items k.0) k.1 }
    ensures widths { (t : ℕ) → width_of tables.new.items t ≡ width_of tables.old.items t }
    ensures count { length tables.new.items ≡ length tables.old.items }
{
    put_at(tables, table, key, position, row);
}

/// Makes room for one more version of each written key. After want of memory each key has the versions it had.
pub fn reserve_each<A: Allocator + Copy, B: Allocator + Copy>(
    tables: &mut Vec<KeyTable<A>, A>,
    alloc: A,
    writes: &WriteSet<B>,
) -> Result<(), AllocError>
    requires { AreOfTables writes.now tables.old.items }
    ensures versions { (k : Key) → versions_at (slots_of tables.new.items k.0) k.1
        ≡ versions_at (slots_of tables.old.items k.0) k.1 }
    ensures prepared { OnOk result (IsPrepared writes.now tables.new.items) }
    ensures widths { (t : ℕ) → width_of tables.new.items t ≡ width_of tables.old.items t }
    ensures count { length tables.new.items ≡ length tables.old.items }
{
    for (key, _) in writes.iter() {
        reserve(tables, alloc, usize::from(key.0), key.1, Split::Halves)?;
    }
    Ok(())
}

/// The bytes of a write.
fn row_of<A: Allocator>(write: &Option<Bytes<A>>) -> Option<&[u8]>
    ensures { option_copied result ≡ write.now }
{
    match write {
        Some(row) => Some(row.as_slice()),
        None => None,
    }
}

/// Adds one version of each written key, at a position. Takes no memory.
pub fn put_each<A: Allocator, B: Allocator + Copy>(
    tables: &mut Vec<KeyTable<A>, A>,
    position: u32,
    writes: &WriteSet<B>,
)
    requires tables { AreOfTables writes.now tables.old.items }
    requires prepared { IsPrepared writes.now tables.old.items }
    requires widths { HaveWidths writes.now tables.old.items }
    ensures installed { IsInstalled position writes.now tables.old.items tables.new.items }
    ensures widths { (t : ℕ) → width_of tables.new.items t ≡ width_of tables.old.items t }
    ensures count { length tables.new.items ≡ length tables.old.items }
{
    for (key, write) in writes.iter() {
        put(tables, usize::from(key.0), key.1, position, row_of(write));
    }
}

fn prune_at<A: Allocator>(tables: &mut Vec<KeyTable<A>, A>, at: usize, horizon: u32)
    requires { at < length tables.old.items }
    ensures { (d : Table) → IsTablePruned horizon (slice_index_or tables.old.items at d)
        (slice_index_or tables.new.items at d)
        × (tables.new.items ≡ slice_set tables.old.items at (slice_index_or tables.new.items at d)) }
{
    tables[at].prune(horizon);
}

/// The place at which pruning goes on: the page of a table in which a key stands or would stand.
#[derive(Clone, Copy)]
pub struct Place {
    table: usize,
    key: u64,
}

impl Place {
    /// The first page of all.
    pub fn first() -> Place {
        Place { table: 0, key: 0 }
    }

    /// The place behind a page of a table: the page of a key, or without a key the first page of the next table.
    fn behind(table: usize, key: Option<u64>) -> Place {
        match key {
            Some(key) => Place { table, key },
            None => Place {
                table: table.saturating_add(1),
                key: 0,
            },
        }
    }

    /// The key at which pruning goes on in this table or in a later one.
    fn key_in(self, table: usize) -> u64 {
        if table == self.table { self.key } else { 0 }
    }
}

/// The number of the first table, from `from` on, that has keys; else the number of tables.
fn first_with_keys<A: Allocator>(tables: &[KeyTable<A>], from: usize) -> usize {
    for at in from..tables.len() {
        if tables[at].has_keys() {
            return at;
        }
    }
    tables.len()
}

fn prune_page_at<A: Allocator>(
    tables: &mut Vec<KeyTable<A>, A>,
    at: usize,
    key: u64,
    horizon: u32,
) -> Option<u64>
    requires { at < length tables.old.items }
    ensures { (d : Table) → IsTablePartlyPruned horizon (slice_index_or tables.old.items at d)
        (slice_index_or tables.new.items at d)
        × (tables.new.items ≡ slice_set tables.old.items at (slice_index_or tables.new.items at d)) }
{
    tables[at].prune_page(key, horizon)
}

/// Drops, in the page of keys at a place, the versions that no position from the horizon on sees. Answers the place
/// behind the page, or none where no keys stand from this place on. Takes no memory.
pub fn prune_page<A: Allocator>(
    tables: &mut Vec<KeyTable<A>, A>,
    place: Place,
    horizon: u32,
) -> Option<Place>
    ensures versions { ArePartlyPruned horizon tables.old.items tables.new.items }
    ensures widths { (t : ℕ) → width_of tables.new.items t ≡ width_of tables.old.items t }
    ensures count { length tables.new.items ≡ length tables.old.items }
{
    let all: &[KeyTable<A>] = tables;
    let table = first_with_keys(all, place.table);
    if table >= all.len() {
        return None;
    }
    let next = prune_page_at(tables, table, place.key_in(table), horizon);
    Some(Place::behind(table, next))
}

/// Drops from each key the versions that no position from the horizon on sees. Takes no memory.
pub fn prune_each<A: Allocator>(tables: &mut Vec<KeyTable<A>, A>, horizon: u32)
    ensures versions { IsPrunedAt horizon tables.old.items tables.new.items }
    ensures widths { (t : ℕ) → width_of tables.new.items t ≡ width_of tables.old.items t }
    ensures count { length tables.new.items ≡ length tables.old.items }
{
    let all: &[KeyTable<A>] = tables;
    let count = all.len();
    for at in 0..count {
        prune_at(tables, at, horizon);
    }
}
