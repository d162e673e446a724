//! Keys and rows of a schema.

ghost use Rattle.std.specs.Prelude.{◌≡◌, ℕ, ◌≤◌, ◌↔◌, All, List, length, Option, Some, None, IsSome};
ghost use Rattle.std.specs.Cmp.{IsTotalOrder};
ghost use Rattle.std.specs.FinMap.{get, empty, IsAntisymmetric};
ghost use Rattle.schema.specs.Schema.{Tables};
ghost use Rattle.schema.specs.Rows.{Key, key_cmp, Rows, row_at, IsKey, IsRow, AreRows, Writes, AreWrites};
ghost use Rattle.schema.specs.Rows.{with_write, after_write, after_writes};

/// Keys are in a total order, in which only equal keys tie.
pub fn keys_are_ordered()
    ensures total { IsTotalOrder key_cmp }
    ensures exact { IsAntisymmetric key_cmp }
{}

/// Two maps that have the same row, or none, at each key are equal.
pub fn rows_are_what_stands_at_each_key()
    ensures { (m n : Rows) → ((k : Key) → get m k ≡ get n k) → m ≡ n }
{}

/// A key is of a table of the schema, and at most the greatest u64. A row at a key is as wide as its table, and each of
/// its bytes is at most the greatest u8.
pub fn rows_are_of_bytes_and_words()
    ensures key { (tables : Tables) (table key : ℕ)
        → IsKey tables (table, key)
        ↔ (IsSome (get tables table) × (key ≤ 18446744073709551615)) }
    ensures row { (tables : Tables) (table key : ℕ) (bytes : List ℕ)
        → IsRow tables table key bytes
        ↔ ((get tables table ≡ Some (length bytes)) × All (λ b. b ≤ 255) bytes
        × (key ≤ 18446744073709551615)) }
{}

/// Each row that stands among rows of a schema may stand at its key. Each row that writes of a schema put may stand at
/// its key, and each removal is at a key of the schema.
pub fn each_row_is_the_schemas()
    ensures row { (tables : Tables) (rows : Rows) (table key : ℕ) (bytes : List ℕ)
        → AreRows tables rows → row_at rows table key ≡ Some bytes
        → IsRow tables table key bytes }
    ensures put { (tables : Tables) (writes : Writes) (table key : ℕ) (bytes : List ℕ)
        → AreWrites tables writes → get writes (table, key) ≡ Some (Some bytes)
        → IsRow tables table key bytes }
    ensures removed { (tables : Tables) (writes : Writes) (table key : ℕ)
        → AreWrites tables writes → get writes (table, key) ≡ Some None
        → IsKey tables (table, key) }
{}

/// Rows stay the schema's where a fitting row is put, where a row is removed, and after fitting writes.
pub fn rows_stay_the_schemas()
    ensures none { (tables : Tables) → AreRows tables empty }
    ensures put { (tables : Tables) (rows : Rows) (table key : ℕ) (bytes : List ℕ)
        → IsRow tables table key bytes → AreRows tables rows
        → AreRows tables (after_write (table, key) (Some bytes) rows) }
    ensures removed { (tables : Tables) (rows : Rows) (k : Key)
        → AreRows tables rows → AreRows tables (after_write k None rows) }
    ensures writes { (tables : Tables) (writes : Writes) (rows : Rows)
        → AreWrites tables writes → AreRows tables rows
        → AreRows tables (after_writes writes rows) }
{}

/// Writes stay the schema's where a fitting row is put, and where a key of the schema's is removed.
pub fn writes_stay_the_schemas()
    ensures none { (tables : Tables) → AreWrites tables empty }
    ensures put { (tables : Tables) (writes : Writes) (table key : ℕ) (bytes : List ℕ)
        → IsRow tables table key bytes → AreWrites tables writes
        → AreWrites tables (with_write writes (table, key) (Some bytes)) }
    ensures removed { (tables : Tables) (writes : Writes) (k : Key)
        → IsKey tables k → AreWrites tables writes
        → AreWrites tables (with_write writes k None) }
{}
