//! The keys that looks cover, the rows that they count, and the row that they find first.

ghost use Rattle.std.specs.Prelude.{◌≡◌, ℕ, ◌+◌, ◌≤◌, ◌&&◌, ◌||◌, ◌↔◌, Option, Some, None, is_some};
ghost use Rattle.std.specs.Prelude.{IsTrue, IsFalse, IsSome, List, Any, find, count_by};
ghost use Rattle.std.specs.Option.{option_or, option_map};
ghost use Rattle.std.specs.FinMap.{get, entries};
ghost use Rattle.schema.specs.declared.look.Look.{Look};
ghost use Rattle.schema.specs.Rows.{Key, Rows, covers, any_covers, rows_in, count_in, first_in, AgreeOn, IsFirst};
ghost use Rattle.schema.specs.Rows.{IsVacant};
ghost use Rattle.schema.specs.Rows.{low_part, high_part, Writes, after_write, after_writes};
ghost use Rattle.schema.specs.Rows.{puts, rows_under, rows_elsewhere, lesser_row};

/// A look covers the keys of its table from lo to hi; a list of looks covers each key that one of the looks covers.
pub fn looks_cover_from_lo_to_hi()
    ensures one { (look : Look) (k : Key)
        → IsTrue (covers look k)
        ↔ ((look.table ≡ k.0) × (look.lo ≤ k.1) × (k.1 ≤ look.hi)) }
    ensures list { (looks : List Look) (k : Key)
        → IsTrue (any_covers looks k) ↔ Any (λ look. IsTrue (covers look k)) looks }
{}

/// Two maps that agree on the keys of a look have the same rows there, the same count and the same first row.
pub fn looks_agree()
    ensures rows { (look : Look) (m n : Rows)
        → AgreeOn (covers look) m n → rows_in look m ≡ rows_in look n }
    ensures count { (look : Look) (m n : Rows)
        → AgreeOn (covers look) m n → count_in look m ≡ count_in look n }
    ensures first { (look : Look) (m n : Rows)
        → AgreeOn (covers look) m n → first_in look m ≡ first_in look n }
{}

/// The first row that a look covers is the row of the least key. No first row exists exactly where the look covers no
/// row.
pub fn first_is_least()
    ensures found { (look : Look) (rows : Rows) (k : Key) (bytes : List ℕ)
        → (first_in look rows ≡ Some (k, bytes)) ↔ IsFirst look rows k bytes }
    ensures none { (look : Look) (rows : Rows)
        → (first_in look rows ≡ None) ↔ IsVacant look rows }
{}

/// A look counts no rows exactly where it covers no row.
pub fn count_is_zero_where_none()
    ensures { (look : Look) (rows : Rows) → (count_in look rows ≡ 0) ↔ IsVacant look rows }
{}

/// A put at a covered key without a row raises a look's count by 1; a removal of a covered row lowers the count by 1.
/// Each other write leaves the count.
pub fn count_in_changes_by_one()
    ensures new { (look : Look) (rows : Rows) (k : Key) (bytes : List ℕ)
        → IsTrue (covers look k) → get rows k ≡ None
        → count_in look (after_write k (Some bytes) rows) ≡ count_in look rows + 1 }
    ensures again { (look : Look) (rows : Rows) (k : Key) (bytes : List ℕ)
        → IsSome (get rows k)
        → count_in look (after_write k (Some bytes) rows) ≡ count_in look rows }
    ensures removed { (look : Look) (rows : Rows) (k : Key)
        → IsTrue (covers look k) → IsSome (get rows k)
        → count_in look (after_write k None rows) + 1 ≡ count_in look rows }
    ensures absent { (look : Look) (rows : Rows) (k : Key)
        → get rows k ≡ None
        → count_in look (after_write k None rows) ≡ count_in look rows }
    ensures outside { (look : Look) (rows : Rows) (k : Key) (write : Option (List ℕ))
        → IsFalse (covers look k)
        → count_in look (after_write k write rows) ≡ count_in look rows }
{}

/// A look's count after writes adds up the rows that are put inside the look, and the rows there at keys that aren't
/// written. A look's count before the writes adds up the latter rows, and the rows there at written keys. The rows that
/// are put, and the rows at written keys, can be counted along the writes.
pub fn count_in_after_writes()
    ensures after { (look : Look) (writes : Writes) (rows : Rows)
        → count_in look (after_writes writes rows)
        ≡ count_in look (puts writes) + count_in look (rows_elsewhere writes rows) }
    ensures before { (look : Look) (writes : Writes) (rows : Rows)
        → count_in look rows
        ≡ count_in look (rows_under writes rows) + count_in look (rows_elsewhere writes rows) }
    ensures puts { (look : Look) (writes : Writes)
        → count_in look (puts writes)
        ≡ count_by (λ w. covers look w.0 && is_some w.1) (entries writes) }
    ensures under { (look : Look) (writes : Writes) (rows : Rows)
        → count_in look (rows_under writes rows)
        ≡ count_by (λ w. covers look w.0 && is_some (get rows w.0)) (entries writes) }
{}

/// The first row that a look finds after writes is the lesser of two rows. These are the first row that is put there,
/// and the first row there at a key that isn't written. Where one of the two is missing the other is found; where both
/// are, no row is. The first row that is put is found along the writes.
pub fn first_in_after_writes()
    ensures after { (look : Look) (writes : Writes) (rows : Rows)
        → first_in look (after_writes writes rows)
        ≡ lesser_row (first_in look (puts writes)) (first_in look (rows_elsewhere writes rows)) }
    ensures put { (look : Look) (writes : Writes)
        → option_map (λ row. (row.0, Some row.1)) (first_in look (puts writes))
        ≡ find (λ w. covers look w.0 && is_some w.1) (entries writes) }
{}

/// The first row at a key that isn't written is the look's first row, where the key of that row isn't written. Else it
/// is the first such row above that key. Without a first row there is no such row.
pub fn first_elsewhere_is_found_in_turn()
    ensures none { (look : Look) (writes : Writes) (rows : Rows)
        → first_in look rows ≡ None → first_in look (rows_elsewhere writes rows) ≡ None }
    ensures found { (look : Look) (writes : Writes) (rows : Rows) (k : Key) (bytes : List ℕ)
        → first_in look rows ≡ Some (k, bytes) → get writes k ≡ None
        → first_in look (rows_elsewhere writes rows) ≡ Some (k, bytes) }
    ensures above { (look : Look) (writes : Writes) (rows : Rows) (k : Key) (bytes : List ℕ)
        → first_in look rows ≡ Some (k, bytes) → IsSome (get writes k)
        → first_in look (rows_elsewhere writes rows)
        ≡ first_in (high_part look k.1) (rows_elsewhere writes rows) }
{}

/// A look that is split at one of its keys covers the keys that its parts cover, and counts the sum of their counts.
/// The look finds first what the low part finds, or else what the high part finds.
pub fn a_look_splits_at_a_key()
    ensures covers { (look : Look) (key : ℕ) (k : Key)
        → look.lo ≤ key → key ≤ look.hi
        → covers look k ≡ (covers (low_part look key) k || covers (high_part look key) k) }
    ensures count { (look : Look) (key : ℕ) (rows : Rows)
        → look.lo ≤ key → key ≤ look.hi
        → count_in look rows
        ≡ count_in (low_part look key) rows + count_in (high_part look key) rows }
    ensures first { (look : Look) (key : ℕ) (rows : Rows)
        → look.lo ≤ key → key ≤ look.hi
        → first_in look rows
        ≡ option_or (first_in (low_part look key) rows) (first_in (high_part look key) rows) }
{}
