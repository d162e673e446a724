//! The row at a key after writes, and the test whether a written key was looked at.

ghost use Rattle.std.specs.Prelude.{◌≡◌, ◌≢◌, ◌↔◌, List, ℕ, Option, Some, None, IsTrue, IsFalse, IsSome};
ghost use Rattle.std.specs.FinMap.{get, empty};
ghost use Rattle.schema.specs.declared.look.Look.{Look};
ghost use Rattle.schema.specs.Rows.{Key, Rows, Writes, any_covers, with_write, after_write, after_writes, puts};
ghost use Rattle.schema.specs.Rows.{shares_key};

/// A write leaves at its key the row that is put, or no row where the write is a removal; the other rows stay.
pub fn row_at_after_write()
    ensures written { (rows : Rows) (k : Key) (write : Option (List ℕ))
        → get (after_write k write rows) k ≡ write }
    ensures others { (rows : Rows) (k : Key) (write : Option (List ℕ)) (q : Key)
        → q ≢ k → get (after_write k write rows) q ≡ get rows q }
{}

/// The last write of a key stands for that key among the writes; the writes of other keys stay.
pub fn write_at_with_write()
    ensures written { (writes : Writes) (k : Key) (write : Option (List ℕ))
        → get (with_write writes k write) k ≡ Some write }
    ensures others { (writes : Writes) (k : Key) (write : Option (List ℕ)) (q : Key)
        → q ≢ k → get (with_write writes k write) q ≡ get writes q }
{}

/// A written key has after writes what its write leaves; each other key has its row from before.
pub fn row_at_after_writes()
    ensures written { (writes : Writes) (rows : Rows) (k : Key) (write : Option (List ℕ))
        → get writes k ≡ Some write → get (after_writes writes rows) k ≡ write }
    ensures others { (writes : Writes) (rows : Rows) (k : Key)
        → get writes k ≡ None → get (after_writes writes rows) k ≡ get rows k }
{}

/// Writes act one after another: one more write acts on the rows after the earlier writes.
pub fn after_one_more_write()
    ensures none { (rows : Rows) → after_writes empty rows ≡ rows }
    ensures more { (writes : Writes) (k : Key) (write : Option (List ℕ)) (rows : Rows)
        → after_writes (with_write writes k write) rows
        ≡ after_write k write (after_writes writes rows) }
{}

/// The rows that are put are those of the writes that aren't removals.
pub fn puts_are_what_is_put()
    ensures { (writes : Writes) (k : Key) (bytes : List ℕ)
        → (get (puts writes) k ≡ Some bytes) ↔ (get writes k ≡ Some (Some bytes)) }
{}

/// Writes share a key with looks exactly where a look covers a key that is put or removed. They share no key exactly
/// where no look covers a written key.
pub fn writes_share_a_key_with_looks()
    ensures shared { (looks : List Look) (writes : Writes)
        → IsTrue (shares_key looks writes)
        ↔ ((k : Key) × IsTrue (any_covers looks k) × IsSome (get writes k)) }
    ensures none { (looks : List Look) (writes : Writes)
        → IsFalse (shares_key looks writes)
        ↔ ((k : Key) → IsTrue (any_covers looks k) → get writes k ≡ None) }
{}
