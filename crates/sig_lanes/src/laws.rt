//! The laws of the bits.

ghost use Rattle.std.specs.Prelude.{◌≡◌, ◌<◌, ◌≤◌, ◌↔◌, ℕ, List, IsTrue};
ghost use Rattle.schema.specs.declared.look.Look.{Look};
ghost use Rattle.schema.specs.Rows.{Key, Writes, shares_key};
ghost use Rattle.sig_lanes.specs.Signature.{bit_of, key_count, look_sets_bit, looks_set_bit, writes_set_bit};
ghost use Rattle.sig_lanes.specs.Signature.{shares_bit};
ghost use Rattle.sig_lanes.specs.Bits.{has_bit, Meet};

/// Writes that share a key with looks share a bit with them: a test by bits alone leaves out no conflict.
pub fn sets_that_share_a_key_share_a_bit()
    ensures { (looks : List Look) (writes : Writes)
        → IsTrue (shares_key looks writes) → IsTrue (shares_bit looks writes) }
{}

/// Writes and looks share a bit exactly where some bit, one of 1,024, is set by both.
pub fn shared_bits_are_of_both()
    ensures shared { (looks : List Look) (writes : Writes)
        → IsTrue (shares_bit looks writes)
        ↔ ((bit : ℕ) × IsTrue (looks_set_bit looks bit) × IsTrue (writes_set_bit writes bit)) }
    ensures few { (k : Key) → bit_of k < 1024 }
{}

/// A look of at most 16 keys sets the bits of its keys alone, a longer one all 1,024.
pub fn looks_set_the_bits_of_their_keys()
    ensures short { (look : Look) (bit : ℕ) → key_count look ≤ 16
        → IsTrue (look_sets_bit bit look)
        ↔ ((key : ℕ) × (look.lo ≤ key) × (key ≤ look.hi) × (bit_of (look.table, key) ≡ bit)) }
    ensures long { (look : Look) (bit : ℕ) → 16 < key_count look
        → IsTrue (look_sets_bit bit look) ↔ (bit < 1024) }
{}

/// Signatures of looks and of writes meet exactly where looks and writes share a bit, so always where they share a key.
pub fn signatures_meet_where_bits_are_shared()
    ensures bits { (looks : List Look) (writes : Writes) (reads written : List ℕ)
        → ((bit : ℕ) → bit < 1024 → has_bit reads bit ≡ looks_set_bit looks bit)
        → ((bit : ℕ) → bit < 1024 → has_bit written bit ≡ writes_set_bit writes bit)
        → Meet reads written ↔ IsTrue (shares_bit looks writes) }
    ensures keys { (looks : List Look) (writes : Writes) (reads written : List ℕ)
        → ((bit : ℕ) → bit < 1024 → has_bit reads bit ≡ looks_set_bit looks bit)
        → ((bit : ℕ) → bit < 1024 → has_bit written bit ≡ writes_set_bit writes bit)
        → IsTrue (shares_key looks writes) → Meet reads written }
{
    // Laws:
    shared_bits_are_of_both();
    sets_that_share_a_key_share_a_bit();
}
