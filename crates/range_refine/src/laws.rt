//! The laws of refinement, about the definition alone. `n` is the number of bits.
ghost use Rattle.std.specs.Prelude.{◌≡◌, ◌≢◌, ◌<◌, ℕ, Bool, IsSomeAnd, IfSome, Some, None};
ghost use Rattle.bpf_words.specs.Condition.{holds};
ghost use Rattle.bpf_words.specs.declared.condition.Condition.{Condition};
ghost use Rattle.bpf_words.specs.declared.condition.Condition.TheVariants.{Set};
ghost use Rattle.interval.specs.Range.{Bounds, IsRange, IsWithin, IsInside, single};
ghost use Rattle.range_refine.specs.Refinement.{refinement, limit};

/// Operands of 64 bits in the ranges before an edge that follow the edge are in the ranges along it. An edge is dropped
/// only where no operands of the ranges before follow it.
#[tactic(auto, using(crate::proofs::Kept::all_kept, crate::proofs::Kept::none_follow))]
pub fn operands_along_an_edge_stay()
    ensures kept { (n : ℕ) (condition : Condition) (taken : Bool) (a b : Bounds) (x y : ℕ)
        → IsWithin a x → IsWithin b y → holds n condition x y ≡ taken
        → IsSomeAnd (refinement n condition taken a b) (λ r. IsWithin r.0 x × IsWithin r.1 y) }
    ensures none { (n : ℕ) (condition : Condition) (taken : Bool) (a b : Bounds)
        → refinement n condition taken a b ≡ None
        → (x y : ℕ) → IsWithin a x → IsWithin b y → holds n condition x y ≢ taken }
{}

/// The ranges along an edge are ranges of words, inside the ranges before the edge.
#[tactic(auto, using(crate::proofs::Inside::all_inside, crate::proofs::Inside::all_ranges))]
pub fn ranges_along_an_edge_are_inside()
    ensures inside { (n : ℕ) (condition : Condition) (taken : Bool) (a b : Bounds)
        → IsRange a → IsRange b
        → IfSome (refinement n condition taken a b) (λ r. IsInside r.0 a × IsInside r.1 b) }
    ensures range { (n : ℕ) (condition : Condition) (taken : Bool) (a b : Bounds)
        → IsRange a → IsRange b
        → IfSome (refinement n condition taken a b) (λ r. IsRange r.0 × IsRange r.1) }
{}

/// The ranges along an edge are the least, where a condition that isn't the bit test compares all numbers of the ranges
/// as they are. They are inside any two ranges that have each pair along the edge.
#[tactic(auto, using(crate::proofs::Least::all_least))]
pub fn ranges_along_an_edge_are_least()
    ensures { (n : ℕ) (condition : Condition) (taken : Bool) (a b c d : Bounds)
        → IsRange a → IsRange b
        → condition ≢ Set → a.hi < limit n condition → b.hi < limit n condition
        → ((x y : ℕ) → IsWithin a x → IsWithin b y → holds n condition x y ≡ taken
        → IsWithin c x × IsWithin d y)
        → IfSome (refinement n condition taken a b) (λ r. IsInside r.0 c × IsInside r.1 d) }
{}

/// An edge of operands of one value each is dropped exactly where these values don't follow it.
#[tactic(auto, using(crate::proofs::One::one_followed, crate::proofs::One::one_dropped))]
pub fn one_value_each_decides()
    ensures followed { (n : ℕ) (condition : Condition) (taken : Bool) (x y : ℕ)
        → holds n condition x y ≡ taken
        → refinement n condition taken (single x) (single y) ≡ Some (single x, single y) }
    ensures dropped { (n : ℕ) (condition : Condition) (taken : Bool) (x y : ℕ)
        → holds n condition x y ≢ taken
        → refinement n condition taken (single x) (single y) ≡ None }
{}
