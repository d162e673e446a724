//! The laws of ranges, about the definitions alone. `n` is the number of bits.
ghost use Rattle.std.specs.Prelude.{◌≡◌, ℕ, ◌-◌, ◌^◌, ◌<◌, ◌≤◌};
ghost use Rattle.bpf_words.specs.End.{end_value, end_bits};
ghost use Rattle.bpf_words.specs.Operation.{alu};
ghost use Rattle.bpf_words.specs.declared.operation.BinaryOperation.{BinaryOperation};
ghost use Rattle.bpf_words.specs.declared.operation.BinaryOperation.TheVariants.{Mov};
ghost use Rattle.bpf_words.specs.declared.operation.ByteOrder.{ByteOrder};
ghost use Rattle.bpf_words.specs.declared.operation.EndWidth.{EndWidth};
ghost use Rattle.bpf_words.specs.declared.operation.Operation.{Operation};
ghost use Rattle.bpf_words.specs.declared.operation.Operation.TheVariants.{Binary, Neg, Movsx};
ghost use Rattle.bpf_words.specs.declared.operation.SignExtension.{SignExtension};
ghost use Rattle.interval.specs.Range.{Bounds, IsRange, IsWithin, IsInside, single, join};
ghost use Rattle.interval.specs.Table.{alu_range, end_range, up};

/// The result of an operation on members of the operands' ranges is a member of the result's range.
#[tactic(auto, using(crate::proofs::Sound::alu_sound, crate::proofs::Sound::end_sound))]
pub fn results_are_within()
    ensures alu { (n : ℕ) (op : Operation) (a b : Bounds) (x y : ℕ) → IsRange a → IsRange b
        → IsWithin a x → IsWithin b y → IsWithin (alu_range n op a b) (alu n op x y) }
    ensures end { (order : ByteOrder) (width : EndWidth) (a : Bounds) (x : ℕ)
        → IsWithin a x → IsWithin (end_range order width a) (end_value order width x) }
{}

/// The result's range isn't empty. All its numbers are words of n bits: below 2^n, and of a byte swap below 2 to the
/// power of its bits.
pub fn results_are_ranges()
    ensures ordered { (n : ℕ) (op : Operation) (a b : Bounds) → IsRange a → IsRange b
        → (alu_range n op a b).lo ≤ (alu_range n op a b).hi }
    ensures below { (n : ℕ) (op : Operation) (a b : Bounds) → IsRange a → IsRange b
        → (alu_range n op a b).hi < 2 ^ n }
    ensures end_ordered { (order : ByteOrder) (width : EndWidth) (a : Bounds)
        → (end_range order width a).lo ≤ (end_range order width a).hi }
    ensures end_below { (order : ByteOrder) (width : EndWidth) (a : Bounds)
        → (end_range order width a).hi < 2 ^ end_bits width }
{}

/// The result's range is one value, that of the operation, where each operand is one value. NEG has the destination
/// alone, MOV and MOVSX the source alone.
pub fn one_value_gives_one()
    ensures binary { (n : ℕ) (op : BinaryOperation) (x y : ℕ)
        → alu_range n (Binary op) (single x) (single y) ≡ single (alu n (Binary op) x y) }
    ensures mov { (n : ℕ) (a : Bounds) (x y : ℕ)
        → alu_range n (Binary Mov) a (single y) ≡ single (alu n (Binary Mov) x y) }
    ensures neg { (n : ℕ) (b : Bounds) (x y : ℕ)
        → alu_range n Neg (single x) b ≡ single (alu n Neg x y) }
    ensures movsx { (n : ℕ) (source : SignExtension) (a : Bounds) (x y : ℕ)
        → alu_range n (Movsx source) a (single y) ≡ single (alu n (Movsx source) x y) }
    ensures end { (order : ByteOrder) (width : EndWidth) (x : ℕ)
        → end_range order width (single x) ≡ single (end_value order width x) }
{}

/// The result of `up` is all ones in binary, isn't below the word, and is the least such number.
#[tactic(auto, using(crate::proofs::Up::up_ones, crate::proofs::Up::up_above, crate::proofs::Up::up_least,))]
pub fn up_is_least()
    ensures ones { (x : ℕ) → x < 2 ^ 64 → (k : ℕ) × (up x ≡ 2 ^ k - 1) }
    ensures above { (x : ℕ) → x < 2 ^ 64 → x ≤ up x }
    ensures least { (x k : ℕ) → x < 2 ^ 64 → x ≤ 2 ^ k - 1 → up x ≤ 2 ^ k - 1 }
{}

/// A join is a range, and has each number of either side.
pub fn join_holds_both()
    ensures range { (a b : Bounds) → IsRange a → IsRange b → IsRange (join a b) }
    ensures left { (a b : Bounds) → IsInside a (join a b) }
    ensures right { (a b : Bounds) → IsInside b (join a b) }
{}

/// A join is inside every range that both sides are inside of.
pub fn join_is_least()
    ensures { (a b r : Bounds) → IsRange a → IsRange b → IsInside a r → IsInside b r → IsInside (join a b) r }
{}
