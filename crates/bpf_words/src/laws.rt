ghost use Rattle.std.specs.Prelude.{◌≡◌, ℕ, ◌-◌, ◌%◌, ◌^◌, ◌<◌, ◌≤◌, ◌≢◌, ◌↔◌, pos, neg_ℤ, ◌≤ℤ◌, ◌<ℤ◌, not, bit_and};
ghost use Rattle.std.specs.Prelude.{IsTrue, IfSome, Some, None};
ghost use Rattle.bpf_words.specs.Condition.{holds, opposite};
ghost use Rattle.bpf_words.specs.End.{end_value, end_bits};
ghost use Rattle.bpf_words.specs.Operation.{alu};
ghost use Rattle.bpf_words.specs.Word.{signed_value, word};
ghost use Rattle.bpf_words.specs.declared.condition.Condition.{Condition};
ghost use Rattle.bpf_words.specs.declared.condition.Condition.TheVariants.{Eq, Gt, Ge, Set, Ne, Sgt, Sge, Lt, Le, Slt};
ghost use Rattle.bpf_words.specs.declared.condition.Condition.TheVariants.{Sle};
ghost use Rattle.bpf_words.specs.declared.operation.ByteOrder.{ByteOrder};
ghost use Rattle.bpf_words.specs.declared.operation.ByteOrder.TheVariants.{Little, Swap};
ghost use Rattle.bpf_words.specs.declared.operation.EndWidth.{EndWidth};
ghost use Rattle.bpf_words.specs.declared.operation.Operation.{Operation};
ghost use Rattle.bpf_words.specs.declared.operation.Operation.TheVariants.{Binary};
ghost use Rattle.bpf_words.specs.declared.operation.BinaryOperation.TheVariants.{Div, Mod, Sdiv, Smod};

/// The result of an operation is a word: below 2^64, and at 32 bits below 2^32, with zeros in the upper half.
#[tactic(auto, using(crate::proofs::Words::alu_below))]
pub fn results_are_words()
    ensures { (n : ℕ) → (op : Operation) → (a b : ℕ) → alu n op a b < 2 ^ n }
{}

/// The result of a byte swap instruction has zeros above the bits that the instruction takes.
#[tactic(auto, using(crate::proofs::Words::ended_below))]
pub fn end_is_narrow()
    ensures { (order : ByteOrder) → (width : EndWidth) → (a : ℕ)
        → end_value order width a < 2 ^ end_bits width }
{}

/// Bytes that are reversed twice are in their order again.
#[tactic(auto, using(crate::proofs::Words::reversed_twice))]
pub fn swaps_undo()
    ensures { (width : EndWidth) → (a : ℕ)
        → end_value Swap width (end_value Swap width a) ≡ end_value Little width a }
{}

/// A quotient by zero is 0, and a remainder by zero is the dividend's word.
#[tactic(auto, using(crate::proofs::Words::cut_zero), unfolding(crate::specs::Operation::alu, crate::specs::Operation::binary_value))]
pub fn division_by_zero()
    ensures quotient { (n a : ℕ) → alu n (Binary Div) a 0 ≡ 0 }
    ensures remainder { (n a : ℕ) → alu n (Binary Mod) a 0 ≡ a % 2 ^ n }
    ensures signed_quotient { (n a : ℕ) → alu n (Binary Sdiv) a 0 ≡ 0 }
    ensures signed_remainder { (n a : ℕ) → alu n (Binary Smod) a 0 ≡ a % 2 ^ n }
{}

/// The least signed number by -1 gives itself, and the remainder 0.
#[tactic(auto, unfolding(crate::specs::Operation::alu, crate::specs::Operation::binary_value))]
pub fn least_by_minus_one()
    ensures quotient64 { alu 64 (Binary Sdiv) (2 ^ 63) (2 ^ 64 - 1) ≡ 2 ^ 63 }
    ensures remainder64 { alu 64 (Binary Smod) (2 ^ 63) (2 ^ 64 - 1) ≡ 0 }
    ensures quotient32 { alu 32 (Binary Sdiv) (2 ^ 31) (2 ^ 32 - 1) ≡ 2 ^ 31 }
    ensures remainder32 { alu 32 (Binary Smod) (2 ^ 31) (2 ^ 32 - 1) ≡ 0 }
{}

/// The signed number of a word is in the type's range, and is the word's modulo 2^n.
#[tactic(auto, using(crate::proofs::Words::signed_back))]
pub fn signed_reads_words()
    ensures least { (n a : ℕ) → 0 < n → a < 2 ^ n → neg_ℤ (pos (2 ^ (n - 1))) ≤ℤ signed_value n a }
    ensures greatest { (n a : ℕ) → 0 < n → a < 2 ^ n → signed_value n a <ℤ pos (2 ^ (n - 1)) }
    ensures back { (n a : ℕ) → a < 2 ^ n → word n (signed_value n a) ≡ a }
{}

/// A condition and its opposite exclude each other: exactly one of the two holds. The opposite's opposite is the
/// condition. The bit test alone has no opposite.
#[tactic(auto, using(crate::proofs::Words::opposite_excludes, crate::proofs::Words::opposite_back, crate::proofs::Words::opposite_none))]
pub fn opposites_exclude()
    ensures excludes { (condition : Condition) → IfSome (opposite condition) (λ other.
        (n a b : ℕ) → holds n other a b ≡ not (holds n condition a b)) }
    ensures back { (condition : Condition) → IfSome (opposite condition) (λ other.
        opposite other ≡ Some condition) }
    ensures none { (condition : Condition) → (opposite condition ≡ None) ↔ (condition ≡ Set) }
{}

/// Each condition is a comparison of two words: unsigned, signed, or of the bits that are set in both.
#[tactic(auto, using(crate::proofs::Words::cut_word), unfolding(crate::specs::Condition::holds, crate::specs::Condition::comparison))]
pub fn conditions_compare()
    ensures eq { (n a b : ℕ) → a < 2 ^ n → b < 2 ^ n → IsTrue (holds n Eq a b) ↔ (a ≡ b) }
    ensures ne { (n a b : ℕ) → a < 2 ^ n → b < 2 ^ n → IsTrue (holds n Ne a b) ↔ (a ≢ b) }
    ensures gt { (n a b : ℕ) → a < 2 ^ n → b < 2 ^ n → IsTrue (holds n Gt a b) ↔ (b < a) }
    ensures ge { (n a b : ℕ) → a < 2 ^ n → b < 2 ^ n → IsTrue (holds n Ge a b) ↔ (b ≤ a) }
    ensures lt { (n a b : ℕ) → a < 2 ^ n → b < 2 ^ n → IsTrue (holds n Lt a b) ↔ (a < b) }
    ensures le { (n a b : ℕ) → a < 2 ^ n → b < 2 ^ n → IsTrue (holds n Le a b) ↔ (a ≤ b) }
    ensures sgt { (n a b : ℕ) → a < 2 ^ n → b < 2 ^ n
        → IsTrue (holds n Sgt a b) ↔ (signed_value n b <ℤ signed_value n a) }
    ensures sge { (n a b : ℕ) → a < 2 ^ n → b < 2 ^ n
        → IsTrue (holds n Sge a b) ↔ (signed_value n b ≤ℤ signed_value n a) }
    ensures slt { (n a b : ℕ) → a < 2 ^ n → b < 2 ^ n
        → IsTrue (holds n Slt a b) ↔ (signed_value n a <ℤ signed_value n b) }
    ensures sle { (n a b : ℕ) → a < 2 ^ n → b < 2 ^ n
        → IsTrue (holds n Sle a b) ↔ (signed_value n a ≤ℤ signed_value n b) }
    ensures set { (n a b : ℕ) → a < 2 ^ n → b < 2 ^ n
        → IsTrue (holds n Set a b) ↔ (bit_and a b ≢ 0) }
{}
