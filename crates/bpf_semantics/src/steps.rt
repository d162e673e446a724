//! Single steps: the slot to which a step leads, the keys at which it looks, the rows that it leaves, and how far a
//! place moves.

ghost use Rattle.std.specs.Prelude.{◌≡◌, ◌≢◌, ◌⊎◌, ℕ, ℤ, ◌+◌, ◌<◌, ◌≤◌, ◌+ℤ◌, List, [], ◌∷◌, ◌++◌, length, Some, None};
ghost use Rattle.std.specs.Prelude.{IsSome};
ghost use Rattle.std.specs.FinMap.{get};
ghost use Rattle.bpf_code.specs.declared.instruction.Instruction.{Instruction};
ghost use Rattle.bpf_code.specs.declared.instruction.Instruction.TheVariants.{Call};
ghost use Rattle.bpf_code.specs.declared.instruction.Register.TheVariants.{R1, R2, R3};
ghost use Rattle.bpf_code.specs.Program.{Program, instruction_at, IsProgram};
ghost use Rattle.schema.specs.Schema.{Tables};
ghost use Rattle.schema.specs.Rows.{Key, first_in};
ghost use Rattle.schema.specs.Helper.{helper_of};
ghost use Rattle.schema.specs.declared.helper.Helper.{Helper};
ghost use Rattle.schema.specs.declared.helper.Helper.TheVariants.{RowGet, RowPut, RowDelete, RangeCount, RangeNext};
ghost use Rattle.schema.specs.declared.helper.Helper.TheVariants.{Cancel};
ghost use Rattle.bpf_semantics.specs.declared.value.Value.TheVariants.{Number, Stack, Args};
ghost use Rattle.bpf_semantics.specs.State.{State, register, past};
ghost use Rattle.bpf_semantics.specs.Helpers.{look_at, state_after_call};
ghost use Rattle.bpf_semantics.specs.Step.{Going, moved_place, step};
ghost use Rattle.bpf_semantics.specs.Path.{fall_through, jump_of};
ghost use Rattle.bpf_semantics.specs.Fit.{IsPlace, Leads, AddsAtMostOne, PutLeaves};

/// A program doesn't run off its end. An instruction begins at its first slot, behind an instruction that falls
/// through, and at the target of a jump.
pub fn a_program_does_not_run_off_its_end()
    ensures first { (p : Program) → IsProgram p → IsSome (instruction_at p 0) }
    ensures next { (p : Program) (slot n : ℕ) (i : Instruction) → IsProgram p
        → instruction_at p slot ≡ Some i → fall_through i ≡ Some n
        → IsSome (instruction_at p (slot + n)) }
    ensures jump { (p : Program) (slot n : ℕ) (i : Instruction) → IsProgram p
        → instruction_at p slot ≡ Some i → jump_of i ≡ Some n
        → IsSome (instruction_at p (slot + n)) }
{}

/// A step goes on by falling through or by its jump, and is counted. A call leaves what its helper does. No other
/// instruction looks at anything, so a step adds at most one look.
pub fn a_step_leads_on()
    ensures leads { (p : Program) (tables : Tables) (s t : State) → step p tables s ≡ Going t
        → (i : Instruction) × (instruction_at p s.slot ≡ Some i)
        × (Leads (fall_through i) s.slot t.slot ⊎ Leads (jump_of i) s.slot t.slot) }
    ensures counts { (p : Program) (tables : Tables) (s t : State) → step p tables s ≡ Going t
        → t.steps ≡ s.steps + 1 }
    ensures looks { (p : Program) (tables : Tables) (s t : State) → step p tables s ≡ Going t
        → AddsAtMostOne s.looks t.looks }
    ensures call { (p : Program) (tables : Tables) (s t : State) (n : ℤ)
        → instruction_at p s.slot ≡ Some (Call n) → step p tables s ≡ Going t
        → (h : Helper) × (u : State) × (helper_of n ≡ Some h)
        × (state_after_call tables h s ≡ Some u) × (t ≡ past 1 u) }
    ensures others { (p : Program) (tables : Tables) (s t : State) (i : Instruction)
        → instruction_at p s.slot ≡ Some i → ((n : ℤ) → i ≢ Call n)
        → step p tables s ≡ Going t → t.looks ≡ s.looks }
{}

/// A get looks at its key, and at nothing where the run wrote that key.
pub fn gets_look_at_their_key()
    ensures look { (tables : Tables) (s t : State) (table key : ℕ)
        → state_after_call tables RowGet s ≡ Some t
        → register s R1 ≡ Number table → register s R2 ≡ Number key
        → get s.writes (table, key) ≡ None → t.looks ≡ s.looks ++ look_at table key key ∷ [] }
    ensures own_write { (tables : Tables) (s t : State) (table key : ℕ)
        → state_after_call tables RowGet s ≡ Some t
        → register s R1 ≡ Number table → register s R2 ≡ Number key
        → IsSome (get s.writes (table, key)) → t.looks ≡ s.looks }
{}

/// A count looks at its interval; at nothing where the interval is empty.
pub fn counts_look_at_their_interval()
    ensures look { (tables : Tables) (s t : State) (table lo hi : ℕ)
        → state_after_call tables RangeCount s ≡ Some t → register s R1 ≡ Number table
        → register s R2 ≡ Number lo → register s R3 ≡ Number hi
        → lo ≤ hi → t.looks ≡ s.looks ++ look_at table lo hi ∷ [] }
    ensures empty { (tables : Tables) (s t : State) (table lo hi : ℕ)
        → state_after_call tables RangeCount s ≡ Some t → register s R1 ≡ Number table
        → register s R2 ≡ Number lo → register s R3 ≡ Number hi
        → hi < lo → t.looks ≡ s.looks }
{}

/// A next looks from lo to the key that it found, to hi where it found none, and at nothing where the
/// interval is empty.
pub fn nexts_look_to_what_they_find()
    ensures found { (tables : Tables) (s t : State) (table lo hi : ℕ) (k : Key) (bytes : List ℕ)
        → state_after_call tables RangeNext s ≡ Some t → register s R1 ≡ Number table
        → register s R2 ≡ Number lo → register s R3 ≡ Number hi
        → first_in (look_at table lo hi) s.rows ≡ Some (k, bytes)
        → t.looks ≡ s.looks ++ look_at table lo k.1 ∷ [] }
    ensures none { (tables : Tables) (s t : State) (table lo hi : ℕ)
        → state_after_call tables RangeNext s ≡ Some t → register s R1 ≡ Number table
        → register s R2 ≡ Number lo → register s R3 ≡ Number hi
        → first_in (look_at table lo hi) s.rows ≡ None
        → lo ≤ hi → t.looks ≡ s.looks ++ look_at table lo hi ∷ [] }
    ensures empty { (tables : Tables) (s t : State) (table lo hi : ℕ)
        → state_after_call tables RangeNext s ≡ Some t → register s R1 ≡ Number table
        → register s R2 ≡ Number lo → register s R3 ≡ Number hi
        → hi < lo → t.looks ≡ s.looks }
{}

/// The other helpers look at nothing.
pub fn writes_and_cancels_look_at_nothing()
    ensures put { (tables : Tables) (s t : State)
        → state_after_call tables RowPut s ≡ Some t → t.looks ≡ s.looks }
    ensures delete { (tables : Tables) (s t : State)
        → state_after_call tables RowDelete s ≡ Some t → t.looks ≡ s.looks }
    ensures cancel { (tables : Tables) (s t : State)
        → state_after_call tables Cancel s ≡ Some t → t.looks ≡ s.looks }
{}

/// A put leaves at its key the bytes of the table's width that its buffer held.
pub fn a_put_leaves_its_bytes()
    ensures { (tables : Tables) (s t : State) (table key width : ℕ) (place : ℤ)
        → state_after_call tables RowPut s ≡ Some t → register s R1 ≡ Number table
        → register s R2 ≡ Number key → register s R3 ≡ Stack place
        → get tables table ≡ Some width → length s.stack ≡ 512
        → (bytes : List ℕ) × PutLeaves s t table key width place bytes }
{}

/// A removal leaves no row at its key, and is a write there, whether a row stood or not.
pub fn a_removal_leaves_nothing()
    ensures row { (tables : Tables) (s t : State) (table key : ℕ)
        → state_after_call tables RowDelete s ≡ Some t → register s R1 ≡ Number table
        → register s R2 ≡ Number key → get t.rows (table, key) ≡ None }
    ensures write { (tables : Tables) (s t : State) (table key : ℕ)
        → state_after_call tables RowDelete s ≡ Some t → register s R1 ≡ Number table
        → register s R2 ≡ Number key → get t.writes (table, key) ≡ Some None }
{}

/// A place moves to each other place from -65,536 to 65,536, and no further.
pub fn places_move_so_far()
    ensures stack { (place distance : ℤ) → IsPlace (place +ℤ distance)
        → moved_place (Stack place) distance ≡ Some (Stack (place +ℤ distance)) }
    ensures args { (place distance : ℤ) → IsPlace (place +ℤ distance)
        → moved_place (Args place) distance ≡ Some (Args (place +ℤ distance)) }
    ensures no_further_stack { (place distance : ℤ)
        → IsSome (moved_place (Stack place) distance) → IsPlace (place +ℤ distance) }
    ensures no_further_args { (place distance : ℤ)
        → IsSome (moved_place (Args place) distance) → IsPlace (place +ℤ distance) }
{}
