//! A law of what is known, about the definitions alone.
ghost use Rattle.std.specs.Prelude.{◌≡◌, ◌++◌, ℕ};
ghost use Rattle.bpf_verify.specs.Flow.{Procedure, state_at, join_of, at_entry, states_from_before};

/// The knowledge before a slot is the join of the entry, at slot 0, and of all that the earlier slots send there.
#[tactic(auto, using(crate::proofs::FlowLemmas::state_is))]
pub fn what_is_known_is_what_is_sent()
    ensures { (p : Procedure) (j : ℕ) → state_at p j ≡ join_of (at_entry j ++ states_from_before p (state_at p) j j) }
{}
