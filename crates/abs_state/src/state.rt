//! Abstract states: what is known of a state.
ghost use Rattle.std.specs.Prelude.{◌≡◌, ◌++◌, replicate, true, ◌+◌, ◌≤◌, take, drop, length};
ghost use Rattle.std.specs.List.{list_all};
ghost use Rattle.abs_state.specs.State.{abs_entry, in_both, kind_join, kind_of, state_join, with_known_answer};
ghost use Rattle.abs_state.specs.State.{with_initialised, with_kind, zip_with};

use crate::kind::Kind;
use crate::stack_bytes::StackBytes;
use bpf_code::Register;
use interval::Range;

/// An abstract state, which is what is known of a state. The kind of each register's value, r0 first, is known, and
/// which of the stack's 512 bytes, the lowest first, are initialised.
#[derive(Clone, Copy)]
pub struct AbsState {
    pub kinds: [Kind; 11],
    pub initialised: StackBytes,
}

impl AbsState {
    /// Returns what is known at entry.
    pub fn entry() -> AbsState
        ensures { result ≡ abs_entry }
    {
        let mut kinds = [Kind::Nothing; 11];
        kinds[1] = Kind::Args(0, 0);
        kinds[10] = Kind::Stack(0, 0);
        AbsState {
            kinds,
            initialised: StackBytes::none(),
        }
    }

    /// Joins another abstract state to this one: what is known then is what is known where either is.
    #[tactic(auto, unfolding(crate::specs::State::state_join))]
    pub fn join(&mut self, other: &AbsState)
        ensures { self.new ≡ state_join self.old other.now }
    {
        join_kinds(&mut self.kinds, &other.kinds);
        self.initialised.intersect(&other.initialised);
    }

    /// The kind of a register's value.
    pub fn kind(&self, register: Register) -> Kind
        ensures { result ≡ kind_of self.now register }
    {
        self.kinds[usize::from(register.number())]
    }

    /// Sets the kind of a register's value.
    pub fn set_kind(&mut self, register: Register, kind: Kind)
        ensures { self.new ≡ with_kind self.old register kind }
    {
        self.kinds[usize::from(register.number())] = kind;
    }

    /// Sets r0 to a number of the answer's range, and r1 to r5 to nothing, as a call does.
    pub fn set_answer(&mut self, answer: Range)
        ensures { self.new ≡ with_known_answer answer self.old }
    {
        self.set_kind(Register::R1, Kind::Nothing);
        self.set_kind(Register::R2, Kind::Nothing);
        self.set_kind(Register::R3, Kind::Nothing);
        self.set_kind(Register::R4, Kind::Nothing);
        self.set_kind(Register::R5, Kind::Nothing);
        self.set_kind(Register::R0, Kind::Number(answer));
    }

    /// Marks `count` bytes of the stack from an index on as initialised.
    pub fn set_initialised(&mut self, from: usize, count: usize)
        requires { from + count ≤ 512 }
        ensures { self.new ≡ with_initialised self.old from count }
    {
        self.initialised.add(from, count);
    }

    /// Tells whether `count` bytes of the stack from an index on are all initialised.
    pub fn is_initialised(&self, from: usize, count: usize) -> bool
        requires { from + count ≤ 512 }
        ensures { result ≡ list_all (λ byte. byte) (take count (drop from self.now.initialised)) }
    {
        self.initialised.has(from, count)
    }
}

fn join_kinds(all: &mut [Kind], others: &[Kind])
    requires { length all.old ≡ length others.now }
    ensures { all.new ≡ zip_with kind_join all.old others.now }
{
    for index in 0..all.len() {
        all[index] = all[index].join(others[index]);
    }
}
