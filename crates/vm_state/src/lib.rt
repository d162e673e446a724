//! A run's state in bare words: 64-bit registers, a stack of bytes and a copy of the arguments, with no mark of what
//! a word is. A place of the stack is an address round 2^40, where the stack ends, a place of the arguments one round
//! 2^41, where they begin.
//!
//! An instruction leads from each state of the definition that it stands for, and that has a step, to the one after it.
//! Nothing is tested at run time: what lies outside stack and arguments never comes where a caller keeps the clauses.
#![tactic(auto)]

pub use laws::{
    buffers_lie_in_the_stack, holding_speaks_of_words_alone, registers_are_held, the_reply_is_r0,
};
pub use state::WordState;

mod execute;
mod flat;
mod kinds;
mod laws;
mod plain;
mod state;
mod words;
