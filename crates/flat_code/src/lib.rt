//! Programs laid out to be run: one flat instruction of 16 bytes a slot, told apart by its kind alone, with its
//! registers, its offset and its immediate in fields of their own.
#![tactic(auto)]

pub use instruction::FlatInstruction;
pub use kind::Kind;
pub use layout::lay_out;

mod arithmetic;
mod branches;
mod instruction;
mod kind;
mod layout;
mod memory;
