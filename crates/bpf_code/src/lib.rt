//! BPF programs as instructions (RFC 9669's base and divmul groups, in this product's profile).
#![tactic(auto)]

pub use code::{Code, MAX_SLOTS};
pub use instruction::{Instruction, LoadKind, Register, SignExtendingMove, Size, Source, Width};

mod code;
mod instruction;
