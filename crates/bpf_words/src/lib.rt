//! The word operations of BPF: its arithmetic, its byte swaps and its conditions, on 64 and on 32
//! bits (RFC 9669 sections 4.1 to 4.3).
#![tactic(auto)]

pub use arithmetic::{alu32, alu64};
pub use comparison::{holds32, holds64};
pub use condition::Condition;
pub use laws::{
    conditions_compare, division_by_zero, end_is_narrow, least_by_minus_one, opposites_exclude,
    results_are_words, signed_reads_words, swaps_undo,
};
pub use operation::{BinaryOperation, ByteOrder, EndWidth, Operation, SignExtension};
pub use swap::end;

mod arithmetic;
mod comparison;
mod condition;
mod cut;
mod laws;
mod operation;
mod swap;
mod word32;
mod word64;
