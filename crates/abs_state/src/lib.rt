//! The knowledge of a program's state before an instruction: the kind of each register's value, which bytes of the
//! stack are initialised. Beside it stand the results of operations, and which bytes may be touched.
#![tactic(auto)]

pub use access::{ByteSpan, are_initialised, args_span, buffer_span, stack_span};
pub use kind::Kind;
pub use kinds::{
    is_move, is_nothing, is_number, is_pointer, moved_places, number_kind, operand_kind,
    operation_kind, table_width,
};
pub use stack_bytes::StackBytes;
pub use state::AbsState;

mod access;
mod kind;
mod kinds;
mod stack_bytes;
mod state;
