//! The lines that are printed of a world, one for each answer, row and entry, and of the calls that a node takes.
#![tactic(auto)]

pub use answers::{add_line, begin_line, call_line, replica_line};
pub use laws::each_answer_has_a_line;
pub use parts::row_label;
pub use printed::{CallReport, DeliveredEntry, Line, LoggedEntry, ReplicaReport};
pub use printing::{put_bytes_label, put_hex, put_line};
pub use refusal::step_refusal_number;
pub use text::line;
pub use words::push_program_fault;

mod answers;
mod laws;
mod parts;
mod printed;
mod printing;
mod refusal;
mod text;
mod words;
