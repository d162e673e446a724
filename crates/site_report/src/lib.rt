//! The lines that a site prints.
#![tactic(auto)]

pub use answers::{append_addition_line, append_call_line, append_entry_line};
pub use beginning::{append_procedure_lines, append_request_lines, append_row_settings};
pub use numbers::{call_refusal_number, nothing_number};
pub use settings::{
    append_additions_line, append_line_count_line, append_origin_line, append_table_lines,
    append_window_line,
};
pub use status::{
    append_fault_line, append_no_memory_line, append_no_table_line, append_order_full_line,
    append_position_line, append_row_count_line, append_row_line,
};

mod answers;
mod beginning;
mod hex_digits;
mod numbers;
mod settings;
mod status;
mod words;
