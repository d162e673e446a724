//! The language of scripts: how lines are read from an input, what each of them says, what they set, where a script
//! stops.
#![tactic(auto)]

pub use cause::{FaultCause, ScriptFault};
pub use fault::LineFault;
pub use input::{MAX_LINE, Next, before_lf, next_line};
pub use laws::lines_that_are_too_long_are_at_fault;
pub use lines::{LineReader, read_lines};
pub use meaning::{LineMeaning, LineResult, LineWord, read_line};
pub use procedure_fields::ProcedureFields;
pub use request_fields::RequestFields;
pub use saying::statement;
pub use settings::Settings;
pub use statements::{Action, Setting, Statement};
pub use stop::{Stop, fault_at, out_of_memory};
pub use told::tell;
pub use word::{ActionWord, SettingWord, Word};

mod beginning;
mod cause;
mod fault;
pub mod fields;
pub mod hex_field;
mod input;
mod laws;
mod lines;
mod meaning;
pub mod number;
mod procedure;
pub mod procedure_fields;
mod request_fields;
mod saying;
mod settings;
mod statements;
mod stop;
mod table;
mod told;
mod word;
