//! A plain runner of programs: it computes what `bpf_semantics` defines, slowly on purpose.
//!
//! Begin with `run_program` in `run.rt`. `step.rt`, with `calls.rt` and `memory.rt` below it, has a function for each
//! definition of a step, each with that definition as its contract.
#![tactic(auto)]

pub use key_map::KeyMap;
pub use row_sets::{Bytes, Keyed, Row, Write};
pub use run::{CompletedRun, run_program};

mod calls;
mod key_map;
mod memory;
mod run;
mod state;
mod step;
mod value;
