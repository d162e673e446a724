//! A plain replayer of logs: it computes what `log_model` defines, slowly on purpose.
//!
//! Begin with `replay_log` in `replay.rt`. The functions below it have each a definition of the log as their contract.
#![tactic(auto)]

pub use item::{PlainCall, PlainItem, PlainItemKind};
pub use plain_runner::{Row, Write};
pub use procedures::{procedure_by_name, procedure_by_number};
pub use replay::{CompletedReplay, replay_log};
pub use report::ItemReport;
pub use setting::{PlainProcedure, PlainSetting};

mod bits;
mod item;
mod procedures;
mod replay;
mod report;
mod rows;
mod setting;
mod verdicts;
