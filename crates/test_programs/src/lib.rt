//! Programs for tests or benchmarks, each as `dsmdb list` prints it: by its slots, and by the line of each instruction.
//! A test of `code_tests` lists each of them anew. Runs, procedures, catalogues and entries are made of them.
#![tactic(auto)]

pub use alone::{INDEX, INDEX_TOO_FAR, JUMP_ON, ONE, SKIP, STACK_WORD, STORE_WITHIN};
pub use bytes::bytes_of;
pub use catalogues::{catalogue_of, small_catalogue};
pub use entries::{EntryCase, addition_of, entries_of, entry_of, idle_call, increment_call};
pub use found::{byte_at, certification_at};
pub use listing::listing_of;
pub use programs::PROCEDURES;
pub use rows::{
    ADD, COUNT, DELETE, INCREMENT, NEXT, PUT, PUT_AND_CANCEL, PUT_AND_GET, PUT_AND_STICK, READ,
    SKEW, TRANSFER,
};
pub use runs::{RUNS, RunCase};
pub use setting::{TABLES, args_of, digit_of, procedure_of, setting_of, setting_with};
pub use texts::{RowValue, row_values, words_of};

mod alone;
mod bytes;
mod catalogues;
mod entries;
mod found;
mod instructions;
mod listing;
mod programs;
mod rows;
mod runs;
mod setting;
mod texts;
