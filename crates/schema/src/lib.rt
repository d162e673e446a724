//! A database as its programs see it: tables within limits, helpers, the words for rows. Faults of calls that may find
//! no memory stand beside them.
#![tactic(auto)]

pub use crate::schema::Schema;
pub use fault::SchemaFault;
pub use helper::{AnswerKind, ArgumentKind, Helper};
pub use laws::{
    a_look_splits_at_a_key, after_one_more_write, count_in_after_writes, count_in_changes_by_one,
    count_is_zero_where_none, each_row_is_the_schemas, first_elsewhere_is_found_in_turn,
    first_in_after_writes, first_is_least, keys_are_ordered, looks_agree,
    looks_cover_from_lo_to_hi, puts_are_what_is_put, row_at_after_write, row_at_after_writes,
    rows_are_of_bytes_and_words, rows_are_what_stands_at_each_key, rows_stay_the_schemas,
    write_at_with_write, writes_share_a_key_with_looks, writes_stay_the_schemas,
};
pub use limits::{
    MAX_ARGUMENTS, MAX_EXECUTORS, MAX_LOG, MAX_REPLICAS, MAX_TABLE, MAX_WIDTH, MAX_WINDOW,
};
pub use look::Look;
pub use or_no_memory::OrNoMemory;

mod fault;
mod helper;
mod laws;
mod limits;
mod look;
mod or_no_memory;
mod schema;
