//! The laws of rows, writes and looks, each as a function that does nothing and has the law as its contract.

pub use looks::{
    a_look_splits_at_a_key, count_in_after_writes, count_in_changes_by_one,
    count_is_zero_where_none, first_elsewhere_is_found_in_turn, first_in_after_writes,
    first_is_least, looks_agree, looks_cover_from_lo_to_hi,
};
pub use rows::{
    each_row_is_the_schemas, keys_are_ordered, rows_are_of_bytes_and_words,
    rows_are_what_stands_at_each_key, rows_stay_the_schemas, writes_stay_the_schemas,
};
pub use writes::{
    after_one_more_write, puts_are_what_is_put, row_at_after_write, row_at_after_writes,
    write_at_with_write, writes_share_a_key_with_looks,
};

mod looks;
mod rows;
mod writes;
