//! Signatures of 1,024 bits, by which most write sets are told from a call's looks without an exact comparison.
#![tactic(auto)]

pub use block::Block;
pub use laws::{
    looks_set_the_bits_of_their_keys, sets_that_share_a_key_share_a_bit, shared_bits_are_of_both,
    signatures_meet_where_bits_are_shared,
};
pub use sig::{Sig, first_meet};

mod block;
mod lanes;
mod laws;
mod sig;
#[cfg(test)]
mod tests;
