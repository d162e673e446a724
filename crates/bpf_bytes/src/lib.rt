//! BPF programs as bytes (RFC 9669): each program is spelled by one string of bytes, any other string has one fault.
#![tactic(auto)]

pub use decoding::decode;
pub use encoding::{append_program, byte_length, encode};
pub use fault::{DecodeCause, DecodeFault};
pub use fields::Fields;
pub use opcode::{ArithmeticCode, Opcode, SourceKind, Uses};

mod decoding;
mod encoding;
mod fault;
mod fields;
mod jumps;
mod opcode;
mod reading;
mod spelling;
