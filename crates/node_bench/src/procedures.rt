//! The procedures that callers call, for the node and for the plain replay. Table 1 has rows of 8 bytes; the accounts
//! are at keys from 0 on.

use bpf_bytes::decode;
use bpf_verify::verify;
use catalogue::Catalogue;
use plain_replayer::PlainSetting;
use std::alloc::Global;
use test_programs::{
    ADD, COUNT, NEXT, ONE, PUT, READ, TABLES, TRANSFER, catalogue_of, setting_with,
};

/// The number of accounts.
pub(crate) const ACCOUNTS: u32 = 64;

/// The money of each account at first.
pub(crate) const MONEY: u64 = 1_000;

pub(crate) const TRANSFER_NUMBER: u16 = 1;

pub(crate) const PUT_NUMBER: u16 = 2;

pub(crate) const COUNT_NUMBER: u16 = 3;

pub(crate) const NEXT_NUMBER: u16 = 4;

pub(crate) const ONE_NUMBER: u16 = 5;

pub(crate) const ADD_NUMBER: u16 = 6;

pub(crate) const BALANCE_NUMBER: u16 = 7;

pub(crate) const LONG_NUMBER: u16 = 8;

/// r0 is 0.
const ZERO: [u8; 8] = [0xb7, 0, 0, 0, 0, 0, 0, 0];

/// r0 is one more.
const ONE_MORE: [u8; 8] = [0x07, 0, 0, 0, 1, 0, 0, 0];

const EXIT: [u8; 8] = [0x95, 0, 0, 0, 0, 0, 0, 0];

/// The procedures, each with its number, its program, and the number of words of its arguments.
static PROCEDURES: [(u16, &str, usize); 7] = [
    (TRANSFER_NUMBER, TRANSFER, 3),
    (PUT_NUMBER, PUT, 2),
    (COUNT_NUMBER, COUNT, 3),
    (NEXT_NUMBER, NEXT, 3),
    (ONE_NUMBER, ONE, 0),
    (ADD_NUMBER, ADD, 2),
    (BALANCE_NUMBER, READ, 1),
];

/// The node's catalogue. This function and those below return `None` where memory is wanting.
pub(crate) fn catalogue(alloc: Global) -> Option<Catalogue> {
    catalogue_of(alloc, &TABLES, &PROCEDURES)
}

/// The node's catalogue with one more procedure, of 4,000 instructions, which no soak calls.
pub(crate) fn long_catalogue(alloc: Global) -> Option<Catalogue> {
    let mut catalogue = catalogue(alloc)?;
    let mut bytes = Vec::new(alloc);
    bytes.extend_from_slice(&ZERO).ok()?;
    for _ in 0..3_998 {
        bytes.extend_from_slice(&ONE_MORE).ok()?;
    }
    bytes.extend_from_slice(&EXIT).ok()?;
    let code = decode(alloc, &bytes).ok()?;
    let accepted = verify(alloc, code, catalogue.schema(), 0).ok()?;
    catalogue.add(b"long", LONG_NUMBER, accepted).ok()?;
    Some(catalogue)
}

/// The same procedures for the plain replay, under a window.
pub(crate) fn setting(alloc: Global, window: u32) -> Option<PlainSetting> {
    setting_with(alloc, &PROCEDURES, window)
}
