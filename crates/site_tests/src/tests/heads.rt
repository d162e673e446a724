//! The heads of entries: a call of 84 bytes, an addition of 29, and what is neither.

use log_entry::{CallHead, EntryHead, NamedProgram, head_of};
use log_model::given_request;
use std::process::Abort;

/// A call of procedure 1 that adds 10 to row 5 of table 1, where it finds none, by request 7 1.
pub(crate) static CALL: [u8; 84] = [
    1, 7, 0, 0, 0, 1, 0, 0, 0, 0, 0, 0, 0, 1, 0, 16, 0, 5, 0, 0, 0, 0, 0, 0, 0, 10, 0, 0, 0, 0, 0,
    0, 0, 0, 0, 0, 0, 10, 0, 0, 0, 0, 0, 0, 0, 1, 0, 1, 5, 0, 0, 0, 0, 0, 0, 0, 5, 0, 0, 0, 0, 0,
    0, 0, 1, 0, 1, 5, 0, 0, 0, 0, 0, 0, 0, 1, 10, 0, 0, 0, 0, 0, 0, 0,
];

/// The number of the call's bytes that are its head.
pub(crate) const HEAD: usize = 45;

/// Procedure 9, `one`, which has no arguments and replies 1.
pub(crate) static ADDITION: [u8; 29] = [
    2, 9, 0, 0, 0, 3, 0x6f, 0x6e, 0x65, 16, 0, 0, 0, 0xb7, 0, 0, 0, 1, 0, 0, 0, 0x95, 0, 0, 0, 0,
    0, 0, 0,
];

/// Bytes of the call's head that are changed, and its request then, which is none where the bytes have no whole one.
struct Request {
    session: u8,
    sequence: u8,
    is_whole: bool,
}

static REQUESTS: [Request; 4] = [
    Request {
        session: 7,
        sequence: 1,
        is_whole: true,
    },
    Request {
        session: 0,
        sequence: 0,
        is_whole: true,
    },
    Request {
        session: 7,
        sequence: 0,
        is_whole: false,
    },
    Request {
        session: 0,
        sequence: 1,
        is_whole: false,
    },
];

fn call_of(session: u32, sequence: u32) -> EntryHead<'static> {
    EntryHead::Call(CallHead {
        request: given_request(session, sequence),
        number: 0,
        procedure: 1,
        args: &CALL[17..33],
        snapshot: 0,
        reply: 10,
    })
}

fn has_head(rt: &impl Abort, bytes: &[u8], wanted: Option<EntryHead<'_>>) {
    assert_eq!(rt; head_of(bytes), wanted);
}

#[test]
fn a_call_has_a_head_whatever_stands_behind(rt: HostRuntime) {
    for length in 0..=CALL.len() {
        let wanted = (length >= HEAD).then_some(call_of(7, 1));
        has_head(&rt, &CALL[..length], wanted);
    }
    for row in &REQUESTS {
        let mut bytes = CALL;
        bytes[1] = row.session;
        bytes[5] = row.sequence;
        let head = call_of(u32::from(row.session), u32::from(row.sequence));
        has_head(&rt, &bytes, row.is_whole.then_some(head));
    }
}

#[test]
fn an_addition_is_as_long_as_it_says(rt: HostRuntime) {
    let head = EntryHead::Addition(NamedProgram {
        number: 9,
        args_len: 0,
        name: b"one",
        program: &ADDITION[13..],
    });
    for length in 0..=ADDITION.len() {
        let wanted = (length == ADDITION.len()).then_some(head);
        has_head(&rt, &ADDITION[..length], wanted);
    }
    let mut longer = [0; 30];
    longer[..29].copy_from_slice(&ADDITION);
    has_head(&rt, &longer, None);
}

#[test]
fn no_other_byte_comes_first(rt: HostRuntime) {
    for first in [0, 3, 255] {
        let mut bytes = CALL;
        bytes[0] = first;
        has_head(&rt, &bytes, None);
    }
}
