//! Tests of entries' bytes, and of want of memory for them.

use bpf_bytes::decode;
use bpf_verify::verify;
use log_entry::{AddedProcedure, Entry, ExecutedCall, to_bytes};
use log_model::RequestId;
use row_sets::{Bytes, ReadSet, WriteSet};
use scarce::Scarce;
use schema::{Look, Schema};
use std::alloc::Global;
use std::process::Abort;
use std::sync::Arc;
use test_programs::increment_call;

/// A procedure that replies 1.
fn addition(rt: &impl Abort, alloc: Global) -> Entry {
    let code = decode(
        alloc,
        &[0xb7, 0, 0, 0, 1, 0, 0, 0, 0x95, 0, 0, 0, 0, 0, 0, 0],
    )
    .expect(rt, "the program");
    let accepted = verify(
        alloc,
        code,
        &Schema::new(alloc, &[(1, 8)]).expect(rt, "memory"),
        0,
    )
    .expect(rt, "it is accepted");
    Entry::Addition(AddedProcedure {
        name: Bytes::new(Vec::from_slice(alloc, b"one").expect(rt, "memory")),
        number: 9,
        accepted: Arc::new(alloc, accepted).expect(rt, "memory"),
    })
}

/// The increment as call 1 of a world.
fn increment(rt: &impl Abort, alloc: Global) -> Entry {
    let mut call = increment_call(alloc).expect(rt, "memory");
    call.call = 1;
    Entry::Call(call)
}

/// A range, a removal, and a row of two bytes in another table.
fn several(rt: &impl Abort, alloc: Global) -> Entry {
    let mut reads = ReadSet::new(alloc);
    reads
        .add_range(Look {
            table: 2,
            lo: 256,
            hi: u64::MAX,
        })
        .expect(rt, "memory");
    let mut writes = WriteSet::new(alloc);
    writes.put(2, 7, &[1, 2]).expect(rt, "memory");
    writes.remove(1, 513).expect(rt, "memory");
    Entry::Call(ExecutedCall {
        call: 0,
        procedure: 258,
        args: Bytes::new(Vec::new(alloc)),
        snapshot: 65_536,
        request: Some(RequestId {
            session: 7,
            sequence: 258,
        }),
        reads,
        writes,
        reply: u64::MAX,
    })
}

const INCREMENT: &str = "010000000000000000\
    0100000001001000\
    05000000000000000a00000000000000000000000a00000000000000\
    01000105000000000000000500000000000000\
    0100010500000000000000010a00000000000000";

const SEVERAL: &str = "010700000002010000\
    000000000201000000000100ffffffffffffffff\
    0100020001000000000000ffffffffffffffff\
    020001010200000000000000020700000000000000010102";

const ADDITION: &str = "020900000003\
    6f6e6510000000b7000000010000009500000000000000";

/// Asserts that an entry has these bytes, in hex.
fn has_bytes(rt: &impl Abort, alloc: Global, entry: &Entry, expected: &str) {
    let bytes = to_bytes(alloc, entry).expect(rt, "memory");
    let hex = hex::encode(alloc, &bytes).expect(rt, "memory");
    assert_eq!(rt; hex.as_str(), expected);
}

#[test]
fn entries_have_their_bytes(rt: HostRuntime) {
    let alloc = rt.alloc();
    has_bytes(&rt, alloc, &increment(&rt, alloc), INCREMENT);
    has_bytes(&rt, alloc, &several(&rt, alloc), SEVERAL);
    has_bytes(&rt, alloc, &addition(&rt, alloc), ADDITION)
}

/// Tells whether each refused growth of an entry's bytes is want of memory, and there is one.
fn may_want_memory(alloc: Global, entry: &Entry) -> bool {
    let scarce = Scarce::new(alloc);
    let failed = scarce.refuse_each(|| to_bytes(&scarce, entry).is_ok());
    failed.is_some_and(|count| count > 0)
}

#[test]
fn each_growth_refused_is_want_of_memory(rt: HostRuntime) {
    let alloc = rt.alloc();
    assert!(rt; may_want_memory(alloc, &increment(&rt, alloc)));
    assert!(rt; may_want_memory(alloc, &addition(&rt, alloc)));
}
