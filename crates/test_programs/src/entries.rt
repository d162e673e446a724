use crate::alone::ONE;
use crate::catalogues::accepted_of;
use crate::setting::args_of;
use log_entry::{AddedProcedure, Entry, ExecutedCall};
use log_model::{RequestId, given_request};
use row_sets::{Bytes, ReadSet, WriteSet};
use schema::{Look, Schema};
use std::alloc::{AllocError, Global};
use std::sync::Arc;

/// An entry of a log that is written down.
#[derive(Clone, Copy)]
pub enum EntryCase {
    /// A call: its snapshot, the first and the last key of table 1 to which it looked, and a written key. One byte is
    /// put there, or the row is removed.
    Call(u32, u64, u64, u64, Option<u8>),
    /// A call in the same form, with a session and a sequence number in front.
    Numbered(u32, u32, u32, u64, u64, u64, Option<u8>),
    /// The name and the number of an addition. Its program is `ONE`.
    Addition(&'static [u8], u16),
}

/// A call without arguments, looks and writes.
pub fn idle_call(
    alloc: Global,
    procedure: u16,
    snapshot: u32,
    request: Option<RequestId>,
) -> ExecutedCall {
    let args = Bytes::new(Vec::new(alloc));
    let (reads, writes) = (ReadSet::new(alloc), WriteSet::new(alloc));
    ExecutedCall {
        call: 0,
        procedure,
        args,
        snapshot,
        request,
        reads,
        writes,
        reply: 0,
    }
}

/// An increment of key 5 of table 1 by 10 at snapshot 0, which found no row there.
pub fn increment_call(alloc: Global) -> Option<ExecutedCall> {
    let mut call = idle_call(alloc, 1, 0, None);
    call.args = Bytes::new(args_of(alloc, &[5, 10])?);
    call.reads.add_point(1, 5).ok()?;
    call.writes.put(1, 5, &10u64.to_le_bytes()).ok()?;
    call.reply = 10;
    Some(call)
}

/// Adds one look at table 1 and one write.
fn fill(
    call: &mut ExecutedCall,
    lo: u64,
    hi: u64,
    key: u64,
    row: Option<u8>,
) -> Result<(), AllocError> {
    call.reads.add_range(Look { table: 1, lo, hi })?;
    match row {
        Some(byte) => call.writes.put(1, key, &[byte]),
        None => call.writes.remove(1, key),
    }
}

/// An addition of a program that takes `words` words.
pub fn addition_of(
    alloc: Global,
    schema: &Schema,
    name: &[u8],
    number: u16,
    program: &str,
    words: usize,
) -> Option<Entry> {
    let accepted = accepted_of(alloc, schema, program, words)?;
    let accepted = Arc::new(alloc, accepted).ok()?;
    let name = Vec::from_slice(alloc, name).ok()?;
    Some(Entry::Addition(AddedProcedure {
        name: Bytes::new(name),
        number,
        accepted,
    }))
}

/// An entry that is written down, for these tables.
pub fn entry_of(alloc: Global, schema: &Schema, case: EntryCase) -> Option<Entry> {
    let (session, sequence, snapshot, lo, hi, key, row) = match case {
        EntryCase::Call(snapshot, lo, hi, key, row) => (0, 0, snapshot, lo, hi, key, row),
        EntryCase::Numbered(session, sequence, snapshot, lo, hi, key, row) => {
            (session, sequence, snapshot, lo, hi, key, row)
        }
        EntryCase::Addition(name, number) => {
            return addition_of(alloc, schema, name, number, ONE, 0);
        }
    };
    let mut call = idle_call(alloc, 1, snapshot, given_request(session, sequence));
    fill(&mut call, lo, hi, key, row).ok()?;
    Some(Entry::Call(call))
}

/// The entries of a log that is written down.
pub fn entries_of(alloc: Global, schema: &Schema, cases: &[EntryCase]) -> Option<Vec<Entry>> {
    let mut entries = Vec::new(alloc);
    for case in cases {
        let entry = entry_of(alloc, schema, *case)?;
        entries.push(entry).ok()?;
    }
    Some(entries)
}
