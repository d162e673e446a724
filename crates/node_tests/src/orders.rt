use log_entry::Entry;
use order_log::Fact;
use std::alloc::Global;
use test_programs::idle_call;

mod refused;
mod threads;

/// A fact that says nothing of an entry.
struct Nothing;

impl Fact for Nothing {
    ghost shows = { λ _ _. Unit {0} };
}

/// A call at a snapshot, which its reply tells from others.
fn call_of(alloc: Global, snapshot: u32, reply: u64) -> Entry {
    let mut call = idle_call(alloc, 1, snapshot, None);
    call.reply = reply;
    Entry::Call(call)
}

/// The reply of an entry, which tells it from others, and none of an addition.
fn reply_of(entry: &Entry) -> Option<u64> {
    match entry {
        Entry::Call(call) => Some(call.reply),
        Entry::Addition(_) => None,
    }
}
