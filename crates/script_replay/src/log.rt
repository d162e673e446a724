//! The log, and its entries.

ghost use Rattle.std.specs.Prelude.{◌≡◌, ◌<◌, find, length, nat_lt, option_map, slice_get, Some};
ghost use Rattle.byte_output.specs.Pending.{output_of};
ghost use Rattle.log_model.specs.Log.{Item};
ghost use Rattle.hex.specs.Hex.{encode_lower};
ghost use Rattle.log_entry.specs.Kind.{entry_of};
ghost use Rattle.log_entry.specs.Bytes.{entry_bytes};
ghost use Rattle.dsm_world.specs.System.{setting_of, world_of};
ghost use Rattle.report.specs.Lines.{line_text};
ghost use Rattle.script_replay.specs.Printed.{logged_entry, logged_text, log_text, entry_text};
ghost use Rattle.script_replay.specs.Acting.{Gives};

use crate::excerpt::{EXCERPT_BYTES, excerpt_of};
use crate::output::{put_bytes_label, put_digits, put_line, put_text};
use byte_output::paged::PagedOutput;
use dsm_world::World;
use log_entry::Entry;
use log_model::{a_log_only_grows, entries_suffice};
use replica::Replica;
use report::{Line, LoggedEntry};
use std::alloc::Allocator;
use std::io;
use std::io::{ErrorKind, Write};

/// Prints a line for each entry of the log.
pub(crate) fn put_log<A: Allocator + Copy, W: Write>(
    world: &World<A>,
    output: &mut PagedOutput<'_, W>,
) -> io::Result<()>
    ensures same_output { (output_of output.new).ghost_name ≡ (output_of output.old).ghost_name }
    ensures given { Gives W.contents output.old output.new result
        (log_text (setting_of world.now) (world_of world.now)) }
{
    let entries = world.log_len();
    for before in 0..entries {
        let line = logged(world, before);
        put_line(output, &line)?;
    }
    put_line(output, &Line::Log { entries })
}

/// The line of the entry that has `before` entries before it.
fn logged<A: Allocator + Copy>(world: &World<A>, before: u32) -> Line<'static>
    requires { before < length world.now.entries }
    ensures { (item : Item) → slice_get (world_of world.now).log before ≡ Some item
        → line_text result ≡ logged_text (setting_of world.now) (world_of world.now) before item }
{
    // Laws:
    a_log_only_grows();
    entries_suffice();
    world.keeps_what_was_delivered();
    let position = before + 1;
    let Some(entry) = world.entry(position) else {
        unreachable!()
    };
    let entry = logged_entry(position, entry);
    let Some(kept) = further_than(world.replicas(), before) else {
        return Line::Open(entry);
    };
    let certification = kept.verdict_at(position);
    Line::Certified {
        entry,
        compared: certification.compared,
        verdict: certification.verdict,
    }
}

/// The columns that the line of the entry at a position has in any case.
fn logged_entry<A: Allocator + Copy>(position: u32, entry: &Entry<A>) -> LoggedEntry
    ensures { result ≡ logged_entry position (entry_of entry.now) }
{
    match entry {
        Entry::Call(call) => LoggedEntry {
            position,
            procedure: call.procedure,
            snapshot: Some(call.snapshot),
            writes: call.writes.len(),
        },
        Entry::Addition(added) => LoggedEntry {
            position,
            procedure: added.number,
            snapshot: None,
            writes: 0,
        },
    }
}

/// The first of these replicas that has come further than a position.
fn further_than<A: Allocator + Copy>(replicas: &[Replica<A>], position: u32) -> Option<&Replica<A>>
    ensures { option_map (λ kept. kept.now) result ≡ find (λ kept. nat_lt position kept.position) replicas.now }
{
    for kept in replicas {
        if kept.position() > position {
            return Some(kept);
        }
    }
    None
}

/// Prints the bytes of the entry at a position, a field after the other.
pub(crate) fn put_entry<A: Allocator + Copy, W: Write>(
    world: &World<A>,
    output: &mut PagedOutput<'_, W>,
    position: u32,
) -> io::Result<()>
    ensures same_output { (output_of output.new).ghost_name ≡ (output_of output.old).ghost_name }
    ensures given { Gives W.contents output.old output.new result
        (entry_text (setting_of world.now) (world_of world.now).log position) }
{
    world.keeps_what_was_delivered();
    let Some(entry) = world.entry(position) else {
        let none = Line::Entry {
            position,
            bytes: None,
        };
        return put_line(output, &none);
    };
    put_bytes_label(output, position)?;
    put_bytes(output, entry)?;
    put_text(output, b"\n")
}

/// Gives the bytes of an entry to the output in hex, an excerpt after the other.
fn put_bytes<A: Allocator + Copy, W: Write>(
    output: &mut PagedOutput<'_, W>,
    entry: &Entry<A>,
) -> io::Result<()>
    ensures same_output { (output_of output.new).ghost_name ≡ (output_of output.old).ghost_name }
    ensures given { Gives W.contents output.old output.new result (encode_lower (entry_bytes (entry_of entry.now))) }
{
    let mut from: usize = 0;
    loop {
        let excerpt = excerpt_of(entry, from);
        put_digits(output, &excerpt)?;
        if excerpt.len() < EXCERPT_BYTES {
            return Ok(());
        }
        let Some(next) = from.checked_add(EXCERPT_BYTES) else {
            return Err(io::Error::from(ErrorKind::FileTooLarge));
        };
        from = next;
    }
}
