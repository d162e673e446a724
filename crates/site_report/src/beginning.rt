//! The lines of settings of what a database begins with: procedures, rows and requests.

ghost use Rattle.std.specs.Prelude.{◌≡◌, ◌<◌, ◌^◌, ◌++◌, length, map};
ghost use Rattle.std.specs.List.{concat};
ghost use Rattle.catalogue.specs.Stored.{stored, stored_procedures};
ghost use Rattle.site_report.specs.SettingsText.{hex_field, last_field, next_number, procedure_line, request_line};
ghost use Rattle.site_report.specs.SettingsText.{request_numbers, row_numbers, row_setting_line};
ghost use Rattle.bpf_bytes.specs.Spelling.{spelling};

use crate::hex_digits::{append_code_digits, append_digits};
use crate::words::push_number;
use bpf_bytes::byte_length;
use bpf_code::Code;
use byte_output::line::{LineBuffer, push};
use byte_output::sink::ByteSink;
use catalogue::{DoneRequest, ListedProcedure, ListedProcedures};
use row_sets::Row;
use std::alloc::Allocator;
use std::collections::btree_map::Values;

/// Appends bytes in hex, or `-` where there are none.
fn append_hex_field<S: ByteSink>(sink: &mut S, bytes: &[u8])
    ensures { S.appends sink.old sink.new (hex_field bytes.now) }
{
    if bytes.is_empty() {
        sink.append(b"-");
        return;
    }
    append_digits(sink, bytes);
}

/// Appends bytes in hex as the last field of a line.
fn append_last_field<S: ByteSink>(sink: &mut S, bytes: &[u8])
    ensures { S.appends sink.old sink.new (last_field bytes.now) }
{
    sink.append(b" ");
    append_hex_field(sink, bytes);
    sink.append(b"\n");
}

/// Appends the lines of procedures, and returns their number. Takes no memory.
pub fn append_procedure_lines<A: Allocator, P: Allocator, S: ByteSink>(
    sink: &mut S,
    procedures: ListedProcedures<'_, A, P>,
) -> u64
    requires few { length procedures < 2 ^ 63 }
    ensures text { S.appends sink.old sink.new (concat (map procedure_line (stored_procedures procedures.entry))) }
    ensures count { result ≡ length procedures.entry }
{
    let mut count = 0;
    for procedure in procedures {
        append_procedure_line(sink, procedure);
        count += 1;
    }
    count
}

/// Appends the line of a procedure.
fn append_procedure_line<P: Allocator, S: ByteSink>(sink: &mut S, procedure: ListedProcedure<'_, P>)
    ensures { S.appends sink.old sink.new (procedure_line (stored (record {
      name = procedure.entry.name.now;
      number = procedure.entry.number;
      accepted = procedure.entry.accepted.now;
    }))) }
{
    sink.append(b"proc ");
    sink.append(procedure.name);
    append_numbers(sink, procedure.number, procedure.accepted.args_len());
    append_last_code(sink, procedure.accepted.code());
}

/// Appends the number of a procedure and the length of its arguments.
fn append_numbers<S: ByteSink>(sink: &mut S, number: u16, args_len: u16)
    ensures { S.appends sink.old sink.new (next_number number ++ next_number args_len) }
{
    let mut words = LineBuffer::new();
    push_number(&mut words, u64::from(number));
    push_number(&mut words, u64::from(args_len));
    sink.append(&words);
}

/// Appends the bytes of a program in hex as the last field of a line.
fn append_last_code<A: Allocator, S: ByteSink>(sink: &mut S, code: &Code<A>)
    ensures { S.appends sink.old sink.new (last_field (spelling code.now)) }
{
    sink.append(b" ");
    append_code_field(sink, code);
    sink.append(b"\n");
}

/// Appends the bytes of a program in hex, or `-` where there are none.
fn append_code_field<A: Allocator, S: ByteSink>(sink: &mut S, code: &Code<A>)
    ensures { S.appends sink.old sink.new (hex_field (spelling code.now)) }
{
    if byte_length(code) == 0 {
        sink.append(b"-");
        return;
    }
    append_code_digits(sink, code);
}

/// Appends the lines of rows. Takes no memory.
pub fn append_row_settings<A: Allocator, S: ByteSink>(sink: &mut S, rows: &[Row<A>])
    ensures { S.appends sink.old sink.new (concat (map row_setting_line rows.now)) }
{
    for row in rows {
        append_row_setting(sink, row);
    }
}

/// Appends the line of a row.
fn append_row_setting<A: Allocator, S: ByteSink>(sink: &mut S, row: &Row<A>)
    ensures { S.appends sink.old sink.new (row_setting_line row.now) }
{
    append_row_numbers(sink, row.table(), row.key());
    append_last_field(sink, row.bytes());
}

/// Appends the line of a row up to its bytes.
fn append_row_numbers<S: ByteSink>(sink: &mut S, table: u8, key: u64)
    ensures { S.appends sink.old sink.new (row_numbers (table, key)) }
{
    let mut words = LineBuffer::new();
    push(&mut words, b"row");
    push_number(&mut words, u64::from(table));
    push_number(&mut words, key);
    sink.append(&words);
}

/// Appends the lines of requests that were done, and returns their number. Takes no memory.
pub fn append_request_lines<A: Allocator, S: ByteSink>(
    sink: &mut S,
    requests: Values<'_, u32, DoneRequest<A>>,
) -> u64
    requires few { length requests < 2 ^ 63 }
    ensures text { S.appends sink.old sink.new (concat (map request_line requests.entry)) }
    ensures count { result ≡ length requests.entry }
{
    let mut count = 0;
    for request in requests {
        append_request_line(sink, request);
        count += 1;
    }
    count
}

/// Appends the line of a request that was done.
fn append_request_line<A: Allocator, S: ByteSink>(sink: &mut S, done: &DoneRequest<A>)
    ensures { S.appends sink.old sink.new (request_line done.now) }
{
    append_request_numbers(sink, done);
    append_last_field(sink, done.args());
}

/// Appends the line of a request that was done up to its arguments.
fn append_request_numbers<A: Allocator, S: ByteSink>(sink: &mut S, done: &DoneRequest<A>)
    ensures { S.appends sink.old sink.new (request_numbers done.now) }
{
    let request = done.request();
    let mut words = LineBuffer::new();
    push(&mut words, b"request");
    push_number(&mut words, u64::from(request.session));
    push_number(&mut words, u64::from(request.sequence));
    push_number(&mut words, done.reply());
    push_number(&mut words, u64::from(done.procedure()));
    sink.append(&words);
}
