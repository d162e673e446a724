//! The lines of a site that tell neither of an entry nor of what is asked for.

ghost use Rattle.site_report.specs.Answers.{fault_line, no_memory_line, no_table_line, order_full_line, position_line};
ghost use Rattle.site_report.specs.Answers.{row_count_line, row_line};
ghost use Rattle.report.specs.Lines.{row_label};

use crate::hex_digits::append_digits;
use crate::words::{number_line, two_number_line};
use byte_output::sink::ByteSink;
use report::row_label;
use script::LineFault;

/// Appends the line of a site's position. Takes no memory.
pub fn append_position_line<S: ByteSink>(sink: &mut S, position: u32)
    ensures { S.appends sink.old sink.new (position_line position) }
{
    sink.append(&number_line("position ", u64::from(position)));
}

/// Appends the line of a row. Takes no memory.
pub fn append_row_line<S: ByteSink>(sink: &mut S, table: u8, key: u64, bytes: &[u8])
    ensures { S.appends sink.old sink.new (row_line table key bytes.now) }
{
    append_row_label(sink, table, key);
    append_digits(sink, bytes);
    sink.append(b"\n");
}

/// Appends the label in front of a row's bytes.
fn append_row_label<S: ByteSink>(sink: &mut S, table: u8, key: u64)
    ensures { S.appends sink.old sink.new (row_label table key) }
{
    sink.append(&row_label(table, key));
}

/// Appends the line behind a site's rows: its position, and the number of rows. Takes no memory.
pub fn append_row_count_line<S: ByteSink>(sink: &mut S, position: u32, rows: u64)
    ensures { S.appends sink.old sink.new (row_count_line position rows) }
{
    sink.append(&two_number_line("position ", position, " rows ", rows));
}

/// Appends the answer to a line at fault. Takes no memory.
pub fn append_fault_line<S: ByteSink>(sink: &mut S, fault: LineFault)
    ensures { S.appends sink.old sink.new (fault_line fault) }
{
    sink.append(&number_line("fault L", u64::from(fault.number())));
}

/// Appends the answer to a byte string where the order is full. Takes no memory.
pub fn append_order_full_line<S: ByteSink>(sink: &mut S)
    ensures { S.appends sink.old sink.new order_full_line }
{
    sink.append(b"fault O1\n");
}

/// Appends the answer to a scan of a table that there isn't. Takes no memory.
pub fn append_no_table_line<S: ByteSink>(sink: &mut S)
    ensures { S.appends sink.old sink.new no_table_line }
{
    sink.append(b"refused P16\n");
}

/// Appends the answer to a call or an addition that finds no memory. Takes no memory.
pub fn append_no_memory_line<S: ByteSink>(sink: &mut S)
    ensures { S.appends sink.old sink.new no_memory_line }
{
    sink.append(b"refused P9\n");
}
