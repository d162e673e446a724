//! The lines of settings that hold for a whole order, and the line behind a dump.

ghost use Rattle.std.specs.Prelude.{◌≡◌, map};
ghost use Rattle.std.specs.List.{concat};
ghost use Rattle.site_report.specs.SettingsText.{additions_line, line_count_line, origin_line, table_line, window_line};

use crate::words::{push_number, push_wide};
use byte_output::line::{LineBuffer, push};
use byte_output::sink::ByteSink;

/// Appends the line of a window. Takes no memory.
pub fn append_window_line<S: ByteSink>(sink: &mut S, window: u32)
    ensures { S.appends sink.old sink.new (window_line window) }
{
    let mut words = LineBuffer::new();
    push(&mut words, b"window");
    push_number(&mut words, u64::from(window));
    push(&mut words, b"\n");
    sink.append(&words);
}

/// Appends the lines of tables with their widths. Takes no memory.
pub fn append_table_lines<S: ByteSink>(sink: &mut S, tables: &[(u8, u16)])
    ensures { S.appends sink.old sink.new (concat (map table_line tables.now)) }
{
    for table in tables {
        append_table_line(sink, table);
    }
}

/// Appends the line of a table.
fn append_table_line<S: ByteSink>(sink: &mut S, table: &(u8, u16))
    ensures { S.appends sink.old sink.new (table_line table.now) }
{
    let mut words = LineBuffer::new();
    push(&mut words, b"table");
    push_number(&mut words, u64::from(table.0));
    push_number(&mut words, u64::from(table.1));
    push(&mut words, b"\n");
    sink.append(&words);
}

/// Appends the line by which procedures may be added. Takes no memory.
pub fn append_additions_line<S: ByteSink>(sink: &mut S)
    ensures { S.appends sink.old sink.new additions_line }
{
    sink.append(b"additions\n");
}

/// Appends the line of the number of byte strings and of the greatest session that came before an order. Takes no
/// memory.
pub fn append_origin_line<S: ByteSink>(sink: &mut S, strings: u128, sessions: u64)
    ensures { S.appends sink.old sink.new
        (origin_line (record { strings = strings; sessions = sessions })) }
{
    let mut words = LineBuffer::new();
    push_wide(&mut words, "origin ", strings);
    push_number(&mut words, sessions);
    push(&mut words, b"\n");
    sink.append(&words);
}

/// Appends the line behind a dump: the position, and the number of lines. Takes no memory.
pub fn append_line_count_line<S: ByteSink>(sink: &mut S, position: u32, lines: u128)
    ensures { S.appends sink.old sink.new (line_count_line position lines) }
{
    let mut words = LineBuffer::new();
    push(&mut words, b"position");
    push_number(&mut words, u64::from(position));
    push_wide(&mut words, " lines ", lines);
    push(&mut words, b"\n");
    sink.append(&words);
}
