//! The answer of the rows that there are.

ghost use Rattle.std.specs.Prelude.{◌≡◌, map, OnErr, OnOk};
ghost use Rattle.std.specs.List.{concat};
ghost use Rattle.site_model.specs.Order.{Order};
ghost use Rattle.site.specs.Replica.{StandsForOrder, setting_of};
ghost use Rattle.site_report.specs.Answers.{row_text};
ghost use Rattle.site_service.specs.LineAnswers.{rows_answer};

use byte_output::sink::ByteSink;
use row_sets::Row;
use site::Site;
use site_report::{append_row_count_line, append_row_line};
use std::alloc::{AllocError, Allocator};

/// Appends the rows at the last position, in the order of tables and keys, and their number.
pub(crate) fn answer_rows<A: Allocator + Copy, S: ByteSink>(
    alloc: A,
    site: &Site<A>,
    sink: &mut S,
) -> Result<(), AllocError>
    ensures answered { OnOk result ((order : Order) → StandsForOrder site.now order
        → S.appends sink.old sink.new (rows_answer (setting_of site.now) order)) }
    ensures nothing { OnErr result (sink.new ≡ sink.old) }
{
    let rows = site.rows(alloc)?;
    append_rows(sink, &rows);
    append_row_count_line(sink, site.position(), rows.len() as u64);
    Ok(())
}

/// Appends the lines of rows.
fn append_rows<A: Allocator, S: ByteSink>(sink: &mut S, rows: &[Row<A>])
    ensures { S.appends sink.old sink.new (concat (map row_text rows.now)) }
{
    for row in rows {
        append_row(sink, row);
    }
}

/// Appends the line of a row.
fn append_row<A: Allocator, S: ByteSink>(sink: &mut S, row: &Row<A>)
    ensures { S.appends sink.old sink.new (row_text row.now) }
{
    append_row_line(sink, row.table(), row.key(), row.bytes());
}
