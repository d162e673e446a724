//! The rows that a scan asks for.

ghost use Rattle.std.specs.Prelude.{◌≡◌, false, length, map};
ghost use Rattle.std.specs.List.{concat};
ghost use Rattle.schema.specs.Rows.{Rows};
ghost use Rattle.site_report.specs.Answers.{row_text};
ghost use Rattle.site_service.specs.Scanned.{scanned_rows};

use crate::line::Scan;
use byte_output::sink::ByteSink;
use row_scan::RowScan;
use schema::Look;
use site_report::append_row_line;
use txn_view::Store;

/// Appends the rows that a scan asks for, and returns their number. No other row is looked at. Takes no memory.
pub fn append_scanned<T: Store, S: ByteSink>(store: &T, sink: &mut S, scan: Scan) -> u32
    requires { T.is_gone store.now ≡ false }
    ensures rows { (rows : Rows) → T.answers_from store.now rows
        → S.appends sink.old sink.new (concat (map row_text (scanned_rows scan rows))) }
    ensures count { (rows : Rows) → T.answers_from store.now rows → result ≡ length (scanned_rows scan rows) }
{
    let mut left = RowScan::new(Look {
        table: scan.table,
        lo: scan.lo,
        hi: scan.hi,
    });
    for count in 0..scan.most {
        let Some((key, row)) = left.next(store) else {
            return count;
        };
        append_row_line(sink, scan.table, key, row);
    }
    scan.most
}
