//! The answers to scans: the rows of a table from a key to another.

ghost use Rattle.site_model.specs.Order.{Order};
ghost use Rattle.site.specs.Replica.{StandsForOrder, setting_of};
ghost use Rattle.site_service.specs.LineAnswers.{scan_answer};

use crate::line::Scan;
use crate::scans::append_scanned;
use byte_output::sink::ByteSink;
use site::Site;
use site_report::{append_no_table_line, append_row_count_line};
use std::alloc::Allocator;

/// Appends the rows at the last position that a scan asks for, and their number, or that there is no such table. Takes
/// no memory.
pub(crate) fn answer_scan<A: Allocator + Copy, S: ByteSink>(
    site: &Site<A>,
    sink: &mut S,
    scan: Scan,
)
    ensures { (order : Order) → StandsForOrder site.now order
        → S.appends sink.old sink.new (scan_answer (setting_of site.now) order scan) }
{
    if !site.has_table(scan.table) {
        append_no_table_line(sink);
        return;
    }
    let rows = site.last_rows();
    let count = append_scanned(&rows, sink, scan);
    append_row_count_line(sink, site.position(), u64::from(count));
}
