//! The settings of a database that goes on from a site's position.

ghost use Rattle.std.specs.Prelude.{◌≡◌, ◌≤◌, ◌^◌, length, OnErr, OnOk};
ghost use Rattle.std.specs.List.{concat};
ghost use Rattle.std.specs.FinMap.{entries};
ghost use Rattle.log_model.specs.Log.{rows_after};
ghost use Rattle.site_model.specs.Next.{beginning_behind, next_origin, next_setting};
ghost use Rattle.site_model.specs.Order.{Order, order_log};
ghost use Rattle.site.specs.Replica.{StandsForOrder, setting_of};
ghost use Rattle.site_report.specs.SettingsText.{additions_lines, beginning_lines, first_lines, origin_lines};
ghost use Rattle.site_service.specs.LineAnswers.{dump_answer};

use byte_output::sink::ByteSink;
use row_sets::Row;
use site::Site;
use site_report::{
    append_additions_line, append_line_count_line, append_origin_line, append_procedure_lines,
    append_request_lines, append_row_settings, append_table_lines, append_window_line,
};
use std::alloc::{AllocError, Allocator};

/// Appends the settings of a database that goes on from the last position, and behind them that position and the number
/// of their lines.
pub(crate) fn answer_dump<A: Allocator + Copy, S: ByteSink>(
    alloc: A,
    site: &Site<A>,
    sink: &mut S,
) -> Result<(), AllocError>
    ensures answered { OnOk result ((order : Order) → StandsForOrder site.now order
        → S.appends sink.old sink.new (dump_answer (setting_of site.now) order)) }
    ensures nothing { OnErr result (sink.new ≡ sink.old) }
{
    let rows = site.rows(alloc)?;
    let first = append_first_lines(site, sink);
    let beginning = append_beginning_lines(site, &rows, sink);
    append_line_count_line(sink, site.position(), first + beginning);
    Ok(())
}

/// Appends the lines of settings but for those of what the database begins with. Returns their number.
fn append_first_lines<A: Allocator + Copy, S: ByteSink>(site: &Site<A>, sink: &mut S) -> u128
    ensures text { (order : Order) → StandsForOrder site.now order
        → S.appends sink.old sink.new (concat (first_lines (next_setting (setting_of site.now) order))) }
    ensures count { (order : Order) → StandsForOrder site.now order
        → result ≡ length (first_lines (next_setting (setting_of site.now) order)) }
    ensures few { result ≤ 2 ^ 65 }
{
    let tables = site.table_list();
    append_window_line(sink, site.window());
    append_table_lines(sink, tables);
    let additions = append_additions(sink, site.takes_additions());
    let origin = append_next_origin(site, sink);
    1 + (tables.len() as u128 + (additions + origin))
}

/// Appends the line by which procedures may be added, where they may be. Returns the number of lines.
fn append_additions<S: ByteSink>(sink: &mut S, takes_additions: bool) -> u128
    ensures text { S.appends sink.old sink.new (concat (additions_lines takes_additions)) }
    ensures count { result ≡ length (additions_lines takes_additions) }
    ensures few { result ≤ 1 }
{
    if !takes_additions {
        return 0;
    }
    append_additions_line(sink);
    1
}

/// Appends the line of what came before the next order, where orders open sessions. Returns the number of lines.
fn append_next_origin<A: Allocator + Copy, S: ByteSink>(site: &Site<A>, sink: &mut S) -> u128
    ensures text { (order : Order) → StandsForOrder site.now order
        → S.appends sink.old sink.new (concat (origin_lines (next_origin (setting_of site.now) order))) }
    ensures count { (order : Order) → StandsForOrder site.now order
        → result ≡ length (origin_lines (next_origin (setting_of site.now) order)) }
    ensures few { result ≤ 1 }
{
    let Some(origin) = site.origin() else {
        return 0;
    };
    let strings = u128::from(origin.strings) + u128::from(site.position());
    let sessions = u64::from(origin.sessions) + u64::from(site.sessions().opened);
    append_origin_line(sink, strings, sessions);
    1
}

/// Appends the lines of what the next database begins with: the procedures, the rows, given in the order of tables and
/// keys, and the last request of each session. Returns the number of lines.
fn append_beginning_lines<A: Allocator + Copy, S: ByteSink>(
    site: &Site<A>,
    rows: &[Row<A>],
    sink: &mut S,
) -> u128
    ensures text { (order : Order) → StandsForOrder site.now order
        → rows.now ≡ entries (rows_after (setting_of site.now).setting (order_log (setting_of site.now) order) (length order))
        → S.appends sink.old sink.new (concat (beginning_lines (beginning_behind (setting_of site.now) order))) }
    ensures count { (order : Order) → StandsForOrder site.now order
        → rows.now ≡ entries (rows_after (setting_of site.now).setting (order_log (setting_of site.now) order) (length order))
        → result ≡ length (beginning_lines (beginning_behind (setting_of site.now) order)) }
    ensures few { result ≤ 2 ^ 66 }
{
    let procedures = append_procedure_lines(sink, site.procedures().list());
    append_row_settings(sink, rows);
    let requests = append_request_lines(sink, site.sessions().lasts.requests());
    u128::from(procedures) + (rows.len() as u128 + u128::from(requests))
}
