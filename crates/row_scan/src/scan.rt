ghost use Rattle.std.specs.Prelude.{◌≡◌, ◌∷◌, [], Some, IfSome, IfNone, false};
ghost use Rattle.std.specs.Option.{ForSome};
ghost use Rattle.std.specs.FinMap.{entries};
ghost use Rattle.schema.specs.Rows.{Rows, first_in, high_part, rows_in};
ghost use Rattle.txn_view.specs.Found.{row_found};
ghost use Rattle.row_scan.specs.Left.{rows_left};

use schema::Look;
use std::marker::Model;
use txn_view::Store;

/// A scan of the rows that a look covers, from the least key on. Contracts see the look at the keys that are left, or
/// none.
#[derive(Drop)]
pub struct RowScan {
    table: u8,
    left: Option<Look>,
    ghost of_table: { ForSome left (λ look. look.table ≡ table) },
}

impl Model for RowScan {
    ghost use Rattle.row_scan.specs.Left.{ScanState};

    ghost Value = { ScanState };

    ghost view = { λ s. record { table = s.table; left = s.left } };
}

impl RowScan {
    /// Begins a scan.
    pub fn new(look: Look) -> RowScan
        ensures { result ≡ record { table = look.table; left = Some look } }
    {
        RowScan {
            table: look.table,
            left: Some(look),
        }
    }

    /// Returns the number of the table.
    pub fn table(&self) -> u8
        ensures { result ≡ self.now.table }
    {
        self.table
    }

    /// Returns the key and the bytes of the next row, in a store that has its rows still. No later row is looked at.
    pub fn next<'a, T: Store>(&mut self, store: &'a T) -> Option<(u64, &'a [u8])>
        requires { T.is_gone store.now ≡ false }
        ensures row { IfSome result (λ row. (rows : Rows) → T.answers_from store.now rows
            → rows_left self.old.left rows ≡ ((self.old.table, row.0), row.1.now) ∷ rows_left self.new.left rows) }
        ensures end { IfNone result ((rows : Rows) → T.answers_from store.now rows
            → rows_left self.old.left rows ≡ []) }
        ensures same { IfNone result (self.new ≡ self.old) }
        ensures table { self.new.table ≡ self.old.table }
    {
        let Some(look) = self.left else {
            return None;
        };
        let Some((key, row)) = first_row(store, look) else {
            return None;
        };
        self.left = above(look, key);
        Some((key, row))
    }
}

/// The part of a look above one of its keys, and none where no key is above.
fn above(look: Look, key: u64) -> Option<Look>
    ensures rows { (rows : Rows) → rows_left result rows ≡ entries (rows_in (high_part look key) rows) }
    ensures table { ForSome result (λ part. part.table ≡ look.table) }
{
    if key >= look.hi {
        return None;
    }
    Some(Look {
        table: look.table,
        lo: key + 1,
        hi: look.hi,
    })
}

/// The first row that a look covers.
fn first_row<'a, T: Store>(store: &'a T, look: Look) -> Option<(u64, &'a [u8])>
    requires { T.is_gone store.now ≡ false }
    ensures { (rows : Rows) → T.answers_from store.now rows → row_found look.table result ≡ first_in look rows }
{
    match store.next(look) {
        Ok(found) => found,
        Err(_) => None,
    }
}
