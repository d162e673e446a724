//! Stores, from which rows are read.

ghost use Rattle.std.specs.Prelude.{◌≡◌, ℕ, ◌≤◌, ◌%◌, ◌^◌, Bool, IfOk, IfSome, is_err, option_map};
ghost use Rattle.txn_view.specs.Found.{row_found};
ghost use Rattle.schema.specs.Rows.{Rows, row_at, count_in, first_in};

use schema::Look;

/// The answer of a store that has no more what is asked for.
#[derive(Clone, Copy, Debug, PartialEq, Eq, Drop)]
pub struct Gone;

/// Rows that are read, at one moment.
pub trait Store {
    /// The store answers from this map of rows.
    ghost answers_from: { Self → Rows → Type 0 };

    /// True where the store has its rows no more.
    ghost is_gone: { Self → Bool };

    /// The row of a table at a key.
    fn get(&self, table: u8, key: u64) -> Result<Option<&[u8]>, Gone>
        ensures found { (rows : Rows) → answers_from self.now rows
            → IfOk result (λ found. option_map (λ row. row.now) found ≡ row_at rows table key) }
        ensures gone { is_err result ≡ is_gone self.now };

    /// Counts the rows that a look covers, modulo 2^64.
    fn count(&self, look: Look) -> Result<u64, Gone>
        ensures counted { (rows : Rows) → answers_from self.now rows
            → IfOk result (λ count. count ≡ count_in look rows % 2 ^ 64) }
        ensures gone { is_err result ≡ is_gone self.now };

    /// The key and the row of the least key that a look covers, where there is such a row.
    fn next(&self, look: Look) -> Result<Option<(u64, &[u8])>, Gone>
        ensures found { (rows : Rows) → answers_from self.now rows
            → IfOk result (λ found.
            row_found look.table found ≡ first_in look rows) }
        ensures covered { IfOk result (λ found.
            IfSome found (λ row. (look.lo ≤ row.0) × (row.0 ≤ look.hi))) }
        ensures gone { is_err result ≡ is_gone self.now };
}

/// A store whose rows are gone, whatever they are. An instruction that looks at no row can run over such a store.
#[derive(Clone, Copy, Debug, PartialEq, Eq, Drop)]
pub struct NoStore;

impl Store for NoStore {
    ghost use Rattle.std.specs.Prelude.{true};

    ghost answers_from = { λ _ _. Unit {0} };

    ghost is_gone = { λ _. true };

    fn get(&self, _table: u8, _key: u64) -> Result<Option<&[u8]>, Gone> {
        Err(Gone)
    }

    fn count(&self, _look: Look) -> Result<u64, Gone> {
        Err(Gone)
    }

    fn next(&self, _look: Look) -> Result<Option<(u64, &[u8])>, Gone> {
        Err(Gone)
    }
}
