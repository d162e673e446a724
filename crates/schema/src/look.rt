//! The keys that a call looks at.

ghost use Rattle.std.specs.Prelude.{◌≡◌};
ghost use Rattle.schema.specs.Rows.{covers};

/// The keys of a table from lo to hi, both included; none where lo is above hi.
#[derive(Clone, Copy, Debug, PartialEq, Eq)]
pub struct Look {
    pub table: u8,
    pub lo: u64,
    pub hi: u64,
}

impl Look {
    /// Tells whether the look covers a key of a table, whether or not a row stands there.
    pub fn covers(self, table: u8, key: u64) -> bool
        ensures { result ≡ covers self (table, key) }
    {
        self.table == table && self.lo <= key && key <= self.hi
    }
}
