//! A store that answers from a map of rows.

use plain_runner::{Bytes, KeyMap};
use schema::{Look, first_is_least, looks_cover_from_lo_to_hi};
use std::alloc::Allocator;
use txn_view::{Gone, Store};

/// The rows of a map, or none any more.
#[derive(Drop)]
pub struct PlainStore<'a, A: Allocator> {
    pub rows: &'a KeyMap<Bytes<A>, A>,
    pub gone: bool,
}

impl<'a, A: Allocator + Clone> Store for PlainStore<'a, A> {
    ghost use Rattle.std.specs.Prelude.{◌≡◌};

    ghost answers_from = { λ s rows. rows ≡ s.rows.now };

    ghost is_gone = { λ s. s.gone };

    fn get(&self, table: u8, key: u64) -> Result<Option<&[u8]>, Gone> {
        if self.gone {
            return Err(Gone);
        }
        match self.rows.get(table, key) {
            Some(row) => Ok(Some(row.as_slice())),
            None => Ok(None),
        }
    }

    fn count(&self, look: Look) -> Result<u64, Gone> {
        if self.gone {
            return Err(Gone);
        }
        Ok(self.rows.count(look) as u64)
    }

    fn next(&self, look: Look) -> Result<Option<(u64, &[u8])>, Gone> {
        // Laws:
        first_is_least();
        looks_cover_from_lo_to_hi();
        if self.gone {
            return Err(Gone);
        }
        match self.rows.first(look) {
            Some((key, row)) => Ok(Some((key.1, row.as_slice()))),
            None => Ok(None),
        }
    }
}
