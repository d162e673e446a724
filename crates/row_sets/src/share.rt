//! The test whether a call looked at a key that another call wrote.

ghost use Rattle.std.specs.Prelude.{◌≡◌};
ghost use Rattle.schema.specs.Rows.{shares_key};

use crate::read_set::ReadSet;
use crate::write_set::WriteSet;
use std::alloc::Allocator;

/// Tells whether a written key, put or removed, lies in one of the looks. The test takes a logarithm of the writes for
/// each look.
pub fn shares_key<A: Allocator, B: Allocator + Copy>(
    reads: &ReadSet<A>,
    writes: &WriteSet<B>,
) -> bool
    ensures { result ≡ shares_key reads.now writes.now }
{
    reads.looks().iter().any(|look| writes.is_written_in(*look))
}
