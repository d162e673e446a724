//! Room for few items.

ghost use Rattle.std.specs.Prelude.{◌≡◌};

use std::alloc::{AllocError, Allocator};

/// Takes room where none is left: for one item at first, and then twice as much each time. A call that looks at one key
/// and writes that key keeps no more room than this.
pub(crate) fn take_room<T, A: Allocator>(items: &mut Vec<T, A>) -> Result<(), AllocError>
    ensures { items.new.items ≡ items.old.items }
{
    if items.len() == items.capacity() {
        items.reserve_exact(items.len().max(1))?;
    }
    Ok(())
}
