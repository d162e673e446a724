//! What a replica knows before its first delivery.

ghost use Rattle.std.specs.Prelude.{◌≡◌, [], IfOk};
ghost use Rattle.certify.specs.Kept.{IsMemoryOf};

use catalogue::DoneRequest;
use certify::Certifier;
use std::alloc::{AllocError, Allocator};

/// A certifier that knows these requests as done before the log.
pub(crate) fn certifier_over<A: Allocator + Copy, P: Allocator>(
    alloc: A,
    window: u32,
    done: &[DoneRequest<P>],
) -> Result<Certifier<A>, AllocError>
    ensures stands { IfOk result (λ c. IsMemoryOf c.memory done.now []) }
    ensures window { IfOk result (λ c. c.memory.window ≡ window) }
    ensures count { IfOk result (λ c. c.memory.count ≡ 0) }
{
    let mut certifier = Certifier::new(alloc, window)?;
    for one in done {
        certifier.note_done(one.request())?;
    }
    Ok(certifier)
}
