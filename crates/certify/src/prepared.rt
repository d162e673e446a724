//! The parts of a call that will be kept.

ghost use Rattle.std.specs.Prelude.{◌≡◌, IfOk, IsSome, ◌↔◌, ℕ};
ghost use Rattle.std.specs.FinMap.{get};
ghost use Rattle.schema.specs.Rows.{Key};
ghost use Rattle.certify.specs.Kept.{IsPreparedOf};

use log_model::RequestId;
use row_sets::WriteSet;
use schema::writes_share_a_key_with_looks;
use sig_lanes::Sig;
use std::alloc::{AllocError, Allocator, Global};
use std::marker::Model;

/// The parts of an item that will be kept, in memory of their own. Contracts see the item's request, its signature and
/// writes of its keys.
#[derive(Drop)]
pub struct Prepared<A: Allocator + Copy = Global> {
    pub(crate) request: Option<RequestId>,
    pub(crate) signature: Sig,
    pub(crate) writes: WriteSet<A>,
}

impl<A: Allocator + Copy> Model for Prepared<A> {
    ghost use Rattle.certify.specs.Kept.{PreparedCall};
    ghost use Rattle.certify.specs.Codes.{prepared_code};

    ghost Value = { PreparedCall };

    ghost coded = { prepared_code };

    ghost view = { λ p. record { request = p.request; signature = p.signature; writes = p.writes } };
}

/// A removal of each written key: with looks it shares a key where the writes do.
fn removals<A: Allocator + Copy, B: Allocator + Copy>(
    alloc: A,
    writes: &WriteSet<B>,
) -> Result<WriteSet<A>, AllocError>
    ensures { IfOk result (λ copy. (k : Key) → IsSome (get copy k) ↔ IsSome (get writes.now k)) }
{
    let mut copy = WriteSet::with_room(alloc, writes.len())?;
    for (key, _) in writes.iter() {
        copy.remove(key.0, key.1)?;
    }
    Ok(copy)
}

/// Prepares what will be kept of a call that carried this request and made these writes.
pub(crate) fn prepared_of<A: Allocator + Copy, B: Allocator + Copy>(
    alloc: A,
    request: Option<RequestId>,
    writes: &WriteSet<B>,
) -> Result<Prepared<A>, AllocError>
    ensures keys { IfOk result (λ p. IsPreparedOf p writes.now) }
    ensures request { IfOk result (λ p. p.request ≡ request) }
{
    // Laws:
    writes_share_a_key_with_looks();
    let signature = Sig::of_writes(writes);
    let writes = removals(alloc, writes)?;
    Ok(Prepared {
        request,
        signature,
        writes,
    })
}
