//! The requests that were done, each with its position.

ghost use Rattle.std.specs.Prelude.{◌≡◌, ◌+◌, ◌<◌, ◌^◌, [], ◌∷◌, ◌++◌, List, length, IsSome, OnOk, OnErr};
ghost use Rattle.indexmap.specs.IndexMap.{spare};
ghost use Rattle.log_model.specs.Log.{DoneRequest, CertifiedItem, is_commit, done_at};
ghost use Rattle.certify.specs.Kept.{key_of, KeepsRequests};

use crate::ring::is_commit;
use indexmap::IndexMap;
use log_model::{RequestId, Verdict};
use std::alloc::{AllocError, Allocator};
use std::hash::{BuildHasherDefault, FoldHasher};

/// The map from a request, as one number, to the position at which it was done.
pub(crate) type Requests<A> = IndexMap<u64, u32, BuildHasherDefault<FoldHasher>, A>;

/// Returns a request as one number.
fn key_of(request: RequestId) -> u64
    ensures key { result ≡ key_of request }
    // The numbers are in the range of their type.
    ensures session { request.session < 2 ^ 32 }
    ensures sequence { request.sequence < 2 ^ 32 }
{
    u64::from(request.session) * 4_294_967_296 + u64::from(request.sequence)
}

/// Returns the position at which a request was done.
pub(crate) fn repeated_in<A: Allocator>(
    requests: &Requests<A>,
    request: Option<RequestId>,
) -> Option<u32>
    ensures { (done : List DoneRequest) (past : List CertifiedItem) → KeepsRequests requests.now.entries done past
        → result ≡ done_at done past request }
{
    let Some(request) = request else {
        return None;
    };
    match requests.get(&key_of(request)) {
        Some(position) => Some(*position),
        None => None,
    }
}

/// Notes a request that was done before the log, under the position 0.
pub(crate) fn note_done<A: Allocator>(
    requests: &mut Requests<A>,
    request: RequestId,
) -> Result<(), AllocError>
    ensures noted { OnOk result ((done : List DoneRequest) (d : DoneRequest) → d.request ≡ request
        → KeepsRequests requests.old.entries done [] → KeepsRequests requests.new.entries (done ++ d ∷ []) []) }
    ensures unchanged { OnErr result (requests.new.entries ≡ requests.old.entries) }
{
    let key = key_of(request);
    if repeated_in(requests, Some(request)).is_some() {
        return Ok(());
    }
    requests.insert(key, 0)?;
    Ok(())
}

/// Keeps the request of an item of this verdict, which stands at this position.
pub(crate) fn keep_request<A: Allocator>(
    requests: &mut Requests<A>,
    request: Option<RequestId>,
    verdict: Verdict,
    position: u32,
)
    requires room { IsSome request → 0 < spare requests.old }
    ensures { (done : List DoneRequest) (past : List CertifiedItem) (c : CertifiedItem) → length past + 1 ≡ position
        → c.verdict ≡ verdict → c.request ≡ request → KeepsRequests requests.old.entries done past
        → KeepsRequests requests.new.entries done (past ++ c ∷ []) }
{
    let Some(carried) = request else {
        return;
    };
    if !is_commit(verdict) {
        return;
    }
    let key = key_of(carried);
    if repeated_in(requests, request).is_some() {
        return;
    }
    let kept = requests.insert(key, position);
    prove!(kept.is_ok());
}
