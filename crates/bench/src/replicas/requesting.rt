//! Verdicts on calls with requests, of which many are kept.

ghost use Rattle.std.specs.Prelude.{◌≡◌, ◌<◌, IfSome};

use crate::replicas::certifying::to_certify;
use crate::replicas::delivering::put_of;
use certify::Certifier;
use log_entry::ExecutedCall;
use log_model::{RequestId, Verdict};
use std::alloc::Global;

/// A put that commits, with the request of a number.
fn numbered_put(alloc: Global, session: u32, sequence: u32) -> Option<ExecutedCall>
    ensures { IfSome result (λ e. e.call.snapshot ≡ 0) }
{
    let mut call = put_of(alloc, 1, 0)?;
    call.request = Some(RequestId { session, sequence });
    Some(call)
}

/// A certifier that has kept `requests` requests. Its window is short, so that a call without one of them is stale at
/// once.
fn certifier_with(alloc: Global, requests: u32) -> Option<Certifier>
    ensures { IfSome result (λ c. c.memory.count ≡ requests) }
{
    let mut certifier = Certifier::new(alloc, 1).ok()?;
    for before in 0..requests {
        let call = numbered_put(alloc, 1, before)?;
        let prepared = certifier.prepare(&to_certify(&call)).ok()?;
        certifier.keep(before + 1, Verdict::Commit, prepared);
    }
    Some(certifier)
}

/// Asks for `times` verdicts on calls of a session, and returns the number that repeat an earlier call. The requests
/// are spread over those that are kept of session 1.
pub(crate) fn requests(alloc: Global, session: u32, kept: u32, times: u64) -> Option<u64>
    requires { kept < 4294967295 }
{
    let mut certifier = certifier_with(alloc, kept)?;
    let mut call = numbered_put(alloc, session, 0)?;
    let mut repeated = 0u64;
    for time in 0..times {
        let sequence = time
            .wrapping_mul(2_654_435_761)
            .checked_rem(u64::from(kept));
        call.request = Some(RequestId {
            session,
            sequence: sequence.unwrap_or(0) as u32,
        });
        if let Verdict::Repeated(_) = certifier.verdict(&to_certify(&call), kept + 1) {
            repeated = repeated.wrapping_add(1);
        }
    }
    Some(repeated)
}
