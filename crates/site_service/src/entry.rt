//! The answer to a byte string of the order.

ghost use Rattle.std.specs.Prelude.{◌≡◌, ◌+◌, ◌<◌, ◌^◌, false, IfOk, OnErr};
ghost use Rattle.log_entry.specs.Head.{head_of};
ghost use Rattle.site_model.specs.Standing.{SiteSetting};
ghost use Rattle.site_model.specs.Order.{Order, request_in};
ghost use Rattle.site.specs.Replica.{StandsForOrder, setting_of};
ghost use Rattle.site_service.specs.LineAnswers.{entry_answer, is_full, order_with_bytes};

use byte_output::sink::ByteSink;
use log_entry::{EntryHead, head_of};
use log_model::RequestId;
use site::Site;
use site_model::Origin;
use site_report::{append_entry_line, append_order_full_line};
use std::alloc::{AllocError, Allocator};

/// The most byte strings that an order has.
pub const MAX_POSITION: u32 = u32::MAX;

/// The most byte strings that an order has together with those that came before it.
pub const MAX_STRINGS: u64 = u64::MAX;

/// Tells whether there is no position behind so many byte strings, in an order of this origin.
fn is_full(origin: Option<Origin>, count: u32) -> bool
    ensures full { (s : SiteSetting) → s.origin ≡ origin → result ≡ is_full s count }
    ensures room { result ≡ false → count + 1 < 2 ^ 32 }
{
    let before = origin.map_or(0, |origin| origin.strings);
    count == MAX_POSITION || MAX_STRINGS - before == u64::from(count)
}

/// Takes in the byte string at the next position, and appends its outcome. Takes in nothing where the order is full.
pub(crate) fn answer_entry<A: Allocator + Copy, S: ByteSink>(
    site: Site<A>,
    sink: &mut S,
    bytes: &[u8],
) -> Result<Site<A>, AllocError>
    ensures answered { IfOk result (λ _. (order : Order) → StandsForOrder site order
        → S.appends sink.old sink.new (entry_answer (setting_of site) order bytes.now)) }
    ensures stands { IfOk result (λ next. (order : Order) → StandsForOrder site order
        → StandsForOrder next (order_with_bytes (setting_of site) order bytes.now)) }
    ensures setting { IfOk result (λ next. setting_of next ≡ setting_of site) }
    ensures nothing { OnErr result (sink.new ≡ sink.old) }
{
    let position = site.position();
    if is_full(site.origin(), position) {
        append_order_full_line(sink);
        return Ok(site);
    }
    let (site, outcome) = site.take(bytes)?;
    append_entry_line(sink, position + 1, outcome, request_in(bytes));
    Ok(site)
}

/// The request that bytes carry, where they are a call with a request.
fn request_in(bytes: &[u8]) -> Option<RequestId>
    ensures { result ≡ request_in (head_of bytes.now) }
{
    match head_of(bytes) {
        Some(EntryHead::Call(head)) => head.request,
        _ => None,
    }
}
