//! The replies of calls.

ghost use Rattle.std.specs.Prelude.{◌≡◌, List, map, slice_get};
ghost use Rattle.log_model.specs.Log.{Setting};
ghost use Rattle.log_model.specs.Entries.{Entry as ModelEntry};
ghost use Rattle.site_model.specs.Order.{reply_in, reply_to};
ghost use Rattle.site.specs.Replica.{reply_of};

use catalogue::DoneRequests;
use log_model::RequestId;
use std::alloc::Allocator;

/// The reply to a request that was done at a position: before the order, which is 0, or by the call there. The replies
/// are those of all positions.
pub fn reply_to<A: Allocator>(
    done: &DoneRequests<A>,
    replies: &[u64],
    request: Option<RequestId>,
    position: u32,
) -> u64
    ensures { (w : Setting) (entries : List ModelEntry) → done.now ≡ w.beginning.requests
        → replies.now ≡ map reply_of entries → result ≡ reply_to w entries request position }
{
    if position == 0 {
        return done.reply(request).unwrap_or(0);
    }
    reply_behind(replies, position as usize - 1)
}

/// The reply at the position behind `before` others.
fn reply_behind(replies: &[u64], before: usize) -> u64
    ensures { (entries : List ModelEntry) → replies.now ≡ map reply_of entries
        → result ≡ reply_in (slice_get entries before) }
{
    match replies.get(before) {
        Some(reply) => *reply,
        None => 0,
    }
}
