//! Calls that a caller asks for together at a replica. Executing threads take them one by one.

ghost use Rattle.std.specs.Prelude.{◌≡◌, IfSome};
ghost use Rattle.node_calls.specs.Answer.{IsAnswer};

use crate::reply::{CallRequest, Reply};
use crossbeam_utils::sync::EventCount;
use locked_replica::LogSetting;
use node_calls::{Answer, Asked, LOOKS, SPINS, pause};
use order_log::Seen;
use std::alloc::{AllocError, Allocator, Global};
use std::mem;
use std::sync::atomic::AtomicUsize;
use std::sync::atomic::Ordering::SeqCst;
use std::sync::{Mutex, Wait};
use tallies::Ledgers;

/// The place of a call among those that were asked for together.
#[derive(Drop)]
enum Place<J: LogSetting + Ledgers, P: Allocator + Copy> {
    /// No thread has taken the call.
    Asked(Asked<P>),
    /// A thread has taken the call, or the caller the reply.
    Taken,
    Replied(Reply<J, P>),
}

/// A call that an executing thread has taken.
#[derive(Drop)]
pub(crate) struct TakenCall<P: Allocator + Copy> {
    pub(crate) asked: Asked<P>,
    /// The place of the call, where the reply goes, from 0 on.
    pub(crate) place: usize,
}

/// Calls that a caller asks for together at a replica. Executing threads take them one by one, so that none waits
/// behind another while a thread is idle. The last reply wakes the caller.
#[derive(Drop)]
pub struct Calls<J: LogSetting + Ledgers, P: Allocator + Copy = Global> {
    places: Vec<Mutex<Place<J, P>>, P>,
    /// The first place whose call no thread has taken.
    next: AtomicUsize,
    /// The number of calls without a reply.
    open: AtomicUsize,
    bell: EventCount,
}

impl<J: LogSetting + Ledgers, P: Allocator + Copy> Calls<J, P> {
    /// Copies what is asked for. Asks for nothing yet.
    pub fn new(alloc: P, requests: &[CallRequest<'_>]) -> Result<Calls<J, P>, AllocError> {
        let mut places = Vec::with_capacity(alloc, requests.len())?;
        for request in requests {
            places.push(Mutex::new(Place::Asked(request.asked(alloc)?)))?;
        }
        let count = places.len();
        Ok(Calls {
            places,
            next: AtomicUsize::new(0),
            open: AtomicUsize::new(count),
            bell: EventCount::new(),
        })
    }

    /// Takes a call that no thread has taken.
    pub(crate) fn take<R: Wait>(&self, rt: &R) -> Option<TakenCall<P>> {
        if self.next.load(SeqCst) >= self.places.len() {
            return None;
        }
        let place = self.next.fetch_add(1, SeqCst);
        let mut locked = self.places.get(place)?.lock(rt);
        match mem::replace(&mut *locked, Place::Taken) {
            Place::Asked(asked) => Some(TakenCall { asked, place }),
            Place::Taken | Place::Replied(_) => None,
        }
    }

    /// Puts a reply in its place. The last one wakes the caller.
    pub(crate) fn reply<R: Wait>(&self, rt: &R, place: usize, reply: Reply<J, P>) {
        if let Some(at) = self.places.get(place) {
            *at.lock(rt) = Place::Replied(reply);
        }
        if self.open.fetch_sub(1, SeqCst) == 1 {
            self.bell.notify_all();
        }
    }

    /// Tells whether several calls were asked for, and no thread has taken one.
    fn are_several_untaken(&self) -> bool {
        self.places.len() > 1 && self.next.load(SeqCst) == 0
    }

    /// Waits for all replies. Looks for them some times before it sleeps, and fewer times where several calls stand
    /// untaken: those of other callers come first then.
    pub fn wait<R: Wait>(&self, rt: &R) {
        for look in 0..LOOKS {
            if self.open.load(SeqCst) == 0 {
                return;
            }
            if look >= SPINS && self.are_several_untaken() {
                break;
            }
            pause(look);
        }
        for _ in rt.forever() {
            let key = self.bell.prepare_wait();
            if self.open.load(SeqCst) == 0 {
                return;
            }
            key.wait(rt);
        }
    }

    /// Returns the answer at a place, from 0 on, where this call was asked there and the reply has come, from this
    /// replica. Returns each answer once.
    pub fn answer<R: Wait>(
        &self,
        rt: &R,
        place: usize,
        replica: u32,
        request: &CallRequest<'_>,
    ) -> Option<(Answer, Option<Seen<J, P>>)>
        ensures { IfSome result (λ r. IsAnswer J.setting request.now r.0 r.1) }
    {
        let mut locked = self.places.get(place)?.lock(rt);
        match mem::replace(&mut *locked, Place::Taken) {
            Place::Replied(reply) => reply.answer_to(replica, request),
            Place::Asked(_) | Place::Taken => None,
        }
    }
}
