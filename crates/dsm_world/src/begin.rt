//! A call begins.

ghost use Rattle.std.specs.Prelude.{◌≡◌, ◌<◌, All};
ghost use Rattle.dsm_model.specs.World.{Begin, IsStep};
ghost use Rattle.dsm_world.specs.System.{setting_of, world_of};

use crate::calls::{begin_call, enter};
use crate::numbers::index_of;
use crate::world::World;
use dsm_model::{Outcome, StepRefusal, steps_keep_a_world};
use log_model::{RequestId, a_log_only_grows, rows_fit_the_schema};
use replica::replicas_follow_the_log;
use schema::MAX_LOG;
use std::alloc::Allocator;
use world_calls::CallStart;

/// The most calls and additions of a world, and entries of its log.
pub(crate) const MAX_CALLS: usize = MAX_LOG as usize;

impl<A: Allocator + Copy> World<A> {
    /// Begins a call of a procedure at a replica, with a request or without one.
    pub(crate) fn begin(
        &mut self,
        replica: u32,
        procedure: u16,
        args: &[u8],
        request: Option<RequestId>,
    ) -> Outcome
        ensures step { IsStep (setting_of self.old) (world_of self.old)
            (Begin replica procedure args.now request)
            result (world_of self.new) }
        ensures setting { setting_of self.new ≡ setting_of self.old }
        ensures bytes { All (λ b. b < 256) args.now }
    {
        // Laws:
        a_log_only_grows();
        are_bytes(args);
        replicas_follow_the_log();
        rows_fit_the_schema();
        steps_keep_a_world();
        let Some(at) = index_of(replica, self.replicas.len()) else {
            return Outcome::Refused(StepRefusal::NoReplica);
        };
        let held = &self.replicas[at];
        let accepted = match held.procedures().admit(procedure, args, request) {
            Ok(accepted) => accepted,
            Err(refusal) => return Outcome::Refused(StepRefusal::from(refusal)),
        };
        if self.calls.len() + self.additions as usize >= MAX_CALLS {
            return Outcome::Refused(StepRefusal::TooManyCalls);
        }
        let alloc = self.alloc;
        let call = self.calls.len() as u32 + 1;
        let snapshot = held.begin();
        let start = CallStart {
            replica,
            number: call,
            procedure,
            snapshot,
            request,
        };
        let begun = begin_call(&mut self.spare, alloc, start, accepted, args);
        let Ok(open_call) = begun else {
            return Outcome::Refused(StepRefusal::NoMemory);
        };
        let Ok(()) = enter(&mut self.calls, open_call) else {
            return Outcome::Refused(StepRefusal::NoMemory);
        };
        Outcome::Begun { call, snapshot }
    }
}

/// The items of a slice of bytes are bytes.
fn are_bytes(items: &[u8])
    ensures { All (λ b. b < 256) items.now }
{}
