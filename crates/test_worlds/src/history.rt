//! The history of a world: what was done to it, and what it answered.

use crate::kinds::{KINDS, kind_of};
use crate::procedures::place_of;
use dsm_model::Outcome;
use log_model::{RequestId, Verdict};
use std::alloc::Global;

/// A call: what it was begun with, its snapshot, and its reply once it was at its end.
#[derive(Drop)]
pub struct Call {
    /// The number of the call's procedure.
    pub procedure: u16,
    /// The arguments of the call, in bytes.
    pub args: Vec<u8>,
    /// The position of the call's replica when the call was begun.
    pub snapshot: u32,
    /// The request that the call carries.
    pub request: Option<RequestId>,
    /// The reply of the call.
    pub reply: Option<u64>,
}

/// An item of the log.
#[derive(Drop)]
pub enum Ordered {
    /// A call, by its number.
    Call(u32),
    /// A procedure, whose program its number tells.
    Addition {
        /// The name of the procedure.
        name: String,
        /// The number of the procedure.
        number: u16,
    },
}

/// A procedure that was called where its replica had none of its number.
#[derive(Clone, Copy)]
pub struct UnknownProcedure {
    /// The number of the procedure.
    pub number: u16,
    /// The position of the replica.
    pub position: u32,
    /// True where the replica was stopped.
    pub stopped: bool,
}

/// The history of a world: what was done to it, and what it answered.
#[derive(Drop)]
pub struct History {
    /// The number of steps that were taken.
    pub(crate) steps: u32,
    /// The number of outcomes of each kind, in worlds before too.
    pub kinds: [u32; KINDS],
    /// The calls, in the order of their numbers.
    pub(crate) calls: Vec<Call>,
    /// The numbers of calls that came to their end and weren't drawn to be ordered since.
    pub(crate) ended: Vec<u32>,
    /// The items that were ordered, in the order of the log.
    pub ordered: Vec<Ordered>,
    /// The number of requests that were drawn.
    pub(crate) requests: u32,
    /// The requests of calls that were told to be in conflict or stale.
    pub(crate) refused: Vec<RequestId>,
    /// Calls that didn't begin, as their replica had no procedure of the number.
    pub unknown: Vec<UnknownProcedure>,
    /// The number of times that a replica found no memory for an addition.
    pub additions_without_memory: u32,
    /// The numbers of calls that only read, and so weren't ordered.
    pub read: Vec<u32>,
    /// The positions and verdicts that were told of deliveries.
    pub delivered: Vec<(u32, Verdict)>,
    /// True where some outcome had another number or position than the next one.
    pub odd: bool,
    /// True where memory was wanting for what is drawn or taken down here.
    pub wanting: bool,
}

/// Takes down one more item, or that memory was wanting.
pub(crate) fn take_down<T: Drop>(list: &mut Vec<T>, it: T, wanting: &mut bool) {
    if list.push(it).is_err() {
        *wanting = true;
    }
}

impl History {
    /// The history of a new world.
    pub(crate) fn new(alloc: Global, kinds: [u32; KINDS]) -> History {
        History {
            steps: 0,
            kinds,
            additions_without_memory: 0,
            requests: 0,
            refused: Vec::new(alloc),
            unknown: Vec::new(alloc),
            calls: Vec::new(alloc),
            ended: Vec::new(alloc),
            ordered: Vec::new(alloc),
            read: Vec::new(alloc),
            delivered: Vec::new(alloc),
            odd: false,
            wanting: false,
        }
    }

    /// The call of a number.
    pub fn call(&self, number: u32) -> Option<&Call> {
        self.calls.get((number as usize).checked_sub(1)?)
    }

    /// Tells whether a call was begun at a snapshot, with the program that stands at a place.
    pub(crate) fn is_of(&self, number: u32, place: usize, snapshot: u32) -> bool {
        match self.call(number) {
            Some(call) => place_of(call.procedure) == place && call.snapshot == snapshot,
            None => false,
        }
    }

    /// The number of the procedure that is added at a position.
    pub fn addition_at(&self, position: u32) -> Option<u16> {
        match self.ordered.get((position as usize).checked_sub(1)?)? {
            Ordered::Addition { number, .. } => Some(*number),
            Ordered::Call(_) => None,
        }
    }

    /// The request of the call at a position.
    pub(crate) fn request_at(&self, position: u32) -> Option<RequestId> {
        let ordered = self.ordered.get((position as usize).wrapping_sub(1));
        match ordered {
            Some(Ordered::Call(number)) => { self.call(*number).and_then(|call| call.request) }
            _ => None,
        }
    }

    /// The reply of a call at its end.
    pub fn reply_of(&self, number: u32) -> Option<u64> {
        self.call(number).and_then(|call| call.reply)
    }

    /// Counts an outcome.
    pub(crate) fn count(&mut self, outcome: Outcome) {
        self.steps = self.steps.wrapping_add(1);
        if let Some(count) = self.kinds.get_mut(kind_of(outcome)) {
            *count = count.wrapping_add(1);
        }
    }

    /// Marks an outcome as odd, unless this holds.
    pub(crate) fn expect(&mut self, holds: bool) {
        self.odd = self.odd || !holds;
    }

    /// Takes down the reply of a call at its end. Turns after the end answer the reply again.
    pub(crate) fn end(&mut self, number: u32, reply: u64) {
        let place = (number as usize).wrapping_sub(1);
        let Some(call) = self.calls.get_mut(place) else {
            self.expect(false);
            return;
        };
        let before = call.reply.replace(reply);
        self.expect(before.is_none() || before == Some(reply));
        if before.is_none() {
            take_down(&mut self.ended, number, &mut self.wanting);
        }
    }
}
