//! Verdicts on calls in the order of their delivery.

ghost use Rattle.std.specs.Prelude.{◌≡◌, ◌+◌, ◌<◌, ◌≤◌, ◌^◌, ◌++◌, [], ◌∷◌, List, length, IfOk, OnOk, OnErr, IsSome, None};
ghost use Rattle.log_model.specs.Log.{Call, CertifiedItem, DoneRequest, done_at, verdict_after};
ghost use Rattle.certify.specs.Comparisons.{comparisons_after};
ghost use Rattle.std.specs.FinMap.{empty};
ghost use Rattle.certify.specs.Kept.{IsPreparedOf, IsMemoryOf};

use crate::prepared::{Prepared, prepared_of};
use crate::requests::{Requests, keep_request, note_done, repeated_in};
use crate::ring::{empty_blocks, empty_writes, keep_in};
use crate::search::find_verdict;
use indexmap::IndexMap;
use log_model::{RequestId, Verdict};
use row_sets::{ReadSet, WriteSet};
use sig_lanes::Block;
use std::alloc::{AllocError, Allocator, Global};
use std::marker::Model;

/// The parts of a call that are certified: the request that it carries, its snapshot, and what its run looked at and
/// wrote.
#[derive(Drop)]
pub struct CallToCertify<'a, A: Allocator + Copy = Global> {
    pub request: Option<RequestId>,
    /// The position whose rows the call read.
    pub snapshot: u32,
    pub reads: &'a ReadSet<A>,
    pub writes: &'a WriteSet<A>,
}

/// Verdicts on calls in the order of their delivery, by what was kept of the latest. Contracts see this memory, the
/// number of exact comparisons that the last verdict made, and the number of requests for which there is room.
///
/// ```text
/// let mut certifier = Certifier::new(alloc, 64)?;
/// let verdict = certifier.verdict(&call, 1);
/// let prepared = certifier.prepare(&call)?;
/// certifier.keep(1, verdict, prepared);
/// ```
#[derive(Drop)]
pub struct Certifier<A: Allocator + Copy = Global> {
    alloc: A,
    window: u32,
    count: u32,
    compared: u64,
    blocks: Vec<Block, A>,
    writes: Vec<WriteSet<A>, A>,
    requests: Requests<A>,
}

impl<A: Allocator + Copy> Model for Certifier<A> {
    ghost use Rattle.std.specs.Prelude.{◌≤◌, ◌<◌, ◌^◌, length};
    ghost use Rattle.indexmap.specs.IndexMap.{spare};
    ghost use Rattle.certify.specs.Kept.{CertifierState, HasPlaces};
    ghost use Rattle.certify.specs.Codes.{state_code};

    ghost Value = { CertifierState };

    ghost coded = { state_code };

    ghost view = { λ c. record {
      memory = record {
        window = c.window;
        count = c.count;
        ring = record { blocks = c.blocks.items; writes = c.writes.items };
        requests = c.requests.entries;
      };
      compared = c.compared;
      room = spare c.requests;
    } };

    ghost invariant = { λ c. HasPlaces (record { blocks = c.blocks.items; writes = c.writes.items })
        × (c.window ≤ length c.writes.items) };
}

impl<A: Allocator + Copy> Certifier<A> {
    /// A certifier that has kept nothing. A call is stale where more items than the window came since its snapshot.
    pub fn new(alloc: A, window: u32) -> Result<Certifier<A>, AllocError>
        ensures stands { IfOk result (λ c. IsMemoryOf c.memory [] []) }
        ensures window { IfOk result (λ c. c.memory.window ≡ window) }
        ensures compared { IfOk result (λ c. c.compared ≡ 0) }
    {
        let count = (window as usize).div_ceil(8).max(1);
        let blocks = empty_blocks(alloc, count)?;
        let writes = empty_writes(alloc, count * 8)?;
        Ok(Certifier {
            alloc,
            window,
            count: 0,
            compared: 0,
            blocks,
            writes,
            requests: IndexMap::new(alloc),
        })
    }

    /// Notes a request that was done before the log. After want of memory what is kept is the same.
    pub fn note_done(&mut self, request: RequestId) -> Result<(), AllocError>
        ensures stands { OnOk result ((done : List DoneRequest) (d : DoneRequest) → d.request ≡ request
            → IsMemoryOf self.old.memory done [] → IsMemoryOf self.new.memory (done ++ d ∷ []) []) }
        ensures unchanged { OnErr result (self.new.memory ≡ self.old.memory) }
        ensures window { self.new.memory.window ≡ self.old.memory.window }
        ensures count { self.new.memory.count ≡ self.old.memory.count }
        ensures compared { self.new.compared ≡ self.old.compared }
    {
        note_done(&mut self.requests, request)
    }

    /// The verdict on a call at the next position. Takes no memory.
    pub fn verdict<B: Allocator + Copy>(
        &mut self,
        call: &CallToCertify<'_, B>,
        position: u32,
    ) -> Verdict
        requires next { position ≡ self.old.memory.count + 1 }
        requires snapshot { call.now.snapshot < position }
        ensures verdict { (done : List DoneRequest) (past : List CertifiedItem) (c : Call) → IsMemoryOf self.old.memory done past
            → c.request ≡ call.now.request → c.snapshot ≡ call.now.snapshot
            → result ≡ verdict_after self.old.memory.window done past c call.now.reads.now }
        ensures compared { (done : List DoneRequest) (past : List CertifiedItem) (c : Call) → IsMemoryOf self.old.memory done past
            → c.request ≡ call.now.request → c.snapshot ≡ call.now.snapshot
            → self.new.compared ≡ length
            (comparisons_after self.old.memory.window done past c call.now.reads.now) }
        ensures memory { self.new.memory ≡ self.old.memory }
    {
        if let Some(repeated) = repeated_in(&self.requests, call.request) {
            self.compared = 0;
            return Verdict::Repeated(repeated);
        }
        let (verdict, compared) = find_verdict(
            self.window,
            self.count,
            &self.blocks,
            &self.writes,
            call.snapshot,
            call.reads,
        );
        self.compared = compared;
        verdict
    }

    /// Returns the number of exact comparisons that the last verdict made; 0 before the first verdict.
    pub fn compared(&self) -> u64
        ensures { result ≡ self.now.compared }
    {
        self.compared
    }

    /// The position at which a request was done, however long ago. A request that was done before the log is at 0.
    pub fn repeated(&self, request: Option<RequestId>) -> Option<u32>
        ensures { (done : List DoneRequest) (past : List CertifiedItem) → IsMemoryOf self.now.memory done past
            → result ≡ done_at done past request }
    {
        repeated_in(&self.requests, request)
    }

    /// Prepares what will be kept of a call, and makes room for its request where it has one.
    pub fn prepare<B: Allocator + Copy>(
        &mut self,
        call: &CallToCertify<'_, B>,
    ) -> Result<Prepared<A>, AllocError>
        ensures keys { IfOk result (λ p. IsPreparedOf p call.now.writes.now) }
        ensures request { IfOk result (λ p. p.request ≡ call.now.request) }
        ensures room { OnOk result (IsSome call.now.request → 0 < self.new.room) }
        ensures memory { self.new.memory ≡ self.old.memory }
        ensures compared { self.new.compared ≡ self.old.compared }
    {
        if call.request.is_some() {
            self.requests.reserve(1)?;
        }
        prepared_of(self.alloc, call.request, call.writes)
    }

    /// Prepares what will be kept of an addition: nothing.
    pub fn prepare_addition(&self) -> Result<Prepared<A>, AllocError>
        ensures keys { IfOk result (λ p. IsPreparedOf p empty) }
        ensures request { IfOk result (λ p. p.request ≡ None) }
    {
        prepared_of(self.alloc, None, &WriteSet::new(self.alloc))
    }

    /// Keeps an item of this verdict, which stands at the next position. Takes no memory.
    pub fn keep(&mut self, position: u32, verdict: Verdict, prepared: Prepared<A>)
        requires next { position ≡ self.old.memory.count + 1 }
        requires room { IsSome prepared.request → 0 < self.old.room }
        ensures stands { (done : List DoneRequest) (past : List CertifiedItem) (c : CertifiedItem)
            → IsMemoryOf self.old.memory done past
            → c.verdict ≡ verdict → c.request ≡ prepared.request → IsPreparedOf prepared c.writes
            → IsMemoryOf self.new.memory done (past ++ c ∷ []) }
        ensures window { self.new.memory.window ≡ self.old.memory.window }
        ensures count { self.new.memory.count ≡ position }
        ensures compared { self.new.compared ≡ self.old.compared }
    {
        let Prepared {
            request,
            signature,
            writes,
        } = prepared;
        let before = self.count as usize;
        keep_in(
            &mut self.blocks,
            &mut self.writes,
            before,
            verdict,
            &signature,
            writes,
        );
        keep_request(&mut self.requests, request, verdict, position);
        self.count = position;
    }
}
