//! A call's view of a store. To call a law of `schema` does nothing: its clause is then known.

ghost use Rattle.std.specs.Prelude.{◌≡◌, ℕ, [], Some, None, IfOk, OnErr};
ghost use Rattle.std.specs.FinMap.{empty};
ghost use Rattle.bpf_semantics.specs.State.{State};
ghost use Rattle.bpf_semantics.specs.Helpers.{with_row_write};
ghost use Rattle.bpf_semantics.specs.Run.{unless_cancelled};
ghost use Rattle.txn_view.specs.View.{IsViewOf};

use crate::store::Store;
use row_sets::{ReadSet, WriteSet};
use schema::after_one_more_write;
use std::alloc::{AllocError, Allocator, Global};

/// The looks, the writes and the cancel code of a call.
#[derive(Drop)]
pub struct Own<A: Allocator + Copy = Global> {
    pub looks: ReadSet<A>,
    pub writes: WriteSet<A>,
    /// The last cancel code, where the call cancelled.
    pub cancel_code: Option<u64>,
}

/// A store as a call sees it: its own writes stand over the store's rows.
///
/// ```text
/// let mut view = View::over(store, Own::new(alloc));
/// view.put(1, 5, &[1; 8])?;
/// // An own write is read without a look at the store.
/// let (looks, writes, cancel_code) = view.finish();
/// ```
#[derive(Drop)]
pub struct View<S: Store, A: Allocator + Copy = Global> {
    pub store: S,
    pub own: Own<A>,
}

impl<A: Allocator + Copy> Own<A> {
    /// Makes the parts of a call that has looked at nothing, written nothing and not cancelled. Takes no memory.
    pub fn new(alloc: A) -> Own<A>
        ensures { result ≡ record { looks = []; writes = empty; cancel_code = None } }
    {
        Own {
            looks: ReadSet::new(alloc),
            writes: WriteSet::new(alloc),
            cancel_code: None,
        }
    }

    /// Returns the looks of the call, its writes, and its cancel code. A call that cancelled has written nothing. Takes
    /// no memory.
    pub fn finish(self) -> (ReadSet<A>, WriteSet<A>, Option<u64>)
        ensures looks { result.0 ≡ self.looks }
        ensures writes { result.1 ≡ unless_cancelled self.cancel_code self.writes empty }
        ensures cancelled { result.2 ≡ self.cancel_code }
    {
        let Own {
            looks,
            mut writes,
            cancel_code,
        } = self;
        if cancel_code.is_some() {
            writes.clear();
        }
        (looks, writes, cancel_code)
    }
}

impl<S: Store, A: Allocator + Copy> View<S, A> {
    /// The view that a call has of a store, where `own` is what the call has done so far. Takes no memory.
    pub fn over(store: S, own: Own<A>) -> View<S, A>
        ensures store { result.store ≡ store }
        ensures own { result.own ≡ own }
    {
        View { store, own }
    }

    /// Returns what the call has done so far, to go on later. Takes no memory.
    pub fn pause(self) -> Own<A>
    where
        S: Drop,
        ensures { result ≡ self.own }
    {
        self.own
    }

    /// Finishes the call as `Own::finish` does.
    pub fn finish(self) -> (ReadSet<A>, WriteSet<A>, Option<u64>)
    where
        S: Drop,
        ensures looks { result.0 ≡ self.own.looks }
        ensures writes { result.1 ≡ unless_cancelled self.own.cancel_code self.own.writes empty }
        ensures cancelled { result.2 ≡ self.own.cancel_code }
    {
        self.pause().finish()
    }

    /// Writes these bytes as the row at a key.
    pub fn put(&mut self, table: u8, key: u64, bytes: &[u8]) -> Result<(), AllocError>
        ensures written { (s : State) → IsViewOf (S.answers_from self.old.store) self.old.own s
            → IfOk result (λ _. IsViewOf (S.answers_from self.old.store) self.new.own
            (with_row_write table key (Some bytes.now) s)) }
        ensures unchanged { OnErr result (self.new.own ≡ self.old.own) }
        ensures store { self.new.store ≡ self.old.store }
    {
        // Laws:
        after_one_more_write();
        self.own.writes.put(table, key, bytes)
    }

    /// Removes the row at a key. The removal is a write also where there is no row.
    pub fn remove(&mut self, table: u8, key: u64) -> Result<(), AllocError>
        ensures written { (s : State) → IsViewOf (S.answers_from self.old.store) self.old.own s
            → IfOk result (λ _. IsViewOf (S.answers_from self.old.store) self.new.own
            (with_row_write table key None s)) }
        ensures unchanged { OnErr result (self.new.own ≡ self.old.own) }
        ensures store { self.new.store ≡ self.old.store }
    {
        // Laws:
        after_one_more_write();
        self.own.writes.remove(table, key)
    }

    /// Cancels the call with a code, in place of an earlier code. Takes no memory.
    pub fn cancel(&mut self, code: u64)
        ensures cancelled { (s : State) → IsViewOf (S.answers_from self.old.store) self.old.own s
            → IsViewOf (S.answers_from self.old.store) self.new.own
            (record s { cancel_code = Some code }) }
        ensures store { self.new.store ≡ self.old.store }
    {
        self.own.cancel_code = Some(code);
    }
}
