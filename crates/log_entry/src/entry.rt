//! Entries of the log.

use bpf_verify::Accepted;
use log_model::RequestId;
use row_sets::{Bytes, ReadSet, WriteSet};
use std::alloc::{Allocator, Global};
use std::marker::Model;
use std::sync::Arc;

/// A call as it is ordered, with what its run on the rows of its snapshot looked at, wrote and replied. Contracts
/// see the model's executed call.
#[derive(Drop)]
pub struct ExecutedCall<A: Allocator + Copy = Global> {
    /// The call's number among all of its world; 0 at a node, and in what a site submits. A byte string of a
    /// site's order may have any.
    pub call: u32,
    /// The procedure's number.
    pub procedure: u16,
    pub args: Bytes<A>,
    /// The position whose rows and procedures the call read.
    pub snapshot: u32,
    pub request: Option<RequestId>,
    pub reads: ReadSet<A>,
    pub writes: WriteSet<A>,
    pub reply: u64,
}

impl<A: Allocator + Copy> Model for ExecutedCall<A> {
    ghost use Rattle.log_model.specs.Entries.{ExecutedCall};
    ghost use Rattle.log_entry.specs.Codes.{executed_code};

    ghost Value = { ExecutedCall };

    ghost coded = { executed_code };

    ghost view = { λ e. record {
      call = record {
        number = e.call;
        procedure = e.procedure;
        args = e.args;
        snapshot = e.snapshot;
        request = e.request;
      };
      looks = e.reads;
      writes = e.writes;
      reply = e.reply;
    } };
}

/// A procedure that is to be added, with its program as it was accepted, which is shared with whoever takes it in.
/// Contracts see name, number and program.
#[derive(Drop)]
pub struct AddedProcedure<A: Allocator + Copy = Global> {
    /// 1 to 32 letters, digits or `_`.
    pub name: Bytes<A>,
    pub number: u16,
    pub accepted: Arc<Accepted<A, A>, A>,
}

impl<A: Allocator + Copy> Model for AddedProcedure<A> {
    ghost use Rattle.std.specs.Arc.{arc_value};
    ghost use Rattle.catalogue.specs.Stored.{ListedProcedure, listed_one_code};

    ghost Value = { ListedProcedure };

    ghost coded = { listed_one_code };

    ghost view = { λ p. record { name = p.name; number = p.number; accepted = arc_value p.accepted } };
}

/// An entry of the log: a call, or a procedure that is added.
#[derive(Drop)]
pub enum Entry<A: Allocator + Copy = Global> {
    Call(ExecutedCall<A>),
    Addition(AddedProcedure<A>),
}
