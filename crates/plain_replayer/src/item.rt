//! The items that are replayed: calls and additions of procedures in their order, as the definitions have them.

ghost use Rattle.std.specs.Prelude.{◌≡◌, ◌<◌, ◌^◌};

use crate::setting::PlainProcedure;
use log_model::RequestId;
use std::alloc::{Allocator, Global};
use std::marker::Model;

/// An ordered call. Contracts see the definition's record.
#[derive(Drop)]
pub struct PlainCall<A: Allocator = Global> {
    number: u32,
    procedure: u16,
    args: Vec<u8, A>,
    snapshot: u32,
    request: Option<RequestId>,
}

impl<A: Allocator> Model for PlainCall<A> {
    ghost use Rattle.log_model.specs.Log.{Call};

    ghost Value = { Call };

    ghost view = { λ c. record {
      number = c.number;
      procedure = c.procedure;
      args = c.args.items;
      snapshot = c.snapshot;
      request = c.request;
    } };
}

impl<A: Allocator> PlainCall<A> {
    /// A call under its own number, of the procedure of a number, on arguments and the rows after a position, with
    /// a request of its caller, where it carries one.
    pub fn new(
        number: u32,
        procedure: u16,
        args: Vec<u8, A>,
        snapshot: u32,
        request: Option<RequestId>,
    ) -> PlainCall<A>
        ensures { result ≡ record {
          number = number;
          procedure = procedure;
          args = args.items;
          snapshot = snapshot;
          request = request;
        } }
    {
        PlainCall {
            number,
            procedure,
            args,
            snapshot,
            request,
        }
    }

    /// The number of the call's procedure.
    pub fn procedure(&self) -> u16
        ensures { result ≡ self.now.procedure }
    {
        self.procedure
    }

    /// The bytes of the call's arguments.
    pub fn args(&self) -> &[u8]
        ensures { result.now ≡ self.now.args }
    {
        &self.args
    }

    /// The position whose rows and procedures the call read.
    pub fn snapshot(&self) -> usize
        ensures snapshot { result ≡ self.now.snapshot }
        ensures fits { result < 2 ^ 32 }
    {
        self.snapshot as usize
    }

    /// The request that the call carries.
    pub fn request(&self) -> Option<RequestId>
        ensures { result ≡ self.now.request }
    {
        self.request
    }
}

/// The call or the addition that an item of a log is.
#[derive(Drop)]
pub enum PlainItemKind<A: Allocator = Global> {
    Call(PlainCall<A>),
    Addition(PlainProcedure<A>),
}

/// An item of a log: a call, or a procedure that is added, whose program was accepted before. Contracts see the
/// definition's item.
#[derive(Drop)]
pub struct PlainItem<A: Allocator = Global> {
    pub kind: PlainItemKind<A>,
}

impl<A: Allocator> Model for PlainItem<A> {
    ghost use Rattle.log_model.specs.Log.{Item};
    ghost use Rattle.plain_replayer.specs.LogCodes.{item_code};
    ghost use Rattle.plain_replayer.specs.Kind.{item_of};

    ghost Value = { Item };

    ghost coded = { item_code };

    ghost view = { λ item. item_of item.kind };
}
