//! The laws of heads and entries.

ghost use Rattle.std.specs.Prelude.{◌≡◌, Some};
ghost use Rattle.log_model.specs.Log.{StoredProcedure};
ghost use Rattle.log_model.specs.Entries.{ExecutedCall, CallEntry, AdditionEntry};
ghost use Rattle.log_entry.specs.Bytes.{entry_bytes};
ghost use Rattle.log_entry.specs.Head.{head_of, CallHead, AdditionHead};
ghost use Rattle.log_entry.specs.Fit.{AdditionFitsFields, CallFitsFields, named_procedure};

/// The head that the bytes of an entry name is the entry's call with its reply, or its procedure.
pub fn entries_have_their_heads()
    ensures calls { (e : ExecutedCall) → CallFitsFields e
        → head_of (entry_bytes (CallEntry e)) ≡ Some (CallHead e.call e.reply) }
    ensures additions { (p : StoredProcedure) → AdditionFitsFields p
        → head_of (entry_bytes (AdditionEntry p)) ≡ Some (AdditionHead (named_procedure p)) }
{}
