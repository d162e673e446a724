//! A call, by its helper.

ghost use Rattle.std.specs.Prelude.{◌≡◌, ◌≢◌, ◌<◌, ◌^◌};
ghost use Rattle.schema.specs.Schema.{Tables};
ghost use Rattle.schema.specs.declared.helper.Helper.TheVariants.{Cancel};
ghost use Rattle.bpf_semantics.specs.State.{State};
ghost use Rattle.bpf_semantics.specs.Helpers.{state_after_call};
ghost use Rattle.vm_state.specs.Words.{Holds};
ghost use Rattle.txn_view.specs.View.{IsViewOf};
ghost use Rattle.bpf_vm.specs.Calls.{CanCall, AfterCall};

use crate::helper_laws::held_laws;
use crate::ranges::{range_count, range_next};
use crate::rows::{row_delete, row_get, row_put};
use bpf_code::Register;
use schema::{Helper, Schema};
use std::alloc::Allocator;
use txn_view::{Store, View};
use vm_state::WordState;

/// The answer of a call.
#[derive(Clone, Copy, Debug, PartialEq, Eq)]
pub enum HelperAnswer {
    /// The call was made.
    Done,
    /// The store has the rows no more.
    Stale,
    /// No memory is left for what the call adds.
    NoMemory,
}

/// Calls a helper. For each state that words and view stand for, they stand for the state after the call. Where the
/// call isn't done they stay as they were.
pub fn call<B: Allocator, S: Store, A: Allocator + Copy>(
    words: &mut WordState,
    view: &mut View<S, A>,
    schema: &Schema<B>,
    helper: Helper,
) -> HelperAnswer
    requires slot { words.old.slot < 2 ^ 32 }
    requires can { CanCall (S.answers_from view.old.store) schema.now helper words.old view.old.own }
    ensures follows { (s : State) → Holds s words.old
        → IsViewOf (S.answers_from view.old.store) view.old.own s
        → AfterCall (S.answers_from view.old.store) (S.is_gone view.old.store) helper s
        (state_after_call schema.now helper s) result words.new view.new.own }
    ensures words { result ≢ HelperAnswer.Done → words.new ≡ words.old }
    ensures own { result ≢ HelperAnswer.Done → view.new.own ≡ view.old.own }
    ensures store { view.new.store ≡ view.old.store }
{
    match helper {
        Helper::RowGet => row_get(words, view, schema),
        Helper::RowPut => row_put(words, view, schema),
        Helper::RowDelete => row_delete(words, view, schema),
        Helper::RangeCount => range_count(words, view, schema),
        Helper::RangeNext => range_next(words, view, schema),
        Helper::Cancel => cancel(words, view),
    }
}

/// Cancels with a code.
fn cancel<S: Store, A: Allocator + Copy>(
    words: &mut WordState,
    view: &mut View<S, A>,
) -> HelperAnswer
    requires slot { words.old.slot < 2 ^ 32 }
    ensures done { result ≡ HelperAnswer.Done }
    ensures follows { (tables : Tables) (s : State) → Holds s words.old
        → IsViewOf (S.answers_from view.old.store) view.old.own s
        → AfterCall (S.answers_from view.old.store) (S.is_gone view.old.store) Cancel s
        (state_after_call tables Cancel s) result words.new view.new.own }
    ensures store { view.new.store ≡ view.old.store }
{
    // Laws:
    held_laws();
    view.cancel(words.word(Register::R1));
    words.answer(0);
    HelperAnswer::Done
}
