//! The helpers that read, put and delete one row.

ghost use Rattle.std.specs.Prelude.{◌≡◌, ◌≢◌, ◌<◌, ◌^◌};
ghost use Rattle.schema.specs.declared.helper.Helper.TheVariants.{RowGet, RowPut, RowDelete};
ghost use Rattle.bpf_semantics.specs.State.{State};
ghost use Rattle.bpf_semantics.specs.Helpers.{state_after_call};
ghost use Rattle.vm_state.specs.Words.{Holds};
ghost use Rattle.txn_view.specs.View.{IsViewOf};
ghost use Rattle.bpf_vm.specs.Calls.{CanCall, AfterCall};

use crate::calls::HelperAnswer;
use crate::helper_laws::held_laws;
use crate::parts::{flag, named_table, row_or_zeros};
use bpf_code::Register;
use schema::{OrNoMemory, Schema};
use std::alloc::Allocator;
use txn_view::{Gone, Store, View, read_row};
use vm_state::WordState;

/// Reads a row into a buffer.
pub fn row_get<B: Allocator, S: Store, A: Allocator + Copy>(
    words: &mut WordState,
    view: &mut View<S, A>,
    schema: &Schema<B>,
) -> HelperAnswer
    requires slot { words.old.slot < 2 ^ 32 }
    requires can { CanCall (S.answers_from view.old.store) schema.now RowGet words.old view.old.own }
    ensures follows { (s : State) → Holds s words.old
        → IsViewOf (S.answers_from view.old.store) view.old.own s
        → AfterCall (S.answers_from view.old.store) (S.is_gone view.old.store) RowGet s
        (state_after_call schema.now RowGet s) result words.new view.new.own }
    ensures words { result ≢ HelperAnswer.Done → words.new ≡ words.old }
    ensures own { result ≢ HelperAnswer.Done → view.new.own ≡ view.old.own }
    ensures store { view.new.store ≡ view.old.store }
{
    // Laws:
    held_laws();
    let (table, width) = named_table(words, schema);
    let key = words.word(Register::R2);
    let own = &mut view.own;
    let found = match read_row(&view.store, &own.writes, &mut own.looks, table, key) {
        Ok(found) => found,
        Err(OrNoMemory::Fault(Gone)) => return HelperAnswer::Stale,
        Err(OrNoMemory::NoMemory) => return HelperAnswer::NoMemory,
    };
    let address = words.word(Register::R3);
    words.put_bytes(address, row_or_zeros(found, width));
    words.answer(flag(found));
    HelperAnswer::Done
}

/// Puts the bytes of a buffer as the row.
pub fn row_put<B: Allocator, S: Store, A: Allocator + Copy>(
    words: &mut WordState,
    view: &mut View<S, A>,
    schema: &Schema<B>,
) -> HelperAnswer
    requires slot { words.old.slot < 2 ^ 32 }
    requires can { CanCall (S.answers_from view.old.store) schema.now RowPut words.old view.old.own }
    ensures follows { (s : State) → Holds s words.old
        → IsViewOf (S.answers_from view.old.store) view.old.own s
        → AfterCall (S.answers_from view.old.store) (S.is_gone view.old.store) RowPut s
        (state_after_call schema.now RowPut s) result words.new view.new.own }
    ensures words { result ≢ HelperAnswer.Done → words.new ≡ words.old }
    ensures own { result ≢ HelperAnswer.Done → view.new.own ≡ view.old.own }
    ensures store { view.new.store ≡ view.old.store }
{
    // Laws:
    held_laws();
    let (table, width) = named_table(words, schema);
    let key = words.word(Register::R2);
    let bytes = words.buffer(words.word(Register::R3), width);
    match view.put(table, key, bytes) {
        Ok(()) => {
            words.answer(0);
            HelperAnswer::Done
        }
        Err(_) => HelperAnswer::NoMemory,
    }
}

/// Removes a row.
pub fn row_delete<B: Allocator, S: Store, A: Allocator + Copy>(
    words: &mut WordState,
    view: &mut View<S, A>,
    schema: &Schema<B>,
) -> HelperAnswer
    requires slot { words.old.slot < 2 ^ 32 }
    requires can { CanCall (S.answers_from view.old.store) schema.now RowDelete words.old view.old.own }
    ensures follows { (s : State) → Holds s words.old
        → IsViewOf (S.answers_from view.old.store) view.old.own s
        → AfterCall (S.answers_from view.old.store) (S.is_gone view.old.store) RowDelete s
        (state_after_call schema.now RowDelete s) result words.new view.new.own }
    ensures words { result ≢ HelperAnswer.Done → words.new ≡ words.old }
    ensures own { result ≢ HelperAnswer.Done → view.new.own ≡ view.old.own }
    ensures store { view.new.store ≡ view.old.store }
{
    // Laws:
    held_laws();
    let (table, _) = named_table(words, schema);
    let key = words.word(Register::R2);
    match view.remove(table, key) {
        Ok(()) => {
            words.answer(0);
            HelperAnswer::Done
        }
        Err(_) => HelperAnswer::NoMemory,
    }
}
