//! The helpers that read an interval of keys.

ghost use Rattle.std.specs.Prelude.{◌≡◌, ◌≢◌, ◌<◌, ◌^◌};
ghost use Rattle.schema.specs.declared.helper.Helper.TheVariants.{RangeCount, RangeNext};
ghost use Rattle.bpf_semantics.specs.State.{State};
ghost use Rattle.bpf_semantics.specs.Helpers.{state_after_call};
ghost use Rattle.vm_state.specs.Words.{Holds};
ghost use Rattle.txn_view.specs.View.{IsViewOf};
ghost use Rattle.bpf_vm.specs.Calls.{CanCall, AfterCall};

use crate::calls::HelperAnswer;
use crate::helper_laws::held_laws;
use crate::parts::{flag, key_or_zeros, named_table, row_of, row_or_zeros};
use bpf_code::Register;
use schema::{Look, OrNoMemory, Schema, first_is_least, looks_cover_from_lo_to_hi};
use std::alloc::Allocator;
use txn_view::{Gone, Store, View, count_rows, next_row};
use vm_state::WordState;

/// Counts the rows of an interval.
pub fn range_count<B: Allocator, S: Store, A: Allocator + Copy>(
    words: &mut WordState,
    view: &mut View<S, A>,
    schema: &Schema<B>,
) -> HelperAnswer
    requires slot { words.old.slot < 2 ^ 32 }
    requires can { CanCall (S.answers_from view.old.store) schema.now RangeCount words.old view.old.own }
    ensures follows { (s : State) → Holds s words.old
        → IsViewOf (S.answers_from view.old.store) view.old.own s
        → AfterCall (S.answers_from view.old.store) (S.is_gone view.old.store) RangeCount s
        (state_after_call schema.now RangeCount s) result words.new view.new.own }
    ensures words { result ≢ HelperAnswer.Done → words.new ≡ words.old }
    ensures own { result ≢ HelperAnswer.Done → view.new.own ≡ view.old.own }
    ensures store { view.new.store ≡ view.old.store }
{
    // Laws:
    held_laws();
    let (table, _) = named_table(words, schema);
    let lo = words.word(Register::R2);
    let hi = words.word(Register::R3);
    let own = &mut view.own;
    let look = Look { table, lo, hi };
    let count = match count_rows(&view.store, &own.writes, &mut own.looks, look) {
        Ok(count) => count,
        Err(OrNoMemory::Fault(Gone)) => return HelperAnswer::Stale,
        Err(OrNoMemory::NoMemory) => return HelperAnswer::NoMemory,
    };
    words.answer(count);
    HelperAnswer::Done
}

/// Reads the row of the least key of an interval into buffers, the key before the row.
pub fn range_next<B: Allocator, S: Store, A: Allocator + Copy>(
    words: &mut WordState,
    view: &mut View<S, A>,
    schema: &Schema<B>,
) -> HelperAnswer
    requires slot { words.old.slot < 2 ^ 32 }
    requires can { CanCall (S.answers_from view.old.store) schema.now RangeNext words.old view.old.own }
    ensures follows { (s : State) → Holds s words.old
        → IsViewOf (S.answers_from view.old.store) view.old.own s
        → AfterCall (S.answers_from view.old.store) (S.is_gone view.old.store) RangeNext s
        (state_after_call schema.now RangeNext s) result words.new view.new.own }
    ensures words { result ≢ HelperAnswer.Done → words.new ≡ words.old }
    ensures own { result ≢ HelperAnswer.Done → view.new.own ≡ view.old.own }
    ensures store { view.new.store ≡ view.old.store }
{
    // Laws:
    held_laws();
    first_is_least();
    looks_cover_from_lo_to_hi();
    let (table, width) = named_table(words, schema);
    let lo = words.word(Register::R2);
    let hi = words.word(Register::R3);
    let own = &mut view.own;
    let look = Look { table, lo, hi };
    let found = match next_row(&view.store, &own.writes, &mut own.looks, look) {
        Ok(found) => found,
        Err(OrNoMemory::Fault(Gone)) => return HelperAnswer::Stale,
        Err(OrNoMemory::NoMemory) => return HelperAnswer::NoMemory,
    };
    let key_address = words.word(Register::R4);
    let row_address = words.word(Register::R5);
    words.put_bytes(key_address, &key_or_zeros(found));
    words.put_bytes(row_address, row_or_zeros(row_of(found), width));
    words.answer(flag(found));
    HelperAnswer::Done
}
