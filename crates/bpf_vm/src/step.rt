//! A single instruction, over a view.

ghost use Rattle.std.specs.Prelude.{◌≡◌, ◌^◌, ◌<◌};
ghost use Rattle.bpf_code.specs.declared.instruction.Instruction.TheVariants.{Call};
ghost use Rattle.bpf_semantics.specs.State.{State};
ghost use Rattle.vm_state.specs.Words.{Holds};
ghost use Rattle.txn_view.specs.View.{IsViewOf};
ghost use Rattle.bpf_vm.specs.Turns.{CanStep, CanExecute, FollowsStep, FollowsInstruction, DoesNothing};

use crate::calls::HelperAnswer;
use crate::turn::Turn;
use bpf_code::{Instruction, Register};
use bpf_verify::Accepted;
use schema::{Helper, Schema};
use std::alloc::Allocator;
use txn_view::{Store, View};
use vm_state::{WordState, registers_are_held};

/// Runs the instruction at the slot.
pub fn step<A: Allocator, B: Allocator, S: Store, C: Allocator + Copy>(
    words: &mut WordState,
    procedure: &Accepted<A, B>,
    view: &mut View<S, C>,
) -> Turn
    requires { CanStep procedure.now (S.answers_from view.old.store) words.old view.old.own }
    ensures follows { (s : State) → Holds s words.old → IsViewOf (S.answers_from view.old.store) view.old.own s
        → FollowsStep procedure.now (S.answers_from view.old.store) (S.is_gone view.old.store) s result
        words.new view.new.own }
    ensures words { DoesNothing result → words.new ≡ words.old }
    ensures own { DoesNothing result → view.new.own ≡ view.old.own }
    ensures store { view.new.store ≡ view.old.store }
{
    let slot = words.slot();
    let Some(instruction) = procedure.code().at(slot) else {
        unreachable!();
    };
    execute(words, procedure.schema(), view, instruction)
}

fn execute<B: Allocator, S: Store, C: Allocator + Copy>(
    words: &mut WordState,
    schema: &Schema<B>,
    view: &mut View<S, C>,
    instruction: Instruction,
) -> Turn
    requires slot { words.old.slot < 2 ^ 32 }
    requires can { CanExecute schema.now (S.answers_from view.old.store) instruction words.old view.old.own }
    ensures follows { (s : State) → Holds s words.old → IsViewOf (S.answers_from view.old.store) view.old.own s
        → FollowsInstruction schema.now (S.answers_from view.old.store) (S.is_gone view.old.store) instruction s
        result words.new view.new.own }
    ensures words { DoesNothing result → words.new ≡ words.old }
    ensures own { DoesNothing result → view.new.own ≡ view.old.own }
    ensures store { view.new.store ≡ view.old.store }
{
    // Laws:
    registers_are_held();
    match instruction {
        Instruction::Call { helper } => call(words, schema, view, helper),
        Instruction::Exit => Turn::Exit(words.word(Register::R0)),
        _ => {
            words.execute(instruction);
            Turn::More
        }
    }
}

fn call<B: Allocator, S: Store, C: Allocator + Copy>(
    words: &mut WordState,
    schema: &Schema<B>,
    view: &mut View<S, C>,
    number: i32,
) -> Turn
    requires slot { words.old.slot < 2 ^ 32 }
    requires can { CanExecute schema.now (S.answers_from view.old.store) (Call number) words.old view.old.own }
    ensures follows { (s : State) → Holds s words.old → IsViewOf (S.answers_from view.old.store) view.old.own s
        → FollowsInstruction schema.now (S.answers_from view.old.store) (S.is_gone view.old.store) (Call number) s
        result words.new view.new.own }
    ensures words { DoesNothing result → words.new ≡ words.old }
    ensures own { DoesNothing result → view.new.own ≡ view.old.own }
    ensures store { view.new.store ≡ view.old.store }
{
    let Some(helper) = Helper::from_number(number) else {
        unreachable!();
    };
    match crate::calls::call(words, view, schema, helper) {
        HelperAnswer::Done => Turn::More,
        HelperAnswer::Stale => Turn::Stale,
        HelperAnswer::NoMemory => Turn::NoMemory,
    }
}
