//! One instruction, as the definitions say it.

ghost use Rattle.std.specs.Prelude.{◌≡◌, ◌<◌, ◌≤◌, ◌^◌, IfOk};
ghost use Rattle.std.specs.Int.{cast_unsigned};
ghost use Rattle.byteorder.specs.Endian.{little_bytes};
ghost use Rattle.bpf_semantics.specs.State.{register, past, with_register};
ghost use Rattle.bpf_semantics.specs.Memory.{memory_with_store};
ghost use Rattle.bpf_code.specs.Sizes.{size_bytes};
ghost use Rattle.bpf_code.specs.declared.instruction.Instruction.TheVariants.{Load, StoreRegister, Arithmetic, Negate};
ghost use Rattle.bpf_code.specs.declared.instruction.Instruction.TheVariants.{MoveSignExtended, End, Branch, Call};
ghost use Rattle.bpf_code.specs.declared.instruction.Instruction.TheVariants.{Exit};
ghost use Rattle.schema.specs.Schema.{Tables};
ghost use Rattle.bpf_semantics.specs.Step.{after_jump, is_read_only, with_result, with_store, execute, step};
ghost use Rattle.bpf_semantics.specs.Run.{next_moment};
ghost use Rattle.plain_runner.specs.State.{state_of};
ghost use Rattle.plain_runner.specs.Runner.{moment_of, steps_before};

use crate::memory::{little_number, load_value, memory_bytes, memory_with_store};
use crate::state::State;
use crate::value::{arithmetic, holds, number, operation_result};
use bpf_code::{Code, Instruction, LoadKind, Register, SignExtendingMove, Size, Source, Width};
use bpf_semantics::Value;
use bpf_words::{BinaryOperation, ByteOrder, Condition, EndWidth, Operation, SignExtension, end};
use schema::Schema;
use std::alloc::{AllocError, Allocator};

/// The state after an instruction; the reply at EXIT, and the state there; or that there is no step.
#[derive(Drop)]
pub(crate) enum Moment<A: Allocator> {
    Going(State<A>),
    Ended(u64, State<A>),
    Stuck,
}

fn is_read_only(register: Register) -> bool
    ensures { result ≡ is_read_only register }
{
    matches!(register, Register::R10)
}

#[tactic(auto, unfolding(bpf_semantics::specs::Step::execute, bpf_semantics::specs::Step::or_stuck))]
impl<A: Allocator + Copy> Moment<A> {
    /// Moves `slots` slots on, with a value in a register that may be written.
    fn with_result(state: State<A>, slots: usize, dst: Register, value: Value) -> Moment<A>
        requires few { slots ≤ 2 }
        requires slot { state.slot < 2 ^ 32 }
        requires steps { state.steps < 2 ^ 32 }
        ensures { moment_of result ≡ with_result slots dst value (state_of state) }
    {
        if is_read_only(dst) {
            Moment::Stuck
        } else {
            Moment::Going(state.past(slots).with_register(dst, value))
        }
    }

    /// Moves to the slot this far past the next one.
    fn after_jump(state: State<A>, distance: i32) -> Moment<A>
        requires slot { state.slot < 2 ^ 32 }
        requires steps { state.steps < 2 ^ 32 }
        ensures { moment_of result ≡ after_jump distance (state_of state) }
    {
        match usize::try_from(distance) {
            Ok(distance) => Moment::Going(state.past(1 + distance)),
            Err(_) => Moment::Stuck,
        }
    }

    fn load(
        state: State<A>,
        alloc: A,
        kind: LoadKind,
        dst: Register,
        src: Register,
        offset: i16,
    ) -> Result<Moment<A>, AllocError>
        requires slot { state.slot < 2 ^ 32 }
        requires steps { state.steps < 2 ^ 32 }
        ensures { (tables : Tables) → IfOk result (λ m.
            moment_of m ≡ execute tables (Load kind dst src offset) (state_of state)) }
    {
        let address = state.register(src);
        let count = usize::from(kind.bytes());
        let Some(bytes) = memory_bytes(alloc, &state.stack, &state.args, address, offset, count)?
        else {
            return Ok(Moment::Stuck);
        };
        let number = load_value(kind, little_number(&bytes));
        Ok(Moment::with_result(state, 1, dst, Value::Number(number)))
    }

    /// Stores the low bytes of a number.
    fn store(
        state: State<A>,
        alloc: A,
        size: Size,
        dst: Register,
        offset: i16,
        number: u64,
    ) -> Result<Moment<A>, AllocError>
        requires slot { state.slot < 2 ^ 32 }
        requires steps { state.steps < 2 ^ 32 }
        ensures { IfOk result (λ m.
            moment_of m ≡ with_store (memory_with_store (state_of state).stack (register (state_of state) dst)
            offset (little_bytes (size_bytes size) number)) (state_of state)) }
    {
        let bytes = number.to_le_bytes();
        let bytes = &bytes[..usize::from(size.bytes())];
        match memory_with_store(alloc, &state.stack, state.register(dst), offset, bytes)? {
            Some(stack) => {
                let mut next = state.past(1);
                next.stack = stack;
                Ok(Moment::Going(next))
            }
            None => Ok(Moment::Stuck),
        }
    }

    fn store_register(
        state: State<A>,
        alloc: A,
        size: Size,
        dst: Register,
        src: Register,
        offset: i16,
    ) -> Result<Moment<A>, AllocError>
        requires slot { state.slot < 2 ^ 32 }
        requires steps { state.steps < 2 ^ 32 }
        ensures { (tables : Tables) → IfOk result (λ m.
            moment_of m ≡ execute tables (StoreRegister size dst src offset) (state_of state)) }
    {
        match number(state.register(src)) {
            Some(number) => Moment::store(state, alloc, size, dst, offset, number),
            None => Ok(Moment::Stuck),
        }
    }

    fn arithmetic(
        state: State<A>,
        width: Width,
        op: BinaryOperation,
        dst: Register,
        source: Source,
    ) -> Moment<A>
        requires slot { state.slot < 2 ^ 32 }
        requires steps { state.steps < 2 ^ 32 }
        ensures { (tables : Tables) →
            moment_of result ≡ execute tables (Arithmetic width op dst source) (state_of state) }
    {
        match operation_result(width, op, state.register(dst), state.operand(source)) {
            Some(value) => Moment::with_result(state, 1, dst, value),
            None => Moment::Stuck,
        }
    }

    fn negate(state: State<A>, width: Width, dst: Register) -> Moment<A>
        requires slot { state.slot < 2 ^ 32 }
        requires steps { state.steps < 2 ^ 32 }
        ensures { (tables : Tables) →
            moment_of result ≡ execute tables (Negate width dst) (state_of state) }
    {
        match number(state.register(dst)) {
            Some(a) => Moment::with_result(
                state,
                1,
                dst,
                Value::Number(arithmetic(width, Operation::Neg, a, 0)),
            ),
            None => Moment::Stuck,
        }
    }

    fn move_sign_extended(
        state: State<A>,
        kind: SignExtendingMove,
        dst: Register,
        src: Register,
    ) -> Moment<A>
        requires slot { state.slot < 2 ^ 32 }
        requires steps { state.steps < 2 ^ 32 }
        ensures { (tables : Tables) →
            moment_of result ≡ execute tables (MoveSignExtended kind dst src) (state_of state) }
    {
        let (width, low) = match kind {
            SignExtendingMove::From8To32 => (Width::Bits32, SignExtension::From8),
            SignExtendingMove::From16To32 => (Width::Bits32, SignExtension::From16),
            SignExtendingMove::From8To64 => (Width::Bits64, SignExtension::From8),
            SignExtendingMove::From16To64 => (Width::Bits64, SignExtension::From16),
            SignExtendingMove::From32To64 => (Width::Bits64, SignExtension::From32),
        };
        match number(state.register(src)) {
            Some(b) => {
                let number = arithmetic(width, Operation::Movsx(low), 0, b);
                Moment::with_result(state, 1, dst, Value::Number(number))
            }
            None => Moment::Stuck,
        }
    }

    fn end(state: State<A>, order: ByteOrder, width: EndWidth, dst: Register) -> Moment<A>
        requires slot { state.slot < 2 ^ 32 }
        requires steps { state.steps < 2 ^ 32 }
        ensures { (tables : Tables) →
            moment_of result ≡ execute tables (End order width dst) (state_of state) }
    {
        match number(state.register(dst)) {
            Some(a) => Moment::with_result(state, 1, dst, Value::Number(end(order, width, a))),
            None => Moment::Stuck,
        }
    }

    fn branch(
        state: State<A>,
        width: Width,
        condition: Condition,
        dst: Register,
        source: Source,
        distance: i16,
    ) -> Moment<A>
        requires slot { state.slot < 2 ^ 32 }
        requires steps { state.steps < 2 ^ 32 }
        ensures { (tables : Tables) → moment_of result
            ≡ execute tables (Branch width condition dst source distance) (state_of state) }
    {
        let Some(a) = number(state.register(dst)) else {
            return Moment::Stuck;
        };
        let Some(b) = number(state.operand(source)) else {
            return Moment::Stuck;
        };
        if holds(width, condition, a, b) {
            Moment::after_jump(state, i32::from(distance))
        } else {
            Moment::Going(state.past(1))
        }
    }

    fn call<B: Allocator>(
        state: State<A>,
        alloc: A,
        schema: &Schema<B>,
        number: i32,
    ) -> Result<Moment<A>, AllocError>
        requires slot { state.slot < 2 ^ 32 }
        requires steps { state.steps < 2 ^ 32 }
        ensures { IfOk result (λ m.
            moment_of m ≡ execute schema.now (Call number) (state_of state)) }
    {
        match state.called_by_number(alloc, schema, number)? {
            Some(next) => Ok(Moment::Going(next.past(1))),
            None => Ok(Moment::Stuck),
        }
    }

    fn exit(state: State<A>) -> Moment<A>
        requires slot { state.slot < 2 ^ 32 }
        requires steps { state.steps < 2 ^ 32 }
        ensures { (tables : Tables) → moment_of result ≡ execute tables Exit (state_of state) }
    {
        match number(state.register(Register::R0)) {
            Some(reply) => Moment::Ended(reply, state.past(0)),
            None => Moment::Stuck,
        }
    }

    /// Runs one instruction.
    fn execute<B: Allocator>(
        state: State<A>,
        alloc: A,
        schema: &Schema<B>,
        instruction: Instruction,
    ) -> Result<Moment<A>, AllocError>
        requires slot { state.slot < 2 ^ 32 }
        requires steps { state.steps < 2 ^ 32 }
        ensures { IfOk result (λ m.
            moment_of m ≡ execute schema.now instruction (state_of state)) }
    {
        match instruction {
            Instruction::LoadWide { dst, value } => {
                Ok(Moment::with_result(state, 2, dst, Value::Number(value)))
            }
            Instruction::Load {
                kind,
                dst,
                src,
                offset,
            } => { Moment::load(state, alloc, kind, dst, src, offset) }
            Instruction::StoreImmediate {
                size,
                dst,
                offset,
                immediate,
            } => {
                let number = i64::from(immediate).cast_unsigned();
                Moment::store(state, alloc, size, dst, offset, number)
            }
            Instruction::StoreRegister {
                size,
                dst,
                src,
                offset,
            } => { Moment::store_register(state, alloc, size, dst, src, offset) }
            Instruction::Arithmetic {
                width,
                operation,
                dst,
                source,
            } => { Ok(Moment::arithmetic(state, width, operation, dst, source)) }
            Instruction::Negate { width, dst } => Ok(Moment::negate(state, width, dst)),
            Instruction::MoveSignExtended { kind, dst, src } => {
                Ok(Moment::move_sign_extended(state, kind, dst, src))
            }
            Instruction::End { order, width, dst } => Ok(Moment::end(state, order, width, dst)),
            Instruction::Jump { distance } => Ok(Moment::after_jump(state, i32::from(distance))),
            Instruction::LongJump { distance } => Ok(Moment::after_jump(state, distance)),
            Instruction::Branch {
                width,
                condition,
                dst,
                source,
                distance,
            } => { Ok(Moment::branch(state, width, condition, dst, source, distance)) }
            Instruction::Call { helper } => Moment::call(state, alloc, schema, helper),
            Instruction::Exit => Ok(Moment::exit(state)),
        }
    }

    /// Runs the instruction at the state's slot.
    #[tactic(auto, unfolding(bpf_semantics::specs::Step::step, bpf_semantics::specs::Step::or_stuck))]
    pub(crate) fn step<B: Allocator, C: Allocator>(
        state: State<A>,
        alloc: A,
        code: &Code<B>,
        schema: &Schema<C>,
    ) -> Result<Moment<A>, AllocError>
        requires { state.steps < 2 ^ 32 }
        ensures { IfOk result (λ m. moment_of m ≡ step code.now schema.now (state_of state)) }
    {
        match code.at(state.slot) {
            Some(instruction) => Moment::execute(state, alloc, schema, instruction),
            None => Ok(Moment::Stuck),
        }
    }
}

impl<A: Allocator + Copy> Moment<A> {
    /// A step further, unless the run has ended or is stuck.
    pub(crate) fn next<B: Allocator, C: Allocator>(
        self,
        alloc: A,
        code: &Code<B>,
        schema: &Schema<C>,
    ) -> Result<Moment<A>, AllocError>
        requires { steps_before (moment_of self) < 2 ^ 32 }
        ensures { IfOk result (λ m.
            moment_of m ≡ next_moment (step code.now schema.now) (moment_of self)) }
    {
        match self {
            Moment::Going(state) => Moment::step(state, alloc, code, schema),
            Moment::Ended(reply, state) => Ok(Moment::Ended(reply, state)),
            Moment::Stuck => Ok(Moment::Stuck),
        }
    }
}
