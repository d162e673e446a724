ghost use Rattle.std.specs.Prelude.{◌≡◌, IsTrue, IfOk, IfSome, true, false, pos};
ghost use Rattle.std.specs.Int.{w32};
ghost use Rattle.bpf_bytes.specs.Reading.{reading_of as read_of, half_reading_of as half_of};
ghost use Rattle.bpf_bytes.specs.Reading.{unused_are_zero as unused_of};
ghost use Rattle.bpf_bytes.specs.Uses.{uses_of, offset_chooses};
ghost use Rattle.bpf_bytes.specs.Reading.{operation_of, extension_of, end_width_of};
ghost use Rattle.bpf_bytes.specs.Reading.{on_register as register_form, instruction_of};
ghost use Rattle.bpf_code.specs.Register.{number_of};
ghost use Rattle.bpf_bytes.specs.Opcode.{byte_of};
ghost use Rattle.bpf_bytes.specs.declared.opcode.SourceKind.TheVariants.{Immediate, Register as InRegister};
ghost use Rattle.bpf_bytes.specs.declared.opcode.Opcode.TheVariants.{Arithmetic};
ghost use Rattle.bpf_bytes.specs.Spelling.{fields_of, code_of, operation_offset};
ghost use Rattle.bpf_code.specs.Sizes.{extension_width};
ghost use Rattle.bpf_bytes.specs.Spelling.{extension_offset, end_immediate, second_half};
ghost use Rattle.bpf_code.specs.Program.{is_wide, IsInRange};
ghost use Rattle.bpf_bytes.specs.Steps.{IsFirstHalf};

use crate::fault::DecodeCause;
use crate::fields::Fields;
use crate::opcode::{ArithmeticCode, Opcode, SourceKind, Uses};
use bpf_code::{Instruction, Register, SignExtendingMove, Source, Width};
use bpf_words::{BinaryOperation, EndWidth};

/// The instruction of a slot; of a wide load its first half.
#[tactic(auto, unfolding(crate::specs::Reading::reading_of))]
pub fn read(fields: &Fields) -> Result<Instruction, DecodeCause>
    ensures exact { result ≡ read_of fields.now }
    ensures spelled { IfOk result (λ i. fields_of i ≡ fields.now) }
    ensures half { IfOk result (λ i. is_wide i ≡ true → IsFirstHalf i) }
    ensures in_range { IfOk result IsInRange }
{
    let opcode = Opcode::from_byte(fields.opcode).ok_or(DecodeCause::UnknownOpcode)?;
    let dst = Register::from_number(fields.dst).ok_or(DecodeCause::RegisterNumber)?;
    let src = Register::from_number(fields.src).ok_or(DecodeCause::RegisterNumber)?;
    if !unused_are_zero(opcode.uses(), fields) {
        return Err(DecodeCause::UnusedField);
    }
    instruction(opcode, dst, src, fields).ok_or(DecodeCause::UndefinedValue)
}

/// The upper half of a wide load's value, from its second slot.
#[tactic(auto, unfolding(crate::specs::Reading::half_reading_of, crate::specs::Reading::unused_are_zero))]
pub fn read_half(fields: &Fields) -> Result<u32, DecodeCause>
    ensures exact { result ≡ half_of fields.now }
    ensures spelled { IfOk result (λ high. second_half high ≡ fields.now) }
{
    let immediate_alone = Uses {
        dst: false,
        src: false,
        offset: false,
        immediate: true,
    };
    if unused_are_zero(immediate_alone, fields) && fields.opcode == 0 {
        Ok(fields.immediate.cast_unsigned())
    } else {
        Err(DecodeCause::UnusedField)
    }
}

#[tactic(auto, unfolding(crate::specs::Reading::unused_are_zero))]
fn unused_are_zero(used: Uses, fields: &Fields) -> bool
    ensures { result ≡ unused_of used fields.now }
{
    (used.dst || fields.dst == 0)
        && (used.src || fields.src == 0)
        && (used.offset || fields.offset == 0)
        && (used.immediate || fields.immediate == 0)
}

#[tactic(auto, unfolding(crate::specs::Reading::instruction_of, crate::specs::Spelling::fields_of, crate::specs::Reading::unused_are_zero))]
fn instruction(opcode: Opcode, dst: Register, src: Register, fields: &Fields) -> Option<Instruction>
    requires opcode { byte_of opcode ≡ fields.now.opcode }
    requires dst { number_of dst ≡ fields.now.dst }
    requires src { number_of src ≡ fields.now.src }
    requires unused { IsTrue (unused_of (uses_of opcode) fields.now) }
    ensures exact { result ≡ instruction_of opcode dst src fields.now }
    ensures spelled { IfSome result (λ i. fields_of i ≡ fields.now) }
    ensures half { IfSome result (λ i. is_wide i ≡ true → IsFirstHalf i) }
    ensures in_range { IfSome result IsInRange }
{
    let offset = fields.offset;
    let immediate = fields.immediate;
    Some(match opcode {
        Opcode::LoadWide if fields.src != 0 => return None,
        Opcode::LoadWide => Instruction::LoadWide {
            dst,
            value: u64::from(immediate.cast_unsigned()),
        },
        Opcode::Load(kind) => Instruction::Load {
            kind,
            dst,
            src,
            offset,
        },
        Opcode::StoreImmediate(size) => Instruction::StoreImmediate {
            size,
            dst,
            offset,
            immediate,
        },
        Opcode::StoreRegister(size) => Instruction::StoreRegister {
            size,
            dst,
            src,
            offset,
        },
        Opcode::Arithmetic(width, code, SourceKind::Immediate) => Instruction::Arithmetic {
            width,
            operation: operation(code, offset)?,
            dst,
            source: Source::Immediate(immediate),
        },
        Opcode::Arithmetic(width, code, SourceKind::Register) => {
            return on_register(width, code, dst, src, fields);
        }
        Opcode::Negate(width) => Instruction::Negate { width, dst },
        Opcode::End(order) => Instruction::End {
            order,
            width: end_width(immediate)?,
            dst,
        },
        Opcode::Jump(Width::Bits64) => Instruction::Jump { distance: offset },
        Opcode::Jump(Width::Bits32) => Instruction::LongJump {
            distance: immediate,
        },
        Opcode::Branch(width, condition, source) => Instruction::Branch {
            width,
            condition,
            dst,
            source: match source {
                SourceKind::Immediate => Source::Immediate(immediate),
                SourceKind::Register => Source::Register(src),
            },
            distance: offset,
        },
        Opcode::Call if fields.src != 0 => return None,
        Opcode::Call => Instruction::Call { helper: immediate },
        Opcode::Exit => Instruction::Exit,
    })
}

#[tactic(auto, unfolding(crate::specs::Reading::on_register, crate::specs::Spelling::fields_of))]
fn on_register(
    width: Width,
    code: ArithmeticCode,
    dst: Register,
    src: Register,
    fields: &Fields,
) -> Option<Instruction>
    requires opcode { byte_of (Arithmetic width code InRegister) ≡ fields.now.opcode }
    requires dst { number_of dst ≡ fields.now.dst }
    requires src { number_of src ≡ fields.now.src }
    requires immediate { fields.now.immediate ≡ pos 0 }
    requires offset { offset_chooses code InRegister ≡ false → fields.now.offset ≡ pos 0 }
    ensures exact { result ≡ register_form width code dst src fields.now.offset }
    ensures spelled { IfSome result (λ i. fields_of i ≡ fields.now) }
    ensures half { IfSome result (λ i. is_wide i ≡ false) }
    ensures in_range { IfSome result IsInRange }
{
    let offset = fields.offset;
    if matches!(code, ArithmeticCode::Mov) && offset != 0 {
        let kind = extension(width, offset)?;
        return Some(Instruction::MoveSignExtended { kind, dst, src });
    }
    let operation = operation(code, offset)?;
    Some(Instruction::Arithmetic {
        width,
        operation,
        dst,
        source: Source::Register(src),
    })
}

#[tactic(auto, unfolding(crate::specs::Reading::operation_of))]
fn operation(code: ArithmeticCode, offset: i16) -> Option<BinaryOperation>
    ensures exact { result ≡ operation_of code offset }
    ensures code { IfSome result (λ op. code_of op ≡ code) }
    ensures offset { offset_chooses code Immediate ≡ true → IfSome result (λ op. operation_offset op ≡ offset) }
    ensures zero { offset_chooses code Immediate ≡ false → IfSome result (λ op. operation_offset op ≡ pos 0) }
{
    Some(match (code, offset) {
        (ArithmeticCode::Add, _) => BinaryOperation::Add,
        (ArithmeticCode::Sub, _) => BinaryOperation::Sub,
        (ArithmeticCode::Mul, _) => BinaryOperation::Mul,
        (ArithmeticCode::Div, 0) => BinaryOperation::Div,
        (ArithmeticCode::Div, 1) => BinaryOperation::Sdiv,
        (ArithmeticCode::Or, _) => BinaryOperation::Or,
        (ArithmeticCode::And, _) => BinaryOperation::And,
        (ArithmeticCode::Lsh, _) => BinaryOperation::Lsh,
        (ArithmeticCode::Rsh, _) => BinaryOperation::Rsh,
        (ArithmeticCode::Mod, 0) => BinaryOperation::Mod,
        (ArithmeticCode::Mod, 1) => BinaryOperation::Smod,
        (ArithmeticCode::Xor, _) => BinaryOperation::Xor,
        (ArithmeticCode::Mov, _) => BinaryOperation::Mov,
        (ArithmeticCode::Arsh, _) => BinaryOperation::Arsh,
        (ArithmeticCode::Div | ArithmeticCode::Mod, _) => return None,
    })
}

#[tactic(auto, unfolding(crate::specs::Reading::extension_of))]
fn extension(width: Width, offset: i16) -> Option<SignExtendingMove>
    ensures exact { result ≡ extension_of width offset }
    ensures width { IfSome result (λ kind. extension_width kind ≡ width) }
    ensures offset { IfSome result (λ kind. extension_offset kind ≡ offset) }
{
    match (width, offset) {
        (Width::Bits32, 8) => Some(SignExtendingMove::From8To32),
        (Width::Bits32, 16) => Some(SignExtendingMove::From16To32),
        (Width::Bits64, 8) => Some(SignExtendingMove::From8To64),
        (Width::Bits64, 16) => Some(SignExtendingMove::From16To64),
        (Width::Bits64, 32) => Some(SignExtendingMove::From32To64),
        _ => None,
    }
}

#[tactic(auto, unfolding(crate::specs::Reading::end_width_of))]
fn end_width(immediate: i32) -> Option<EndWidth>
    ensures exact { result ≡ end_width_of immediate }
    ensures immediate { IfSome result (λ width. end_immediate width ≡ immediate) }
{
    match immediate {
        16 => Some(EndWidth::Low16),
        32 => Some(EndWidth::Low32),
        64 => Some(EndWidth::Low64),
        _ => None,
    }
}
