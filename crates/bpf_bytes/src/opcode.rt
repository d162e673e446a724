ghost use Rattle.std.specs.Prelude.{◌≡◌, ◌/◌, ◌%◌, IfSome};
ghost use Rattle.bpf_bytes.specs.Opcode.{byte_of, opcode_of, binary_of, branch_of, memory_of, source_of};
ghost use Rattle.bpf_bytes.specs.Opcode.{arithmetic_of, condition_of, arithmetic_number};
ghost use Rattle.bpf_bytes.specs.Opcode.{condition_number as number_of_condition, load_byte as byte_of_load};
ghost use Rattle.bpf_bytes.specs.Opcode.{size_code as bits_of_size, source_bit as bit_of_source};
ghost use Rattle.bpf_bytes.specs.Opcode.{arithmetic_class as class_of_arithmetic, jump_class as class_of_jump};

use bpf_code::{LoadKind, Size, Width};
use bpf_words::{ByteOrder, Condition};

/// An arithmetic operation as the opcode's high four bits name it (RFC 9669 section 4.1).
#[derive(Clone, Copy, Debug, PartialEq, Eq)]
pub enum ArithmeticCode {
    Add,
    Sub,
    Mul,
    Div,
    Or,
    And,
    Lsh,
    Rsh,
    Mod,
    Xor,
    Mov,
    Arsh,
}

/// The place of the second operand, as the opcode says it (RFC 9669 section 4).
#[derive(Clone, Copy, Debug, PartialEq, Eq)]
pub enum SourceKind {
    Immediate,
    Register,
}

/// An opcode of this product's profile: one byte.
#[derive(Clone, Copy, Debug, PartialEq, Eq)]
pub enum Opcode {
    LoadWide,
    Load(LoadKind),
    StoreImmediate(Size),
    StoreRegister(Size),
    Arithmetic(Width, ArithmeticCode, SourceKind),
    Negate(Width),
    End(ByteOrder),
    Jump(Width),
    Branch(Width, Condition, SourceKind),
    Call,
    Exit,
}

/// The fields of its slot that an opcode uses; the others are zero.
#[derive(Clone, Copy, Debug, PartialEq, Eq)]
pub struct Uses {
    pub dst: bool,
    pub src: bool,
    pub offset: bool,
    pub immediate: bool,
}

impl Opcode {
    ghost use Rattle.bpf_bytes.specs.Uses.{uses_of};

    /// The opcode of this byte, or none where the byte is no opcode of the profile.
    #[tactic(auto, unfolding(crate::specs::Opcode::opcode_of))]
    pub fn from_byte(byte: u8) -> Option<Opcode>
        ensures exact { result ≡ opcode_of byte }
        ensures spelled { IfSome result (λ opcode. byte_of opcode ≡ byte) }
    {
        Some(match byte {
            0x84 => Opcode::Negate(Width::Bits32),
            0x87 => Opcode::Negate(Width::Bits64),
            0xd4 => Opcode::End(ByteOrder::Little),
            0xdc => Opcode::End(ByteOrder::Big),
            0xd7 => Opcode::End(ByteOrder::Swap),
            0x05 => Opcode::Jump(Width::Bits64),
            0x06 => Opcode::Jump(Width::Bits32),
            0x85 => Opcode::Call,
            0x95 => Opcode::Exit,
            _ => {
                return match byte & 0x07 {
                    4 => binary(Width::Bits32, byte),
                    5 => branch(Width::Bits64, byte),
                    6 => branch(Width::Bits32, byte),
                    7 => binary(Width::Bits64, byte),
                    _ => memory(byte),
                };
            }
        })
    }

    /// The fields that the opcode uses. The fields of a wide load and of a call whose only defined value is zero count
    /// as used.
    pub fn uses(self) -> Uses
        ensures { result ≡ uses_of self }
    {
        match self {
            Opcode::LoadWide => Uses::new(true, true, false, true),
            Opcode::Load(_) => Uses::new(true, true, true, false),
            Opcode::StoreImmediate(_) => Uses::new(true, false, true, true),
            Opcode::StoreRegister(_) => Uses::new(true, true, true, false),
            Opcode::Arithmetic(_, code, source) => {
                let offset = code.offset_chooses(source);
                match source {
                    SourceKind::Immediate => Uses::new(true, false, offset, true),
                    SourceKind::Register => Uses::new(true, true, offset, false),
                }
            }
            Opcode::Negate(_) => Uses::new(true, false, false, false),
            Opcode::End(_) => Uses::new(true, false, false, true),
            Opcode::Jump(Width::Bits64) => Uses::new(false, false, true, false),
            Opcode::Jump(Width::Bits32) => Uses::new(false, false, false, true),
            Opcode::Branch(_, _, SourceKind::Immediate) => Uses::new(true, false, true, true),
            Opcode::Branch(_, _, SourceKind::Register) => Uses::new(true, true, true, false),
            Opcode::Call => Uses::new(false, true, false, true),
            Opcode::Exit => Uses::new(false, false, false, false),
        }
    }

    /// The opcode's byte.
    pub fn byte(self) -> u8
        ensures { result ≡ byte_of self }
    {
        match self {
            Opcode::LoadWide => 0x18,
            Opcode::Load(kind) => load_byte(kind),
            Opcode::StoreImmediate(size) => 0x62 + 8 * size_code(size),
            Opcode::StoreRegister(size) => 0x63 + 8 * size_code(size),
            Opcode::Arithmetic(width, code, source) => {
                16 * code.number() + 8 * source_bit(source) + arithmetic_class(width)
            }
            Opcode::Negate(width) => 0x80 + arithmetic_class(width),
            Opcode::End(ByteOrder::Little) => 0xd4,
            Opcode::End(ByteOrder::Big) => 0xdc,
            Opcode::End(ByteOrder::Swap) => 0xd7,
            Opcode::Jump(width) => jump_class(width),
            Opcode::Branch(width, condition, source) => {
                16 * condition_number(condition) + 8 * source_bit(source) + jump_class(width)
            }
            Opcode::Call => 0x85,
            Opcode::Exit => 0x95,
        }
    }
}

impl Uses {
    ghost use Rattle.bpf_bytes.specs.Uses.{fields_used};

    fn new(dst: bool, src: bool, offset: bool, immediate: bool) -> Uses
        ensures { result ≡ fields_used dst src offset immediate }
    {
        Uses {
            dst,
            src,
            offset,
            immediate,
        }
    }
}

impl ArithmeticCode {
    ghost use Rattle.bpf_bytes.specs.Uses.{offset_chooses as chooses};

    /// Tells whether the offset tells this operation's variants apart.
    fn offset_chooses(self, source: SourceKind) -> bool
        ensures { result ≡ chooses self source }
    {
        match (self, source) {
            (ArithmeticCode::Div | ArithmeticCode::Mod, _) => true,
            (ArithmeticCode::Mov, SourceKind::Register) => true,
            _ => false,
        }
    }

    fn from_number(number: u8) -> Option<ArithmeticCode>
        ensures exact { result ≡ arithmetic_of number }
        ensures spelled { IfSome result (λ code. arithmetic_number code ≡ number) }
    {
        Some(match number {
            0 => ArithmeticCode::Add,
            1 => ArithmeticCode::Sub,
            2 => ArithmeticCode::Mul,
            3 => ArithmeticCode::Div,
            4 => ArithmeticCode::Or,
            5 => ArithmeticCode::And,
            6 => ArithmeticCode::Lsh,
            7 => ArithmeticCode::Rsh,
            9 => ArithmeticCode::Mod,
            10 => ArithmeticCode::Xor,
            11 => ArithmeticCode::Mov,
            12 => ArithmeticCode::Arsh,
            _ => return None,
        })
    }

    fn number(self) -> u8
        ensures { result ≡ arithmetic_number self }
    {
        match self {
            ArithmeticCode::Add => 0,
            ArithmeticCode::Sub => 1,
            ArithmeticCode::Mul => 2,
            ArithmeticCode::Div => 3,
            ArithmeticCode::Or => 4,
            ArithmeticCode::And => 5,
            ArithmeticCode::Lsh => 6,
            ArithmeticCode::Rsh => 7,
            ArithmeticCode::Mod => 9,
            ArithmeticCode::Xor => 10,
            ArithmeticCode::Mov => 11,
            ArithmeticCode::Arsh => 12,
        }
    }
}

fn condition_from_number(number: u8) -> Option<Condition>
    ensures exact { result ≡ condition_of number }
    ensures spelled { IfSome result (λ condition. number_of_condition condition ≡ number) }
{
    Some(match number {
        1 => Condition::Eq,
        2 => Condition::Gt,
        3 => Condition::Ge,
        4 => Condition::Set,
        5 => Condition::Ne,
        6 => Condition::Sgt,
        7 => Condition::Sge,
        10 => Condition::Lt,
        11 => Condition::Le,
        12 => Condition::Slt,
        13 => Condition::Sle,
        _ => return None,
    })
}

fn source_kind(byte: u8) -> SourceKind
    ensures exact { result ≡ source_of byte }
    ensures spelled { bit_of_source result ≡ byte / 8 % 2 }
{
    if byte >> 3 & 1 == 0 {
        SourceKind::Immediate
    } else {
        SourceKind::Register
    }
}

#[tactic(auto, unfolding(crate::specs::Opcode::binary_of))]
fn binary(width: Width, byte: u8) -> Option<Opcode>
    requires { byte % 8 ≡ class_of_arithmetic width }
    ensures exact { result ≡ binary_of width byte }
    ensures spelled { IfSome result (λ opcode. byte_of opcode ≡ byte) }
{
    let code = ArithmeticCode::from_number(byte >> 4)?;
    Some(Opcode::Arithmetic(width, code, source_kind(byte)))
}

#[tactic(auto, unfolding(crate::specs::Opcode::branch_of))]
fn branch(width: Width, byte: u8) -> Option<Opcode>
    requires { byte % 8 ≡ class_of_jump width }
    ensures exact { result ≡ branch_of width byte }
    ensures spelled { IfSome result (λ opcode. byte_of opcode ≡ byte) }
{
    let condition = condition_from_number(byte >> 4)?;
    Some(Opcode::Branch(width, condition, source_kind(byte)))
}

#[tactic(auto, unfolding(crate::specs::Opcode::memory_of))]
fn memory(byte: u8) -> Option<Opcode>
    ensures exact { result ≡ memory_of byte }
    ensures spelled { IfSome result (λ opcode. byte_of opcode ≡ byte) }
{
    Some(match byte {
        0x18 => Opcode::LoadWide,
        0x61 => Opcode::Load(LoadKind::U32),
        0x69 => Opcode::Load(LoadKind::U16),
        0x71 => Opcode::Load(LoadKind::U8),
        0x79 => Opcode::Load(LoadKind::U64),
        0x81 => Opcode::Load(LoadKind::I32),
        0x89 => Opcode::Load(LoadKind::I16),
        0x91 => Opcode::Load(LoadKind::I8),
        0x62 => Opcode::StoreImmediate(Size::Word),
        0x6a => Opcode::StoreImmediate(Size::HalfWord),
        0x72 => Opcode::StoreImmediate(Size::Byte),
        0x7a => Opcode::StoreImmediate(Size::DoubleWord),
        0x63 => Opcode::StoreRegister(Size::Word),
        0x6b => Opcode::StoreRegister(Size::HalfWord),
        0x73 => Opcode::StoreRegister(Size::Byte),
        0x7b => Opcode::StoreRegister(Size::DoubleWord),
        _ => return None,
    })
}

fn condition_number(condition: Condition) -> u8
    ensures { result ≡ number_of_condition condition }
{
    match condition {
        Condition::Eq => 1,
        Condition::Gt => 2,
        Condition::Ge => 3,
        Condition::Set => 4,
        Condition::Ne => 5,
        Condition::Sgt => 6,
        Condition::Sge => 7,
        Condition::Lt => 10,
        Condition::Le => 11,
        Condition::Slt => 12,
        Condition::Sle => 13,
    }
}

fn load_byte(kind: LoadKind) -> u8
    ensures { result ≡ byte_of_load kind }
{
    match kind {
        LoadKind::U32 => 0x61,
        LoadKind::U16 => 0x69,
        LoadKind::U8 => 0x71,
        LoadKind::U64 => 0x79,
        LoadKind::I32 => 0x81,
        LoadKind::I16 => 0x89,
        LoadKind::I8 => 0x91,
    }
}

fn size_code(size: Size) -> u8
    ensures { result ≡ bits_of_size size }
{
    match size {
        Size::Word => 0,
        Size::HalfWord => 1,
        Size::Byte => 2,
        Size::DoubleWord => 3,
    }
}

fn source_bit(source: SourceKind) -> u8
    ensures { result ≡ bit_of_source source }
{
    match source {
        SourceKind::Immediate => 0,
        SourceKind::Register => 1,
    }
}

fn arithmetic_class(width: Width) -> u8
    ensures { result ≡ class_of_arithmetic width }
{
    match width {
        Width::Bits32 => 4,
        Width::Bits64 => 7,
    }
}

fn jump_class(width: Width) -> u8
    ensures { result ≡ class_of_jump width }
{
    match width {
        Width::Bits32 => 6,
        Width::Bits64 => 5,
    }
}
