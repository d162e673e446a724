ghost use Rattle.std.specs.Prelude.{◌≡◌, ◌≤◌, IfSome};
ghost use Rattle.bpf_code.specs.Sizes.{width_bits, size_bytes, load_bytes, extension_width};
ghost use Rattle.bpf_code.specs.Register.{number_of, register_of};

use bpf_words::{BinaryOperation, ByteOrder, Condition, EndWidth};

/// A register, r0 to r10 (RFC 9669 section 3.1); r10 is the frame pointer.
#[derive(Clone, Copy, Debug, PartialEq, Eq)]
pub enum Register {
    R0,
    R1,
    R2,
    R3,
    R4,
    R5,
    R6,
    R7,
    R8,
    R9,
    R10,
}

impl Register {
    /// The register of this number, or none above 10.
    pub fn from_number(number: u8) -> Option<Register>
        ensures exact { result ≡ register_of number }
        ensures numbered { IfSome result (λ register. number_of register ≡ number) }
    {
        Some(match number {
            0 => Register::R0,
            1 => Register::R1,
            2 => Register::R2,
            3 => Register::R3,
            4 => Register::R4,
            5 => Register::R5,
            6 => Register::R6,
            7 => Register::R7,
            8 => Register::R8,
            9 => Register::R9,
            10 => Register::R10,
            11.. => return None,
        })
    }

    /// The register's number, 0 to 10.
    pub fn number(self) -> u8
        ensures { result ≡ number_of self }
    {
        match self {
            Register::R0 => 0,
            Register::R1 => 1,
            Register::R2 => 2,
            Register::R3 => 3,
            Register::R4 => 4,
            Register::R5 => 5,
            Register::R6 => 6,
            Register::R7 => 7,
            Register::R8 => 8,
            Register::R9 => 9,
            Register::R10 => 10,
        }
    }
}

/// The number of bits that an arithmetic operation or a condition works on (RFC 9669 section 3.3).
#[derive(Clone, Copy, Debug, PartialEq, Eq)]
pub enum Width {
    Bits32,
    Bits64,
}

impl Width {
    /// The number of bits.
    pub fn bits(self) -> u8
        ensures { result ≡ width_bits self }
    {
        match self {
            Width::Bits32 => 32,
            Width::Bits64 => 64,
        }
    }
}

/// The number of bytes that a store writes (RFC 9669 section 5).
#[derive(Clone, Copy, Debug, PartialEq, Eq)]
pub enum Size {
    /// One byte.
    Byte,
    /// Two bytes.
    HalfWord,
    /// Four bytes.
    Word,
    /// Eight bytes.
    DoubleWord,
}

impl Size {
    /// Returns the number of bytes that a store of this size writes.
    pub fn bytes(self) -> u8
        ensures count { result ≡ size_bytes self }
        ensures few { result ≤ 8 }
    {
        match self {
            Size::Byte => 1,
            Size::HalfWord => 2,
            Size::Word => 4,
            Size::DoubleWord => 8,
        }
    }
}

/// The type that a load reads, by its name in Rust (RFC 9669 sections 5.1 and 5.2). Unsigned types are zero-extended to
/// 64 bits, signed types sign-extended.
#[derive(Clone, Copy, Debug, PartialEq, Eq)]
pub enum LoadKind {
    U8,
    U16,
    U32,
    U64,
    I8,
    I16,
    I32,
}

impl LoadKind {
    /// Returns the number of bytes that the load reads.
    pub fn bytes(self) -> u8
        ensures count { result ≡ load_bytes self }
        ensures few { result ≤ 8 }
    {
        match self {
            LoadKind::U8 | LoadKind::I8 => 1,
            LoadKind::U16 | LoadKind::I16 => 2,
            LoadKind::U32 | LoadKind::I32 => 4,
            LoadKind::U64 => 8,
        }
    }
}

/// The second operand: a register or the instruction's immediate (RFC 9669 section 4).
#[derive(Clone, Copy, Debug, PartialEq, Eq)]
pub enum Source {
    Immediate(i32),
    Register(Register),
}

/// A sign-extending move: the number of low bits that are extended, and the number of bits that they are extended to
/// (RFC 9669 section 4.1).
#[derive(Clone, Copy, Debug, PartialEq, Eq)]
pub enum SignExtendingMove {
    From8To32,
    From16To32,
    From8To64,
    From16To64,
    From32To64,
}

impl SignExtendingMove {
    /// The width that the move extends to.
    pub fn width(self) -> Width
        ensures { result ≡ extension_width self }
    {
        match self {
            SignExtendingMove::From8To32 | SignExtendingMove::From16To32 => Width::Bits32,
            SignExtendingMove::From8To64
            | SignExtendingMove::From16To64
            | SignExtendingMove::From32To64 => Width::Bits64,
        }
    }
}

/// An instruction. Each value is spelled by one string of 8 bytes, the wide load by one of 16.
#[derive(Clone, Copy, Debug, PartialEq, Eq)]
pub enum Instruction {
    /// Sets the register to a number of 64 bits (RFC 9669 section 5.4).
    LoadWide {
        dst: Register,
        value: u64,
    },
    /// Loads from the address in src plus the offset.
    Load {
        kind: LoadKind,
        dst: Register,
        src: Register,
        offset: i16,
    },
    /// Stores the immediate at the address in dst plus the offset.
    StoreImmediate {
        size: Size,
        dst: Register,
        offset: i16,
        immediate: i32,
    },
    /// Stores src at the address in dst plus the offset.
    StoreRegister {
        size: Size,
        dst: Register,
        src: Register,
        offset: i16,
    },
    /// Sets dst to the operation of dst and the source.
    Arithmetic {
        width: Width,
        operation: BinaryOperation,
        dst: Register,
        source: Source,
    },
    /// Sets dst to its negative.
    Negate {
        width: Width,
        dst: Register,
    },
    /// Sets dst to the low bits of src, sign-extended.
    MoveSignExtended {
        kind: SignExtendingMove,
        dst: Register,
        src: Register,
    },
    /// Sets dst to its low bits, in the byte order that is asked for.
    End {
        order: ByteOrder,
        width: EndWidth,
        dst: Register,
    },
    /// Jumps by the distance, in slots from the next one.
    Jump {
        distance: i16,
    },
    /// Jumps by a distance of 32 bits, in slots from the next one.
    LongJump {
        distance: i32,
    },
    /// Jumps by the distance where the condition holds of dst and the source.
    Branch {
        width: Width,
        condition: Condition,
        dst: Register,
        source: Source,
        distance: i16,
    },
    /// Calls the helper of this number.
    Call {
        helper: i32,
    },
    /// Ends the program.
    Exit,
}
