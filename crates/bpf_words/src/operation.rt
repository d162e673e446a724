/// An arithmetic operation on two operands, by its name in RFC 9669 section 4.1.
#[derive(Clone, Copy, Debug, PartialEq, Eq)]
pub enum BinaryOperation {
    Add,
    Sub,
    Mul,
    /// Unsigned quotient.
    Div,
    /// Signed quotient, cut towards zero.
    Sdiv,
    Or,
    And,
    /// Left shift.
    Lsh,
    /// Right shift, filled with zeros.
    Rsh,
    /// Unsigned remainder.
    Mod,
    /// Signed remainder, with the dividend's sign.
    Smod,
    Xor,
    Mov,
    /// Right shift, filled with the sign bit.
    Arsh,
}

/// The number of low bits that a sign-extending move takes (RFC 9669 section 4.1).
#[derive(Clone, Copy, Debug, PartialEq, Eq)]
pub enum SignExtension {
    From8,
    From16,
    From32,
}

/// An operation of the arithmetic classes.
#[derive(Clone, Copy, Debug, PartialEq, Eq)]
pub enum Operation {
    Binary(BinaryOperation),
    /// Zero less the first operand; the second counts for nothing.
    Neg,
    /// The second operand's low bits, sign-extended; the first counts for nothing.
    Movsx(SignExtension),
}

/// The effect of a byte swap instruction on the bytes (RFC 9669 section 4.2, on a little-endian host).
#[derive(Clone, Copy, Debug, PartialEq, Eq)]
pub enum ByteOrder {
    /// Keeps the low bits in their order.
    Little,
    /// Reverses the bytes.
    Big,
    /// Reverses the bytes, whatever the host's order.
    Swap,
}

/// The number of low bits that a byte swap instruction takes (RFC 9669 section 4.2).
#[derive(Clone, Copy, Debug, PartialEq, Eq)]
pub enum EndWidth {
    Low16,
    Low32,
    Low64,
}
