/// A condition of the conditional jumps, by its name there (RFC 9669 section 4.3).
#[derive(Clone, Copy, Debug, PartialEq, Eq)]
pub enum Condition {
    /// The words are equal.
    Eq,
    /// The first word is greater, unsigned.
    Gt,
    /// The first word is greater or equal, unsigned.
    Ge,
    /// A bit is set in both words.
    Set,
    /// The words differ.
    Ne,
    /// The first word is greater, signed.
    Sgt,
    /// The first word is greater or equal, signed.
    Sge,
    /// The first word is less, unsigned.
    Lt,
    /// The first word is less or equal, unsigned.
    Le,
    /// The first word is less, signed.
    Slt,
    /// The first word is less or equal, signed.
    Sle,
}
