/// The value that a register holds.
#[derive(Clone, Copy, Debug, PartialEq, Eq)]
pub enum Value {
    /// No value that may be read.
    Nothing,
    /// A number.
    Number(u64),
    /// A place of the stack, as the distance from the stack's end, from -65,536 to 65,536; the stack is at -512 to -1.
    Stack(i32),
    /// A place of the arguments, as the distance from their start, from -65,536 to 65,536.
    Args(i32),
}
