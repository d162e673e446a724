//! The causes.
ghost use Rattle.std.specs.Prelude.{◌≡◌};
ghost use Rattle.abs_step.specs.Number.{cause_number};

/// A cause for which an instruction is refused. The lowest cause stands first.
#[derive(Clone, Copy, Debug, PartialEq, Eq)]
pub enum Cause {
    /// A register that is read may hold nothing.
    HoldsNothing,
    /// The instruction writes r10, the frame pointer.
    WritesFramePointer,
    /// A pointer stands where only a number may, or may be moved too far, or by a number that may have either sign.
    UsesPointer,
    /// A load or a store at a number, or one that may touch a byte outside the stack or the arguments.
    OutsideMemory,
    /// The instruction may read a byte of the stack that nothing was written to.
    Uninitialised,
    /// The instruction calls a helper that doesn't exist.
    UnknownHelper,
    /// The table that a call names isn't one known number of the schema.
    UnknownTable,
    /// A key, the bound of an interval or a code isn't a number.
    NoNumber,
    /// A buffer isn't at one place of the stack, or isn't whole inside.
    NoBuffer,
    /// r0 is a pointer at EXIT.
    RepliesPointer,
    /// A store to the arguments.
    StoresToArguments,
}

impl Cause {
    /// The number after the letter V in printed refusals, 1 to 11; the lowest of several is given.
    pub fn number(self) -> u8
        ensures { result ≡ cause_number self }
    {
        match self {
            Cause::HoldsNothing => 1,
            Cause::WritesFramePointer => 2,
            Cause::UsesPointer => 3,
            Cause::OutsideMemory => 4,
            Cause::Uninitialised => 5,
            Cause::UnknownHelper => 6,
            Cause::UnknownTable => 7,
            Cause::NoNumber => 8,
            Cause::NoBuffer => 9,
            Cause::RepliesPointer => 10,
            Cause::StoresToArguments => 11,
        }
    }
}
