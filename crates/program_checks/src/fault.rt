//! The faults of programs and procedures that aren't added.
use abs_step::Cause;
use bpf_bytes::DecodeFault;

/// The fault of a program that was to be added.
#[derive(Clone, Copy, Debug, PartialEq, Eq)]
pub enum ProgramFault {
    /// The bytes are no program.
    Bytes(DecodeFault),
    /// The lowest slot, counted from 0, whose instruction the verifier refuses, and its lowest cause.
    Instruction { slot: u16, cause: Cause },
}

/// The fault of a procedure that was to be added, of arguments within the limit.
#[derive(Clone, Copy, Debug, PartialEq, Eq)]
pub enum AdditionFault {
    /// The program has a fault.
    Program(ProgramFault),
    /// The program is accepted; the name isn't 1 to 32 letters, digits or `_`.
    Name,
}
