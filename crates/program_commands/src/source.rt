//! The reading of a program's bytes, no more of them into memory than a program has.

ghost use Rattle.std.specs.Prelude.{◌≡◌, ◌≤◌, ◌++◌, ℕ, List, [], IfErr, IfOk, OnOk, IfSome, length};
ghost use Rattle.std.specs.Io.KnownBytes.{ReadConsumes};
ghost use Rattle.bpf_bytes.specs.Decoding.{program_of};
ghost use Rattle.program_commands.specs.Failures.{IsBeforeOutput};
ghost use Rattle.program_commands.specs.Source.{IsSourceOf};

use crate::failure::StreamFault;
use bpf_bytes::{DecodeCause, DecodeFault, decode};
use bpf_code::{Code, MAX_SLOTS};
use schema::OrNoMemory;
use std::alloc::{AllocError, Allocator};
use std::io;
use std::io::{ErrorKind, Read};

/// The bytes of an input.
#[derive(Drop)]
pub enum ProgramSource<A: Allocator> {
    /// The whole of the input's bytes, no more than a program may have.
    Whole(Vec<u8, A>),
    /// More bytes than a program may have. The value is true where they are whole slots.
    TooLong(bool),
}

/// The bytes so far.
#[derive(Drop)]
pub struct Front<A: Allocator> {
    bytes: Vec<u8, A>,
    /// True where the input has more bytes than a program may have. `bytes` doesn't have all of them then.
    is_long: bool,
    /// The number of bytes, modulo a slot's eight.
    remainder: usize,
}

impl<A: Allocator> Front<A> {
    ghost use Rattle.program_commands.specs.Source.{IsFrontOf, IsSourceOf};

    fn new(alloc: A) -> Result<Front<A>, AllocError>
        ensures { IfOk result (λ front. IsFrontOf front []) }
    {
        Ok(Front {
            bytes: Vec::with_capacity(alloc, 8 * MAX_SLOTS)?,
            is_long: false,
            remainder: 0,
        })
    }

    fn source(self) -> ProgramSource<A>
        ensures { (bytes : List ℕ) → IsFrontOf self bytes → IsSourceOf result bytes }
    {
        if self.is_long {
            ProgramSource::TooLong(self.remainder == 0)
        } else {
            ProgramSource::Whole(self.bytes)
        }
    }

    fn add(&mut self, piece: &[u8]) -> Result<(), AllocError>
        requires { length piece.now ≤ 4096 }
        ensures { OnOk result ((bytes : List ℕ) → IsFrontOf self.old bytes → IsFrontOf self.new (bytes ++ piece.now)) }
    {
        if !self.is_long {
            if self.bytes.len() <= 8 * MAX_SLOTS
                && piece.len() <= 8 * MAX_SLOTS - self.bytes.len()
            {
                self.bytes.extend_from_slice(piece)?;
            } else {
                self.is_long = true;
            }
        }
        self.remainder = (self.remainder % 8 + piece.len()) % 8;
        Ok(())
    }
}

/// Reads once, and again where the read was interrupted.
fn read_some<R: Read>(input: &mut R, chunk: &mut [u8]) -> io::Result<usize>
    ensures bound { IfOk result (λ n. n ≤ length chunk.new) }
    ensures consumed { ReadConsumes (R.remaining input.old) (R.remaining input.new) result chunk.new }
{
    for _ in 0..u64::MAX {
        match input.read(chunk) {
            Err(error) if matches!(error.kind(), ErrorKind::Interrupted) => {}
            other => return other,
        }
    }
    Err(io::Error::from(ErrorKind::Interrupted))
}

/// Reads an input to its end. An error is the input's, or want of memory.
fn read_source<A: Allocator, R: Read>(
    alloc: A,
    input: &mut R,
) -> Result<ProgramSource<A>, OrNoMemory<StreamFault>>
    ensures source { IfOk result (λ source. IfSome (R.remaining input.old) (IsSourceOf source)) }
    ensures before { IfErr result IsBeforeOutput }
{
    let mut front = Front::new(alloc)?;
    let mut chunk = [0u8; 4096];
    for _ in 0..u64::MAX {
        let count = match read_some(input, &mut chunk) {
            Ok(count) => count,
            Err(error) => return Err(OrNoMemory::Fault(StreamFault::Input(error))),
        };
        if count == 0 {
            return Ok(front.source());
        }
        let (piece, _) = chunk.split_at(count);
        front.add(piece)?;
    }
    Err(OrNoMemory::Fault(StreamFault::Input(io::Error::from(ErrorKind::Interrupted))))
}

/// Decodes the bytes of a source. The error is want of memory.
#[tactic(auto, unfolding(bpf_bytes::specs::Decoding::program_of))]
fn decode_source<A: Allocator>(
    alloc: A,
    source: &ProgramSource<A>,
) -> Result<Result<Code<A>, DecodeFault>, AllocError>
    ensures { IfOk result (λ decoded. (bytes : List ℕ) → IsSourceOf source.now bytes → program_of bytes ≡ decoded) }
{
    let fault = |cause: DecodeCause| DecodeFault { cause, slot: 0 };
    match source {
        ProgramSource::Whole(bytes) => match decode(alloc, bytes) {
            Err(fault) if matches!(fault.cause, DecodeCause::NoMemory) => Err(AllocError),
            decoded => Ok(decoded),
        },
        ProgramSource::TooLong(true) => Ok(Err(fault(DecodeCause::TooManySlots))),
        ProgramSource::TooLong(false) => Ok(Err(fault(DecodeCause::Length))),
    }
}

/// Reads a program, or the fault of the bytes. An error is the input's, or want of memory.
pub(crate) fn read_program<A: Allocator + Copy, R: Read>(
    alloc: A,
    input: &mut R,
) -> Result<Result<Code<A>, DecodeFault>, OrNoMemory<StreamFault>>
    ensures program { IfOk result (λ decoded. IfSome (R.remaining input.old) (λ bytes. program_of bytes ≡ decoded)) }
    ensures before { IfErr result IsBeforeOutput }
{
    let source = read_source(alloc, input)?;
    Ok(decode_source(alloc, &source)?)
}
