//! Inputs and outputs that fail, or are interrupted.

use std::alloc::Global;
use std::io;
use std::io::{BufRead, ErrorKind, Read, Write};

/// An input that gives its bytes, at most `at_once` at a time, and then fails, or ends.
#[derive(Drop)]
pub struct Input<'a> {
    pub left: &'a [u8],
    pub at_once: usize,
    pub fails: bool,
}

impl Read for Input<'_> {
    fn read(&mut self, buf: &mut [u8]) -> io::Result<usize> {
        if self.left.is_empty() && self.fails {
            return Err(io::Error::from(ErrorKind::Other));
        }
        self.left.read(buf)
    }
}

impl BufRead for Input<'_> {
    fn fill_buf(&mut self) -> io::Result<&[u8]> {
        if self.left.is_empty() && self.fails {
            return Err(io::Error::from(ErrorKind::Other));
        }
        let (shown, _) = self.left.split_at(self.left.len().min(self.at_once));
        Ok(shown)
    }

    fn consume(&mut self, amt: usize) {
        let (_, left) = self.left.split_at(self.left.len().min(amt));
        self.left = left;
    }
}

/// An input that gives its bytes, at most `at_once` at a time, and then fails, or ends. Each look is interrupted once
/// before.
#[derive(Drop)]
pub struct InterruptedInput<'a> {
    pub left: &'a [u8],
    pub at_once: usize,
    pub fails: bool,
    interrupts: bool,
}

impl<'a> InterruptedInput<'a> {
    /// Makes an input whose first look is interrupted.
    pub fn new(left: &'a [u8], at_once: usize, fails: bool) -> InterruptedInput<'a> {
        InterruptedInput {
            left,
            at_once,
            fails,
            interrupts: false,
        }
    }
}

impl Read for InterruptedInput<'_> {
    fn read(&mut self, buf: &mut [u8]) -> io::Result<usize> {
        self.left.read(buf)
    }
}

impl BufRead for InterruptedInput<'_> {
    fn fill_buf(&mut self) -> io::Result<&[u8]> {
        self.interrupts = !self.interrupts;
        if self.interrupts {
            return Err(io::Error::from(ErrorKind::Interrupted));
        }
        if self.left.is_empty() && self.fails {
            return Err(io::Error::from(ErrorKind::Other));
        }
        Ok(&self.left[..self.left.len().min(self.at_once)])
    }

    fn consume(&mut self, amount: usize) {
        self.left = &self.left[amount.min(self.left.len())..];
    }
}

/// The behaviour of an output behind its room.
#[derive(Clone, Copy, PartialEq, Eq)]
pub enum Full {
    Fails,
    TakesNothing,
}

/// An output that takes at most `room` bytes, at most `at_once` at a time, and keeps them. Its flush may fail.
#[derive(Drop)]
pub struct Output {
    room: usize,
    at_once: usize,
    full: Full,
    pub flushes: bool,
    pub held: Vec<u8>,
    /// The number of writes and flushes after it had failed.
    pub after_failure: u32,
    failed: bool,
}

impl Output {
    /// Makes an output that has taken nothing, with room for `room` bytes, `at_once` at a time.
    pub fn new(alloc: Global, room: usize, at_once: usize, full: Full) -> Output {
        Output {
            room,
            at_once,
            full,
            flushes: true,
            held: Vec::new(alloc),
            after_failure: 0,
            failed: false,
        }
    }

    fn count(&mut self) {
        if self.failed {
            self.after_failure = self.after_failure.saturating_add(1);
        }
    }
}

impl Write for Output {
    fn write(&mut self, buf: &[u8]) -> io::Result<usize> {
        self.count();
        if self.room == 0 {
            self.failed = true;
            return match self.full {
                Full::Fails => Err(io::Error::from(ErrorKind::Other)),
                Full::TakesNothing => Ok(0),
            };
        }
        let taken = buf.len().min(self.room).min(self.at_once);
        let (front, _) = buf.split_at(taken);
        self.held.extend_from_slice(front)?;
        self.room -= taken;
        Ok(taken)
    }

    fn flush(&mut self) -> io::Result<()> {
        self.count();
        if self.flushes {
            Ok(())
        } else {
            self.failed = true;
            Err(io::Error::from(ErrorKind::Other))
        }
    }
}
