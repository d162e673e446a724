//! An input that waits for answers, and the output that it watches.

use std::io;
use std::io::{BufRead, ErrorKind, Read, Write};
use std::sync::atomic::{AtomicU64, Ordering};

/// An input that gives `at_once` lines together. The next lines come only where all answers have left; else a look
/// fails. Each look is interrupted once before.
#[derive(Drop)]
pub(crate) struct PacedInput<'a> {
    pub(crate) left: &'a [u8],
    pub(crate) at_once: u64,
    pub(crate) given: u64,
    pub(crate) interrupts: bool,
    /// True where a look came before the answers had left.
    pub(crate) asked_early: bool,
    pub(crate) answered: &'a AtomicU64,
}

impl PacedInput<'_> {
    /// Returns what is left of the lines that are given at once.
    fn shown(&self) -> io::Result<&[u8]> {
        let begun = self.given.checked_rem(self.at_once).unwrap_or(0);
        if begun == 0
            && !self.left.is_empty()
            && self.answered.load(Ordering::SeqCst) < self.given
        {
            return Err(io::Error::from(ErrorKind::Other));
        }
        let mut lines = begun;
        let end = self.left.iter().position(|byte| {
            if *byte == b'\n' {
                lines = lines.saturating_add(1);
            }
            lines == self.at_once
        });
        let length = end.map_or(self.left.len(), |end| end.saturating_add(1));
        let (shown, _) = self.left.split_at(length.min(self.left.len()));
        Ok(shown)
    }
}

impl Read for PacedInput<'_> {
    fn read(&mut self, buf: &mut [u8]) -> io::Result<usize> {
        let mut shown = self.shown()?;
        let count = shown.read(buf)?;
        self.consume(count);
        Ok(count)
    }
}

impl BufRead for PacedInput<'_> {
    fn fill_buf(&mut self) -> io::Result<&[u8]> {
        self.interrupts = !self.interrupts;
        if self.interrupts {
            self.asked_early = self.asked_early || self.shown().is_err();
            self.shown()
        } else {
            Err(io::Error::from(ErrorKind::Interrupted))
        }
    }

    fn consume(&mut self, amt: usize) {
        let (taken, left) = self.left.split_at(self.left.len().min(amt));
        if taken.ends_with(b"\n") {
            self.given = self.given.saturating_add(1);
        }
        self.left = left;
    }
}

/// An output that counts the lines that were written, the lines that were flushed, and the flushes.
#[derive(Drop)]
pub(crate) struct WatchedOutput<'a> {
    pub(crate) written: u64,
    pub(crate) flushes: u64,
    pub(crate) answered: &'a AtomicU64,
}

impl Write for WatchedOutput<'_> {
    fn write(&mut self, buf: &[u8]) -> io::Result<usize> {
        let lines = buf.iter().filter(|byte| **byte == b'\n').count();
        self.written = self.written.saturating_add(lines as u64);
        Ok(buf.len())
    }

    fn flush(&mut self) -> io::Result<()> {
        self.answered.store(self.written, Ordering::SeqCst);
        self.flushes = self.flushes.saturating_add(1);
        Ok(())
    }
}
