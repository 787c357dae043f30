//! A reader and a writer that fail at one of their calls.

use std::alloc::Global;
use std::io;
use std::io::{ErrorKind, Read, Write};

/// Gives some bytes at each call, and fails at one, which it remembers.
#[derive(Drop)]
pub(crate) struct FailingReader<'a> {
    rest: &'a [u8],
    width: u64,
    calls: u64,
    fails_at: u64,
    kind: ErrorKind,
    /// Whether a call failed.
    pub(crate) failed: bool,
}

impl FailingReader<'_> {
    /// Over these bytes, at most so many at a call; its call of that number, from 1, fails with this kind of error.
    pub(crate) fn new(
        rest: &[u8],
        width: u64,
        fails_at: u64,
        kind: ErrorKind,
    ) -> FailingReader<'_> {
        FailingReader {
            rest,
            width,
            calls: 0,
            fails_at,
            kind,
            failed: false,
        }
    }
}

impl Read for FailingReader<'_> {
    ghost use Rattle.std.specs.Prelude.{None};

    ghost remaining = { λ _. None };

    fn read(&mut self, buf: &mut [u8]) -> io::Result<usize> {
        self.calls = self.calls.saturating_add(1);
        if self.calls == self.fails_at {
            self.failed = true;
            return Err(io::Error::from(self.kind));
        }
        let n = self.rest.len().min(buf.len()).min(self.width as usize);
        let (now, later) = self.rest.split_at(n);
        buf[..n].copy_from_slice(now);
        self.rest = later;
        Ok(n)
    }
}

/// Takes some bytes at each call, and fails at one, which it remembers.
#[derive(Drop)]
pub(crate) struct FailingWriter {
    /// What it took.
    pub(crate) taken: Vec<u8>,
    width: u64,
    calls: u64,
    fails_at: u64,
    kind: ErrorKind,
    /// Whether a call failed.
    pub(crate) failed: bool,
}

impl FailingWriter {
    /// Takes at most so many bytes at a call; its call of that number, from 1, fails with this kind of error.
    pub(crate) fn new(alloc: Global, width: u64, fails_at: u64, kind: ErrorKind) -> FailingWriter {
        FailingWriter {
            taken: Vec::new(alloc),
            width,
            calls: 0,
            fails_at,
            kind,
            failed: false,
        }
    }
}

impl Write for FailingWriter {
    ghost use Rattle.std.specs.Prelude.{None};

    ghost contents = { λ _. None };

    fn write(&mut self, buf: &[u8]) -> io::Result<usize> {
        self.calls = self.calls.saturating_add(1);
        if self.calls == self.fails_at {
            self.failed = true;
            return Err(io::Error::from(self.kind));
        }
        let n = buf.len().min(self.width as usize);
        let Ok(()) = self.taken.extend_from_slice(&buf[..n]) else {
            return Err(io::Error::from(ErrorKind::OutOfMemory));
        };
        Ok(n)
    }

    fn flush(&mut self) -> io::Result<()> {
        Ok(())
    }
}
