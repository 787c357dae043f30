//! What a command read last, for whoever is asked why it failed.

use std::alloc::Global;
use std::io::{ErrorKind, Read, Result as IoResult};

// How many bytes of the front are kept: more than any configuration line has.
const FRONT: usize = 256;

// What is kept of what was given.
#[derive(Clone, Copy, PartialEq, Eq)]
enum Keeping {
    // its front alone
    Front,
    // what was given last
    Last,
    All,
}

/// A reader that keeps what it gave last, where it is asked to: the bytes from the begin of the newest line that was
/// whole or in part before its last read. It keeps the front of its text always.
#[derive(Drop)]
pub(crate) struct Kept<R: Read + Drop> {
    source: R,
    keeps: Keeping,
    front: [u8; FRONT],
    // how many of them there are
    filled: usize,
    text: Vec<u8>,
    // the number of its first line, from 1
    first: u64,
    // why a read failed
    failed: Option<ErrorKind>,
}

// How many bytes lines have, and how many lines that are.
#[derive(Clone, Copy)]
struct WholeLines {
    bytes: usize,
    lines: u64,
}

// The lines of a text that end in it.
fn whole_of(text: &[u8]) -> WholeLines {
    let mut whole = WholeLines { bytes: 0, lines: 0 };
    for at in 0..text.len() {
        if text[at] == b'\n' {
            whole = WholeLines {
                bytes: at + 1,
                lines: whole.lines.saturating_add(1),
            };
        }
    }
    whole
}

/// A line that was kept, and whether its line feed was read.
#[derive(Clone, Copy)]
pub(crate) struct KeptLine<'a> {
    pub(crate) text: &'a [u8],
    pub(crate) fed: bool,
}

impl<R: Read + Drop> Kept<R> {
    /// One that has read nothing; it keeps what it reads last where `keeps` is true.
    pub(crate) fn new(alloc: Global, source: R, keeps: bool) -> Kept<R> {
        let keeps = if keeps { Keeping::Last } else { Keeping::Front };
        Kept {
            source,
            keeps,
            front: [0; FRONT],
            filled: 0,
            text: Vec::new(alloc),
            first: 1,
            failed: None,
        }
    }

    /// Why a read failed.
    pub(crate) fn failed(&self) -> Option<ErrorKind> {
        self.failed
    }

    /// The first line, or its front, where it is longer than any configuration line.
    pub(crate) fn first_line(&self) -> &[u8] {
        first_line(&self.front[..self.filled.min(FRONT)]).line
    }

    /// The line of this number, where it is kept.
    pub(crate) fn line(&self, number: u64) -> Option<KeptLine<'_>> {
        if self.keeps == Keeping::Front {
            return None;
        }
        let mut rest = self.text.as_slice();
        let mut at = self.first;
        for _turn in 0..u64::MAX {
            let Cut { line, behind } = first_line(rest);
            if at == number {
                return Some(KeptLine {
                    text: line,
                    fed: behind.is_some(),
                });
            }
            rest = behind?;
            at = at.saturating_add(1);
        }
        None
    }

    // Keeps these bytes at the front, as far as there is room.
    fn keep_front(&mut self, bytes: &[u8]) {
        for byte in bytes {
            if self.filled >= FRONT {
                return;
            }
            self.front[self.filled] = *byte;
            self.filled += 1;
        }
    }

    /// The same, keeping all that it reads where it keeps what it reads last: for a text that is read whole before its
    /// lines are.
    pub(crate) fn whole(self) -> Kept<R> {
        let keeps = if self.keeps == Keeping::Last {
            Keeping::All
        } else {
            self.keeps
        };
        Kept { keeps, ..self }
    }

    // Keeps these bytes behind all others.
    fn keep_all(&mut self, bytes: &[u8]) {
        if self.text.extend_from_slice(bytes).is_err() {
            // (then no line has a number any more)
            self.first = u64::MAX;
        }
    }

    // Keeps these bytes behind the newest line that isn't whole yet.
    fn keep(&mut self, bytes: &[u8]) {
        let whole = whole_of(self.text.as_slice());
        let left = self.text.len() - whole.bytes.min(self.text.len());
        let from = self.text.len() - left;
        self.text.copy_within(from.., 0);
        self.text.truncate(left);
        self.first = self.first.saturating_add(whole.lines);
        self.keep_all(bytes);
    }
}

// The first line of a text, and what stands behind its line feed, where it has one.
#[derive(Clone, Copy)]
struct Cut<'a> {
    line: &'a [u8],
    behind: Option<&'a [u8]>,
}

fn first_line(text: &[u8]) -> Cut<'_> {
    for at in 0..text.len() {
        if text[at] == b'\n' {
            return Cut {
                line: &text[..at],
                behind: Some(&text[at + 1..]),
            };
        }
    }
    Cut {
        line: text,
        behind: None,
    }
}

impl<R: Read + Drop> Read for Kept<R> {
    fn read(&mut self, buf: &mut [u8]) -> IoResult<usize> {
        match self.source.read(buf) {
            Ok(count) => {
                self.keep_front(&buf[..count]);
                match self.keeps {
                    Keeping::Front => {}
                    Keeping::Last => self.keep(&buf[..count]),
                    Keeping::All => self.keep_all(&buf[..count]),
                }
                Ok(count)
            }
            Err(error) => {
                self.failed = Some(error.kind());
                Err(error)
            }
        }
    }
}
