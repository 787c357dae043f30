ghost use Rattle.std.specs.Prelude.{◌≡◌, ◌<◌, ◌≤◌, ◌+◌, ◌++◌, ℕ, List, [], Err, length, slice_range, OnOk, OnErr, IfOk};
ghost use Rattle.std.specs.Prelude.{vec_len};
ghost use Rattle.std.specs.Vec.{vec_capacity};
ghost use Rattle.std.specs.Io.KnownBytes.{Consumes, Keeps, IsAtEnd};
ghost use Rattle.line_text.specs.Lines.{IsPiece, GivesLine, GivesFront};
ghost use Rattle.line_text.specs.declared.lines.ReadFault.TheVariants.{Input, NoMemory};

use memchr::memchr;
use std::alloc::{AllocError, Global};
use std::io::{ErrorKind, Read, Result as IoResult};
use std::marker::Model;
use thiserror::Error;

// How many bytes one read asks for.
const CHUNK: usize = 8192;

/// Why no line was read.
#[derive(Clone, Copy, Debug, Drop, Error, PartialEq, Eq)]
pub enum ReadFault {
    /// A read failed, other than by an interruption, which is tried again.
    #[error("input failed")]
    Input,
    /// The line could not grow.
    #[error("no memory")]
    NoMemory,
}

impl From<AllocError> for ReadFault {
    ghost from_gives = { λ _ fault. fault ≡ NoMemory };

    fn from(_error: AllocError) -> ReadFault {
        ReadFault::NoMemory
    }
}

/// What the next line is.
#[derive(Clone, Copy, Debug, PartialEq, Eq)]
pub enum NextLine {
    /// A line that a line feed ends.
    Whole,
    /// What stands behind the last line feed, maybe nothing: the input is at its end.
    Rest,
}

/// Reads lines of any length and of any bytes.
///
/// The reader is lent at each call, always the same one: what was read of it and not yet given is kept
/// here.
#[derive(Drop)]
pub struct Lines {
    chunk: Vec<u8>,
    start: usize,
    end: usize,
}

// Clauses see the bytes that were read and not yet given.
impl Model for Lines {
    ghost Value = { List ℕ };

    ghost view = { λ s. slice_range s.chunk.items s.start s.end };

    ghost invariant = { λ s. (s.start ≤ s.end) × (s.end ≤ vec_len s.chunk) × (0 < vec_len s.chunk) };
}

impl Lines {
    /// Makes the room that reads go into.
    ///
    /// # Errors
    ///
    /// `AllocError` where a growth is refused.
    pub fn new(alloc: Global) -> Result<Lines, AllocError>
        ensures { IfOk result (λ s. s ≡ []) }
    {
        let chunk = vec![in alloc; 0u8; CHUNK]?;
        Ok(Lines {
            chunk,
            start: 0,
            end: 0,
        })
    }

    /// Reads the next line into `line`, in place of what it held, without the line feed.
    ///
    /// After an `Err` no byte is lost: `line` has what was read of the line, and the bytes behind it are
    /// given by the next call. `Input` says that a read failed, and `NoMemory` that memory was refused: no
    /// contract can say when either happens, so which of them comes is tested.
    pub fn next_line<R: Read>(
        &mut self,
        reader: &mut R,
        line: &mut Vec<u8>,
    ) -> Result<NextLine, ReadFault>
        ensures line { IfOk result
            (λ next. GivesLine next (R.remaining reader.old) (R.remaining reader.new)
            self.old self.new line.new.items) }
        ensures err { OnErr result
            (GivesFront (R.remaining reader.old) (R.remaining reader.new)
            self.old self.new line.new.items) }

        // `Input` says that nothing was left to give, and `NoMemory` that `line` had too little room.
        ensures input { result ≡ Err Input → self.new ≡ [] }
        ensures no_memory { result ≡ Err NoMemory →
            vec_capacity line.old < length line.new.items + length self.new }
    {
        line.clear();
        if self.take_piece(line)? {
            return Ok(NextLine::Whole);
        }
        for _ in 0..u64::MAX {
            match self.refill(reader) {
                Ok(0) => return Ok(NextLine::Rest),
                Ok(_) => {
                    if self.take_piece(line)? {
                        return Ok(NextLine::Whole);
                    }
                }
                Err(e) => {
                    if e.kind() != ErrorKind::Interrupted {
                        return Err(ReadFault::Input);
                    }
                }
            }
        }
        Err(ReadFault::Input)
    }

    // Moves the bytes before the first line feed to the line, or all of them where there is none.
    fn take_piece(&mut self, line: &mut Vec<u8>) -> Result<bool, AllocError>
        ensures piece { IfOk result
            (λ found. (piece : List ℕ) × (line.new.items ≡ line.old.items ++ piece)
            × IsPiece found self.old self.new piece) }
        ensures kept { OnErr result ((self.new ≡ self.old) × (line.new.items ≡ line.old.items)) }
        ensures room { OnErr result (vec_capacity line.old < length line.old.items + length self.old) }
        ensures capacity { vec_capacity line.old ≤ vec_capacity line.new }
    {
        let ahead = &self.chunk[self.start..self.end];
        match memchr(b'\n', ahead) {
            Some(at) => {
                line.extend_from_slice(&ahead[..at])?;
                self.start += at + 1;
                Ok(true)
            }
            None => {
                line.extend_from_slice(ahead)?;
                self.start = self.end;
                Ok(false)
            }
        }
    }

    // Reads once. Nothing is held before it.
    fn refill<R: Read>(&mut self, reader: &mut R) -> IoResult<usize>
        requires { self.old ≡ [] }
        ensures ok { OnOk result (Consumes (R.remaining reader.old) (R.remaining reader.new) self.new) }
        ensures end { IfOk result (λ n. n ≡ 0 → (self.new ≡ []) × IsAtEnd (R.remaining reader.new)) }
        ensures err { OnErr result
            ((self.new ≡ []) × Keeps (R.remaining reader.old) (R.remaining reader.new)) }
    {
        let n = reader.read(self.chunk.as_mut_slice())?;
        self.start = 0;
        self.end = n;
        Ok(n)
    }
}
