//! A reader of which is counted what it gives.

use crate::counter::Counter;
use std::io::{Eprint, Read, Result as IoResult};
use std::time::Clock;

/// A reader of which is counted what it gives. What it gives is what its source gives.
#[derive(Drop)]
pub struct CountedReader<'r, R, S: Read + Drop> {
    counter: Counter<'r, R>,
    /// The reader itself.
    pub source: S,
}

impl<'r, R: Clock + Eprint, S: Read + Drop> CountedReader<'r, R, S> {
    ghost use Rattle.std.specs.Prelude.{◌≡◌};

    pub fn new(counter: Counter<'r, R>, source: S) -> CountedReader<'r, R, S>
        ensures { result.source ≡ source }
    {
        CountedReader { counter, source }
    }
}

impl<R: Clock + Eprint, S: Read + Drop> Read for CountedReader<'_, R, S> {
    ghost remaining = { λ r. S.remaining r.source };

    fn read(&mut self, buf: &mut [u8]) -> IoResult<usize> {
        let count = self.source.read(buf)?;
        self.counter.count(&buf[..count]);
        Ok(count)
    }
}
