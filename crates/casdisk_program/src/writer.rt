//! A writer of which is counted what it takes.

use crate::counter::Counter;
use std::io::{Eprint, Result as IoResult, Write};
use std::time::Clock;

/// A writer of which is counted what it takes. What it takes its sink takes.
#[derive(Drop)]
pub struct CountedWriter<'r, R, W: Write + Drop> {
    counter: Counter<'r, R>,
    /// The writer itself.
    pub sink: W,
}

impl<'r, R: Clock + Eprint, W: Write + Drop> CountedWriter<'r, R, W> {
    ghost use Rattle.std.specs.Prelude.{◌≡◌};

    pub fn new(counter: Counter<'r, R>, sink: W) -> CountedWriter<'r, R, W>
        ensures { result.sink ≡ sink }
    {
        CountedWriter { counter, sink }
    }
}

impl<R: Clock + Eprint, W: Write + Drop> Write for CountedWriter<'_, R, W> {
    ghost contents = { λ w. W.contents w.sink };

    fn write(&mut self, buf: &[u8]) -> IoResult<usize> {
        let count = self.sink.write(buf)?;
        self.counter.count(&buf[..count]);
        Ok(count)
    }

    fn flush(&mut self) -> IoResult<()> {
        self.sink.flush()
    }
}
