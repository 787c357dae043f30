//! How much went by.

use std::io::Eprint;
use std::time::{Clock, Instant};

/// Counts what goes by, and says each second on standard error how much that is: in entries, which are lines, and where
/// the size is known in percent of its bytes. In the first second it says nothing.
#[derive(Drop)]
pub struct Counter<'r, R> {
    rt: &'r R,
    /// When it began; none where nothing is said.
    pub begun: Option<Instant>,
    /// How many bytes there are in all, where that is known.
    pub size: Option<u64>,
    bytes: u64,
    lines: u64,
    // in which second something was said last
    said: u64,
}

impl<'r, R: Clock + Eprint> Counter<'r, R> {
    ghost use Rattle.std.specs.Prelude.{◌≡◌, None, false};

    /// One that has counted nothing, of so many bytes. It says nothing where `shows` is false, or no clock can be read.
    pub fn new(rt: &'r R, shows: bool, size: Option<u64>) -> Counter<'r, R>
        ensures silent { shows ≡ false → result.begun ≡ None }
        ensures size { result.size ≡ size }
    {
        let begun = if shows { Instant::now(rt).ok() } else { None };
        Counter {
            rt,
            begun,
            size,
            bytes: 0,
            lines: 0,
            said: 0,
        }
    }

    // Counts these bytes.
    pub(crate) fn count(&mut self, bytes: &[u8]) {
        let Some(begun) = self.begun else {
            return;
        };
        self.bytes = self.bytes.saturating_add(bytes.len() as u64);
        self.lines = self.lines.saturating_add(lines_in(bytes));
        let Ok(elapsed) = begun.elapsed(self.rt) else {
            return;
        };
        let seconds = elapsed.as_secs();
        if seconds > self.said {
            self.said = seconds;
            self.say(seconds);
        }
    }

    // Says how far it is after so many seconds.
    fn say(&self, seconds: u64) {
        let lines = self.lines;
        let rate = lines.checked_div(seconds).unwrap_or(0);
        let percent = match self.size {
            Some(size) => self.bytes.saturating_mul(100).checked_div(size),
            None => None,
        };
        // (where standard error takes no words, nothing is lost)
        let _ = match percent {
            Some(percent) => self.rt.eprintln(format_args!(
                "casdisk: {lines} entries, {rate} a second, {percent} %"
            )),
            None => self
                .rt
                .eprintln(format_args!("casdisk: {lines} entries, {rate} a second")),
        };
    }
}

// How many line feeds there are.
fn lines_in(bytes: &[u8]) -> u64 {
    let mut lines = 0u64;
    for byte in bytes {
        if *byte == b'\n' {
            lines = lines.saturating_add(1);
        }
    }
    lines
}
