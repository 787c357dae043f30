//! Numbers as words.

use line_text::send_number;
use std::alloc::{AllocError as NoMemory, Global};

/// The digits of a number.
pub(crate) fn digits_of(alloc: Global, number: u64) -> Result<Vec<u8>, NoMemory> {
    let mut text = Vec::new(alloc);
    match send_number(&mut text, number) {
        Ok(()) => Ok(text),
        Err(_) => Err(NoMemory),
    }
}

/// The numbers among which the smallest that still fails is looked for, by halves.
#[derive(Clone, Copy, Drop)]
pub(crate) struct Search {
    low: u64,
    high: u64,
}

impl Search {
    /// All below this number, which fails.
    pub(crate) fn below(high: u64) -> Search {
        Search { low: 0, high }
    }

    /// The number to try; None where none is left.
    pub(crate) fn next(&self) -> Option<u64> {
        if self.low < self.high {
            return Some(self.low + (self.high - self.low) / 2);
        }
        None
    }

    /// What is left after that was tried: the numbers below it, or above it.
    pub(crate) fn learn(&mut self, fails: bool) {
        if let Some(number) = self.next() {
            if fails {
                self.high = number;
            } else {
                self.low = number.saturating_add(1);
            }
        }
    }
}
