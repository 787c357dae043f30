//! That what was seen has a line: what its types keep.

ghost use Rattle.std.specs.Prelude.{ℕ, ◌<◌, ◌^◌, slice_index};
ghost use Rattle.trace.specs.declared.seen.Seen.{Seen};
ghost use Rattle.trace.specs.SeenLines.{HasSeenLine};

use crate::seen::{ReapedLine, Seen};
use history::publish_fits;

// A number of 16 bits.
fn short_fits(number: u16)
    ensures { number < 2 ^ 16 }
{
    let _ = number;
}

// Bytes are below 256.
fn bytes_fit(bytes: &[u8])
    ensures { (i : ℕ) → slice_index bytes.now i < 256 }
{
    let _ = bytes;
}

fn reap_fits(line: &ReapedLine)
    ensures { HasSeenLine (Seen.Reaped line.now) }
{
    short_fits(line.queue);
    bytes_fit(&line.cqe);
    bytes_fit(line.payload.as_slice());
}

/// What was seen has a line: that is what its types keep. Does nothing.
pub(crate) fn fits(seen: &Seen)
    ensures { HasSeenLine seen.now }
{
    match seen {
        Seen::Published(line) => publish_fits(line),
        Seen::Reaped(line) => reap_fits(line),
    }
}
