//! What is carried between a remote host and its controller, as it lies in C.

ghost use Rattle.std.specs.Prelude.{◌++◌, ◌≡◌, ◌<◌, drop, false, length, true};
ghost use Rattle.vandrexu_c.specs.Remotes.{entry_told};

use crate::copying::fits;
use remote_host::Outgoing;

/// A submission queue entry that is to be carried.
#[repr(C)]
#[derive(Clone, Copy)]
pub struct OutgoingEntry {
    pub bytes: [u8; 64],
    /// How many bytes of data belong to it.
    pub count: usize,
    /// How many entries stand behind it in its batch: 1 of the first of a fused pair, else 0.
    pub more: usize,
    /// The submission queue.
    pub queue: u16,
    pub zeros: [u8; 6],
}

/// Tells an entry, and its data where that has room; whether it has.
pub(crate) fn tell_entry(next: &Outgoing, entry: &mut OutgoingEntry, out: &mut [u8]) -> bool
    ensures entry { entry.new ≡ entry_told next.now }
    ensures fits { result ≡ true → out.new ≡ next.now.submission.payload
        ++ drop (length next.now.submission.payload) out.old }
    ensures short { result ≡ false → (length out.old < length next.now.submission.payload) × (out.new ≡ out.old) }
{
    let mut count = 0;
    let fit = fits(next.submission.payload.as_slice(), out, &mut count);
    *entry = OutgoingEntry {
        bytes: next.submission.entry,
        count,
        more: next.more,
        queue: next.queue,
        zeros: [0; 6],
    };
    fit
}
