//! Copying into memory of the caller's.

ghost use Rattle.std.specs.Prelude.{◌++◌, ◌≡◌, ◌<◌, ◌≤◌, drop, false, length, true};
ghost use Rattle.vandrexu_c.specs.TextCalls.{GivesAll};

/// Copies a text to the begin of a room, where it fits; whether it does.
pub(crate) fn fits(text: &[u8], out: &mut [u8], needed: &mut usize) -> bool
    ensures gives { GivesAll text.now out.old out.new needed.new }
    ensures fits { result ≡ true → length text.now ≤ length out.old }
    ensures short { result ≡ false → length out.old < length text.now }
{
    let count = text.len();
    *needed = count;
    if out.len() < count {
        return false;
    }
    out[..count].copy_from_slice(text);
    true
}
