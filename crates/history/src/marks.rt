//! The words for how blocks are held, what was found, and which entry is a unit's effect.

ghost use Rattle.std.specs.Prelude.{◌≡◌};
ghost use Rattle.history.specs.Marks.{found_in, found_word, mark_in, mark_word, mode_in, mode_word};

use nvme_model::array::Mode;
use nvme_model::operation::Found;

// The word of a mode.
pub(crate) fn mode_text(mode: &Mode) -> &[u8]
    ensures { result.now ≡ mode_word mode.now }
{
    match mode {
        Mode::Shared => b"r",
        Mode::Exclusive => b"w",
    }
}

// The mode of a word.
pub(crate) fn mode_of(word: &[u8]) -> Option<Mode>
    ensures { result ≡ mode_in word.now }
{
    if word == b"r".as_slice() {
        return Some(Mode::Shared);
    }
    if word == b"w".as_slice() {
        return Some(Mode::Exclusive);
    }
    None
}

// The word of what was found.
pub(crate) fn found_text(found: &Found) -> &[u8]
    ensures { result.now ≡ found_word found.now }
{
    match found {
        Found::Read => b"read",
        Found::Equal => b"equal",
        Found::Differs => b"differs",
        Found::Written => b"written",
    }
}

// What was found, by its word.
pub(crate) fn found_of(word: &[u8]) -> Option<Found>
    ensures { result ≡ found_in word.now }
{
    if word == b"read".as_slice() {
        return Some(Found::Read);
    }
    if word == b"equal".as_slice() {
        return Some(Found::Equal);
    }
    if word == b"differs".as_slice() {
        return Some(Found::Differs);
    }
    if word == b"written".as_slice() {
        return Some(Found::Written);
    }
    None
}

// The mark of an entry, which may be a unit's effect.
pub(crate) fn mark_text(effect: &bool) -> &[u8]
    ensures { result.now ≡ mark_word effect.now }
{
    if *effect { b"*" } else { b"-" }
}

// Whether a word marks a unit's effect.
pub(crate) fn mark_of(word: &[u8]) -> Option<bool>
    ensures { result ≡ mark_in word.now }
{
    if word == b"*".as_slice() {
        return Some(true);
    }
    if word == b"-".as_slice() {
        return Some(false);
    }
    None
}
