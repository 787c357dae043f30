//! Statuses and verdicts as words.

ghost use Rattle.std.specs.Prelude.{◌≡◌, map};
ghost use Rattle.history.specs.StatusWord.{short_verdict_in, status_in, status_word, verdict_in};

use line_text::read_fixed;
use nvme_model::status::{Status, Verdict};

const DIGITS: &[u8; 16] = b"0123456789ABCDEF";

// The word of a status.
#[tactic(auto, unfolding(hex::specs::Hex::encode_with))]
pub(crate) fn status_text(status: Status) -> [u8; 4]
    ensures { result ≡ status_word status }
{
    let code = status.sc();
    [
        b'0' + status.sct(),
        b'/',
        DIGITS[usize::from(code / 16)],
        DIGITS[usize::from(code % 16)],
    ]
}

// The status that a word spells.
#[tactic(auto, unfolding(crate::specs::StatusWord::status_in))]
fn status_of(word: &[u8]) -> Option<Status>
    ensures { result ≡ status_in word.now }
{
    let [digit, slash, code @ ..] = word else {
        return None;
    };
    if b'/' < *digit && *digit < b'8' && *slash == b'/' {
        let code = read_fixed::<1>(code)?;
        return Some(Status::new(*digit - b'0', code[0]));
    }
    None
}

// What two words say: of one command, or of a pair that passed.
#[tactic(auto, unfolding(crate::specs::StatusWord::short_verdict_in))]
fn short_verdict_of(count: &[u8], word: &[u8]) -> Option<Verdict>
    ensures { result ≡ short_verdict_in count.now word.now }
{
    if count == b"1".as_slice() {
        if word == b"ok".as_slice() {
            return Some(Verdict::Single);
        }
        let status = status_of(word)?;
        return Some(Verdict::SingleFailed(status));
    }
    if count == b"2".as_slice() && word == b"ok".as_slice() {
        return Some(Verdict::Pair);
    }
    None
}

// The verdict that words spell.
#[tactic(auto, unfolding(crate::specs::StatusWord::verdict_in))]
pub(crate) fn verdict_of(words: &[&[u8]]) -> Option<Verdict>
    ensures { result ≡ verdict_in (map (λ w. w.now) words.now) }
{
    if let [count, word] = words {
        return short_verdict_of(count, word);
    }
    let [count, first, second] = words else {
        return None;
    };
    if *count != b"2".as_slice() {
        return None;
    }
    let first = status_of(first)?;
    let second = status_of(second)?;
    Some(Verdict::PairFailed(first, second))
}
