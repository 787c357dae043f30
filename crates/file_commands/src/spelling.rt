//! What is wrong with a word of some form.

ghost use Rattle.std.specs.Prelude.{◌≤◌, IfSome, length};

use crate::cause::Cause;
use crate::form::Form;
use line_text::{BLOCK, read_u64};

/// What is wrong with a word, and at which of its bytes, counted from 0, or behind its last.
#[derive(Clone, Copy, Debug, PartialEq, Eq)]
pub(crate) struct Wrong {
    pub(crate) at: usize,
    pub(crate) cause: Cause,
}

// Whether the word is one of four.
fn is_one(word: &[u8], one: &[u8], two: &[u8], three: &[u8], four: &[u8]) -> bool {
    word == one || word == two || word == three || word == four
}

// What is wrong with a word that has to be one of a few.
fn wrong_choice(form: Form, chosen: bool) -> Option<Wrong>
    ensures { IfSome result (λ w. w.at ≤ 0) }
{
    if chosen {
        return None;
    }
    Some(Wrong {
        at: 0,
        cause: Cause::NoWord(form),
    })
}

// Where the first byte stands that is no decimal digit.
fn first_no_digit(word: &[u8]) -> Option<usize>
    ensures { IfSome result (λ at. at ≤ length word.now) }
{
    for at in 0..word.len() {
        if !word[at].is_ascii_digit() {
            return Some(at);
        }
    }
    None
}

// What is wrong with a decimal number, below `limit` or any of 64 bits.
fn wrong_number(form: Form, word: &[u8], limit: Option<u64>) -> Option<Wrong>
    ensures { IfSome result (λ w. w.at ≤ length word.now) }
{
    if let Some(at) = first_no_digit(word) {
        return Some(Wrong {
            at,
            cause: Cause::NoDigit,
        });
    }
    if word.len() > 1 && word.starts_with(b"0") {
        return Some(Wrong {
            at: 0,
            cause: Cause::LeadingZero,
        });
    }
    let fits = match (read_u64(word), limit) {
        (Some(number), Some(limit)) => number < limit,
        (Some(_), None) => true,
        (None, _) => false,
    };
    if fits {
        return None;
    }
    Some(Wrong {
        at: 0,
        cause: Cause::TooLarge(form),
    })
}

// The first byte that is no upper-case hexadecimal digit.
fn wrong_digit(word: &[u8]) -> Option<Wrong>
    ensures { IfSome result (λ w. w.at ≤ length word.now) }
{
    for at in 0..word.len() {
        match word[at] {
            b'0'..=b'9' | b'A'..=b'F' => {}
            b'a'..=b'f' => {
                return Some(Wrong {
                    at,
                    cause: Cause::LowerCase,
                });
            }
            _ => {
                return Some(Wrong {
                    at,
                    cause: Cause::NoHexDigit,
                });
            }
        }
    }
    None
}

// What is wrong with so many bytes in hexadecimal digits.
fn wrong_bytes(form: Form, word: &[u8], bytes: usize) -> Option<Wrong>
    ensures { IfSome result (λ w. w.at ≤ length word.now) }
{
    if let Some(wrong) = wrong_digit(word) {
        return Some(wrong);
    }
    if word.len() / 2 == bytes && word.len() % 2 == 0 {
        return None;
    }
    Some(Wrong {
        at: 0,
        cause: Cause::Digits(word.len(), form),
    })
}

// Whether each two digits are those before them.
fn is_equal(digits: &[u8]) -> bool {
    for at in 2..digits.len() {
        if digits[at] != digits[at - 2] {
            return false;
        }
    }
    true
}

// What is wrong with the digits of one block.
fn wrong_block(word: &[u8]) -> Option<Wrong>
    ensures { IfSome result (λ w. w.at ≤ length word.now) }
{
    if let Some(wrong) = wrong_digit(word) {
        return Some(wrong);
    }
    if word.len() == 2 {
        return None;
    }
    if word.len() != 2 * BLOCK {
        return Some(Wrong {
            at: 0,
            cause: Cause::BlockDigits(word.len()),
        });
    }
    if is_equal(word) {
        return Some(Wrong {
            at: 0,
            cause: Cause::EqualBytes,
        });
    }
    None
}

// What is wrong with blocks that are joined by dots.
fn wrong_blocks(word: &[u8]) -> Option<Wrong>
    ensures { IfSome result (λ w. w.at ≤ length word.now) }
{
    let mut begin = 0;
    for end in 0..word.len() {
        if word[end] == b'.' {
            if let Some(wrong) = wrong_block(&word[begin..end]) {
                return Some(Wrong {
                    at: begin + wrong.at,
                    cause: wrong.cause,
                });
            }
            begin = end + 1;
        }
    }
    let wrong = wrong_block(&word[begin..])?;
    Some(Wrong {
        at: begin + wrong.at,
        cause: wrong.cause,
    })
}

// What is wrong with the digits behind an `x`.
fn wrong_odd(digits: &[u8]) -> Option<Wrong>
    ensures { IfSome result (λ w. w.at ≤ length digits.now) }
{
    if let Some(wrong) = wrong_digit(digits) {
        return Some(wrong);
    }
    if digits.len() % 2 == 1 {
        return Some(Wrong {
            at: 0,
            cause: Cause::OddDigits,
        });
    }
    if digits.len() % (2 * BLOCK) == 0 {
        return Some(Wrong {
            at: 0,
            cause: Cause::WholeBlocks,
        });
    }
    None
}

// What is wrong with data.
fn wrong_data(word: &[u8]) -> Option<Wrong>
    ensures { IfSome result (λ w. w.at ≤ length word.now) }
{
    if word == b"-".as_slice() {
        return None;
    }
    if !word.starts_with(b"x") {
        return wrong_blocks(word);
    }
    let wrong = wrong_odd(&word[1..])?;
    Some(Wrong {
        at: wrong.at + 1,
        cause: wrong.cause,
    })
}

// What is wrong with a block as it lies in the volume.
fn wrong_medium(word: &[u8]) -> Option<Wrong>
    ensures { IfSome result (λ w. w.at ≤ length word.now) }
{
    if word == b"none".as_slice() {
        return None;
    }
    wrong_block(word)
}

// Whether the word is the number of a refusal that a run prints.
fn is_refusal(word: &[u8]) -> bool {
    match read_u64(word) {
        Some(number) => 1 <= number && number <= 10,
        None => false,
    }
}

// What is wrong with a status.
fn wrong_status(form: Form, word: &[u8]) -> Option<Wrong>
    ensures { IfSome result (λ w. w.at ≤ length word.now) }
{
    let [kind, slash, high, low] = word else {
        return wrong_word(form);
    };
    if !(b'0'..=b'7').contains(kind) || *slash != b'/' {
        return wrong_word(form);
    }
    let wrong = wrong_digit(&[*high, *low])?;
    Some(Wrong {
        at: wrong.at + 2,
        cause: wrong.cause,
    })
}

// Another word than one of this form.
fn wrong_word(form: Form) -> Option<Wrong>
    ensures { IfSome result (λ w. w.at ≤ 0) }
{
    wrong_choice(form, false)
}

// What is wrong with a word that isn't empty, of a form that has numbers or digits.
fn wrong_spelling(form: Form, word: &[u8]) -> Option<Wrong>
    ensures { IfSome result (λ w. w.at ≤ length word.now) }
{
    match form {
        Form::Number16 => wrong_number(form, word, Some(0x1_0000)),
        Form::Number32 => wrong_number(form, word, Some(0x1_0000_0000)),
        Form::Number64 => wrong_number(form, word, None),
        Form::Entry => wrong_bytes(form, word, 64),
        Form::Completion => wrong_bytes(form, word, 16),
        Form::Data | Form::MoreData => wrong_data(word),
        Form::Medium => wrong_medium(word),
        Form::Status => wrong_status(form, word),
        Form::Verdict | Form::PairVerdict => {
            if word == b"ok".as_slice() {
                return None;
            }
            wrong_status(form, word)
        }
        Form::Configuration
        | Form::Kind
        | Form::Name
        | Form::Fuse
        | Form::More
        | Form::Count
        | Form::Mode
        | Form::Found
        | Form::Mark
        | Form::Topic
        | Form::Unknown
        | Form::Any
        | Form::Field
        | Form::MoreFields
        | Form::Refutation
        | Form::Lines
        | Form::Part
        | Form::Refusal => None,
    }
}

// What is wrong with a word of a form that has a few words.
fn wrong_name(form: Form, word: &[u8]) -> Option<Wrong>
    ensures { IfSome result (λ w. w.at ≤ 0) }
{
    let chosen = match form {
        Form::Name => {
            is_one(word, b"flush", b"write", b"read", b"compare")
                || word == b"zeroes".as_slice()
                || word == b"raw".as_slice()
        }
        Form::Fuse => is_one(word, b"0", b"1", b"2", b"3"),
        Form::More => word == b"+".as_slice(),
        Form::Count => word == b"1".as_slice() || word == b"2".as_slice(),
        Form::Mode => word == b"r".as_slice() || word == b"w".as_slice(),
        Form::Found => is_one(word, b"read", b"equal", b"differs", b"written"),
        Form::Mark => word == b"*".as_slice() || word == b"-".as_slice(),
        Form::Topic => is_one(word, b"contents", b"statuses", b"ignore", b"ignore"),
        Form::Refusal => is_refusal(word),
        Form::Unknown => word == b"unknown".as_slice(),
        Form::Any => word == b"any".as_slice(),
        Form::Field | Form::MoreFields => {
            is_one(word, b"DNR", b"MORE", b"CRD", b"DW0")
                || word == b"DW1".as_slice()
                || word == b"SQHD".as_slice()
        }
        Form::Configuration
        | Form::Kind
        | Form::Number16
        | Form::Number32
        | Form::Number64
        | Form::Entry
        | Form::Completion
        | Form::Data
        | Form::Verdict
        | Form::PairVerdict
        | Form::Status
        | Form::Refutation
        | Form::Lines
        | Form::Part
        | Form::Medium
        | Form::MoreData => true,
    };
    wrong_choice(form, chosen)
}

// Where a carriage return stands.
fn carriage_return(word: &[u8]) -> Option<Wrong>
    ensures { IfSome result (λ w. w.at ≤ length word.now) }
{
    for at in 0..word.len() {
        if word[at] == b'\r' {
            return Some(Wrong {
                at,
                cause: Cause::CarriageReturn,
            });
        }
    }
    None
}

/// What is wrong with a word that has to be of this form.
pub(crate) fn wrong_of(form: Form, word: &[u8]) -> Option<Wrong>
    ensures { IfSome result (λ w. w.at ≤ length word.now) }
{
    if word.is_empty() {
        return Some(Wrong {
            at: 0,
            cause: Cause::Space(form),
        });
    }
    if let Some(wrong) = carriage_return(word) {
        return Some(wrong);
    }
    if let Some(wrong) = wrong_name(form, word) {
        return Some(wrong);
    }
    wrong_spelling(form, word)
}
