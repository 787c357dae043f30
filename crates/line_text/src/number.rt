ghost use Rattle.std.specs.Prelude.{◌≡◌, ◌+◌, ◌*◌, ◌^◌, ◌<◌, ℕ, Some, IfSome, OnOk, OnErr, decimal};
ghost use Rattle.std.specs.Io.KnownBytes.{Appends};
ghost use Rattle.std.specs.Char.{digit_value};
ghost use Rattle.std.specs.Option.{SomeIff};
ghost use Rattle.std.specs.Str.Parse.{AllDigits, digits_value};
ghost use Rattle.line_text.specs.Known.{AppendsFront};
ghost use Rattle.line_text.specs.Number.{number_in};

use crate::output::send;
use itoa::Buffer;
use std::io::{Result as IoResult, Write};

/// Reads a number below 2^16 in decimal digits, with no sign and no leading zero.
///
/// The answer is `None` where the word spells no such number.
pub fn read_u16(word: &[u8]) -> Option<u16>
    ensures value { result ≡ number_in 16 word.now }
    ensures found { IfSome result (λ n. word.now ≡ decimal n) }
    ensures only { (n : ℕ) → n < 2 ^ 16 → word.now ≡ decimal n → result ≡ Some n }
{
    let n = read_u64(word)?;
    u16::try_from(n).ok()
}

/// Reads a number below 2^32 in decimal digits, with no sign and no leading zero.
///
/// The answer is `None` where the word spells no such number.
pub fn read_u32(word: &[u8]) -> Option<u32>
    ensures value { result ≡ number_in 32 word.now }
    ensures found { IfSome result (λ n. word.now ≡ decimal n) }
    ensures only { (n : ℕ) → n < 2 ^ 32 → word.now ≡ decimal n → result ≡ Some n }
{
    let n = read_u64(word)?;
    u32::try_from(n).ok()
}

/// Reads a number below 2^64 in decimal digits, with no sign and no leading zero.
///
/// The answer is `None` where the word spells no such number.
pub fn read_u64(word: &[u8]) -> Option<u64>
    ensures value { result ≡ number_in 64 word.now }
    ensures found { IfSome result (λ n. word.now ≡ decimal n) }
    ensures only { (n : ℕ) → n < 2 ^ 64 → word.now ≡ decimal n → result ≡ Some n }
{
    let first = *word.first()?;
    // Only the number 0 begins with that digit.
    if first == b'0' && word.len() > 1 {
        return None;
    }
    added_up(word)
}

// The number that the digits write; `None` where they aren't all digits, or where it has more than 64 bits.
fn added_up(word: &[u8]) -> Option<u64>
    ensures { SomeIff result (AllDigits 10 word.now × (digits_value 10 word.now < 2 ^ 64)) (digits_value 10 word.now) }
{
    let mut n = 0;
    for byte in word {
        n = with_digit(n, *byte)?;
    }
    Some(n)
}

// The number with this digit behind it; `None` where the byte is none, or where it has more than 64 bits.
fn with_digit(n: u64, byte: u8) -> Option<u64>
    ensures { SomeIff result ((digit_value byte < 10) × (n * 10 + digit_value byte < 2 ^ 64))
        (n * 10 + digit_value byte) }
{
    if !byte.is_ascii_digit() {
        return None;
    }
    n.checked_mul(10)?.checked_add(u64::from(byte - b'0'))
}

/// Writes the number's decimal digits.
///
/// # Errors
///
/// What the writer answered; it has some beginning of them.
pub fn send_number<W: Write>(writer: &mut W, n: u64) -> IoResult<()>
    ensures whole { OnOk result
        (Appends (W.contents writer.old) (W.contents writer.new) (decimal n)) }
    ensures front { OnErr result
        (AppendsFront (W.contents writer.old) (W.contents writer.new) (decimal n)) }
{
    let mut buffer = Buffer::new();
    send(writer, buffer.format(n).as_bytes())
}
