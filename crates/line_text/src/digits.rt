ghost use Rattle.std.specs.Prelude.{◌≡◌, ◌≤◌, ◌*◌, ℕ, List, Some, IfOk, IfSome, OnOk, OnErr, length, option_map};
ghost use Rattle.std.specs.Prelude.{nat_lt};
ghost use Rattle.std.specs.List.{list_all};
ghost use Rattle.std.specs.Io.KnownBytes.{Appends};
ghost use Rattle.hex.specs.Hex.{IsBytes, encode_upper};
ghost use Rattle.line_text.specs.Known.{AppendsFront};
ghost use Rattle.line_text.specs.Digits.{bytes_in, fixed_in};

use crate::output::send;
use hex::{FromHex, FromHexError};
use std::alloc::{AllocError, Global};
use std::io::{Result as IoResult, Write};

const DIGITS: &[u8; 16] = b"0123456789ABCDEF";

// How many bytes are spelled before they are written.
const PIECE: usize = 512;

/// Reads bytes from two upper-case hexadecimal digits each; the empty word spells no bytes.
///
/// The answer is `None` where the word spells no list of bytes so, as in lower case or with an odd
/// number of digits.
///
/// # Errors
///
/// `AllocError` where a growth is refused.
pub fn read_hex(alloc: Global, word: &[u8]) -> Result<Option<Vec<u8>>, AllocError>
    ensures value { IfOk result (λ read. option_map (λ v. v.items) read ≡ bytes_in word.now) }
    ensures found { IfOk result (λ read. IfSome read (λ v. word.now ≡ encode_upper v.items)) }
    ensures only { (bytes : List ℕ) → IsBytes bytes → word.now ≡ encode_upper bytes →
        IfOk result (λ read. option_map (λ v. v.items) read ≡ Some bytes) }
{
    if !is_upper(word) {
        return Ok(None);
    }
    match hex::decode(alloc, word) {
        Ok(bytes) => Ok(Some(bytes)),
        Err(error) => match error {
            FromHexError::OutOfMemory => Err(AllocError),
            _ => Ok(None),
        },
    }
}

/// Reads exactly `N` bytes from two upper-case hexadecimal digits each, without memory.
///
/// The answer is `None` where the word spells no list of `N` bytes so.
pub fn read_fixed<const N: usize>(word: &[u8]) -> Option<[u8; N]>
    ensures value { result ≡ fixed_in N (bytes_in word.now) }
    ensures found { IfSome result (λ bytes. word.now ≡ encode_upper bytes) }
    ensures only { (bytes : List ℕ) → IsBytes bytes → length bytes ≡ N → word.now ≡ encode_upper bytes →
        result ≡ Some bytes }
{
    if !is_upper(word) {
        return None;
    }
    <[u8; N] as FromHex>::from_hex(word).ok()
}

// Whether no byte is a lower-case letter, which `hex` reads as a digit too.
fn is_upper(word: &[u8]) -> bool
    ensures { result ≡ list_all (λ c. nat_lt c 97) word.now }
{
    word.iter().all(|c| *c < b'a')
}

/// Writes each byte as two upper-case hexadecimal digits.
///
/// # Errors
///
/// What the writer answered; it has some beginning of them.
pub fn send_hex<W: Write>(writer: &mut W, bytes: &[u8]) -> IoResult<()>
    ensures whole { OnOk result
        (Appends (W.contents writer.old) (W.contents writer.new) (encode_upper bytes.now)) }
    ensures front { OnErr result
        (AppendsFront (W.contents writer.old) (W.contents writer.new) (encode_upper bytes.now)) }
{
    let mut rest = bytes;
    while !rest.is_empty() {
        let (piece, after) = rest.split_at(rest.len().min(PIECE));
        send_piece(writer, piece)?;
        rest = after;
    }
    Ok(())
}

fn send_piece<W: Write>(writer: &mut W, bytes: &[u8]) -> IoResult<()>
    requires { length bytes.now ≤ 512 }
    ensures whole { OnOk result
        (Appends (W.contents writer.old) (W.contents writer.new) (encode_upper bytes.now)) }
    ensures front { OnErr result
        (AppendsFront (W.contents writer.old) (W.contents writer.new) (encode_upper bytes.now)) }
{
    let mut digits = [0u8; 2 * PIECE];
    let text = &mut digits[..2 * bytes.len()];
    spell(bytes, text);
    send(writer, text)
}

pub(crate) fn spell(bytes: &[u8], text: &mut [u8])
    requires { length text.old ≡ 2 * length bytes.now }
    ensures { text.new ≡ encode_upper bytes.now }
{
    'bytes: for i in 0..bytes.len() {
        let byte = bytes[i];
        text[2 * i] = DIGITS[(byte >> 4) as usize];
        text[2 * i + 1] = DIGITS[(byte & 0x0f) as usize];
    }
}
