ghost use Rattle.std.specs.Prelude.{◌≡◌, ◌==◌, ◌∷◌, IfOk, OnOk, OnErr, map};
ghost use Rattle.std.specs.List.{slice_split, join_with_byte};
ghost use Rattle.std.specs.Io.KnownBytes.{Appends};
ghost use Rattle.line_text.specs.Known.{AppendsFront};
ghost use Rattle.line_text.specs.Words.{behind, word_text};

use crate::data_out::send_data;
use crate::digits::send_hex;
use crate::number::send_number;
use crate::output::send;
use crate::unsent::Unsent;
use memchr::memchr;
use std::alloc::{AllocError, Global};
use std::io::{Result as IoResult, Write};

// Most lines have no more words.
const WORDS: usize = 12;

/// One word of a line, by what it spells.
#[derive(Clone, Copy)]
pub enum Word<'a> {
    /// The bytes as they are.
    Text(&'a [u8]),
    /// Decimal digits.
    Number(u64),
    /// Two upper-case hexadecimal digits a byte.
    Hex(&'a [u8]),
    /// The one spelling of a list of bytes as DATA.
    Data(&'a [u8]),
}

/// Splits the line at each byte `at`: a line with n of them has n + 1 words, some maybe empty.
///
/// # Errors
///
/// `AllocError` where a growth is refused.
pub fn split_words<'a>(alloc: Global, line: &'a [u8], at: u8) -> Result<Vec<&'a [u8]>, AllocError>
    ensures { IfOk result
        (λ words. map (λ word. word.now) words.items ≡ slice_split (λ b. b == at) line.now) }
{
    let mut words = Vec::with_capacity(alloc, WORDS)?;
    let mut rest = line;
    while let Some(end) = memchr(at, rest) {
        let (word, behind) = rest.split_at(end);
        words.push(word)?;
        rest = &behind[1..];
    }
    words.push(rest)?;
    Ok(words)
}

/// Writes the words, with one space between each two.
///
/// # Errors
///
/// What the writer answered; it has some beginning of that.
pub fn send_words<W: Write>(writer: &mut W, words: &[Word<'_>]) -> IoResult<()>
    ensures whole { OnOk result
        (Appends (W.contents writer.old) (W.contents writer.new) (join_with_byte 32 (map word_text words.now))) }
    ensures front { OnErr result
        (AppendsFront (W.contents writer.old) (W.contents writer.new) (join_with_byte 32 (map word_text words.now))) }
{
    let Some((first, others)) = words.split_first() else {
        return Ok(());
    };
    let mut unsent = Unsent::new();
    if unsent.add_word(*first) && unsent.add_behind(others) {
        return unsent.send_all(writer);
    }
    send_word(writer, *first)?;
    send_behind(writer, others)
}

/// Writes each word behind a space, as what follows the words that are written already.
///
/// # Errors
///
/// What the writer answered; it has some beginning of that.
pub fn send_behind<W: Write>(writer: &mut W, words: &[Word<'_>]) -> IoResult<()>
    ensures whole { OnOk result
        (Appends (W.contents writer.old) (W.contents writer.new) (behind 32 (map word_text words.now))) }
    ensures front { OnErr result
        (AppendsFront (W.contents writer.old) (W.contents writer.new) (behind 32 (map word_text words.now))) }
{
    let mut unsent = Unsent::new();
    if unsent.add_behind(words) {
        return unsent.send_all(writer);
    }
    for word in words {
        send_spaced(writer, *word)?;
    }
    Ok(())
}

fn send_spaced<W: Write>(writer: &mut W, word: Word<'_>) -> IoResult<()>
    ensures whole { OnOk result
        (Appends (W.contents writer.old) (W.contents writer.new) (32 ∷ word_text word.entry)) }
    ensures front { OnErr result
        (AppendsFront (W.contents writer.old) (W.contents writer.new) (32 ∷ word_text word.entry)) }
{
    send(writer, b" ")?;
    send_word(writer, word)
}

fn send_word<W: Write>(writer: &mut W, word: Word<'_>) -> IoResult<()>
    ensures whole { OnOk result
        (Appends (W.contents writer.old) (W.contents writer.new) (word_text word.entry)) }
    ensures front { OnErr result
        (AppendsFront (W.contents writer.old) (W.contents writer.new) (word_text word.entry)) }
{
    match word {
        Word::Text(bytes) => send(writer, bytes),
        Word::Number(n) => send_number(writer, n),
        Word::Hex(bytes) => send_hex(writer, bytes),
        Word::Data(bytes) => send_data(writer, bytes),
    }
}
