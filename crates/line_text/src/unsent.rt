//! A line that is spelled before it is written, where it is short enough.

ghost use Rattle.std.specs.Prelude.{◌≡◌, ◌≤◌, ◌+◌, ◌*◌, ◌++◌, ◌∷◌, [], OnErr, OnOk, length, map, true};

use crate::data::{BLOCK, all_same};
use crate::digits::spell;
use crate::output::send;
use crate::words::Word;
use itoa::Buffer;
use std::io::{Result as IoResult, Write};

// Most lines are shorter.
// What doesn't fit is seen before anything is written, so spelling needs no answer of the writer.
// Of a longer line each word is written by itself.
const ROOM: usize = 256;

/// The bytes that were spelled of a line, of which none was written.
#[derive(Drop)]
pub(crate) struct Unsent {
    bytes: [u8; ROOM],
    len: usize,
    ghost within: { len ≤ 256 },
}

impl Unsent {
    ghost use Rattle.std.specs.Io.KnownBytes.{Appends};
    ghost use Rattle.hex.specs.Hex.{encode_upper};
    ghost use Rattle.line_text.specs.Data.{data_text};
    ghost use Rattle.line_text.specs.Known.{AppendsFront};
    ghost use Rattle.line_text.specs.Unsent.{unsent};
    ghost use Rattle.line_text.specs.Words.{behind, word_text};

    pub(crate) fn new() -> Unsent
        ensures { unsent result ≡ [] }
    {
        Unsent {
            bytes: [0; ROOM],
            len: 0,
        }
    }

    // Adds bytes, where there is room for them.
    fn add(&mut self, bytes: &[u8]) -> bool
        ensures added { result ≡ true → unsent self.new ≡ unsent self.old ++ bytes.now }
        ensures room { length (unsent self.old) + length bytes.now ≤ 256 → result ≡ true }
    {
        if bytes.len() > ROOM - self.len {
            return false;
        }
        let end = self.len + bytes.len();
        self.bytes[self.len..end].copy_from_slice(bytes);
        self.len = end;
        true
    }

    // Adds the digits of bytes, where there is room for them.
    fn add_hex(&mut self, bytes: &[u8]) -> bool
        ensures added { result ≡ true → unsent self.new ≡ unsent self.old ++ encode_upper bytes.now }
        ensures room { length (unsent self.old) + 2 * length bytes.now ≤ 256 → result ≡ true }
    {
        if bytes.len() > (ROOM - self.len) / 2 {
            return false;
        }
        let end = self.len + 2 * bytes.len();
        spell(bytes, &mut self.bytes[self.len..end]);
        self.len = end;
        true
    }

    // Adds a word of data that is empty, or one block of equal bytes.
    fn add_data(&mut self, bytes: &[u8]) -> bool
        ensures { result ≡ true → unsent self.new ≡ unsent self.old ++ data_text 512 bytes.now }
    {
        if bytes.is_empty() {
            return self.add(b"-");
        }
        if bytes.len() == BLOCK && all_same(bytes) {
            return self.add_hex(&bytes[..1]);
        }
        false
    }

    /// Adds the word, where there is room for it; whether it did.
    pub(crate) fn add_word(&mut self, word: Word<'_>) -> bool
        ensures { result ≡ true → unsent self.new ≡ unsent self.old ++ word_text word.entry }
    {
        match word {
            Word::Text(bytes) => self.add(bytes),
            Word::Number(n) => {
                let mut digits = Buffer::new();
                self.add(digits.format(n).as_bytes())
            }
            Word::Hex(bytes) => self.add_hex(bytes),
            Word::Data(bytes) => self.add_data(bytes),
        }
    }

    // Adds a space, and the word behind it.
    fn add_spaced(&mut self, word: Word<'_>) -> bool
        ensures { result ≡ true → unsent self.new ≡ unsent self.old ++ 32 ∷ word_text word.entry }
    {
        if !self.add(b" ") {
            return false;
        }
        self.add_word(word)
    }

    /// Adds each word behind a space, where there is room for all; whether it did.
    pub(crate) fn add_behind(&mut self, words: &[Word<'_>]) -> bool
        ensures { result ≡ true → unsent self.new ≡ unsent self.old ++ behind 32 (map word_text words.now) }
    {
        for word in words {
            if !self.add_spaced(*word) {
                return false;
            }
        }
        true
    }

    /// Writes all of it.
    ///
    /// # Errors
    ///
    /// What the writer answered; it has some beginning of it.
    pub(crate) fn send_all<W: Write>(&self, writer: &mut W) -> IoResult<()>
        ensures whole { OnOk result (Appends (W.contents writer.old) (W.contents writer.new) (unsent self.now)) }
        ensures front { OnErr result
            (AppendsFront (W.contents writer.old) (W.contents writer.new) (unsent self.now)) }
    {
        send(writer, &self.bytes[..self.len])
    }
}
