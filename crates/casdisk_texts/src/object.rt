//! One answer as JSON: an object with its fields in one order, and a line feed.

ghost use Rattle.std.specs.Prelude.{◌≡◌, ◌++◌, ◌<◌, IfOk, OnOk, decimal, flat_map, option_map};
ghost use Rattle.std.specs.Char.{digit_char};
ghost use Rattle.casdisk_texts.specs.Objects.{behind_comma, escaped_byte, fields_of, line_of, numbers_in, object_text};
ghost use Rattle.casdisk_texts.specs.Objects.{part_text, place_fields, plain_fields, quoted, with_rule};

use itoa::Buffer;
use std::alloc::{AllocError as NoMemory, Global};

/// The fields of an answer that stand before its words. No byte of `answer` or `rule` is a line feed.
#[derive(Clone, Copy)]
pub struct Fields<'a> {
    /// What is answered.
    pub answer: &'a str,
    /// The place that it is about, from 1.
    pub place: Option<u64>,
    /// The line of the file, from 1.
    pub line: Option<u64>,
    /// The rule that is broken.
    pub rule: Option<&'a str>,
    /// The numbers of that rule, or of the answer.
    pub numbers: &'a [u64],
}

// The line of the file of this place: the configuration line comes before.
fn line_of(place: u64) -> Option<u64>
    ensures value { result ≡ line_of place }
{
    place.checked_add(1)
}

impl<'a> Fields<'a> {
    /// Those of an answer that is no more than that.
    pub fn plain(answer: &'a str) -> Fields<'a>
        ensures value { fields_of result ≡ plain_fields answer.now }
    {
        Fields {
            answer,
            place: None,
            line: None,
            rule: None,
            numbers: &[],
        }
    }

    /// Those of an answer about this place of a history, from 1.
    pub fn at(answer: &'a str, place: u64) -> Fields<'a>
        ensures value { fields_of result ≡ place_fields answer.now place }
    {
        Fields {
            place: Some(place),
            line: line_of(place),
            ..Fields::plain(answer)
        }
    }

    /// The same with this rule and these numbers.
    pub fn with_rule(self, rule: Option<&'a str>, numbers: &'a [u64]) -> Fields<'a>
        ensures value { fields_of result
            ≡ with_rule (fields_of self.entry) (option_map (λ r. r.now) rule.entry) numbers.now }
    {
        Fields {
            rule,
            numbers,
            ..self
        }
    }
}

// A part of an object.
#[derive(Clone, Copy)]
enum Part<'a> {
    // The bytes as they are.
    Raw(&'a [u8]),
    // A number, or null.
    Number(Option<u64>),
    // A string, or null.
    Words(Option<&'a [u8]>),
    // Numbers, with a comma between each two.
    Numbers(&'a [u64]),
}

// The hexadecimal digit of a number below 16.
fn digit(n: u8) -> u8
    requires below { n < 16 }
    ensures value { result ≡ digit_char n }
{
    if n < 10 { b'0' + n } else { b'a' - 10 + n }
}

// Adds a byte of a string.
fn push_byte(text: &mut Vec<u8>, byte: u8) -> Result<(), NoMemory>
    ensures value { OnOk result (text.new.items ≡ text.old.items ++ escaped_byte byte) }
{
    match byte {
        b'\n' => Ok(()),
        b'"' | b'\\' => text.extend_from_slice(&[b'\\', byte]),
        0..=31 => {
            text.extend_from_slice(&[b'\\', b'u', b'0', b'0', digit(byte / 16), digit(byte % 16)])
        }
        _ => text.extend_from_slice(&[byte]),
    }
}

// Adds the bytes of a string.
fn push_bytes(text: &mut Vec<u8>, words: &[u8]) -> Result<(), NoMemory>
    ensures value { OnOk result (text.new.items ≡ text.old.items ++ flat_map escaped_byte words.now) }
{
    for byte in words {
        push_byte(text, *byte)?;
    }
    Ok(())
}

// Adds a string.
fn push_quoted(text: &mut Vec<u8>, words: &[u8]) -> Result<(), NoMemory>
    ensures value { OnOk result (text.new.items ≡ text.old.items ++ quoted words.now) }
{
    text.extend_from_slice(b"\"")?;
    push_bytes(text, words)?;
    text.extend_from_slice(b"\"")
}

// Adds a number.
fn push_number(text: &mut Vec<u8>, n: u64) -> Result<(), NoMemory>
    ensures value { OnOk result (text.new.items ≡ text.old.items ++ decimal n) }
{
    let mut digits = Buffer::new();
    text.extend_from_slice(digits.format(n).as_bytes())
}

// Adds a number behind a comma.
fn push_next(text: &mut Vec<u8>, n: u64) -> Result<(), NoMemory>
    ensures value { OnOk result (text.new.items ≡ text.old.items ++ behind_comma n) }
{
    text.extend_from_slice(b",")?;
    push_number(text, n)
}

// Adds numbers, each behind a comma.
fn push_others(text: &mut Vec<u8>, numbers: &[u64]) -> Result<(), NoMemory>
    ensures value { OnOk result (text.new.items ≡ text.old.items ++ flat_map behind_comma numbers.now) }
{
    for n in numbers {
        push_next(text, *n)?;
    }
    Ok(())
}

// Adds numbers, with a comma between each two.
fn push_numbers(text: &mut Vec<u8>, numbers: &[u64]) -> Result<(), NoMemory>
    ensures value { OnOk result (text.new.items ≡ text.old.items ++ numbers_in numbers.now) }
{
    let Some((first, others)) = numbers.split_first() else {
        return Ok(());
    };
    push_number(text, *first)?;
    push_others(text, others)
}

// Adds a part.
fn push_part(text: &mut Vec<u8>, part: Part<'_>) -> Result<(), NoMemory>
    ensures value { OnOk result (text.new.items ≡ text.old.items ++ part_text part.entry) }
{
    match part {
        Part::Raw(bytes) => text.extend_from_slice(bytes),
        Part::Number(Some(n)) => push_number(text, n),
        Part::Words(Some(words)) => push_quoted(text, words),
        Part::Number(None) | Part::Words(None) => text.extend_from_slice(b"null"),
        Part::Numbers(numbers) => push_numbers(text, numbers),
    }
}

// Adds parts.
fn push_all(text: &mut Vec<u8>, parts: &[Part<'_>]) -> Result<(), NoMemory>
    ensures value { OnOk result (text.new.items ≡ text.old.items ++ flat_map part_text parts.now) }
{
    for part in parts {
        push_part(text, *part)?;
    }
    Ok(())
}

/// The object of these fields and of these words, which are the text of the answer, with a line feed behind it. A line
/// feed in the words is left out.
///
/// # Errors
///
/// `NoMemory` alone.
pub fn object_line<'a>(
    alloc: Global,
    fields: &'a Fields<'a>,
    words: &'a [u8],
) -> Result<Vec<u8>, NoMemory>
    ensures value { IfOk result (λ object. object.items ≡ object_text (fields_of fields.now) words.now) }
{
    let mut object = Vec::new(alloc);
    let rule = fields.rule.map(str::as_bytes);
    push_all(
        &mut object,
        &[
            Part::Raw(b"{\"answer\":"),
            Part::Words(Some(fields.answer.as_bytes())),
            Part::Raw(b",\"place\":"),
            Part::Number(fields.place),
            Part::Raw(b",\"line\":"),
            Part::Number(fields.line),
            Part::Raw(b",\"rule\":"),
            Part::Words(rule),
            Part::Raw(b",\"numbers\":["),
            Part::Numbers(fields.numbers),
            Part::Raw(b"],\"words\":"),
            Part::Words(Some(words)),
            Part::Raw(b"}\n"),
        ],
    )?;
    Ok(object)
}
