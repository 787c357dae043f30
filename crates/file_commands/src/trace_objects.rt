//! The answer on a trace as a JSON object.

ghost use Rattle.std.specs.Prelude.{◌++◌, ◌∷◌, ◌≡◌, [], IfOk, IfSome, Option, decimal, ℕ};
ghost use Rattle.casdisk_texts.specs.Objects.{fields_of, object_text};
ghost use Rattle.file_commands.specs.Observing.{HasNumberAt, IsLineIn, answer_word as the_answer_word, trace_fields};

use crate::answer::TraceAnswer;
use casdisk_texts::{Fields, object_line};
use line_text::{read_u64, split_words};
use std::alloc::{AllocError as NoMemory, Global};

// The number in a word that has a colon behind it.
fn number_of(word: &[u8]) -> Option<u64>
    ensures value { IfSome result (λ n. word.now ≡ decimal n ++ 58 ∷ []) }
{
    let (last, digits) = word.split_last()?;
    if *last == b':' {
        read_u64(digits)
    } else {
        None
    }
}

// The number in the word of a text at this place, from 0, which has a colon behind it.
fn number_at(alloc: Global, text: &[u8], at: usize) -> Result<Option<u64>, NoMemory>
    ensures value { IfOk result (λ number. IfSome number (HasNumberAt text.now at)) }
{
    let words = split_words(alloc, text, b' ')?;
    match words.get(at) {
        Some(word) => Ok(number_of(*word)),
        None => Ok(None),
    }
}

// The line that the text of an answer names.
fn line_in(alloc: Global, text: &[u8], answer: TraceAnswer) -> Result<Option<u64>, NoMemory>
    ensures value { IfOk result (IsLineIn text.now answer) }
{
    match answer {
        TraceAnswer::Refuted => number_at(alloc, text, 4),
        TraceAnswer::NotFound => number_at(alloc, text, 5),
        TraceAnswer::Explained | TraceAnswer::GaveUp => Ok(None),
    }
}

// What is answered, in a word.
fn answer_word(answer: TraceAnswer) -> &'static str
    ensures value { result.now ≡ the_answer_word answer }
{
    match answer {
        TraceAnswer::Explained => "explained",
        TraceAnswer::Refuted => "refuted",
        TraceAnswer::NotFound => "not found",
        TraceAnswer::GaveUp => "gave up",
    }
}

/// The object of an answer of `observe_text`, whose words are the text that was written with it.
///
/// # Errors
///
/// `NoMemory` alone.
pub fn trace_object(alloc: Global, answer: TraceAnswer, text: &[u8]) -> Result<Vec<u8>, NoMemory>
    ensures value { IfOk result (λ object. (line : Option ℕ) × IsLineIn text.now answer line
        × (object.items ≡ object_text (trace_fields answer line) text.now)) }
{
    let line = line_in(alloc, text, answer)?;
    let fields = Fields {
        line,
        ..Fields::plain(answer_word(answer))
    };
    object_line(alloc, &fields, text)
}
