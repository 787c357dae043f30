//! The answers of commands as JSON objects, each with the text that it stands for as its words.

ghost use Rattle.std.specs.Prelude.{◌≡◌, IfOk};
ghost use Rattle.casdisk_texts.specs.AnswerObjects.{answer_fields as the_answer_fields};
ghost use Rattle.casdisk_texts.specs.AnswerObjects.{difference_name as the_difference_name, explained_fields};
ghost use Rattle.casdisk_texts.specs.AnswerObjects.{step_fields, verdict_fields as the_verdict_fields};
ghost use Rattle.casdisk_texts.specs.Certified.{verdict_text};
ghost use Rattle.casdisk_texts.specs.Judged.{answer_text};
ghost use Rattle.casdisk_texts.specs.Objects.{fields_of, object_text};

use crate::certifying::send_verdict;
use crate::checking::tell_answer;
use crate::explaining::{BadStep, Explained};
use crate::object::{Fields, object_line};
use crate::rule_names::{rule_name, rule_numbers};
use std::alloc::{AllocError as NoMemory, Global};
use witness_check::{Difference, TraceVerdict};

// The fields of an answer on a history: `legal`, or `bad` with this place.
fn answer_fields(bad: Option<u64>) -> Fields<'static>
    ensures value { fields_of result ≡ the_answer_fields bad }
{
    match bad {
        None => Fields::plain("legal"),
        Some(place) => Fields::at("bad", place),
    }
}

/// The object in place of the text that `tell_answer` writes of this place.
///
/// # Errors
///
/// `NoMemory` alone.
pub fn answer_object(alloc: Global, bad: Option<u64>) -> Result<Vec<u8>, NoMemory>
    ensures value { IfOk result (λ object. object.items ≡ object_text (the_answer_fields bad) (answer_text bad)) }
{
    let mut words = Vec::new(alloc);
    match tell_answer(bad, &mut words) {
        Ok(_) => object_line(alloc, &answer_fields(bad), words.as_slice()),
        Err(_) => Err(NoMemory),
    }
}

// The object of an entry that breaks a rule.
fn step_object(alloc: Global, step: BadStep, words: &[u8]) -> Result<Vec<u8>, NoMemory>
    ensures value { IfOk result (λ object. object.items ≡ object_text (step_fields step) words.now) }
{
    let numbers = rule_numbers(alloc, step.broken)?;
    let rule = Some(rule_name(step.broken));
    let fields = Fields::at("bad", step.place).with_rule(rule, numbers.as_slice());
    object_line(alloc, &fields, words)
}

/// The object of what is said of a history, with these words for it.
///
/// # Errors
///
/// `NoMemory` alone.
pub fn explained_object(
    alloc: Global,
    explained: Explained,
    words: &[u8],
) -> Result<Vec<u8>, NoMemory>
    ensures value { IfOk result
        (λ object. object.items ≡ object_text (explained_fields explained) words.now) }
{
    match explained {
        Explained::Legal => object_line(alloc, &answer_fields(None), words),
        Explained::BadAt(step) => step_object(alloc, step, words),
    }
}

// The name of what differs.
fn difference_name(difference: Difference) -> &'static str
    ensures value { result.now ≡ the_difference_name difference }
{
    match difference {
        Difference::TraceEnds => "trace ends",
        Difference::HistoryEnds => "history ends",
        Difference::Kind => "kind",
        Difference::Queue => "queue",
        Difference::Batch => "entries",
        Difference::Completion => "completion",
        Difference::Data => "data",
        Difference::Contents => "contents",
        Difference::Order => "order",
    }
}

// The fields of a verdict.
fn verdict_fields(verdict: TraceVerdict) -> Fields<'static>
    ensures value { fields_of result ≡ the_verdict_fields verdict }
{
    match verdict {
        TraceVerdict::Explained => Fields::plain("explained"),
        TraceVerdict::Bad(place) => answer_fields(Some(place)),
        TraceVerdict::Unlike(place, difference) => Fields {
            place: Some(place),
            rule: Some(difference_name(difference)),
            ..Fields::plain("seen")
        },
    }
}

/// The object in place of the text that `certify_text` writes of this verdict.
///
/// # Errors
///
/// `NoMemory` alone.
pub fn verdict_object(alloc: Global, verdict: TraceVerdict) -> Result<Vec<u8>, NoMemory>
    ensures value { IfOk result
        (λ object. object.items ≡ object_text (the_verdict_fields verdict) (verdict_text verdict)) }
{
    let mut words = Vec::new(alloc);
    match send_verdict(verdict, &mut words) {
        Ok(()) => object_line(alloc, &verdict_fields(verdict), words.as_slice()),
        Err(_) => Err(NoMemory),
    }
}
