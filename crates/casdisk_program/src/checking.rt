//! The commands `check` and `explain`, of a history alone.

use crate::counter::Counter;
use crate::culprit::Culprit;
use crate::failure::{Failure, failure_of};
use crate::input::{opened, size_of};
use crate::objects::print_object;
use crate::reader::CountedReader;
use crate::watched::Watched;
use crate::words::ExplainedWords;
use casdisk_texts::{
    Explained, RunFault, answer_object, check_text, explain_text, explained_object,
    follow_explained, follow_text, tell_answer,
};
use file_commands::Grammar;
use std::alloc::{AllocError as NoMemory, Global};
use std::io;
use std::io::Read;
use std::rt::Files;
use std::time::Clock;

/// Checks a history, where it follows up to its first bad step, and gives the status 0 where it is legal, else 1.
pub(crate) fn check_file<R: Files + Clock + Input + Print + Eprint + AllocGlobal>(
    rt: &R,
    follow: bool,
    told: bool,
    file: &str,
) -> Result<u8, Failure> {
    let size = if told { size_of(rt, file) } else { None };
    let counter = Counter::new(rt, told, size);
    let mut input = CountedReader::new(counter, opened(rt, file, false)?);
    let mut output = io::writer(rt);
    let answer = if follow {
        follow_text(rt.alloc(), &mut input, &mut output)
    } else {
        check_text(rt.alloc(), &mut input, &mut output)
    };
    match answer {
        Ok(true) => Ok(0),
        Ok(false) => Ok(1),
        Err(fault) => Err(failure_of(rt.alloc(), file, &input.source, Grammar::History, fault)),
    }
}

// What is said of a history, where it follows up to its first bad step.
fn explained_by<R: AllocGlobal, I: Read>(
    rt: &R,
    follow: bool,
    input: &mut I,
) -> Result<Explained, RunFault> {
    if follow {
        follow_explained(rt.alloc(), input)
    } else {
        explain_text(rt.alloc(), input)
    }
}

// The status of what is said of a history.
fn explained_status(explained: Explained) -> u8 {
    if explained == Explained::Legal { 0 } else { 1 }
}

// The place of the first bad step, where there is one.
fn bad_place(explained: Explained) -> Option<u64> {
    match explained {
        Explained::Legal => None,
        Explained::BadAt(step) => Some(step.place),
    }
}

// Says on standard error which rule a step breaks; where that takes no words, the answer stands alone.
fn tell_reason<R: Eprint>(rt: &R, explained: Explained, culprit: Option<Culprit>) {
    let _ = rt.eprintln(ExplainedWords { explained, culprit });
}

// Writes the answer on a history, with its first bad place where it has one.
fn print_answer<R: Print + AllocGlobal>(
    rt: &R,
    json: bool,
    place: Option<u64>,
) -> Result<(), RunFault> {
    if json {
        return print_object(rt, answer_object(rt.alloc(), place));
    }
    tell_answer(place, &mut io::writer(rt))?;
    Ok(())
}

/// Checks a history in the same way; says the answer as an object where that is asked, and where `why` is true says
/// behind it, on standard error, which rule its first bad step breaks.
pub(crate) fn check_why_file<R: Files + Clock + Input + Print + Eprint + AllocGlobal>(
    rt: &R,
    follow: bool,
    told: bool,
    json: bool,
    why: bool,
    file: &str,
) -> Result<u8, Failure> {
    let size = if told { size_of(rt, file) } else { None };
    let counter = Counter::new(rt, told, size);
    let kept = CountedReader::new(counter, opened(rt, file, why)?);
    let mut input = Watched::new(rt.alloc(), kept);
    let explained = match explained_by(rt, follow, &mut input) {
        Ok(explained) => explained,
        Err(fault) => {
            let read = &input.source.source;
            return Err(failure_of(rt.alloc(), file, read, Grammar::History, fault));
        }
    };
    print_answer(rt, json, bad_place(explained))?;
    if why && explained != Explained::Legal {
        let culprit = input.culprit_of(explained);
        tell_reason(rt, explained, culprit);
    }
    Ok(explained_status(explained))
}

/// What is said of a history, in words.
pub(crate) fn explained_text(
    alloc: Global,
    explained: Explained,
    culprit: Option<Culprit>,
) -> Result<String, NoMemory> {
    let words = ExplainedWords { explained, culprit };
    format!(in alloc; "{words}")
}

// The object of what is said of a history.
fn object_of(
    alloc: Global,
    explained: Explained,
    culprit: Option<Culprit>,
) -> Result<Vec<u8>, NoMemory> {
    let told = explained;
    let text = explained_text(alloc, told, culprit)?;
    explained_object(alloc, explained, text.as_bytes())
}

// Writes what is said of a history in words.
fn print_words<R: Print>(
    rt: &R,
    explained: Explained,
    culprit: Option<Culprit>,
) -> Result<(), RunFault> {
    let words = ExplainedWords { explained, culprit };
    match rt.println(words) {
        Ok(()) => Ok(()),
        Err(_) => Err(RunFault::Output),
    }
}

/// Writes what is said of a history, with what has to do with its first bad step: in words, or as an object.
pub(crate) fn print_explained<R: Print + AllocGlobal>(
    rt: &R,
    json: bool,
    explained: Explained,
    culprit: Option<Culprit>,
) -> Result<(), RunFault> {
    if json {
        print_object(rt, object_of(rt.alloc(), explained, culprit))
    } else {
        print_words(rt, explained, culprit)
    }
}

/// Explains a history, where it follows up to its first bad step, and gives the status 0 where it is legal, else 1.
pub(crate) fn explain_file<R: Files + Input + Print + AllocGlobal>(
    rt: &R,
    follow: bool,
    json: bool,
    why: bool,
    file: &str,
) -> Result<u8, Failure> {
    let mut input = Watched::new(rt.alloc(), opened(rt, file, why)?);
    let explained = match explained_by(rt, follow, &mut input) {
        Ok(explained) => explained,
        Err(fault) => {
            return Err(failure_of(rt.alloc(), file, &input.source, Grammar::History, fault));
        }
    };
    let culprit = input.culprit_of(explained);
    print_explained(rt, json, explained, culprit)?;
    Ok(explained_status(explained))
}
