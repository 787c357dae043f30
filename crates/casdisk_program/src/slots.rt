//! Histories beside an area of slots.

use crate::checking::print_explained;
use crate::failure::{end_fault, failure_of};
use crate::input::{Source, opened};
use crate::kept::Kept;
use crate::objects::print_object;
use crate::watched::Watched;
use crate::words::WrongStepWords;
use casdisk_texts::{Explained, RunFault};
use command_line::SlotArea;
use file_commands::{
    ExplainedSlots, Grammar, SlotsFault, WrongStep, check_slots, explain_slots,
    slots_answer_object, slots_object,
};
use nvme_model::array::Range;
use std::alloc::{AllocError as NoMemory, Global};
use std::io;
use std::io::Read;
use std::rt::Files;

// The blocks of an area.
fn blocks_of(area: SlotArea) -> Range {
    Range {
        slba: area.first,
        blocks: area.count,
    }
}

// The second line about a history that wasn't judged, where one was asked for.
fn why_of<R: Read + Drop>(
    alloc: Global,
    file: &str,
    read: &Kept<R>,
    fault: SlotsFault,
) -> Option<String> {
    match fault {
        SlotsFault::Run(run) => failure_of(alloc, file, read, Grammar::History, run).why,
        SlotsFault::NoSlots | SlotsFault::Beyond(_) => None,
    }
}

// Says why a history wasn't judged, and gives the status of that.
fn end_slots<R: Eprint>(rt: &R, fault: SlotsFault, why: Option<String>) -> u8 {
    end_fault(rt, fault, fault.status(), why)
}

// Opens a history, or says why it can't be opened and gives the status of that.
fn slots_input<R: Files + Input + Eprint + AllocGlobal>(
    rt: &R,
    file: &str,
    why: bool,
) -> Result<Kept<Source<R::File, R::Reader>>, u8> {
    match opened(rt, file, why) {
        Ok(input) => Ok(input),
        Err(failure) => Err(end_slots(rt, SlotsFault::Run(failure.fault), failure.why)),
    }
}

// Checks a history and the discipline of these slots, writes the answer as an object, and says whether all is right.
fn check_as_object<R: Print + AllocGlobal, I: Read>(
    rt: &R,
    slots: Range,
    input: &mut I,
) -> Result<bool, SlotsFault> {
    let explained = explain_slots(rt.alloc(), slots, input)?;
    match print_object(rt, slots_answer_object(rt.alloc(), explained)) {
        Ok(()) => Ok(explained == ExplainedSlots::Legal),
        Err(fault) => Err(SlotsFault::Run(fault)),
    }
}

/// Checks a history and the discipline of these slots, and gives the status 0 where it is legal and keeps that, 1 where
/// not, else that of the fault, whose words go to standard error.
pub(crate) fn check_slots_file<R: Files + Input + Print + Eprint + AllocGlobal>(
    rt: &R,
    area: SlotArea,
    json: bool,
    why: bool,
    file: &str,
) -> u8 {
    let alloc = rt.alloc();
    let mut input = match slots_input(rt, file, why) {
        Ok(input) => input,
        Err(status) => return status,
    };
    let answer = if json {
        check_as_object(rt, blocks_of(area), &mut input)
    } else {
        check_slots(alloc, blocks_of(area), &mut input, &mut io::writer(rt))
    };
    match answer {
        Ok(true) => 0,
        Ok(false) => 1,
        Err(fault) => end_slots(rt, fault, why_of(alloc, file, &input, fault)),
    }
}

// The object of what is wrong with how a history uses slots from this block on.
fn wrong_object(alloc: Global, first: u64, step: WrongStep) -> Result<Vec<u8>, NoMemory> {
    let words = WrongStepWords { first, step };
    let text = format!(in alloc; "{words}")?;
    let explained = ExplainedSlots::SlotsBadAt(step);
    slots_object(alloc, first, explained, text.as_bytes())
}

// Says what is wrong with how a history uses slots from this block on, in words.
fn print_wrong<R: Print>(rt: &R, first: u64, step: WrongStep) -> Result<(), RunFault> {
    match rt.println(WrongStepWords { first, step }) {
        Ok(()) => Ok(()),
        Err(_) => Err(RunFault::Output),
    }
}

// Says it in words, or as an object.
fn tell_wrong<R: Print + AllocGlobal>(
    rt: &R,
    json: bool,
    first: u64,
    step: WrongStep,
) -> Result<(), RunFault> {
    if json {
        print_object(rt, wrong_object(rt.alloc(), first, step))
    } else {
        print_wrong(rt, first, step)
    }
}

// Says what is wrong with the steps of a history.
fn tell_steps<R: Print + AllocGlobal, I: Read + Drop>(
    rt: &R,
    json: bool,
    input: &Watched<I>,
    explained: Explained,
) -> Result<(), RunFault> {
    let told = explained;
    let culprit = input.culprit_of(told);
    print_explained(rt, json, explained, culprit)
}

// Says what is wrong with a history.
fn tell_explained<R: Print + AllocGlobal, I: Read + Drop>(
    rt: &R,
    json: bool,
    first: u64,
    input: &Watched<I>,
    explained: ExplainedSlots,
) -> Result<(), RunFault> {
    match explained {
        ExplainedSlots::Legal => tell_steps(rt, json, input, Explained::Legal),
        ExplainedSlots::BadAt(step) => tell_steps(rt, json, input, Explained::BadAt(step)),
        ExplainedSlots::SlotsBadAt(step) => tell_wrong(rt, json, first, step),
    }
}

/// Explains a history and how it uses these slots, and gives the same statuses.
pub(crate) fn explain_slots_file<R: Files + Input + Print + Eprint + AllocGlobal>(
    rt: &R,
    area: SlotArea,
    json: bool,
    why: bool,
    file: &str,
) -> u8 {
    let alloc = rt.alloc();
    let mut input = match slots_input(rt, file, why) {
        Ok(input) => Watched::new(alloc, input),
        Err(status) => return status,
    };
    match explain_slots(alloc, blocks_of(area), &mut input) {
        Ok(explained) => match tell_explained(rt, json, area.first, &input, explained) {
            Ok(()) => {
                if explained == ExplainedSlots::Legal {
                    0
                } else {
                    1
                }
            }
            Err(fault) => end_slots(rt, SlotsFault::Run(fault), None),
        },
        Err(fault) => end_slots(rt, fault, why_of(alloc, file, &input.source, fault)),
    }
}
