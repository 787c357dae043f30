//! The answers beside an area of slots as JSON objects.

ghost use Rattle.std.specs.Prelude.{◌≡◌, IfOk};
ghost use Rattle.casdisk_texts.specs.Objects.{object_text};
ghost use Rattle.file_commands.specs.SlotObjects.{discipline_name as the_discipline_name, found_fields, slots_fields};
ghost use Rattle.file_commands.specs.SlotObjects.{found_said, wrong_fields, wrong_step_fields};
ghost use Rattle.file_commands.specs.Texts.{wrong_text};

use crate::checking::send_wrong;
use crate::explaining::ExplainedSlots;
use crate::judging::WrongStep;
use casdisk_texts::{Explained, Fields, answer_object, explained_object, object_line};
use slot_check::BrokenDiscipline;
use std::alloc::{AllocError as NoMemory, Global};

// The object in place of the line `slots bad at K`.
fn wrong_object(alloc: Global, place: u64) -> Result<Vec<u8>, NoMemory>
    ensures value { IfOk result (λ object. object.items ≡ object_text (wrong_fields place) (wrong_text place)) }
{
    let mut words = Vec::new(alloc);
    let fields = Fields::at("slots bad", place);
    match send_wrong(place, &mut words) {
        Ok(()) => object_line(alloc, &fields, words.as_slice()),
        Err(_) => Err(NoMemory),
    }
}

/// The object in place of the line that `check_slots` writes of what is said of a history.
///
/// # Errors
///
/// `NoMemory` alone.
pub fn slots_answer_object(alloc: Global, explained: ExplainedSlots) -> Result<Vec<u8>, NoMemory>
    ensures value { IfOk result
        (λ object. object.items ≡ object_text (found_fields explained) (found_said explained)) }
{
    match explained {
        ExplainedSlots::Legal => answer_object(alloc, None),
        ExplainedSlots::BadAt(step) => answer_object(alloc, Some(step.place)),
        ExplainedSlots::SlotsBadAt(step) => wrong_object(alloc, step.place),
    }
}

// The name of a rule of the discipline.
fn discipline_name(broken: BrokenDiscipline) -> &'static str
    ensures value { result.now ≡ the_discipline_name broken }
{
    match broken {
        BrokenDiscipline::NoSwap(_) => "no swap",
        BrokenDiscipline::ClaimedTwice(_) => "claimed twice",
        BrokenDiscipline::Unbelieved(_) => "unbelieved",
        BrokenDiscipline::TakenOver(_) => "taken over",
        BrokenDiscipline::OtherQueue(_) => "other queue",
        BrokenDiscipline::NeverGiven(_) => "never given",
        BrokenDiscipline::OwnQueue(_) => "own queue",
        BrokenDiscipline::CutOff(_) => "cut off",
    }
}

// The object of an entry that breaks the discipline of slots from this block on.
fn wrong_step_object(
    alloc: Global,
    first: u64,
    step: WrongStep,
    words: &[u8],
) -> Result<Vec<u8>, NoMemory>
    ensures value { IfOk result
        (λ object. object.items ≡ object_text (wrong_step_fields first step) words.now) }
{
    let lba = step.broken.lba();
    let numbers = [lba.saturating_sub(first), lba];
    let rule = Some(discipline_name(step.broken));
    let fields = Fields::at("slots bad", step.place).with_rule(rule, &numbers);
    object_line(alloc, &fields, words)
}

/// The object of what is said of a history beside slots from this block on, with these words for it.
///
/// # Errors
///
/// `NoMemory` alone.
pub fn slots_object(
    alloc: Global,
    first: u64,
    explained: ExplainedSlots,
    words: &[u8],
) -> Result<Vec<u8>, NoMemory>
    ensures value { IfOk result
        (λ object. object.items ≡ object_text (slots_fields first explained) words.now) }
{
    match explained {
        ExplainedSlots::Legal => explained_object(alloc, Explained::Legal, words),
        ExplainedSlots::BadAt(step) => explained_object(alloc, Explained::BadAt(step), words),
        ExplainedSlots::SlotsBadAt(step) => wrong_step_object(alloc, first, step, words),
    }
}
