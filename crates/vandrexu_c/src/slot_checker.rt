//! A checker of the discipline of slots: made, freed, and given the lines of a legal history, one at a time.

ghost use Rattle.std.specs.Prelude.{◌≡◌, [], IfOk, None, Some, length};
ghost use Rattle.c_handles.specs.Owned.{Keeps};
ghost use Rattle.c_handles.specs.Configurations.{given_numbers};
ghost use Rattle.nvme_model.specs.declared.array.Range.{Range};
ghost use Rattle.vandrexu_c.specs.Checkers.{MayRefuseChecker};
ghost use Rattle.vandrexu_c.specs.SlotCheckers.{FollowsSlots, IsNewSlotChecker, SlotCheckerRun, TellsWhetherKept};
ghost use Rattle.vandrexu_c.specs.SlotCheckers.{TellsSlotsTaken, TellsStep, TellsWrong};
ghost use Rattle.vandrexu_c.specs.SlotMaking.{given_area};

use crate::copying::fits;
use crate::lending::{fill, lend};
use crate::numbers::{BAD_AREA, BAD_LINE, TOO_SMALL};
use crate::owned_slot_checker::OwnedSlotChecker;
use crate::slot_checker_handle::SlotCheckerHandle;
use crate::slot_making::area_given;
use c_handles::GivenConfig;
use c_handles::numbers::NO_MEMORY;
use file_commands::WrongStep;
use history::{Config, Entry, LineFault, parse_line};
use nvme_model::array::Range;
use slot_check::AreaCheck;
use std::alloc::{AllocError as NoMemory, Global};

const SLOTS_MISUSED: u32 = 128;

// A checker of slots in a box.
fn own_slot_checker(
    alloc: Global,
    config: &Config,
    slots: Range,
) -> Result<Box<OwnedSlotChecker>, NoMemory>
    ensures { IfOk result (λ b. FollowsSlots config.now slots [] b.value) }
{
    let owned = OwnedSlotChecker {
        area: AreaCheck::new(alloc, config, slots),
        count: 0,
        wrong: None,
    };
    Ok(Box::new(alloc, owned)?)
}

/// Makes a checker of so many slots from block `first` on, for histories of this configuration, that has taken no line,
/// and puts it into the handle: 0; or 123 where there is no slot, or one is behind block 65,535; or the first fault of
/// the configuration, 21 to 30; or 11 where memory is refused; or 102 where the handle owns one. The handle is then as
/// before.
#[unsafe(no_mangle)]
#[tactic(auto, using(c_handles::proofs::Marks::none_of))]
pub extern "C" fn vandrexu_slot_checker_new(
    alloc: Global,
    config: &GivenConfig,
    first: u64,
    count: u32,
    checker: &mut SlotCheckerHandle,
) -> u32
    ensures no_area { given_area first count ≡ None →
        (result ≡ 123) × (checker.new.held.run ≡ checker.old.held.run) }
    ensures done { (a : Range) → given_area first count ≡ Some a → result ≡ 0 →
        IsNewSlotChecker (given_numbers config.now) a checker.new.held.run }
    ensures failed { (result ≡ 0 → ⊥) → checker.new.held.run ≡ checker.old.held.run }
    ensures cause { (a : Range) → given_area first count ≡ Some a → (result ≡ 0 → ⊥) →
        MayRefuseChecker (given_numbers config.now) checker.old.held.run result }
{
    let Some(area) = area_given(first, count) else {
        return BAD_AREA;
    };
    fill!(checker.live != 0, checker, config, accepted => own_slot_checker(alloc, &accepted, area))
}

/// Frees what the handle owns. Nothing is done where it owns nothing.
#[unsafe(no_mangle)]
pub extern "C" fn vandrexu_slot_checker_free(alloc: Global, checker: &mut SlotCheckerHandle)
    ensures { checker.new.held.run ≡ None }
{
    drop(checker.take(alloc));
}

// Takes an entry behind those that were taken: a fault, or whether all keep the discipline, by its number.
fn followed(checker: &mut OwnedSlotChecker, entry: &Entry) -> u32
    ensures { TellsWhetherKept checker.old entry.now result checker.new }
{
    if checker.take(entry).is_err() {
        return NO_MEMORY;
    }
    if checker.wrong.is_some() {
        return SLOTS_MISUSED;
    }
    0
}

// Takes the entry of a line, by the number that it is answered.
fn taken(alloc: Global, checker: &mut OwnedSlotChecker, line: &[u8]) -> u32
    ensures { TellsSlotsTaken checker.old line.now result checker.new }
{
    match parse_line(alloc, line) {
        Ok(entry) => followed(checker, &entry),
        Err(LineFault::Malformed) => BAD_LINE,
        Err(LineFault::NoMemory) => NO_MEMORY,
    }
}

/// Takes the next line of a legal history, without its line feed: 0 where all lines so far keep the discipline of the
/// slots; or 128 where they don't, from then on always; or 107 where it is no line of a history, and 11 where memory is
/// refused, and it isn't taken; or 101 where the handle owns nothing.
#[unsafe(no_mangle)]
pub extern "C" fn vandrexu_slot_checker_take_line(
    alloc: Global,
    checker: &mut SlotCheckerHandle,
    line: &[u8],
) -> u32
    ensures no_handle { checker.old.held.run ≡ None → (result ≡ 101) × (checker.new.held.run ≡ None) }
    ensures takes { (r : SlotCheckerRun) → checker.old.held.run ≡ Some r →
        Keeps checker.new.held.run (TellsSlotsTaken r line.now result) }
{
    lend!(alloc, checker, mut owned => taken(alloc, owned.as_mut(), line))
}

// Gives the place and the block of a wrong step, and the words of the rule that it breaks.
fn give_wrong(
    alloc: Global,
    step: &WrongStep,
    place: &mut u64,
    block: &mut u64,
    out: &mut [u8],
    needed: &mut usize,
) -> u32
    ensures tells { TellsStep step.now (length out.old) result place.new block.new needed.new }
    ensures kept { (result ≡ 128 → ⊥) → out.new ≡ out.old }
    ensures untold { result ≡ 11 → (place.new ≡ place.old) × (block.new ≡ block.old) }
{
    let Ok(words) = step.broken.to_string(alloc) else {
        return NO_MEMORY;
    };
    *place = step.place;
    *block = step.broken.lba();
    if fits(words.as_bytes(), out, needed) {
        return SLOTS_MISUSED;
    }
    TOO_SMALL
}

/// Says which line that was taken is the first to break the discipline: 0 where none does; or 128, and `place` is its
/// place from 1, `block` that of the slot, and the beginning of `out` has the words of the rule; or 103 where `out` is
/// too short for them, and nothing is written there; or 11 where memory is refused; or 101 where the handle owns
/// nothing. At 128 and 103 `needed` is the number of the words' bytes.
#[unsafe(no_mangle)]
pub extern "C" fn vandrexu_slot_checker_why(
    alloc: Global,
    checker: &mut SlotCheckerHandle,
    place: &mut u64,
    block: &mut u64,
    out: &mut [u8],
    needed: &mut usize,
) -> u32
    ensures no_handle { checker.old.held.run ≡ None → result ≡ 101 }
    ensures same { checker.new.held.run ≡ checker.old.held.run }
    ensures tells { (r : SlotCheckerRun) → checker.old.held.run ≡ Some r →
        TellsWrong r (length out.old) result place.new block.new needed.new }
    ensures kept { (result ≡ 128 → ⊥) → out.new ≡ out.old }
    ensures untold { (result ≡ 128 → ⊥) → (result ≡ 103 → ⊥) →
        (place.new ≡ place.old) × (block.new ≡ block.old) }
{
    let told = lend!(alloc, checker, owned => owned.as_ref().wrong);
    let Some(step) = told else {
        return 0;
    };
    give_wrong(alloc, &step, place, block, out, needed)
}
