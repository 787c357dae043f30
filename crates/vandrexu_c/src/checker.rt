//! A checker: made, freed, and given the lines of a history, one at a time.

ghost use Rattle.std.specs.Prelude.{◌≡◌, ◌⊎◌, [], IfErr, IfOk, None, OnOk, Some, false, length, true};
ghost use Rattle.c_handles.specs.Owned.{Keeps};
ghost use Rattle.c_handles.specs.Configurations.{given_numbers};
ghost use Rattle.nvme_model.specs.declared.entry.Entry.{Entry as TheEntry};
ghost use Rattle.history.specs.Lines.{entry_in};
ghost use Rattle.history_check.specs.Kept.{CheckerRun, Stands};
ghost use Rattle.vandrexu_c.specs.Checkers.{IsNewChecker, IsNext, MayRefuseChecker};
ghost use Rattle.vandrexu_c.specs.Checkers.{TellsWhetherLegal, TellsNone, TellsTaken, TellsWhy};

use crate::copying::fits;
use crate::lending::{fill, lend};
use crate::numbers::{BAD_LINE, NOT_LEGAL, TOO_SMALL};
use crate::owned_checker::{CheckerHandle, OwnedChecker};
use broken_rules::Broken;
use c_handles::GivenConfig;
use c_handles::numbers::NO_MEMORY;
use history::{Config, Entry, LineFault, parse_line};
use history_check::Checker;
use std::alloc::{AllocError as NoMemory, Global};

// A checker in a box.
fn own_checker(alloc: Global, config: &Config) -> Result<Box<OwnedChecker>, NoMemory>
    ensures { IfOk result (λ b. Stands config.now [] b.value) }
{
    let checker = Checker::new(alloc, config)?;
    Ok(Box::new(alloc, OwnedChecker { checker })?)
}

/// Makes a checker of histories of this configuration that has taken no line, and puts it into the handle: 0; or the
/// first fault of the configuration, 21 to 30; or 11 where memory is refused; or 102 where the handle owns one. The
/// handle is then as before.
#[unsafe(no_mangle)]
#[tactic(auto, using(c_handles::proofs::Marks::none_of))]
pub extern "C" fn vandrexu_checker_new(
    alloc: Global,
    config: &GivenConfig,
    checker: &mut CheckerHandle,
) -> u32
    ensures done { result ≡ 0 → IsNewChecker (given_numbers config.now) checker.new.held.run }
    ensures failed { (result ≡ 0 → ⊥) → checker.new.held.run ≡ checker.old.held.run }
    ensures cause { (result ≡ 0 → ⊥) → MayRefuseChecker (given_numbers config.now) checker.old.held.run result }
{
    fill!(checker.live != 0, checker, config, accepted => own_checker(alloc, &accepted))
}

/// Frees what the handle owns. Nothing is done where it owns nothing.
#[unsafe(no_mangle)]
pub extern "C" fn vandrexu_checker_free(alloc: Global, checker: &mut CheckerHandle)
    ensures { checker.new.held.run ≡ None }
{
    drop(checker.take(alloc));
}

// Takes an entry behind those that were taken: a fault, or whether all are legal, by its number.
fn judged(checker: &mut Checker, entry: &Entry) -> u32
    ensures { TellsWhetherLegal checker.old entry.now result checker.new }
{
    match checker.take(entry) {
        Ok(true) => 0,
        Ok(false) => NOT_LEGAL,
        Err(_) => NO_MEMORY,
    }
}

// Takes the entry of a line, by the number that it is answered.
fn taken(alloc: Global, checker: &mut Checker, line: &[u8]) -> u32
    ensures { TellsTaken checker.old line.now result checker.new }
{
    match parse_line(alloc, line) {
        Ok(entry) => judged(checker, &entry),
        Err(LineFault::Malformed) => BAD_LINE,
        Err(LineFault::NoMemory) => NO_MEMORY,
    }
}

/// Takes the next line of a history, without its line feed: 0 where all lines so far are legal; or 108 where they
/// aren't, from then on always; or 107 where it is no line of a history, and 11 where memory is refused, and it isn't
/// taken; or 101 where the handle owns nothing.
#[unsafe(no_mangle)]
pub extern "C" fn vandrexu_checker_take_line(
    alloc: Global,
    checker: &mut CheckerHandle,
    line: &[u8],
) -> u32
    ensures no_handle { checker.old.held.run ≡ None → (result ≡ 101) × (checker.new.held.run ≡ None) }
    ensures takes { (r : CheckerRun) → checker.old.held.run ≡ Some r →
        Keeps checker.new.held.run (TellsTaken r line.now result) }
{
    lend!(alloc, checker, mut owned => taken(alloc, &mut owned.as_mut().checker, line))
}

// The words of a broken rule.
fn words_of(alloc: Global, broken: &Broken) -> Result<String, u32>
    ensures fault { IfErr result (λ n. n ≡ 11) }
{
    match broken.to_string(alloc) {
        Ok(words) => Ok(words),
        Err(_) => Err(NO_MEMORY),
    }
}

// The words of the first rule that an entry would break; or 0 where it would break none, or 11.
fn broken_by(alloc: Global, checker: &Checker, entry: &Entry) -> Result<String, u32>
    ensures broken { OnOk result (IsNext false checker.now entry.now) }
    ensures none { IfErr result (λ n. (n ≡ 11) ⊎ ((n ≡ 0) × IsNext true checker.now entry.now)) }
{
    match checker.why(entry) {
        Ok(Some(broken)) => words_of(alloc, &broken),
        Ok(None) => Err(0),
        Err(_) => Err(NO_MEMORY),
    }
}

// The words of the first rule that a line would break; or 0 where it would break none, or a fault.
fn why_of(alloc: Global, checker: &Checker, line: &[u8]) -> Result<String, u32>
    ensures broken { OnOk result ((e : TheEntry) × (entry_in line.now ≡ Some e) × IsNext false checker.now e) }
    ensures none { IfErr result (λ n. TellsNone checker.now line.now n) }
{
    let entry = match parse_line(alloc, line) {
        Ok(entry) => entry,
        Err(LineFault::Malformed) => return Err(BAD_LINE),
        Err(LineFault::NoMemory) => return Err(NO_MEMORY),
    };
    let words = broken_by(alloc, checker, &entry)?;
    Ok(words)
}

/// Says what the next line would be answered, and takes it not: 0; or 108, and the beginning of `out` has the words of
/// the first rule that it breaks; or 103 where `out` is too short for them, and nothing is written there; or 107 where
/// it is no line of a history; or 11 where memory is refused; or 101 where the handle owns nothing. At 108 and 103
/// `needed` is the number of the words' bytes.
#[unsafe(no_mangle)]
pub extern "C" fn vandrexu_checker_why(
    alloc: Global,
    checker: &mut CheckerHandle,
    line: &[u8],
    out: &mut [u8],
    needed: &mut usize,
) -> u32
    ensures no_handle { checker.old.held.run ≡ None → result ≡ 101 }
    ensures same { checker.new.held.run ≡ checker.old.held.run }
    ensures tells { (r : CheckerRun) → checker.old.held.run ≡ Some r →
        TellsWhy r line.now (length out.old) result needed.new }
    ensures kept { (result ≡ 108 → ⊥) → out.new ≡ out.old }
{
    let told = lend!(alloc, checker, owned => why_of(alloc, &owned.as_ref().checker, line));
    let words = match told {
        Ok(words) => words,
        Err(number) => return number,
    };
    if fits(words.as_bytes(), out, needed) {
        return NOT_LEGAL;
    }
    TOO_SMALL
}
