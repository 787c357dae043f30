//! Many scripts: what wants memory is asked for again, each history is shown, and a checker judges it.

use crate::runs::{TURNS, controller, insist};
use history::{Config, Entry, LineFault, read_config_line, write_line};
use history_check::Checker;
use script_lines::{ScriptLine, read_script_line};
use std::alloc::Global;
use std::io::{BufWriter, Write};
use std::rt::Files;
use std::{fs, io};
use step_core::Core;

/// How many steps a line makes at most.
const STEPS: u32 = 100_000;

// The configuration that a line spells.
fn config_of(alloc: Global, line: &[u8], told: &mut u64) -> Option<Config> {
    for _ in 0..TURNS {
        match read_config_line(alloc, line) {
            Ok(numbers) => return Config::from_numbers(&numbers).ok(),
            Err(LineFault::NoMemory) => *told = told.wrapping_add(1),
            Err(LineFault::Malformed) => return None,
        }
    }
    None
}

// What a line asks for.
fn line_of(alloc: Global, line: &[u8], told: &mut u64) -> Option<ScriptLine> {
    for _ in 0..TURNS {
        match read_script_line(alloc, line) {
            Ok(asked) => return Some(asked),
            Err(LineFault::NoMemory) => *told = told.wrapping_add(1),
            Err(LineFault::Malformed) => return None,
        }
    }
    None
}

// Makes all that is ready.
fn settle(core: &mut Core, told: &mut u64) {
    for _ in 0..STEPS {
        let Some(step) = core.ready() else {
            return;
        };
        insist(core, step, told);
    }
}

// Makes what a line asks for; None where it asks for nothing.
fn make_line(alloc: Global, core: &mut Core, line: &[u8], told: &mut u64) -> Option<()> {
    match line_of(alloc, line, told)? {
        ScriptLine::Step(step) => insist(core, step, told),
        ScriptLine::Settle => settle(core, told),
        ScriptLine::Medium(_) | ScriptLine::Comment => {}
    }
    Some(())
}

fn checker_of(alloc: Global, config: &Config, told: &mut u64) -> Option<Checker> {
    for _ in 0..TURNS {
        match Checker::new(alloc, config) {
            Ok(checker) => return Some(checker),
            Err(_) => *told = told.wrapping_add(1),
        }
    }
    None
}

// Whether an entry may follow.
fn may_follow(checker: &mut Checker, entry: &Entry, told: &mut u64) -> bool {
    for _ in 0..TURNS {
        match checker.take(entry) {
            Ok(follows) => return follows,
            Err(_) => *told = told.wrapping_add(1),
        }
    }
    false
}

// Shows entries; whether the last of them may follow.
fn show<W: Write>(
    checker: &mut Checker,
    entries: &[Entry],
    out: &mut W,
    told: &mut u64,
) -> Option<bool> {
    let mut is_legal = true;
    for entry in entries {
        is_legal = may_follow(checker, entry, told);
        write_line(entry, out).ok()?;
        out.write_all(b"\n").ok()?;
    }
    Some(is_legal)
}

// Shows a history, and whether it is legal.
fn judge<W: Write>(alloc: Global, core: &Core, out: &mut W, told: &mut u64) -> Option<()> {
    let mut checker = checker_of(alloc, &core.config(), told)?;
    let words = if show(&mut checker, core.history().as_slice(), out, told)? {
        b"legal\n".as_slice()
    } else {
        b"not legal\n".as_slice()
    };
    out.write_all(words).ok()
}

// Makes what lines ask for, up to one that asks for nothing.
fn make_lines(alloc: Global, core: &mut Core, lines: &str, told: &mut u64) {
    for line in lines.split("\n") {
        if make_line(alloc, core, line.as_bytes(), told).is_none() {
            return;
        }
    }
}

// Runs a script up to its end, or to a line that asks for nothing, and judges its history.
fn run_one<W: Write>(alloc: Global, script: &str, out: &mut W, told: &mut u64) -> Option<()> {
    let (first, lines) = script.split_once('\n').unwrap_or((script, ""));
    let config = config_of(alloc, first.as_bytes(), told)?;
    let mut core = controller(alloc, config, told)?;
    make_lines(alloc, &mut core, lines, told);
    judge(alloc, &core, out, told)
}

// Runs all scripts; whether each could be shown.
fn run_all<W: Write>(alloc: Global, text: &str, out: &mut W, told: &mut u64) -> bool {
    for script in text.split("\n\n") {
        if run_one(alloc, script, out, told).is_none() {
            return false;
        }
    }
    out.flush().is_ok()
}

/// Runs the scripts of a file, which an empty line parts; how often want of memory was told.
pub(crate) fn run_many<R: Files + Print + AllocGlobal>(
    rt: &R,
    file: &str,
    is_first: bool,
) -> Option<u64> {
    let text = fs::read_to_string(rt, file).ok()?;
    let mut out = BufWriter::new(rt.alloc(), io::writer(rt)).ok()?;
    let mut told = 0;
    (is_first || run_all(rt.alloc(), text.as_str(), &mut out, &mut told)).then_some(told)
}
