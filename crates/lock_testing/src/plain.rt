//! Worked runs by a controller of one caller.

use history::{Config, Entry, read_config_line, write_line};
use script_lines::{ScriptLine, read_script_line};
use std::alloc::{AllocError as NoMemory, Global};
use step_core::{Core, Refused, Step};

/// A run: its steps, how each was answered, and the lines of its history.
#[derive(Drop)]
pub struct ScriptRun {
    pub steps: Vec<Step>,
    pub answers: Vec<u8>,
    pub lines: Vec<u8>,
}

/// The configuration that a line spells; None where it is refused.
pub fn config_of(alloc: Global, line: &str) -> Option<Config> {
    let numbers = read_config_line(alloc, line.as_bytes()).ok()?;
    Config::from_numbers(&numbers).ok()
}

/// The lines of these entries.
///
/// # Errors
///
/// `NoMemory` where a growth is refused.
pub fn text(alloc: Global, entries: &[Entry]) -> Result<Vec<u8>, NoMemory> {
    let mut bytes = Vec::new(alloc);
    for entry in entries {
        if write_line(entry, &mut bytes).is_err() {
            return Err(NoMemory);
        }
        bytes.push(b'\n')?;
    }
    Ok(bytes)
}

/// The number of a refusal.
pub fn number(refused: Refused) -> u8 {
    match refused {
        Refused::Publish(why, _) => why.number(),
        Refused::Step(why) => why.number(),
    }
}

/// How the step is answered: 0 or the number of its refusal.
fn answer(core: &mut Core, step: Step) -> u8 {
    match core.step(step) {
        Ok(_) => 0,
        Err(refused) => number(refused),
    }
}

/// The step of a script's line, or the next that is ready where the line settles; None where there is none.
fn step_of(alloc: Global, core: &Core, line: &str) -> Option<Step> {
    match read_script_line(alloc, line.as_bytes()) {
        Ok(ScriptLine::Step(step)) => Some(step),
        Ok(ScriptLine::Settle) => core.ready(),
        Ok(ScriptLine::Medium(_) | ScriptLine::Comment) | Err(_) => None,
    }
}

/// Makes one step of what a line asks for, which it takes twice: once to make it and once to keep it. Whether there was
/// one; None where memory is refused.
fn make_step(alloc: Global, core: &mut Core, line: &str, run: &mut ScriptRun) -> Option<bool> {
    let Some(same) = step_of(alloc, core, line) else {
        return Some(false);
    };
    run.steps.push(same).ok()?;
    let step = step_of(alloc, core, line)?;
    run.answers.push(answer(core, step)).ok()?;
    Some(true)
}

/// Makes what a line asks for.
fn make_line(alloc: Global, core: &mut Core, line: &str, run: &mut ScriptRun) -> Option<()> {
    let turns = if line == "settle" { 10_000 } else { 1 };
    for _ in 0..turns {
        if !make_step(alloc, core, line, run)? {
            return Some(());
        }
    }
    Some(())
}

/// Makes the lines, which are parted by ` / `, and keeps those of the history.
fn make_lines(alloc: Global, core: &mut Core, script: &str, run: &mut ScriptRun) -> Option<()> {
    for line in script.split(" / ") {
        make_line(alloc, core, line, run)?;
    }
    run.lines = text(alloc, core.history().as_slice()).ok()?;
    Some(())
}

/// The run of a script by this controller.
fn run_by(alloc: Global, core: &mut Core, script: &str) -> Option<ScriptRun> {
    let mut run = ScriptRun {
        steps: Vec::new(alloc),
        answers: Vec::new(alloc),
        lines: Vec::new(alloc),
    };
    make_lines(alloc, core, script, &mut run)?;
    Some(run)
}

/// The run of a script whose lines are parted by ` / `; None where memory is refused.
pub fn run_of(alloc: Global, config: Config, script: &str) -> Option<ScriptRun> {
    let mut core = Core::new(alloc, config).ok()?;
    run_by(alloc, &mut core, script)
}
