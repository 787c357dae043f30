//! A Write of many blocks.

use history::{Config, read_config_line};
use lock_testing::LARGE;
use script_lines::{ScriptLine, read_script_line};
use std::alloc::{AllocError as NoMemory, Global};
use step_core::{Core, Step};

/// The most blocks of a command.
const MOST: usize = 256;

// The line of a Publish of so many blocks of A1, at least one.
fn line_of(alloc: Global, blocks: usize) -> Result<String, NoMemory> {
    let last = blocks.saturating_sub(1);
    let mut line = format!(in alloc; "publish 1 write 0 1 0 {last} A1")?;
    for _ in 0..last {
        line.push_str(".A1")?;
    }
    Ok(line)
}

// The controller of the largest volume.
fn controller(alloc: Global) -> Option<Core> {
    let numbers = read_config_line(alloc, LARGE.as_bytes()).ok()?;
    let config = Config::from_numbers(&numbers).ok()?;
    Core::new(alloc, config).ok()
}

fn publish_of(alloc: Global, blocks: usize) -> Option<Step> {
    let line = line_of(alloc, blocks).ok()?;
    match read_script_line(alloc, line.as_bytes()) {
        Ok(ScriptLine::Step(step)) => Some(step),
        Ok(ScriptLine::Settle | ScriptLine::Medium(_) | ScriptLine::Comment) | Err(_) => None,
    }
}

// Whether a step is made.
fn makes(core: &mut Core, step: Step) -> bool {
    core.step(step).is_ok()
}

// Publishes so many blocks, or only makes the step.
fn publishes(alloc: Global, core: &mut Core, blocks: usize, is_first: bool) -> bool {
    match publish_of(alloc, blocks) {
        Some(step) => is_first || makes(core, step),
        None => false,
    }
}

// So many blocks of a unit of the most there are.
fn writes(alloc: Global, core: &mut Core, blocks: usize) -> bool {
    if !publishes(alloc, core, MOST, false) {
        return false;
    }
    if !makes(core, Step::Fetch(1)) || !makes(core, Step::Grant(1)) {
        return false;
    }
    for _ in 0..blocks {
        if !makes(core, Step::Block(1)) {
            return false;
        }
    }
    true
}

/// Publishes so many blocks at once, or writes so many of a unit of the most there are.
pub(crate) fn make_long(
    alloc: Global,
    blocks: usize,
    is_write: bool,
    is_first: bool,
) -> Option<()> {
    let mut core = controller(alloc)?;
    let is_done = if is_write {
        writes(alloc, &mut core, blocks)
    } else {
        publishes(alloc, &mut core, blocks, is_first)
    };
    is_done.then_some(())
}
