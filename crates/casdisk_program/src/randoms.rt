//! The command `random`.

use crate::BUFFER;
use crate::failure::{config_reason, end_fault};
use casdisk_texts::RunFault;
use history::{Config, LineFault, PrintFault, read_config_line};
use random_script::{RandomNumbers, ScriptKind, draw_config, write_random};
use std::alloc::Global;
use std::io;
use std::io::{BufWriter, Write};

const NO_KIND: &str =
    "error: no such kind in '--like': there are single, pairs, units, queues, hostile, slots and mixed";

const NO_CONFIG: &str =
    "error: '--config' is nine numbers, as behind 'config' in a script, or ten, as behind 'config2'";

const TOO_MANY: &str = "error: '--lines' is at most 4294967295";

// Why no script was printed.
#[derive(Clone, Copy)]
enum Unprinted {
    NoKind,
    NoConfig,
    TooMany,
    Run(RunFault),
}

// How many spaces there are.
fn spaces_in(text: &str) -> u64 {
    let mut spaces = 0u64;
    for byte in text.as_bytes() {
        if *byte == b' ' {
            spaces = spaces.saturating_add(1);
        }
    }
    spaces
}

// The configuration line of these numbers.
fn config_line(alloc: Global, numbers: &str) -> Option<String> {
    let line = if spaces_in(numbers) > 8 {
        format!(in alloc; "config2 {numbers}")
    } else {
        format!(in alloc; "config {numbers}")
    };
    line.ok()
}

// The configuration of these numbers.
fn config_of(alloc: Global, numbers: &str) -> Result<Config, Unprinted> {
    let Some(line) = config_line(alloc, numbers) else {
        return Err(Unprinted::Run(RunFault::NoMemory));
    };
    let read = match read_config_line(alloc, line.as_bytes()) {
        Ok(read) => read,
        Err(LineFault::Malformed) => return Err(Unprinted::NoConfig),
        Err(LineFault::NoMemory) => return Err(Unprinted::Run(RunFault::NoMemory)),
    };
    match Config::from_numbers(&read) {
        Ok(config) => Ok(config),
        Err(fault) => Err(Unprinted::Run(RunFault::BadConfig(fault.number()))),
    }
}

// The configuration that is asked for, or one that is drawn.
fn config_asked(
    alloc: Global,
    numbers: Option<&str>,
    random: &mut RandomNumbers,
    kind: ScriptKind,
) -> Result<Config, Unprinted> {
    match numbers {
        Some(numbers) => config_of(alloc, numbers),
        None => Ok(draw_config(random, kind)),
    }
}

// The kind of this name; where none is named, all kinds of steps.
fn kind_of(like: Option<&str>) -> Result<ScriptKind, Unprinted> {
    let Some(name) = like else {
        return Ok(ScriptKind::Mixed);
    };
    match ScriptKind::named(name) {
        Some(kind) => Ok(kind),
        None => Err(Unprinted::NoKind),
    }
}

// Prints so many lines of this kind.
fn printed<R: Print + AllocGlobal>(
    rt: &R,
    random: &mut RandomNumbers,
    config: Config,
    kind: ScriptKind,
    count: u32,
) -> Result<(), Unprinted> {
    let Ok(mut output) = BufWriter::with_capacity(rt.alloc(), BUFFER, io::writer(rt)) else {
        return Err(Unprinted::Run(RunFault::NoMemory));
    };
    let done = write_random(rt.alloc(), random, config, kind, count, &mut output);
    if output.flush().is_err() {
        return Err(Unprinted::Run(RunFault::Output));
    }
    match done {
        Ok(()) => Ok(()),
        Err(PrintFault::Output) => Err(Unprinted::Run(RunFault::Output)),
        Err(PrintFault::NoMemory) => Err(Unprinted::Run(RunFault::NoMemory)),
    }
}

// Prints the script of a seed.
fn print_script<R: Print + AllocGlobal>(
    rt: &R,
    seed: u64,
    lines: u64,
    config: Option<&str>,
    like: Option<&str>,
) -> Result<(), Unprinted> {
    let Ok(count) = u32::try_from(lines) else {
        return Err(Unprinted::TooMany);
    };
    let kind = kind_of(like)?;
    let mut random = RandomNumbers::from_seed(seed);
    let chosen = config_asked(rt.alloc(), config, &mut random, kind)?;
    printed(rt, &mut random, chosen, kind, count)
}

// What a refused configuration says of the number that is refused.
fn refused_number(alloc: Global, numbers: Option<&str>, fault: RunFault) -> Option<String> {
    let RunFault::BadConfig(number) = fault else {
        return None;
    };
    let line = config_line(alloc, numbers?)?;
    config_reason(alloc, "--config", line.as_bytes(), number)
}

/// Prints the script of a seed, and gives the status 0, else that of the fault, whose words go to standard error.
pub fn random_file<R: Print + Eprint + AllocGlobal>(
    rt: &R,
    seed: u64,
    lines: u64,
    config: Option<&str>,
    like: Option<&str>,
) -> u8 {
    match print_script(rt, seed, lines, config, like) {
        Ok(()) => 0,
        Err(Unprinted::NoKind) => end_fault(rt, NO_KIND, 2, None),
        Err(Unprinted::NoConfig) => end_fault(rt, NO_CONFIG, 2, None),
        Err(Unprinted::TooMany) => end_fault(rt, TOO_MANY, 2, None),
        Err(Unprinted::Run(fault)) => {
            let why = refused_number(rt.alloc(), config, fault);
            end_fault(rt, fault, fault.status(), why)
        }
    }
}
