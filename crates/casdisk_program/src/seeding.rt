//! The command `race` by turns that seeds draw.

ghost use Rattle.casdisk_program.specs.Racing.{WritesInto, deaths_in};

use crate::objects::print_object;
use crate::seed_objects::{SeedAnswer, SeedWords, seed_object};
use casdisk_texts::RunFault;
use race::{CrashFault, RaceFault, run_crash_race, run_race, run_seeded_race};
use race_numbers::{Bias, Race};
use std::alloc::{AllocError as NoMemory, Global};
use std::io::{Result as IoResult, Write};
use std::sync::Wait;
use std::thread::Threads;

const TWO_SEEDS: &str = "error: '--seed' and '--seeds' exclude each other";

const NO_SEEDS: &str = "error: '--seeds' is A..B, with A at most B";

const NO_WEIGHTS: &str =
    "error: '--bias' is as 'host=3,worker=1,fetcher=1', with weights from 1 to 100";

const NO_TURNS: &str = "error: '--bias' is for '--seed', '--seeds' and '--crash'";

const NO_CRASH: &str = "error: '--crash' is a number from 1, below that of the hosts";

const NO_TRACES: &str = "error: '--trace' is for one race";

const NO_OBJECTS: &str = "error: '--json' is for '--seeds'";

/// What the turns of a race are drawn by: the weights, and how many hosts die.
#[derive(Clone, Copy)]
pub struct Draws {
    pub bias: Bias,
    pub crash: Option<u16>,
}

/// What the callers of a race go by.
#[derive(Clone, Copy)]
pub enum Turns {
    Threads,
    Seed(u64, Draws),
}

/// What is asked for.
#[derive(Clone, Copy)]
pub enum RaceAsked {
    One(Turns),
    /// A race by each seed from the first one to the last.
    Many(u64, u64, Draws),
}

/// Why a race gave no history. Its words are what the program says on standard error.
#[derive(Clone, Copy)]
pub(crate) enum RaceEnd {
    Race(RaceFault),
    Crash(CrashFault),
}

impl From<RaceFault> for RaceEnd {
    fn from(fault: RaceFault) -> RaceEnd {
        RaceEnd::Race(fault)
    }
}

/// The weights that are named so far.
#[derive(Clone, Copy)]
struct Weights {
    host: u64,
    worker: u64,
    fetcher: u64,
}

// The weights with one that is named in place of its own; None where there is no such one.
fn with_weight(weights: Weights, part: &str) -> Option<Weights> {
    let (name, number) = part.split_once('=')?;
    let Ok(weight) = number.parse::<u64>() else {
        return None;
    };
    match name {
        "host" => Some(Weights {
            host: weight,
            ..weights
        }),
        "worker" => Some(Weights {
            worker: weight,
            ..weights
        }),
        "fetcher" => Some(Weights {
            fetcher: weight,
            ..weights
        }),
        _ => None,
    }
}

// The weights that are named; one that isn't is 1.
fn weights_of(text: &str) -> Option<Bias> {
    let mut weights = Weights {
        host: 1,
        worker: 1,
        fetcher: 1,
    };
    for part in text.split(',') {
        weights = with_weight(weights, part)?;
    }
    Bias::new(weights.host, weights.worker, weights.fetcher).ok()
}

// The seeds from the first one to the last.
fn seeds_of(text: &str) -> Option<(u64, u64)> {
    let (first, last) = text.split_once("..")?;
    let first = first.parse::<u64>().ok()?;
    let last = last.parse::<u64>().ok()?;
    if first <= last {
        Some((first, last))
    } else {
        None
    }
}

// How many hosts of so many are to die.
fn crash_of(hosts: u16, crash: Option<u64>) -> Result<Option<u16>, &'static str> {
    match crash {
        Some(count) => {
            if count < 1 || count >= u64::from(hosts) {
                return Err(NO_CRASH);
            }
            Ok(Some(count as u16))
        }
        None => Ok(None),
    }
}

/// What these options of a race ask for. Where hosts are to die and no seed is named, it is 1.
///
/// # Errors
///
/// The words on standard error, where they ask for nothing.
pub fn race_asked(
    race: &Race,
    crash: Option<u64>,
    seed: Option<u64>,
    seeds: Option<&str>,
    bias: Option<&str>,
    trace: bool,
    json: bool,
) -> Result<RaceAsked, &'static str> {
    if json && seeds.is_none() {
        return Err(NO_OBJECTS);
    }
    let weights = weights_of(bias.unwrap_or("host=1")).ok_or(NO_WEIGHTS)?;
    let draws = Draws {
        bias: weights,
        crash: crash_of(race.hosts, crash)?,
    };
    match (seed, seeds) {
        (Some(_), Some(_)) => Err(TWO_SEEDS),
        (Some(seed), None) => Ok(RaceAsked::One(Turns::Seed(seed, draws))),
        (None, Some(text)) => {
            if trace {
                return Err(NO_TRACES);
            }
            let (first, last) = seeds_of(text).ok_or(NO_SEEDS)?;
            Ok(RaceAsked::Many(first, last, draws))
        }
        (None, None) => {
            if draws.crash.is_some() {
                return Ok(RaceAsked::One(Turns::Seed(1, draws)));
            }
            if bias.is_some() {
                return Err(NO_TURNS);
            }
            Ok(RaceAsked::One(Turns::Threads))
        }
    }
}

// Lets hosts race by turns that a seed draws, and writes the history.
fn drawn_into<R: Wait + AllocGlobal, W: Write>(
    rt: &R,
    race: &Race,
    seed: u64,
    draws: &Draws,
    writer: &mut W,
) -> Result<(), RaceEnd>
    ensures { WritesInto race.now draws.now.crash result (W.contents writer.old) (W.contents writer.new) }
{
    let alloc = rt.alloc();
    match draws.crash {
        Some(crash) => match run_crash_race(rt, alloc, race, &draws.bias, crash, seed, writer) {
            Ok(()) => Ok(()),
            Err(fault) => Err(RaceEnd::Crash(fault)),
        },
        None => match run_seeded_race(rt, alloc, race, &draws.bias, seed, writer) {
            Ok(()) => Ok(()),
            Err(fault) => Err(RaceEnd::Race(fault)),
        },
    }
}

/// Lets hosts race, and writes the history.
pub(crate) fn race_into<R: Threads + Wait + Sync + AllocGlobal, W: Write>(
    rt: &R,
    race: &Race,
    turns: Turns,
    writer: &mut W,
) -> Result<(), RaceEnd>
    ensures { WritesInto race.now (deaths_in turns) result (W.contents writer.old) (W.contents writer.new) }
{
    match turns {
        Turns::Threads => match run_race(rt, rt.alloc(), race, writer) {
            Ok(()) => Ok(()),
            Err(fault) => Err(RaceEnd::Race(fault)),
        },
        Turns::Seed(seed, draws) => drawn_into(rt, race, seed, &draws, writer),
    }
}

// Takes everything, and keeps nothing.
#[derive(Drop)]
struct Nowhere;

impl Write for Nowhere {
    ghost use Rattle.std.specs.Prelude.{None};

    ghost contents = { λ _. None };

    fn write(&mut self, buf: &[u8]) -> IoResult<usize> {
        Ok(buf.len())
    }

    fn flush(&mut self) -> IoResult<()> {
        Ok(())
    }
}

// The object of what is said of the race of a seed.
fn object_of(alloc: Global, seed: u64, answer: SeedAnswer) -> Result<Vec<u8>, NoMemory> {
    let words = SeedWords { seed, answer };
    let text = format!(in alloc; "{words}")?;
    seed_object(alloc, seed, answer, text.as_bytes())
}

// Writes what is said of the race of a seed, in words.
fn print_words<R: Print>(rt: &R, seed: u64, answer: SeedAnswer) -> Result<(), RaceFault> {
    match rt.println(SeedWords { seed, answer }) {
        Ok(()) => Ok(()),
        Err(_) => Err(RaceFault::Output),
    }
}

// Writes what is said of the race of a seed: a line, or an object.
fn print_seed<R: Print + AllocGlobal>(
    rt: &R,
    json: bool,
    seed: u64,
    answer: SeedAnswer,
) -> Result<(), RaceFault> {
    if !json {
        return print_words(rt, seed, answer);
    }
    match print_object(rt, object_of(rt.alloc(), seed, answer)) {
        Ok(()) => Ok(()),
        Err(RunFault::NoMemory) => Err(RaceFault::NoMemory),
        Err(_) => Err(RaceFault::Output),
    }
}

// The race of a seed, and what is said of it.
fn told<R: Wait + Print + AllocGlobal>(
    rt: &R,
    json: bool,
    race: &Race,
    seed: u64,
    draws: &Draws,
) -> Result<(), RaceEnd> {
    let done = drawn_into(rt, race, seed, draws, &mut Nowhere);
    let answer = match done {
        Ok(()) => SeedAnswer::Legal,
        Err(RaceEnd::Race(RaceFault::BadAt(place))) => SeedAnswer::BadAt(place),
        Err(RaceEnd::Crash(CrashFault::SlotsAt(place))) => SeedAnswer::SlotsAt(place),
        Err(end) => return Err(end),
    };
    let printed = print_seed(rt, json, seed, answer);
    // (where a race is wrong, that is told, whatever the output took)
    done?;
    printed?;
    Ok(())
}

/// A race by each of these seeds, each told in a line or by an object.
pub(crate) fn race_seeds<R: Wait + Print + AllocGlobal>(
    rt: &R,
    json: bool,
    race: &Race,
    first: u64,
    last: u64,
    draws: &Draws,
) -> Result<(), RaceEnd> {
    for seed in first..last {
        told(rt, json, race, seed, draws)?;
    }
    told(rt, json, race, last, draws)
}

/// Says why a race gave no history, and gives the status with which the program then ends.
pub(crate) fn race_status<R: Eprint>(rt: &R, end: RaceEnd) -> u8 {
    // (where standard error takes no words, the status says it alone)
    match end {
        RaceEnd::Race(fault) => {
            let _ = rt.eprintln(fault);
            fault.status()
        }
        RaceEnd::Crash(fault) => {
            let _ = rt.eprintln(fault);
            fault.status()
        }
    }
}
