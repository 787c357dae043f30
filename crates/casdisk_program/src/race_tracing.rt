//! What hosts see of a race, in place of the history.

ghost use Rattle.std.specs.Prelude.{IfErr};
ghost use Rattle.casdisk_program.specs.Kept.{EndsKept};

use crate::output_buffer::BUFFER;
use crate::racing::end_race;
use crate::seeding::{RaceEnd, Turns, race_into};
use casdisk_texts::{RunFault, trace_text};
use race::{CrashFault, RaceFault};
use race_numbers::Race;
use std::io;
use std::io::{BufWriter, Write};
use std::process::ExitCode;
use std::sync::Wait;
use std::thread::Threads;

/// Prints the trace of the text of a history; nothing where it has no line.
///
/// # Errors
///
/// `Output` where it couldn't be written, and the faults of `trace_text`.
pub fn print_trace<R: Print + AllocGlobal>(rt: &R, history: &[u8]) -> Result<(), RunFault> {
    if history.is_empty() {
        return Ok(());
    }
    let Ok(mut output) = BufWriter::with_capacity(rt.alloc(), BUFFER, io::writer(rt)) else {
        return Err(RunFault::NoMemory);
    };
    let mut text = history;
    // (a controller's history is legal, so its trace is written)
    let written = trace_text(rt.alloc(), &mut text, &mut output);
    if output.flush().is_err() {
        return Err(RunFault::Output);
    }
    written?;
    Ok(())
}

// The same end of a race whose history is kept in memory: that it wasn't written says that there was none.
fn in_memory(end: RaceEnd) -> RaceEnd
    ensures value { EndsKept result }
{
    match end {
        RaceEnd::Race(RaceFault::Output) | RaceEnd::Crash(CrashFault::Output) => {
            RaceEnd::Race(RaceFault::NoMemory)
        }
        RaceEnd::Race(RaceFault::NoMemory | RaceFault::BadAt(_) | RaceFault::Forgotten) => end,
        RaceEnd::Crash(
            CrashFault::NoMemory
            | CrashFault::NoHistory
            | CrashFault::SlotsAt(_)
            | CrashFault::SlotHeld,
        ) => end,
    }
}

// Lets hosts race, and keeps the history.
fn kept_race<R: Threads + Wait + Sync + AllocGlobal>(
    rt: &R,
    race: &Race,
    turns: Turns,
    history: &mut Vec<u8>,
) -> Result<(), RaceEnd>
    ensures memory { IfErr result EndsKept }
{
    match race_into(rt, race, turns, history) {
        Ok(()) => Ok(()),
        Err(end) => Err(in_memory(end)),
    }
}

// Lets hosts race, and prints what they saw.
fn raced<R: Threads + Wait + Sync + Print + AllocGlobal>(
    rt: &R,
    race: &Race,
    turns: Turns,
) -> Result<(), RaceEnd> {
    let mut history: Vec<u8> = Vec::new(rt.alloc());
    kept_race(rt, race, turns, &mut history)?;
    match print_trace(rt, history.as_slice()) {
        Ok(()) => Ok(()),
        Err(RunFault::Output) => Err(RaceEnd::Race(RaceFault::Output)),
        Err(_) => Err(RaceEnd::Race(RaceFault::NoMemory)),
    }
}

/// Lets hosts race, prints what they saw, and gives the status.
pub(crate) fn trace_race<R: Threads + Wait + Sync + Print + Eprint + AllocGlobal>(
    rt: &R,
    race: &Race,
    turns: Turns,
) -> ExitCode {
    match raced(rt, race, turns) {
        Ok(()) => ExitCode::from(0),
        Err(end) => end_race(rt, end),
    }
}
