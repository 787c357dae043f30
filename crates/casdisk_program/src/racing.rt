//! The command `race`.

use crate::BUFFER;
use crate::counter::Counter;
use crate::race_tracing::trace_race;
use crate::seeding::{RaceAsked, RaceEnd, Turns, race_into, race_seeds, race_status};
use crate::writer::CountedWriter;
use race::RaceFault;
use race_numbers::Race;
use std::io;
use std::io::{BufWriter, Write};
use std::process::ExitCode;
use std::sync::Wait;
use std::thread::Threads;
use std::time::Clock;

/// Lets hosts race once, or by each of several seeds, and gives the status; the words of a fault go to standard error.
/// It prints the history, or in place of it what hosts saw. Where `told` it says each second how far it is.
pub fn race_as_asked<R: Threads + Wait + Sync + Clock + Print + Eprint + AllocGlobal>(
    rt: &R,
    race: &Race,
    asked: RaceAsked,
    trace: bool,
    json: bool,
    told: bool,
) -> ExitCode {
    match asked {
        RaceAsked::Many(first, last, draws) => {
            match race_seeds(rt, json, race, first, last, &draws) {
                Ok(()) => ExitCode::from(0),
                Err(end) => end_race(rt, end),
            }
        }
        RaceAsked::One(turns) => {
            if trace {
                trace_race(rt, race, turns)
            } else {
                race_hosts(rt, race, turns, told)
            }
        }
    }
}

// Lets hosts race.
fn race_hosts<R: Threads + Wait + Sync + Clock + Print + Eprint + AllocGlobal>(
    rt: &R,
    race: &Race,
    turns: Turns,
    told: bool,
) -> ExitCode {
    let counted = CountedWriter::new(Counter::new(rt, told, None), io::writer(rt));
    let Ok(mut output) = BufWriter::with_capacity(rt.alloc(), BUFFER, counted) else {
        return end_race(rt, RaceEnd::Race(RaceFault::NoMemory));
    };
    let done = race_into(rt, race, turns, &mut output);
    if output.flush().is_err() {
        return end_race(rt, RaceEnd::Race(RaceFault::Output));
    }
    match done {
        Ok(()) => ExitCode::from(0),
        Err(end) => end_race(rt, end),
    }
}

/// Says why there was no race, and gives the status.
pub(crate) fn end_race<R: Eprint>(rt: &R, end: RaceEnd) -> ExitCode {
    ExitCode::from(race_status(rt, end))
}
