//! The whole program, over any runtime.

use crate::certify::{certify_files, logged_so};
use crate::checking::{check_file, check_why_file, explain_file};
use crate::drawing::{draw_file, lanes_of};
use crate::failure::{Failure, end_failure, end_fault};
use crate::going_on::run_from_files;
use crate::in_words::tell_file;
use crate::observing::{ProofFiles, observe_file};
use crate::paging::page_file;
use crate::racing::race_as_asked;
use crate::randoms::random_file;
use crate::refute::refute_files;
use crate::running::run_file;
use crate::seeding::race_asked;
use crate::shrinking::shrink_file;
use crate::slots::{check_slots_file, explain_slots_file};
use crate::tracing::trace_run;
use casdisk_texts::RunFault;
use command_line::{Asked, ColorChoice, Shown, UsageFault, asked};
use history_words::Paint;
use std::env::VarError;
use std::process::ExitCode;
use std::rt::{Env, Files};
use std::sync::Wait;
use std::thread::Threads;
use std::time::Clock;
use std::{env, io};

/// Which of both are terminals: standard output, and standard error, which takes the words.
#[derive(Clone, Copy)]
pub struct Terminals {
    pub output: bool,
    pub words: bool,
}

/// Does what the words of the command line ask, and says with which status the program ends: 0 where it is done, 1
/// where a history isn't legal or doesn't explain a trace, a trace is refuted or isn't by what is said to, or a race
/// gave none, 2 after a bad line, configuration or command line, 3 after a failed opening, reading or writing, 4 where
/// a growth was refused or a thread couldn't be started, 5 where a search gave up, 6 where it found nothing. The words
/// of a fault go to standard error; where that is a terminal, also how far a check or a race is that takes more than a
/// second. The head of a web page has the parts `page`.
pub fn run_program<
    R: Threads + Wait + Sync + Files + Clock + Env + Input + Print + Eprint + AllocGlobal,
>(rt: &R, terminals: Terminals, page: &[&str]) -> ExitCode {
    let words: Result<Vec<String>, io::Error> = match env::args(rt) {
        Ok(args) => args.collect(rt.alloc()).map_err(io::Error::from),
        Err(error) => Err(error),
    };
    match words {
        Ok(words) => match asked(rt.alloc(), words.as_slice()) {
            Ok(what) => finish(rt, what, terminals, page),
            Err(UsageFault::Text(text)) => end_with(rt, 2, text.as_str()),
            Err(UsageFault::NoMemory) => end_with(rt, 4, "no memory"),
        },
        Err(error) => {
            if error.kind() == io::ErrorKind::OutOfMemory {
                end_with(rt, 4, "no memory")
            } else {
                end_with(rt, 2, "error: an argument is not text")
            }
        }
    }
}

// Says these words in a line of their own, and gives this status: where standard error takes no words, that alone.
fn end_with<R: Eprint>(rt: &R, status: u8, words: &str) -> ExitCode {
    let _ = rt.eprintln(words.trim_end());
    ExitCode::from(status)
}

// Whether the environment asks for no colours: by a `NO_COLOR` that isn't empty.
fn asks_no_color<R: Env + AllocGlobal>(rt: &R) -> bool {
    match env::var(rt, "NO_COLOR") {
        Ok(text) => !text.as_bytes().is_empty(),
        Err(error) => error != VarError::NotPresent,
    }
}

// Whether lines are coloured, where standard output is a terminal or isn't.
fn paint_of<R: Env + AllocGlobal>(rt: &R, color: ColorChoice, terminal: bool) -> Paint {
    let colored = match color {
        ColorChoice::Auto => terminal && !asks_no_color(rt),
        ColorChoice::Always => true,
        ColorChoice::Never => false,
    };
    if colored {
        Paint::Colored
    } else {
        Paint::Plain
    }
}

// Whether lines that are told are coloured; none where objects are told.
fn lines_paint<R: Env + AllocGlobal>(
    rt: &R,
    color: ColorChoice,
    json: bool,
    terminal: bool,
) -> Option<Paint> {
    if json {
        None
    } else {
        Some(paint_of(rt, color, terminal))
    }
}

fn finish<R: Threads + Wait + Sync + Files + Clock + Env + Input + Print + Eprint + AllocGlobal>(
    rt: &R,
    what: Asked<'_>,
    terminals: Terminals,
    page: &[&str],
) -> ExitCode {
    let told = terminals.words;
    let outcome = match what {
        Asked::Run {
            shown: Shown::Trace,
            why,
            file,
            ..
        } => trace_run(rt, why, file),
        Asked::Run {
            shown: Shown::Kinds(kinds),
            from: Some(history),
            flush,
            why,
            file,
            ..
        } => Ok(run_from_files(rt, kinds, flush, why, history, file)),
        Asked::Run {
            shown: Shown::Kinds(kinds),
            check,
            flush,
            why,
            file,
            ..
        } => run_file(rt, kinds, check, flush, why, file),
        Asked::Check {
            area: Some(area),
            json,
            why,
            file,
            ..
        } => Ok(check_slots_file(rt, area, json, why, file)),
        Asked::Explain {
            area: Some(area),
            json,
            why,
            file,
            ..
        } => Ok(explain_slots_file(rt, area, json, why, file)),
        Asked::Check {
            follow,
            quiet,
            json: false,
            why: false,
            file,
            ..
        } => check_file(rt, follow, told && !quiet, file),
        Asked::Check {
            follow,
            quiet,
            json,
            why,
            file,
            ..
        } => check_why_file(rt, follow, told && !quiet, json, why, file),
        Asked::Explain {
            follow,
            json,
            why,
            file,
            ..
        } => explain_file(rt, follow, json, why, file),
        Asked::Certify {
            delayed,
            json,
            why,
            trace,
            history,
        } => return certify_files(rt, logged_so(delayed), json, why, trace, history),
        Asked::Refute {
            json,
            why,
            trace,
            refutation,
        } => return refute_files(rt, json, why, trace, refutation),
        Asked::Observe {
            witness,
            refutation,
            steps,
            json,
            why,
            trace,
        } => observe_file(
            rt,
            ProofFiles {
                witness,
                refutation,
            },
            steps,
            json,
            why,
            trace,
        ),
        Asked::Tell {
            color,
            json,
            why,
            file,
        } => tell_file(
            rt,
            lines_paint(rt, color, json, terminals.output),
            why,
            file,
        ),
        Asked::Draw {
            from,
            to,
            blocks,
            area,
            trace,
            why,
            file,
        } => {
            let lanes = lanes_of(blocks, area);
            Ok(draw_file(rt, from, to, lanes, trace, why, file))
        }
        Asked::Page { why, file } => page_file(rt, page, why, file),
        Asked::Random {
            seed,
            lines,
            config,
            like,
        } => Ok(random_file(rt, seed, lines, config, like)),
        Asked::Shrink { why, script } => Ok(shrink_file(rt, why, script)),
        Asked::Race {
            race,
            crash,
            seed,
            seeds,
            bias,
            trace,
            quiet,
            json,
            why: _,
        } => {
            return match race_asked(&race, crash, seed, seeds, bias, trace, json) {
                Ok(asked) => race_as_asked(rt, &race, asked, trace, json, told && !quiet),
                Err(words) => ExitCode::from(end_fault(rt, words, 2, None)),
            };
        }
        Asked::Show(text) => match rt.print(text.as_str()) {
            Ok(()) => Ok(0),
            Err(_) => Err(Failure::from(RunFault::Output)),
        },
    };
    match outcome {
        Ok(status) => ExitCode::from(status),
        Err(failure) => ExitCode::from(end_failure(rt, failure)),
    }
}
