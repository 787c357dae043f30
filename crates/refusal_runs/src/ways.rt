//! The ways to make a run.

use crate::drivers::by_driver;
use crate::long::make_long;
use crate::many::run_many;
use crate::promises::keep_promise;
use crate::quiet::make_quiet;
use crate::runs::{by_a_pass, by_steps, wants};
use crate::script::{RefusalRun, run_of};
use crate::works::by_works;
use history::{Config, write_line};
use lock_testing::ROWS;
use std::alloc::Global;
use std::io::Write;
use std::process::ExitCode;
use std::rt::{Env, Files};
use std::sync::Wait;
use std::{env, io};
use step_core::{Answer, Core, Refused, Step};

/// What came of it.
#[derive(Drop)]
enum RunEnd {
    /// All is done; want of memory was told so often.
    Done(u64),
    /// All steps came back.
    NoMemory,
}

/// What the words ask for.
#[derive(Clone, Copy)]
struct AskedWay<'a> {
    way: &'a str,
    first: &'static str,
    lines: &'static str,
    place: usize,
    // It ends once what it needs is made.
    is_first: bool,
}

// Shows a run as a script.
fn show_script<R: Print>(rt: &R, asked: &AskedWay<'_>) -> Option<RunEnd> {
    let mut out = io::writer(rt);
    out.write_all(asked.first.as_bytes()).ok()?;
    out.write_all(b"\n").ok()?;
    for line in asked.lines.split(" / ") {
        out.write_all(line.as_bytes()).ok()?;
        out.write_all(b"\n").ok()?;
    }
    Some(RunEnd::Done(0))
}

// Shows the lines of a controller's history.
fn show_history<R: Print>(rt: &R, core: &Core) -> Option<()> {
    let mut out = io::writer(rt);
    for entry in core.history().as_slice() {
        write_line(entry, &mut out).ok()?;
        out.write_all(b"\n").ok()?;
    }
    Some(())
}

// The controller after a run whose steps are asked for again, or after the calls or the claims of a driver.
fn core_of<R: Wait>(
    rt: &R,
    alloc: Global,
    way: &str,
    run: RefusalRun,
    told: &mut u64,
) -> Option<Core> {
    match way {
        "steps" => by_steps(alloc, run, told),
        "attempts" => by_a_pass(alloc, run, told),
        "works" => by_works(rt, alloc, run, told),
        "calls" => by_driver(rt, alloc, false, told),
        "slots" => by_driver(rt, alloc, true, told),
        _ => None,
    }
}

// One run, which isn't shown.
fn makes<R: AllocGlobal + Wait>(rt: &R, asked: &AskedWay<'_>, told: &mut u64) -> Option<()> {
    let run = run_of(rt.alloc(), asked.first, asked.lines)?;
    core_of(rt, rt.alloc(), asked.way, run, told)?;
    Some(())
}

// So many.
fn makes_all<R: AllocGlobal + Wait>(rt: &R, asked: &AskedWay<'_>, told: &mut u64) -> Option<()> {
    for _ in 0..asked.place {
        makes(rt, asked, told)?;
    }
    Some(())
}

// One that is shown.
fn shows<R: Print + AllocGlobal + Wait>(
    rt: &R,
    way: &str,
    run: RefusalRun,
    told: &mut u64,
) -> Option<()> {
    let core = core_of(rt, rt.alloc(), way, run, told)?;
    show_history(rt, &core)
}

// All steps, each asked for again, in the last of so many runs and one.
fn one_by_one<R: Print + AllocGlobal + Wait>(
    rt: &R,
    asked: &AskedWay<'_>,
    run: RefusalRun,
) -> Option<RunEnd> {
    let mut told = 0;
    if !asked.is_first {
        makes_all(rt, asked, &mut told)?;
        shows(rt, asked.way, run, &mut told)?;
    }
    Some(RunEnd::Done(told))
}

// Makes all steps in one call; how many come back, if they do.
fn run_all(
    core: &mut Core,
    steps: Vec<Step>,
    answers: &mut Vec<Result<Answer, Refused>>,
) -> Option<usize> {
    match core.run_steps(steps, answers) {
        Ok(()) => None,
        Err((back, _)) => Some(back.len()),
    }
}

// An answer for each step, or all come back and nothing has changed.
fn answered(alloc: Global, core: &mut Core, steps: Vec<Step>) -> Option<RunEnd> {
    let count = steps.len();
    let mut answers = Vec::new(alloc);
    match run_all(core, steps, &mut answers) {
        None => (answers.len() == count).then_some(RunEnd::Done(wants(answers.as_slice()))),
        Some(back) => {
            let is_same = back == count && answers.is_empty() && core.history().len() == 0;
            is_same.then_some(RunEnd::NoMemory)
        }
    }
}

// All steps in one call.
fn together(alloc: Global, config: Config, steps: Vec<Step>, is_first: bool) -> Option<RunEnd> {
    match Core::new(alloc, config) {
        Ok(_) if is_first => Some(RunEnd::Done(0)),
        Ok(mut core) => answered(alloc, &mut core, steps),
        Err(_) => None,
    }
}

// The same, in the last of so many runs and one.
fn all_together(alloc: Global, asked: &AskedWay<'_>, run: RefusalRun) -> Option<RunEnd> {
    for _ in 0..asked.place {
        let before = run_of(alloc, asked.first, asked.lines)?;
        together(alloc, before.config, before.steps, false)?;
    }
    together(alloc, run.config, run.steps, asked.is_first)
}

// The steps that room was made for.
fn promised(alloc: Global, run: RefusalRun, place: usize, is_first: bool) -> Option<RunEnd> {
    match Core::new(alloc, run.config) {
        Ok(mut core) => keep_promise(&mut core, run.steps, place, is_first).then_some(RunEnd::Done(
            0,
        )),
        Err(_) => None,
    }
}

fn done(done: Option<()>) -> Option<RunEnd> {
    done?;
    Some(RunEnd::Done(0))
}

// A way that makes steps of a row.
fn by_row<R: Print + AllocGlobal + Wait>(rt: &R, asked: &AskedWay<'_>) -> Option<RunEnd> {
    let run = run_of(rt.alloc(), asked.first, asked.lines)?;
    match asked.way {
        "together" => all_together(rt.alloc(), asked, run),
        "promised" => promised(rt.alloc(), run, asked.place, asked.is_first),
        _ => one_by_one(rt, asked, run),
    }
}

// A way.
fn make<R: Print + AllocGlobal + Wait>(rt: &R, asked: &AskedWay<'_>) -> Option<RunEnd> {
    let alloc = rt.alloc();
    match asked.way {
        "script" => show_script(rt, asked),
        "quiet" => done(make_quiet(rt, alloc, asked.is_first)),
        "publish" => done(make_long(alloc, asked.place, false, asked.is_first)),
        "write" => done(make_long(alloc, asked.place, true, asked.is_first)),
        _ => by_row(rt, asked),
    }
}

// Whether the word at this place is `first`.
fn is_first(words: &[String], place: usize) -> bool {
    match words.get(place) {
        Some(word) => word.as_str() == "first",
        None => false,
    }
}

// What the words ask for.
fn asked_of(words: &[String]) -> Option<AskedWay<'_>> {
    let row: usize = words.get(2)?.parse().ok()?;
    let (first, lines) = ROWS.get(row)?;
    Some(AskedWay {
        way: words.get(1)?.as_str(),
        first,
        lines,
        place: words.get(3)?.parse().ok()?,
        is_first: is_first(words, 4),
    })
}

// What came of what the words ask for.
fn end_of<R: Files + Print + AllocGlobal + Wait>(rt: &R, words: &[String]) -> Option<RunEnd> {
    if words.get(1)?.as_str() == "many" {
        let told = run_many(rt, words.get(2)?.as_str(), is_first(words, 3))?;
        return Some(RunEnd::Done(told));
    }
    make(rt, &asked_of(words)?)
}

/// Does what the words of the command line ask for, and says on standard error how often want of memory was told.
pub(crate) fn run_program<R: Env + Files + Print + Eprint + AllocGlobal + Wait>(
    rt: &R,
) -> ExitCode {
    let Ok(args) = env::args(rt) else {
        return ExitCode::from(1);
    };
    let Ok(words) = args.collect::<Vec<String>>(rt.alloc()) else {
        return ExitCode::from(1);
    };
    match end_of(rt, words.as_slice()) {
        Some(RunEnd::Done(told)) => {
            let _ = rt.eprintln(told);
            ExitCode::from(0)
        }
        Some(RunEnd::NoMemory) => ExitCode::from(4),
        None => ExitCode::from(1),
    }
}
