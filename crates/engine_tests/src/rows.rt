//! Worked runs by passes of a lock and by an engine's crew, answer for answer and line for line as by a controller of
//! one caller.

ghost use Rattle.lock_testing.specs.Callers.{IsCrewOf};
ghost use Rattle.shared_system.specs.Plain.{IsPlainCallerOf};

use crate::crew::make_all;
use crate::passes::{lines_in, made_by_passes};
use history::Config;
use lock_testing::{
    CONFIG, LARGE, LARGE_PAIR, ROWS, ScriptRun, ThreeCallers, closed, config_of, crewed, run_of,
};
use shared_system::{PlainCaller, PlainSystem};
use std::alloc::Global;
use std::process::Abort;
use std::sync::Wait;
use std::test::Fail;
use step_core::Step;

/// Who makes a run: so many passes, or at 0 the crew; and whether there is one completion queue, whatever the row says.
const WAYS: [(u8, bool); 5] = [(1, false), (2, false), (3, false), (0, false), (0, true)];

/// Runs that are refused: the configuration, the script and how each step is answered. Tasks that their tickets don't
/// allow are answered 5 or 7.
const REFUSED: [(&str, &str, &[u8]); 7] = [
    // What was reaped is there no more.
    (
        CONFIG,
        "publish 1 write 0 1 3 0 A1 / fetch 1 / grant 1 / block 1 / post 1 / reap 1 / reap 1",
        &[0, 0, 0, 0, 0, 0, 9],
    ),
    // There is no such queue, no entry and no completion.
    (
        CONFIG,
        "fetch 3 / reap 3 / publish 3 flush 0 1 0 0 - / fetch 1 / reap 1",
        &[1, 1, 1, 3, 9],
    ),
    // Three entries fill the queue.
    (
        CONFIG,
        "publish 1 flush 0 1 0 0 - + flush 0 2 0 0 - + flush 0 3 0 0 - / publish 1 flush 0 4 0 0 - / fetch 1 / publish 1 flush 0 4 0 0 -",
        &[0, 2, 0, 0],
    ),
    // One ticket may be in flight.
    (
        "config 8 1 1 0 0 2 4 4 1",
        "publish 1 flush 0 1 0 0 - + flush 0 2 0 0 - / fetch 1 / fetch 1 / post 1 / fetch 1 / post 2 / reap 1 / reap 1",
        &[0, 0, 4, 0, 0, 0, 0, 0],
    ),
    // The block is held until the first Write's unit ends.
    (
        CONFIG,
        "publish 1 write 0 1 3 0 A1 + write 0 2 3 0 B2 / fetch 1 / fetch 1 / grant 1 / grant 2 / block 1 / grant 2",
        &[0, 0, 0, 0, 6, 0, 0],
    ),
    // The completion queue has one place.
    (
        "config 8 1 1 0 0 2 4 2 8",
        "publish 1 flush 0 1 0 0 - + flush 0 2 0 0 - / fetch 1 / fetch 1 / post 1 / post 2 / reap 1 / post 2 / reap 1 / reap 1",
        &[0, 0, 0, 0, 8, 0, 0, 0, 9],
    ),
    // A Flush has no unit, one completion, and is no ticket before its Fetch.
    (
        CONFIG,
        "publish 1 flush 0 1 0 0 - / post 1 / fetch 1 / grant 1 / block 1 / post 1 / post 1 / reap 1 / grant 9",
        &[0, 5, 0, 7, 7, 0, 5, 0, 5],
    ),
];

/// That each step was answered so; how many weren't asked for, as the ticket's own entries forbid them.
fn agrees<R: Abort>(rt: &R, made: &[Option<u8>], answers: &[u8]) -> usize {
    assert_eq!(rt; made.len(), answers.len());
    let mut skipped = 0usize;
    for (got, wanted) in made.iter().zip(answers) {
        match got {
            Some(number) => assert_eq!(rt; *number, *wanted),
            None => {
                assert!(rt; matches!(*wanted, 5 | 7));
                skipped = skipped.saturating_add(1);
            }
        }
    }
    skipped
}

/// How many Posts are accepted.
fn posts_of(steps: &[Step], answers: &[u8]) -> u64 {
    let mut posts = 0u64;
    for (step, answer) in steps.iter().zip(answers) {
        if matches!(step, Step::Post(_)) && *answer == 0 {
            posts = posts.saturating_add(1);
        }
    }
    posts
}

/// The configuration that a line spells, with one completion queue where `is_single`.
fn config_for(alloc: Global, line: &str, is_single: bool) -> Option<Config> {
    let config = config_of(alloc, line)?;
    if !is_single {
        return Some(config);
    }
    let mut numbers = config.numbers();
    numbers.cqs = 1;
    Config::from_numbers(&numbers).ok()
}

/// How each step of a run was answered, None where it wasn't asked for, and the lines of the history.
type RunMade = (Vec<Option<u8>>, Vec<u8>);

/// The host.
fn host_of(_system: &PlainSystem, crew: ThreeCallers) -> PlainCaller
    requires { IsCrewOf _system.now crew }
    ensures { IsPlainCallerOf _system.now result }
{
    crew.host
}

/// The steps made by a crew on one thread, and how many notices were learnt.
fn made_by_crew<R: Wait>(
    rt: &R,
    alloc: Global,
    config: Config,
    steps: Vec<Step>,
) -> Result<(RunMade, u64), Fail> {
    let (system, mut crew) = crewed(alloc, config, 16).ok_or("three callers")?;
    let answers = make_all(rt, alloc, &system, &mut crew, steps)?;
    let learnt = crew.learnt;
    let host = host_of(&system, crew);
    let core = closed(system, host).ok_or("the lock isn't free")?;
    Ok(((answers, lines_in(alloc, core)?), learnt))
}

/// The steps made by so many passes, which get no notices, or by the crew.
fn made_by<R: Wait>(
    rt: &R,
    alloc: Global,
    config: Config,
    steps: Vec<Step>,
    passes: u8,
) -> Result<(RunMade, u64), Fail> {
    if passes == 0 {
        return made_by_crew(rt, alloc, config, steps);
    }
    Ok((made_by_passes(alloc, config, steps, passes)?, 0))
}

/// That the run of the controller of one caller is made, and the crew's host learns of each Post where one completion
/// queue is there. How its steps were answered, and how many weren't asked for.
fn check<R: Abort + Wait>(
    rt: &R,
    alloc: Global,
    config: Config,
    script: &str,
    passes: u8,
) -> Result<(Vec<u8>, usize), Fail> {
    let ScriptRun {
        steps,
        answers,
        lines,
    } = run_of(alloc, config, script).ok_or("memory")?;
    let posts = posts_of(steps.as_slice(), answers.as_slice());
    let ((made, written), learnt) = made_by(rt, alloc, config, steps, passes)?;
    let skipped = agrees(rt, made.as_slice(), answers.as_slice());
    let is_told = passes == 0 && config.numbers().cqs == 1;
    assert_eq!(rt; learnt, if is_told { posts } else { 0 });
    assert!(rt; written.as_slice() == lines.as_slice());
    Ok((answers, skipped))
}

/// That a run is made in each way. No step of it is one that a ticket's own entries forbid, so each is asked for.
fn check_ways<R: Abort + Wait>(
    rt: &R,
    alloc: Global,
    line: &str,
    script: &str,
) -> Result<(), Fail> {
    for (passes, is_single) in WAYS {
        let config = config_for(alloc, line, is_single).ok_or("no configuration")?;
        let (_, skipped) = check(rt, alloc, config, script, passes)?;
        assert_eq!(rt; skipped, 0, "{script}");
    }
    Ok(())
}

/// A Write of 256 blocks from this block on.
fn long_write(alloc: Global, slba: u32) -> Result<String, Fail> {
    let mut script = format!(in alloc; "publish 1 write 0 1 {slba} 255 A1")?;
    for _ in 1..256 {
        script.push_str(".A1")?;
    }
    script.push_str(" / fetch 1 / settle / reap 1")?;
    Ok(script)
}

fn check_rows<R: Abort + Wait>(rt: &R, alloc: Global, rows: &[(&str, &str)]) -> Result<(), Fail> {
    for (line, script) in rows {
        check_ways(rt, alloc, line, script)?;
    }
    Ok(())
}

#[test]
fn passes_and_works_make_the_rows(rt: HostRuntime) -> Result<(), Fail> {
    check_rows(&rt, rt.alloc(), &ROWS)
}

// A pair doesn't fit a queue of two slots. The last 256 blocks of the largest volume are one unit; one block further
// none is written.
#[test]
fn they_make_the_rows_of_the_largest_volume(rt: HostRuntime) -> Result<(), Fail> {
    check_ways(&rt, rt.alloc(), LARGE, LARGE_PAIR)?;
    for slba in [65280, 65281] {
        let script = long_write(rt.alloc(), slba)?;
        check_ways(&rt, rt.alloc(), LARGE, script.as_str())?;
    }
    Ok(())
}

/// That the steps are answered so; how many weren't asked for.
fn check_answers<R: Abort + Wait>(
    rt: &R,
    alloc: Global,
    (line, script, wanted): (&str, &str, &[u8]),
    passes: u8,
) -> Result<usize, Fail> {
    let config = config_for(alloc, line, true).ok_or("no configuration")?;
    let (answers, skipped) = check(rt, alloc, config, script, passes)?;
    assert_eq!(rt; answers.as_slice(), wanted, "{script}");
    Ok(skipped)
}

#[test]
fn refusals_keep_their_numbers(rt: HostRuntime) -> Result<(), Fail> {
    for row in REFUSED {
        let forbidden = row.2.iter().filter(|why| matches!(**why, 5 | 7)).count();
        assert_eq!(rt; check_answers(&rt, rt.alloc(), row, 0)?, forbidden);
        assert_eq!(rt; check_answers(&rt, rt.alloc(), row, 2)?, 0);
    }
    Ok(())
}
