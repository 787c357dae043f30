//! The steps of a worked run by passes of one lock: by one pass, and by two and three in turn that meet.

ghost use Rattle.std.specs.Prelude.{◌≡◌, ◌<◌, ◌+◌, All, IfOk, IfSome, Some, ℕ, slice_get, vec_len};
ghost use Rattle.meet_lock.specs.Passes.{IsPassOfLock, IsSame, number, passes_of};
ghost use Rattle.work_queue.specs.Engines.{EnginePass};
ghost use Rattle.engine_tests.specs.Threes.{AreThree};

use history::Config;
use lock_testing::{number, text};
use meet_lock::{Declined, Pass, Shared};
use std::alloc::{AllocError as NoMemory, Global};
use std::test::Fail;
use step_core::{Core, Step};

/// The number of a lock that another caller had.
pub(crate) const BUSY: u8 = 12;

/// The passes of one lock, the last that was given out first.
type Three = (Pass<Core>, Pass<Core>, Pass<Core>);

/// A new controller behind a lock, with so many passes.
pub(crate) fn shared_of(
    alloc: Global,
    config: Config,
    passes: usize,
) -> Result<(Shared<Core>, Vec<Pass<Core>>), NoMemory>
    requires { 0 < passes }
    ensures own { IfOk result (λ s. All (IsPassOfLock s.0) s.1.items) }
    ensures count { IfOk result (λ s. vec_len s.1 ≡ passes) }
    ensures each { IfOk result (λ s. (k : ℕ) (p : EnginePass) → slice_get s.1.items k ≡ Some p
        → IsPassOfLock s.0 p × (number p ≡ k + 1) × (passes_of p ≡ passes)) }
{
    match Shared::new(alloc, Core::new(alloc, config)?, passes) {
        Ok(made) => Ok(made),
        Err(_) => Err(NoMemory),
    }
}

/// The controller, once nobody has the lock.
pub(crate) fn unlocked(shared: Shared<Core>, pass: Pass<Core>) -> Result<Core, Fail>
    requires { IsPassOfLock shared pass }
{
    match shared.close(pass) {
        Some(core) => Ok(core),
        None => Err(Fail::from("the lock isn't free")),
    }
}

/// The controller, closed with all passes, once nobody has the lock.
fn unlocked_by_all(alloc: Global, shared: Shared<Core>, passes: Three) -> Result<Core, Fail>
    requires { AreThree shared passes }
{
    let (last, middle, first) = passes;
    match shared.close_all(vec![in alloc; first, middle, last]?) {
        Some(core) => Ok(core),
        None => Err(Fail::from("the lock isn't free")),
    }
}

/// These three.
fn three_of(_shared: &Shared<Core>, passes: &mut Vec<Pass<Core>>) -> Option<Three>
    requires count { vec_len passes.old ≡ 3 }
    requires each { (k : ℕ) (p : EnginePass) → slice_get passes.old.items k ≡ Some p
        → IsPassOfLock _shared.now p × (number p ≡ k + 1) × (passes_of p ≡ 3) }
    ensures { IfSome result (AreThree _shared.now) }
{
    let one = passes.pop()?;
    let two = passes.pop()?;
    let three = passes.pop()?;
    Some((one, two, three))
}

/// A new controller behind a lock, with three passes.
fn locked(alloc: Global, config: Config) -> Result<(Shared<Core>, Three), Fail>
    ensures { IfOk result (λ s. AreThree s.0 s.1) }
{
    let (shared, mut passes) = shared_of(alloc, config, 3)?;
    match three_of(&shared, &mut passes) {
        Some(three) => Ok((shared, three)),
        None => Err(Fail::from("three passes")),
    }
}

/// How the step by a pass was answered: 0 or the number of its refusal.
pub(crate) fn attempted(shared: &Shared<Core>, pass: &mut Pass<Core>, step: Step) -> u8
    requires { IsPassOfLock shared.now pass.old }
    ensures { IsSame pass.old pass.new }
{
    match shared.attempt(pass, step) {
        Ok(_) => 0,
        Err(Declined::Refused(refused)) => number(refused),
        Err(Declined::Busy(_)) => BUSY,
    }
}

/// A step by a pass, which then meets another.
fn take_turn(shared: &Shared<Core>, pass: &mut Pass<Core>, other: &mut Pass<Core>, step: Step) -> u8
    requires { IsPassOfLock shared.now pass.old × IsPassOfLock shared.now other.old }
    ensures { IsSame pass.old pass.new × IsSame other.old other.new }
{
    let answer = attempted(shared, pass, step);
    if shared.meet(pass, other).is_err() {
        return BUSY;
    }
    answer
}

/// A step by the pass whose turn it is. One alone makes all; of two the second makes the second step before it meets
/// the first; of three each meets the next after its step.
fn step_by(shared: &Shared<Core>, passes: &mut Three, count: u8, turn: u8, step: Step) -> u8
    requires { AreThree shared.now passes.old }
    ensures { AreThree shared.now passes.new }
{
    let (one, two, three) = passes;
    match (count, turn) {
        (1, _) | (2, 1 | 3 | 6) => attempted(shared, one, step),
        (2, 2 | 5) => take_turn(shared, two, one, step),
        (2, _) => attempted(shared, two, step),
        _ => match turn % 3 {
            1 => take_turn(shared, one, two, step),
            2 => take_turn(shared, two, three, step),
            _ => take_turn(shared, three, one, step),
        },
    }
}

/// The steps by so many of these passes, and how each was answered.
fn run_by(
    alloc: Global,
    shared: &Shared<Core>,
    passes: &mut Three,
    steps: Vec<Step>,
    count: u8,
) -> Result<Vec<Option<u8>>, NoMemory>
    requires { AreThree shared.now passes.old }
    ensures { AreThree shared.now passes.new }
{
    let mut answers = Vec::new(alloc);
    let mut turn = 0u8;
    for step in steps {
        turn = turn.wrapping_add(1);
        answers.push(Some(step_by(shared, passes, count, turn, step)))?;
    }
    Ok(answers)
}

/// The controller, closed with all passes where two made the steps, and else with one.
fn ended(alloc: Global, shared: Shared<Core>, passes: Three, count: u8) -> Result<Core, Fail>
    requires { AreThree shared passes }
{
    if count == 2 {
        return unlocked_by_all(alloc, shared, passes);
    }
    unlocked(shared, passes.0)
}

/// The lines of a controller's history.
pub(crate) fn lines_in(alloc: Global, core: Core) -> Result<Vec<u8>, NoMemory> {
    text(alloc, core.history().as_slice())
}

/// How each of the steps by so many passes was answered, and the lines of the history.
pub(crate) fn made_by_passes(
    alloc: Global,
    config: Config,
    steps: Vec<Step>,
    count: u8,
) -> Result<(Vec<Option<u8>>, Vec<u8>), Fail> {
    let (shared, mut passes) = locked(alloc, config)?;
    let answers = run_by(alloc, &shared, &mut passes, steps, count);
    let core = ended(alloc, shared, passes, count)?;
    Ok((answers?, lines_in(alloc, core)?))
}
