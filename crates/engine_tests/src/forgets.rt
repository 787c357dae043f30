//! A controller that forgets under its lock: the next steps are answered as without, and a look tells how many entries
//! are forgotten.

ghost use Rattle.std.specs.Prelude.{◌≡◌, IfOk, length};
ghost use Rattle.meet_lock.specs.Passes.{IsPassOfLock, IsSame};
ghost use Rattle.work_queue.specs.Engines.{IsPassOfEngine};

use crate::passes::{attempted, shared_of, unlocked};
use history::Config;
use lock_testing::{CONFIG, config_of, flush, items_of};
use meet_lock::{Glance, Pass, Shared};
use std::alloc::Global;
use std::test::Fail;
use step_core::{Core, Step, Submissions};
use work_queue::Engine;

/// How long the history is, and how many entries of it are forgotten.
#[derive(Drop)]
struct Lengths;

impl Glance<Core> for Lengths {
    type Told = (usize, usize);

    ghost tells = { λ lengths core told. (told.0 ≡ length core.past) × (told.1 ≡ core.forgotten) };

    fn look(self, core: &Core) -> (usize, usize) {
        let history = core.history();
        (history.len(), history.forgotten())
    }
}

/// What a look is told behind a Publish of a Flush, and where nothing is forgotten then, and where all is.
fn looked_between(
    alloc: Global,
    shared: &Shared<Core>,
    pass: &mut Pass<Core>,
) -> Result<[Option<(usize, usize)>; 3], Fail>
    requires { IsPassOfLock shared.now pass.old }
    ensures { IfOk result (λ _. IsSame pass.old pass.new) }
{
    let batch = Submissions::new(items_of(alloc, flush(1, 7))?);
    if attempted(shared, pass, Step::Publish(1, batch)) != 0 {
        return Err(Fail::from("refused"));
    }
    let first = shared.glance(pass, Lengths).ok();
    let none = shared.forget(pass, 0).is_ok();
    let second = shared.glance(pass, Lengths).ok();
    let all = shared.forget(pass, usize::MAX).is_ok();
    let third = shared.glance(pass, Lengths).ok();
    if none && all {
        return Ok([first, second, third]);
    }
    Err(Fail::from("busy"))
}

/// The Publish and its Fetch, where all is forgotten in between: the controller, what was looked at, and how the Fetch
/// was answered.
fn forgets_between(alloc: Global) -> Result<(Core, [Option<(usize, usize)>; 3], u8), Fail> {
    let config = config_of(alloc, CONFIG).ok_or("no configuration")?;
    let (shared, mut passes) = shared_of(alloc, config, 1)?;
    let mut pass = passes.pop().ok_or("a pass")?;
    let looked = looked_between(alloc, &shared, &mut pass)?;
    let fetched = attempted(&shared, &mut pass, Step::Fetch(1));
    let core = unlocked(shared, pass)?;
    Ok((core, looked, fetched))
}

#[test]
fn a_controller_forgets_under_its_lock(rt: HostRuntime) -> Result<(), Fail> {
    let (core, looked, fetched) = forgets_between(rt.alloc())?;
    assert_eq!(rt; looked, [Some((1, 0)), Some((1, 0)), Some((1, 1))]);
    assert_eq!(rt; fetched, 0);
    let history = core.history();
    assert_eq!(rt;
        (history.len(), history.forgotten(), history.as_slice().len()),
        (2, 1, 1)
    );
    Ok(())
}

/// What a look is told behind a Publish of a Flush, and where the first entry is forgotten then.
fn engine_looks(
    alloc: Global,
    engine: &Engine,
    pass: &mut Pass<Core>,
) -> Result<[Option<(usize, usize)>; 2], Fail>
    requires { IsPassOfEngine engine.now pass.old }
{
    let batch = Submissions::new(items_of(alloc, flush(1, 7))?);
    if engine.publish(pass, 1, batch).is_err() {
        return Err(Fail::from("refused"));
    }
    let before = engine.glance(pass, Lengths).ok();
    if engine.forget(pass, 1).is_err() {
        return Err(Fail::from("busy"));
    }
    Ok([before, engine.glance(pass, Lengths).ok()])
}

/// The same of a new engine.
fn engine_forgets(alloc: Global, config: Config) -> Result<[Option<(usize, usize)>; 2], Fail> {
    let (engine, mut passes) = Engine::of_config(alloc, config, 1)?;
    let mut pass = passes.pop().ok_or("a pass")?;
    engine_looks(alloc, &engine, &mut pass)
}

#[test]
fn an_engine_forgets(rt: HostRuntime) -> Result<(), Fail> {
    let config = config_of(rt.alloc(), CONFIG).ok_or("no configuration")?;
    let looked = engine_forgets(rt.alloc(), config)?;
    assert_eq!(rt; looked, [Some((1, 0)), Some((1, 1))]);
    Ok(())
}
