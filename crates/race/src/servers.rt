//! The fetcher and the workers of a race, from one turn to the next.

ghost use Rattle.std.specs.Prelude.{◌<◌};
ghost use Rattle.race.specs.Racers.{AreServers};

use crate::scene::Scene;
use crate::turns::{fetcher_turn, worker_turn};
use hosts::{FetchStage, WorkStage};
use shared_system::{CallerPasses, WorkerPasses};
use std::alloc::AllocError as NoMemory;
use std::sync::Wait;

/// The callers that serve, each with what it has in hand.
#[derive(Drop)]
pub struct Servers {
    pub fetcher: CallerPasses,
    pub fetching: FetchStage,
    pub workers: Vec<WorkerPasses>,
    /// In the order of the workers.
    pub working: Vec<WorkStage>,
}

/// One turn of the fetcher.
///
/// # Errors
///
/// `NoMemory` where a growth is refused.
pub(crate) fn fetches<R: Wait>(
    rt: &R,
    scene: &Scene<'_>,
    servers: &mut Servers,
) -> Result<(), NoMemory>
    requires { AreServers scene.now servers.old }
    ensures { AreServers scene.now servers.new }
{
    fetcher_turn(
        rt,
        scene.system,
        scene.play,
        scene.servers(),
        scene.queues,
        &mut servers.fetcher,
        &mut servers.fetching,
    )
}

/// One turn of the worker at this place.
///
/// # Errors
///
/// `NoMemory` where a growth is refused.
pub(crate) fn works<R: Wait>(
    rt: &R,
    scene: &Scene<'_>,
    servers: &mut Servers,
    place: usize,
) -> Result<(), NoMemory>
    requires servers { AreServers scene.now servers.old }
    requires place { place < scene.now.race.now.workers }
    ensures { AreServers scene.now servers.new }
{
    let top = usize::from(scene.race.workers);
    worker_turn(
        rt,
        scene.system,
        scene.play,
        top,
        &mut servers.workers,
        &mut servers.working,
        place,
    )
}

// Whether the fetcher has no Work, and no worker has.
fn is_idle(servers: &Servers) -> bool {
    let mut idle = match &servers.fetching {
        FetchStage::Asks(_) => true,
        FetchStage::Pushes(_, _) => false,
    };
    for stage in &servers.working {
        let is_idle = match stage {
            WorkStage::Idle => true,
            WorkStage::Works(_) | WorkStage::Tells(_, _) => false,
        };
        idle = idle && is_idle;
    }
    idle
}

/// The fetcher asks each submission queue; whether nobody had a Work then.
///
/// # Errors
///
/// `NoMemory` where a growth is refused.
pub(crate) fn asks_each<R: Wait>(
    rt: &R,
    scene: &Scene<'_>,
    servers: &mut Servers,
) -> Result<bool, NoMemory>
    requires { AreServers scene.now servers.old }
    ensures { AreServers scene.now servers.new }
{
    let mut idle = is_idle(servers);
    for _ in 0..scene.queues {
        fetches(rt, scene, servers)?;
        idle = idle && is_idle(servers);
    }
    Ok(idle)
}

/// Each worker makes a turn; whether nobody had a Work then.
///
/// # Errors
///
/// `NoMemory` where a growth is refused.
pub(crate) fn works_each<R: Wait>(
    rt: &R,
    scene: &Scene<'_>,
    servers: &mut Servers,
) -> Result<bool, NoMemory>
    requires { AreServers scene.now servers.old }
    ensures { AreServers scene.now servers.new }
{
    let mut idle = true;
    for k in 0..scene.race.workers {
        works(rt, scene, servers, usize::from(k))?;
        idle = idle && is_idle(servers);
    }
    Ok(idle)
}
