//! The threads of hosts.

ghost use Rattle.std.specs.List.{AllZip};
ghost use Rattle.std.specs.Prelude.{[], ◌+◌, ◌++◌, ◌≡◌, ◌≤◌, All, IfErr, IfOk, List, Ok, OnOk, map, reverse, vec_len};
ghost use Rattle.std.specs.Vec.{vec_capacity};
ghost use Rattle.shared_system.specs.Callers.{IsHostOf};
ghost use Rattle.hosts.specs.Returning.{AreParted, GaveBack};
ghost use Rattle.race_hosts.specs.Playing.{HasPlayed, HostPassesContinue, IsReturned, Promises};
ghost use Rattle.nvme_model.specs.Array.{IsRange};

use crate::owned::host_of;
use crate::pausing::stops;
use crate::rounds::host;
use history::Config;
use hosts::{Handles, Returned, join_each};
use many_host_laws::{what_a_hosts_pass_claimed, what_a_hosts_pass_did};
use nvme_model::array::Range;
use shared_system::{HostPasses, System};
use std::alloc::{AllocError as NoMemory, Global};
use std::snapshot::Snapshot;
use std::sync::Wait;
use std::thread;
use std::thread::{Promise, PromisedHandle, Scope, Threads};

/// What each host does.
#[derive(Clone, Copy)]
pub struct Play {
    /// The configuration of the controller.
    pub config: Config,
    /// The blocks that are slots.
    pub slots: Range,
    /// How many rounds each host makes.
    pub rounds: u32,
}

/// The passes come back; and at Ok a host was made with them, and went on by its calls alone, and began all its rounds.
#[derive(Drop)]
pub(crate) struct Played<G> {
    system: Snapshot<System<G>>,
    play: Snapshot<Play>,
    caller: Snapshot<HostPasses>,
}

impl<G> Promise<Returned<HostPasses>> for Played<G> {
    ghost kept_by = { λ p r. IsReturned p.system.value p.play.value p.caller.value r };
}

// Makes a host's driver, and plays its rounds.
// It is made on the host's own thread: a list of hosts that borrow the system can't be lent to a
// scope, a list of their passes can.
#[tactic(auto, using(crate::proofs::Playing::caller_back))]
fn plays<R: Wait, G>(
    rt: &R,
    alloc: Global,
    system: &System<G>,
    play: &Play,
    caller: HostPasses,
) -> Returned<HostPasses>
    requires caller { IsHostOf system.now play.now.config caller }
    requires slots { IsRange play.now.slots }
    ensures back { HostPassesContinue system.now caller result.0 }
    ensures played { OnOk result.1 (HasPlayed system.now play.now caller result.0) }
{
    match host_of(alloc, &play.config, system, caller, play.slots) {
        Ok(mut own) => {
            let end = host(rt, system, &mut own, play.rounds);
            what_a_hosts_pass_did(&own.driver);
            what_a_hosts_pass_claimed(&own.driver);
            (own.into_caller(), end)
        }
        Err(back) => (back, Err(stops(system))),
    }
}

// Starts a host with these passes. Where no thread can be had the stop flag is set, and the passes come back.
fn start_host<'s, E, R: Threads + Wait + Sync, G: Sync>(
    rt: &'s R,
    alloc: Global,
    scope: &Scope<'s, E>,
    system: &'s System<G>,
    play: &'s Play,
    caller: HostPasses,
) -> Result<PromisedHandle<Returned<HostPasses>, Played<G>>, HostPasses>
    requires caller { IsHostOf system.now play.now.config caller }
    requires slots { IsRange play.now.slots }
    ensures starts { IfOk result (λ h. Promises system.now play.now caller h.promise) }
    ensures back { IfErr result (HostPassesContinue system.now caller) }
{
    let promise = Played {
        system: Snapshot::of(system),
        play: Snapshot::of(play),
        caller: Snapshot::of(&caller),
    };
    let started = scope.spawn_with(
        promise,
        move || -> Returned<HostPasses>
            requires { IsHostOf system.now play.now.config caller × IsRange play.now.slots }
            ensures { IsReturned system.entry.now play.entry.now caller result }
        { plays(rt, alloc, system, play, caller) },
    );
    match started {
        Ok(child) => Ok(child),
        Err(refused) => {
            system.stop.set();
            let run = refused.value;
            let (caller, _) = run();
            Err(caller)
        }
    }
}

// Starts all hosts, the last first. At `Err` one couldn't be started: those before it run, and the passes of the others
// stay.
fn start_hosts<'s, E, R: Threads + Wait + Sync, G: Sync>(
    rt: &'s R,
    alloc: Global,
    scope: &Scope<'s, E>,
    system: &'s System<G>,
    play: &'s Play,
    callers: &mut Vec<HostPasses>,
    started: &mut Handles<HostPasses, Played<G>>,
) -> Result<(), NoMemory>
    requires callers { All (IsHostOf system.now play.now.config) callers.old.items }
    requires slots { IsRange play.now.slots }
    requires none { started.old.items ≡ [] }
    requires room { vec_len callers.old ≤ vec_capacity started.old }
    ensures parted { AreParted (HostPassesContinue system.now)
        (Promises system.now play.now) callers.old.items callers.new.items
        (map (λ h. h.promise) started.new.items) }
    ensures room { vec_len callers.new + vec_len started.new ≤ vec_capacity callers.new }
    ensures all { OnOk result (callers.new.items ≡ []) }
{
    for _ in 0..callers.len() {
        let caller = callers.pop().unwrap();
        match start_host(rt, alloc, scope, system, play, caller) {
            Ok(child) => started.push_reserved(child),
            Err(back) => {
                callers.push_reserved(back);
                return Err(NoMemory);
            }
        }
    }
    Ok(())
}

// Joins what was started, behind what came of starting it. Ok is answered only where all say so.
fn all_ended<R: Threads, P: Promise<Returned<HostPasses>>>(
    rt: &R,
    begun: Result<(), NoMemory>,
    started: Handles<HostPasses, P>,
    callers: &mut Vec<HostPasses>,
) -> Result<(), NoMemory>
    requires room { vec_len callers.old + vec_len started ≤ vec_capacity callers.old }
    ensures begun { OnOk result (begun ≡ Ok tt) }
    ensures back { (back : List HostPasses) × (callers.new.items ≡ callers.old.items ++ back)
        × AllZip (GaveBack P.kept_by result) (reverse (map (λ h. h.promise) started.items)) back }
{
    let ends = join_each(rt, started, callers);
    begun.and(ends)
}

// The threads of the hosts, in this scope.
fn in_scope<'s, E, R: Threads + Wait + Sync, G: Sync>(
    rt: &'s R,
    alloc: Global,
    scope: &Scope<'s, E>,
    system: &'s System<G>,
    play: &'s Play,
    mut callers: Vec<HostPasses>,
    mut started: Handles<HostPasses, Played<G>>,
) -> Returned<Vec<HostPasses>>
    requires own { All (IsHostOf system.now play.now.config) callers.items × IsRange play.now.slots }
    requires room { (started.items ≡ []) × (vec_len callers ≤ vec_capacity started) }
    ensures back { AllZip (HostPassesContinue system.now) callers.items result.0.items }
    ensures played { OnOk result.1 (AllZip (HasPlayed system.now play.now) callers.items result.0.items) }
{
    let begun = start_hosts(rt, alloc, scope, system, play, &mut callers, &mut started);
    let ends = all_ended(rt, begun, started, &mut callers);
    (callers, ends)
}

// What comes back where there is no room for the handles of threads.
fn without_threads<G>(
    system: &System<G>,
    _play: &Play,
    callers: Vec<HostPasses>,
) -> Returned<Vec<HostPasses>>
    requires callers { All (IsHostOf system.now _play.now.config) callers.items }
    ensures back { AllZip (HostPassesContinue system.now) callers.items result.0.items }
    ensures played { OnOk result.1 (AllZip (HasPlayed system.now _play.now) callers.items result.0.items) }
{
    (callers, Err(stops(system)))
}

/// The rounds of a host with each of these passes, each on a thread of its own. All threads are joined, and the passes
/// come back in the order in which they were given, however the rounds ended. Ok is answered only where each thread
/// says so, each of whose hosts then began all its rounds.
///
/// # Errors
///
/// `NoMemory` where a growth is refused, a thread couldn't be started, or a host couldn't begin a round, as where the
/// stop flag was set. It is set then.
pub fn run_hosts<R: Threads + Wait + Sync, G: Sync>(
    rt: &R,
    alloc: Global,
    system: &System<G>,
    play: &Play,
    callers: Vec<HostPasses>,
) -> Returned<Vec<HostPasses>>
    requires callers { All (IsHostOf system.now play.now.config) callers.items }
    requires slots { IsRange play.now.slots }
    ensures back { AllZip (HostPassesContinue system.now) callers.items result.0.items }
    ensures played { OnOk result.1 (AllZip (HasPlayed system.now play.now) callers.items result.0.items) }
{
    let Ok(started) = Vec::with_capacity(alloc, callers.len()) else {
        return without_threads(system, play, callers);
    };
    thread::scope(
        thread::scope_env(),
        rt,
        |scope| -> Returned<Vec<HostPasses>>
            requires own { All (IsHostOf system.now play.now.config) callers.items × IsRange play.now.slots }
            requires room { (started.items ≡ []) × (vec_len callers ≤ vec_capacity started) }
            ensures back { AllZip (HostPassesContinue system.entry.now) callers.items result.0.items }
            ensures played { OnOk result.1
                (AllZip (HasPlayed system.entry.now play.entry.now) callers.items result.0.items) }
        { in_scope(rt, alloc, scope, system, play, callers, started) },
    )
}
