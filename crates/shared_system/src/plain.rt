//! A controller with one queue of works and one of notices, set up for tests and for programs whose callers are alike:
//! each owns a pass of each kind.

ghost use Rattle.std.specs.Prelude.{◌≡◌, ◌<◌, ◌+◌, [], IfOk, IfSome, vec_len, ℕ};
ghost use Rattle.meet_lock.specs.Passes.{number, passes_of, seen};
ghost use Rattle.shared_system.specs.Plain.{AreNumbered, ArePlainCallers, IsPlainCallerOf};

use history::Config;
use meet_lock::Pass;
use std::alloc::{AllocError as NoMemory, Global};
use step_core::Core;
use work_queue::{Engine, MessageQueue, Notice, NoticeQueue, QueuePass, Work, WorkQueue};

/// Borrowed by each caller.
#[derive(Drop)]
pub struct PlainSystem {
    pub engine: Engine,
    pub works: WorkQueue,
    /// For the completions of all hosts: on one thread a host hears all that are there before another is served.
    pub notices: NoticeQueue,
    pub config: Config,
}

/// Owned by one caller. It has no bytes.
#[derive(Drop)]
pub struct PlainCaller {
    pub pass: Pass<Core>,
    pub works: QueuePass<Work>,
    pub notices: QueuePass<Notice>,
}

/// Passes that no caller has yet.
#[derive(Drop)]
pub struct PlainCallers {
    pub passes: Vec<Pass<Core>>,
    pub works: Vec<QueuePass<Work>>,
    pub notices: Vec<QueuePass<Notice>>,
}

/// The last of these callers; None where there is none.
pub fn take_caller(_system: &PlainSystem, callers: &mut PlainCallers) -> Option<PlainCaller>
    requires { ArePlainCallers _system.now callers.old }
    ensures rest { ArePlainCallers _system.now callers.new }
    ensures caller { IfSome result (IsPlainCallerOf _system.now) }
    ensures fresh { IfSome result (λ h. seen h.pass ≡ []) }
    ensures count { IfSome result (λ _. vec_len callers.new.passes + 1 ≡ vec_len callers.old.passes) }
    ensures numbered { (n : ℕ) → AreNumbered n callers.old → AreNumbered n callers.new × IfSome result (λ h.
        (number h.pass ≡ vec_len callers.old.passes) × (passes_of h.pass ≡ n)) }
{
    let pass = callers.passes.pop()?;
    let works = callers.works.pop()?;
    let notices = callers.notices.pop()?;
    Some(PlainCaller {
        pass,
        works,
        notices,
    })
}

/// A system of a new controller, with so many callers. Each of its queues holds `capacity` messages.
///
/// # Errors
///
/// `NoMemory` where a growth is refused.
pub fn plain_system_of(
    alloc: Global,
    config: Config,
    capacity: usize,
    count: usize,
) -> Result<(PlainSystem, PlainCallers), NoMemory>
    requires { (0 < capacity) × (0 < count) }
    ensures callers { IfOk result (λ h. ArePlainCallers h.0 h.1) }
    ensures config { IfOk result (λ h. h.0.config ≡ config) }
    ensures count { IfOk result (λ h. vec_len h.1.passes ≡ count) }
    ensures numbered { IfOk result (λ h. AreNumbered count h.1) }
{
    let (engine, passes) = Engine::of_config(alloc, config, count)?;
    let (works, work_places) = MessageQueue::<Work>::new(alloc, &engine, capacity, count)?;
    let (notices, notice_places) = MessageQueue::<Notice>::new(alloc, &engine, capacity, count)?;
    let system = PlainSystem {
        engine,
        works,
        notices,
        config,
    };
    let callers = PlainCallers {
        passes,
        works: work_places,
        notices: notice_places,
    };
    Ok((system, callers))
}
