//! What the threads share, and what each owns.

use crate::stop::Stop;
use meet_lock::Pass;
use step_core::Core;
use work_queue::{Engine, Notice, NoticeQueue, QueuePass, Work, WorkQueue};

/// Borrowed by each thread.
#[derive(Drop)]
pub struct System<G> {
    pub engine: Engine,
    /// From the fetcher to the workers.
    pub works: WorkQueue,
    /// From the workers to the host of each completion queue, in the order of these.
    pub notices: Vec<NoticeQueue>,
    /// Set where all loops are to end.
    pub stop: Stop,
    pub gate: G,
}

/// What a fetcher owns, and a worker. It has no bytes.
#[derive(Drop)]
pub struct CallerPasses {
    pub pass: Pass<Core>,
    pub works: QueuePass<Work>,
}

/// What a worker owns.
#[derive(Drop)]
pub struct WorkerPasses {
    pub caller: CallerPasses,
    /// Of the queues of notices, in their order.
    pub notices: Vec<QueuePass<Notice>>,
}

/// What the host of a completion queue owns.
#[derive(Drop)]
pub struct HostPasses {
    pub pass: Pass<Core>,
    /// The completion queue, from 1.
    pub queue: u16,
    /// Of its queue of notices.
    pub notices: QueuePass<Notice>,
}

/// What all callers of a system own.
#[derive(Drop)]
pub struct Callers {
    pub fetcher: CallerPasses,
    pub workers: Vec<WorkerPasses>,
    /// One for each completion queue.
    pub hosts: Vec<HostPasses>,
}
