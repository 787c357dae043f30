//! The steps of a worked run.

use history::Config;
use lock_testing::config_of;
use std::alloc::Global;
use step_core::Step;

/// The steps of a run.
#[derive(Drop)]
pub(crate) struct RefusalRun {
    pub config: Config,
    pub steps: Vec<Step>,
}

/// The run of a configuration line and lines that are parted by ` / `.
pub(crate) fn run_of(alloc: Global, first: &str, lines: &str) -> Option<RefusalRun> {
    let config = config_of(alloc, first)?;
    let lock_testing::ScriptRun { steps, .. } = lock_testing::run_of(alloc, config, lines)?;
    Some(RefusalRun { config, steps })
}
