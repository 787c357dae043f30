//! Has the loops of fetchers and workers, for programs that serve a shared controller on several threads. A program's
//! hosts run beside them; those of races are in `race_hosts`.
#![tactic(auto)]

mod attempting;
mod crew;
mod fetching;
mod gate;
mod joining;
mod starting;
mod telling;
mod working;

pub use crew::{Crew, run_crew};
pub use fetching::{FetchStage, fetch_turn, fetcher};
pub use gate::{Gate, OpenGate, Point};
pub use joining::{Handles, Returned, join_each};
pub use working::{WorkStage, work_turn, worker};
