//! Runs a race of hosts for slots and prints its history, for the program: on threads, by a seed, or with hosts that
//! die.
#![tactic(auto)]

mod closing;
mod crash_closing;
mod crash_fault;
mod crash_racing;
mod crash_run;
mod drawing;
mod fate;
mod fault;
mod fencing;
mod judging;
mod parties;
mod pausing;
mod play;
mod racers;
mod racing;
mod run;
mod scene;
mod seeded_racing;
mod seeded_run;
mod servers;
mod survivor;
mod sweeping;
mod swept;
mod text_laws;
mod turns;

pub use crate::closing::{closed, room_for};
pub use crate::crash_fault::CrashFault;
pub use crate::crash_run::run_crash_race;
pub use crate::drawing::{Actor, next_actor};
pub use crate::fault::RaceFault;
pub use crate::play::play_of;
pub use crate::racers::{Racer, Racers};
pub use crate::run::{run_race, tell_race};
pub use crate::scene::Scene;
pub use crate::seeded_racing::{all_racers, turn_of};
pub use crate::seeded_run::run_seeded_race;
pub use crate::servers::Servers;
pub use crate::text_laws::{a_history_is_read_back, what_a_race_wrote_is_legal};
pub use crate::turns::{fetcher_turn, worker_turn};
pub use history::{PrintFault, print_history};
