//! A program for `bench/peer/refusals`: it makes a worked run whose allocations may be refused from outside, and shows
//! its history.
//!
//! refusal_runs WAY ROW PLACE: WAY is `script` (shows the run as a script), `steps` (by a controller), `attempts` (by
//! the one pass of a lock), `works` (by an engine and its queues), `together` (in one call) or `promised` (PLACE steps,
//! room for the Grants, Blocks and Reaps behind them, and those). Whatever the row: `calls` and `slots` (by a driver),
//! `quiet` (calls that take no memory), `publish` and `write` (of PLACE blocks). Where steps are asked for again the
//! run is made PLACE times before. With `first` behind it ends once what it needs is made, so that allocations up to
//! there can be counted; another word in its place changes nothing. It ends with 0, with 4 where all steps came back
//! for want of memory, and else with 1.
//!
//! refusal_runs many FILE: the scripts of a file, which an empty line parts, and whether each history is legal.
#![tactic(auto)]

mod calls;
mod drivers;
mod long;
mod many;
mod promises;
mod quiet;
mod runs;
mod script;
mod slots;
mod ways;
mod works;

use crate::ways::run_program;
use std::process::ExitCode;

fn main(rt: HostRuntime) -> ExitCode {
    run_program(&rt)
}
