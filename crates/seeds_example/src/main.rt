//! What a seed gives on every machine, to compare builds: a script of each kind, a race, and a race in which a host
//! dies.
#![tactic(auto)]

mod crash;
mod scripts;
mod seeded;

use std::io;
use std::process::ExitCode;

fn main(rt: HostRuntime) -> io::Result<ExitCode> {
    let mut writer = io::writer(&rt);
    if scripts::show(&rt, &mut writer).is_err() {
        return Ok(ExitCode::from(3));
    }
    if let Err(fault) = seeded::show(&rt, &mut writer) {
        return Ok(ExitCode::from(fault.status()));
    }
    if let Err(fault) = crash::show(&rt, &mut writer) {
        return Ok(ExitCode::from(fault.status()));
    }
    Ok(ExitCode::SUCCESS)
}
