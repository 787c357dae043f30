//! The program, for whoever runs scripts, checks histories or lets hosts race: see `casdisk --help`.
#![tactic(auto)]

mod page;
mod page_body;
mod page_drawing;
mod page_looking;
mod page_reading;
mod page_style;

use casdisk_program::{Terminals, run_program};
use std::io::IsTerminal;
use std::process::ExitCode;

fn main(rt: HostRuntime) -> ExitCode {
    let terminals = Terminals {
        output: rt.stdout().is_terminal(),
        words: rt.stderr().is_terminal(),
    };
    run_program(&rt, terminals, &crate::page::page_parts())
}
