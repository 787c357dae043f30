//! The command `shrink`.

ghost use Rattle.std.specs.Prelude.{◌≡◌, IfErr, IfOk, codes};
ghost use Rattle.clap.specs.Words.{app_of, found_of, rows_of};
ghost use Rattle.command_line.specs.Asking.{AsksBy, IsRaceInRange, IsRefusedBy};
ghost use Rattle.command_line.specs.CommandLine.{shrink_app};

use crate::options::Argument::{Flag, Input};
use crate::options::{WHY, flag_asked, text_needed, text_of, with};
use crate::request::{Asked, UsageFault};
use clap::{ArgMatches, Command};
use std::alloc::{AllocError, Global};

const ABOUT_QUESTIONS: &str = "\
It starts no program, but asks: each script that it tries is printed between the lines 'try N' and
'end', and a line of standard input answers, 'fails' or 'passes'. At the end it prints 'smallest N'
and the smallest script that fails: see docs/TESTING-YOURS.md.

Exit status: 0 where it is found, 1 where the script itself passes, 2 after a bad line or another
answer, 3 where the answers end before that, behind the smallest so far.";

pub(crate) fn shrink_command<'a>(alloc: Global) -> Result<Command<'a>, AllocError>
    ensures { IfOk result (λ c. app_of c ≡ shrink_app) }
{
    let command = Command::new(alloc, "shrink")
        .about("Makes a script that fails small, by questions whether a smaller one fails")
        .after_help(ABOUT_QUESTIONS);
    let command = with(alloc, command, "why", Flag, WHY)?;
    with(alloc, command, "SCRIPT", Input, "The script that fails")
}

pub(crate) fn shrink_asked<'a>(
    alloc: Global,
    matches: &ArgMatches<'a>,
) -> Result<Asked<'a>, UsageFault>
    ensures asks { IfOk result (AsksBy (codes "shrink") (rows_of (found_of matches.now))) }
    ensures race { IfOk result IsRaceInRange }
    ensures refuses { IfErr result (IsRefusedBy (codes "shrink") (rows_of (found_of matches.now))) }
{
    let script = text_needed(alloc, matches, "SCRIPT", "error: no script")?;
    if script == "-" {
        return Err(text_of(
            alloc,
            "error: SCRIPT is standard input, where the answers come from",
        ));
    }
    Ok(Asked::Shrink {
        why: flag_asked(matches, "why"),
        script,
    })
}
