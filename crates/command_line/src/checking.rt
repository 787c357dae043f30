//! The commands `check` and `explain`.

ghost use Rattle.std.specs.Prelude.{◌≡◌, IfErr, IfOk, codes};
ghost use Rattle.clap.specs.Words.{app_of, found_of, rows_of};
ghost use Rattle.command_line.specs.Asking.{AsksBy, IsRaceInRange, IsRefusedBy};
ghost use Rattle.command_line.specs.CommandLine.{check_app, explain_app};

use crate::area::area_asked;
use crate::options::Argument::{Area, Flag, Input};
use crate::options::{HISTORY, JSON, NO_FILE, QUIET, WHY, flag_asked, text_needed, text_of, with};
use crate::request::{Asked, UsageFault};
use clap::{ArgMatches, Command};
use std::alloc::{AllocError, Global};

const FOLLOW: &str = "Answer at the first bad step or bad line, and read no further";

const SLOTS: &str = "Check the discipline of slots too, on COUNT blocks from block FIRST on";

const FOLLOWS_AREA: &str = "error: '--slots' and '--follow' exclude each other";

const ABOUT_CHECK: &str = "\
Checks a history: prints 'legal', or 'bad at K' with its first bad line, from 1 behind the configuration";

const ABOUT_EXPLAIN: &str = "\
Checks a history like 'check', and says behind 'bad at K' which rule its line breaks";

const ABOUT_HISTORIES: &str = "\
A history is what 'casdisk run --show publish,fetch,grant,block,post,reap' prints: a configuration
line, and then a line for each step that a controller made. Any controller may have made it: see
docs/CHECKING.md.

Exit status: 0 where it is legal and, with --slots, keeps the discipline of slots; 1 where it isn't
or doesn't.";

pub(crate) fn check_command<'a>(alloc: Global) -> Result<Command<'a>, AllocError>
    ensures { IfOk result (λ c. app_of c ≡ check_app) }
{
    let command = Command::new(alloc, "check")
        .about(ABOUT_CHECK)
        .after_help(ABOUT_HISTORIES);
    let command = with(alloc, command, "follow", Flag, FOLLOW)?;
    let command = with(alloc, command, "slots", Area, SLOTS)?;
    let command = with(alloc, command, "quiet", Flag, QUIET)?;
    let command = with(alloc, command, "json", Flag, JSON)?;
    let command = with(alloc, command, "why", Flag, WHY)?;
    with(alloc, command, "FILE", Input, HISTORY)
}

pub(crate) fn explain_command<'a>(alloc: Global) -> Result<Command<'a>, AllocError>
    ensures { IfOk result (λ c. app_of c ≡ explain_app) }
{
    let command = Command::new(alloc, "explain")
        .about(ABOUT_EXPLAIN)
        .after_help(ABOUT_HISTORIES);
    let command = with(alloc, command, "follow", Flag, FOLLOW)?;
    let command = with(alloc, command, "slots", Area, SLOTS)?;
    let command = with(alloc, command, "json", Flag, JSON)?;
    let command = with(alloc, command, "why", Flag, WHY)?;
    with(alloc, command, "FILE", Input, HISTORY)
}

pub(crate) fn check_asked<'a>(
    alloc: Global,
    matches: &ArgMatches<'a>,
) -> Result<Asked<'a>, UsageFault>
    ensures asks { IfOk result (AsksBy (codes "check") (rows_of (found_of matches.now))) }
    ensures race { IfOk result IsRaceInRange }
    ensures refuses { IfErr result (IsRefusedBy (codes "check") (rows_of (found_of matches.now))) }
{
    let area = area_asked(alloc, matches)?;
    let follow = flag_asked(matches, "follow");
    if follow && area.is_some() {
        return Err(text_of(alloc, FOLLOWS_AREA));
    }
    let file = text_needed(alloc, matches, "FILE", NO_FILE)?;
    Ok(Asked::Check {
        follow,
        area,
        quiet: flag_asked(matches, "quiet"),
        json: flag_asked(matches, "json"),
        why: flag_asked(matches, "why"),
        file,
    })
}

pub(crate) fn explain_asked<'a>(
    alloc: Global,
    matches: &ArgMatches<'a>,
) -> Result<Asked<'a>, UsageFault>
    ensures asks { IfOk result (AsksBy (codes "explain") (rows_of (found_of matches.now))) }
    ensures race { IfOk result IsRaceInRange }
    ensures refuses { IfErr result (IsRefusedBy (codes "explain") (rows_of (found_of matches.now))) }
{
    let area = area_asked(alloc, matches)?;
    let follow = flag_asked(matches, "follow");
    if area.is_some() && follow {
        return Err(text_of(alloc, FOLLOWS_AREA));
    }
    let file = text_needed(alloc, matches, "FILE", NO_FILE)?;
    Ok(Asked::Explain {
        follow,
        area,
        json: flag_asked(matches, "json"),
        why: flag_asked(matches, "why"),
        file,
    })
}
