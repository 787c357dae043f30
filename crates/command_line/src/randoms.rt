//! The command `random`.

ghost use Rattle.std.specs.Prelude.{◌≡◌, IfErr, IfOk, codes};
ghost use Rattle.clap.specs.Words.{app_of, found_of, rows_of};
ghost use Rattle.command_line.specs.Asking.{AsksBy, IsRaceInRange, IsRefusedBy};
ghost use Rattle.command_line.specs.CommandLine.{random_app};

use crate::options::Argument::{Needed, NumberOr, Text};
use crate::options::{number_asked, text_asked, text_of, with};
use crate::request::{Asked, UsageFault};
use clap::{ArgMatches, Command};
use std::alloc::{AllocError, Global};

const LINES: &str = "Lines behind the configuration line";

const CONFIG: &str = "Numbers of the configuration line, as '64 0 0 0 0 2 8 8 16'";

const LIKE: &str =
    "Which steps: single, pairs, units, queues, hostile, slots, mixed [default: mixed]";

const ABOUT_SEEDS: &str = "\
A seed makes the same script everywhere, byte for byte. Most of its steps are accepted, some aren't.
Give it to a controller of your own and to 'casdisk run', and compare: see docs/TESTING-YOURS.md.";

pub(crate) fn random_command<'a>(alloc: Global) -> Result<Command<'a>, AllocError>
    ensures { IfOk result (λ c. app_of c ≡ random_app) }
{
    let command = Command::new(alloc, "random")
        .about("Prints a random script, the same for the same seed")
        .after_help(ABOUT_SEEDS);
    let command = with(alloc, command, "seed", Needed("N"), "The seed")?;
    let command = with(alloc, command, "lines", NumberOr("L", "100"), LINES)?;
    let command = with(alloc, command, "config", Text("NUMBERS"), CONFIG)?;
    with(alloc, command, "like", Text("KIND"), LIKE)
}

pub(crate) fn random_asked<'a>(
    alloc: Global,
    matches: &ArgMatches<'a>,
) -> Result<Asked<'a>, UsageFault>
    ensures asks { IfOk result (AsksBy (codes "random") (rows_of (found_of matches.now))) }
    ensures race { IfOk result IsRaceInRange }
    ensures refuses { IfErr result (IsRefusedBy (codes "random") (rows_of (found_of matches.now))) }
{
    let Some(seed) = number_asked(matches, "seed") else {
        return Err(text_of(alloc, "error: no seed"));
    };
    match number_asked(matches, "lines") {
        Some(lines) => Ok(Asked::Random {
            seed,
            lines,
            config: text_asked(matches, "config"),
            like: text_asked(matches, "like"),
        }),
        None => Err(text_of(alloc, "error: no number of lines")),
    }
}
