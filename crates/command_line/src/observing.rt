//! The command `observe`.

ghost use Rattle.std.specs.Prelude.{◌≡◌, IfErr, IfOk, codes};
ghost use Rattle.clap.specs.Words.{app_of, found_of, rows_of};
ghost use Rattle.command_line.specs.Asking.{AsksBy, IsRaceInRange, IsRefusedBy};
ghost use Rattle.command_line.specs.CommandLine.{observe_app};

use crate::options::Argument::{Flag, Input, NumberOr, Text};
use crate::options::{
    JSON, SEEN, WHY, flag_asked, number_asked, text_asked, text_needed, text_of, with,
};
use crate::request::{Asked, UsageFault};
use clap::{ArgMatches, Command};
use std::alloc::{AllocError, Global};

const WITNESS: &str = "Write the history that was found into FILE";

const REFUTATION: &str = "Write what refutes the trace into FILE";

const STEPS: &str = "Steps of search, at most";

const ABOUT: &str = "\
Looks for a history that explains what hosts saw: prints 'explained', 'refuted: ' and why, 'not found: ' or 'gave up'";

const ABOUT_SEARCH: &str = "\
A trace is what hosts saw of a controller, whoever's it was: see docs/OBSERVING.md. 'explained' is
printed where a history was found that is legal and was seen as the trace, 'refuted' where there is
none. Both are proved. 'not found' proves nothing: neither a history was found nor a refutation.

Exit status: 0 where a history was found, 1 where there is none, 5 where N steps of search didn't
decide, 6 where neither was found.";

pub(crate) fn observe_command<'a>(alloc: Global) -> Result<Command<'a>, AllocError>
    ensures { IfOk result (λ c. app_of c ≡ observe_app) }
{
    let command = Command::new(alloc, "observe")
        .about(ABOUT)
        .after_help(ABOUT_SEARCH);
    let command = with(alloc, command, "witness", Text("FILE"), WITNESS)?;
    let command = with(alloc, command, "refutation", Text("FILE"), REFUTATION)?;
    let command = with(alloc, command, "steps", NumberOr("N", "10000000"), STEPS)?;
    let command = with(alloc, command, "json", Flag, JSON)?;
    let command = with(alloc, command, "why", Flag, WHY)?;
    with(alloc, command, "TRACE", Input, SEEN)
}

pub(crate) fn observe_asked<'a>(
    alloc: Global,
    matches: &ArgMatches<'a>,
) -> Result<Asked<'a>, UsageFault>
    ensures asks { IfOk result (AsksBy (codes "observe") (rows_of (found_of matches.now))) }
    ensures race { IfOk result IsRaceInRange }
    ensures refuses { IfErr result (IsRefusedBy (codes "observe") (rows_of (found_of matches.now))) }
{
    let Some(steps) = number_asked(matches, "steps") else {
        return Err(text_of(alloc, "error: no steps"));
    };
    let trace = text_needed(alloc, matches, "TRACE", "error: no trace")?;
    Ok(Asked::Observe {
        witness: text_asked(matches, "witness"),
        refutation: text_asked(matches, "refutation"),
        steps,
        json: flag_asked(matches, "json"),
        why: flag_asked(matches, "why"),
        trace,
    })
}
