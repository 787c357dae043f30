//! The commands `certify` and `refute`: a trace, and a file beside it.

ghost use Rattle.std.specs.Prelude.{◌≡◌, IfErr, IfOk, codes, false, true};
ghost use Rattle.clap.specs.Words.{app_of, found_of, rows_of};
ghost use Rattle.command_line.specs.Asking.{AreTwoInputs, AsksBy, IsRaceInRange, IsRefusedBy};
ghost use Rattle.command_line.specs.CommandLine.{beside_app, certify_app, refute_app};

use crate::options::Argument::{Flag, Input};
use crate::options::{
    HISTORY, JSON, REFUTATION, SEEN, WHY, flag_asked, text_needed, text_of, with,
};
use crate::request::{Asked, UsageFault};
use clap::{ArgMatches, Command};
use std::alloc::{AllocError, Global};

const ABOUT: &str = "\
Checks a history against what hosts saw: prints 'explained', 'bad at K', or 'seen K: ' and what differs";

const ABOUT_TRACES: &str = "\
A trace is what hosts saw of a controller: a configuration line, and then a line for each doorbell
that was rung and for each completion that was taken, with the data that was read. The history has
the same configuration line. K counts from 1 behind it: in 'bad at K' the lines of the history, as
'check' does; in 'seen K' those of the trace. See docs/OBSERVING.md.

With '--delayed' a publish may have come later than the trace has it, and a reap earlier, as where a
host wrote it down before it rang the doorbell, or after it read the completion: those of a queue stay
in order, and no reap stands before a publish that came before it.

Exit status: 0 where the history is legal and was seen as the trace, 1 where it isn't or wasn't.";

const DELAYED: &str = "A publish may be logged before it came, and a reap after it came";

const ABOUT_REFUTE: &str = "\
Checks what is said to refute a trace: prints 'refuted: the first K lines', or 'not refuted: ' and why";

const ABOUT_REFUTATIONS: &str = "\
A refutation is a text of few lines: 'refutation'; 'lines K', how many lines of the trace it refutes,
from 1 behind the trace's head; and then, unless line K breaks a rule by itself, 'block B' for each
block that is looked at and 'command Q J' for each command, entry J, from 0, of submission queue Q.
It is proved that no controller's history explains a trace that is refuted. See docs/OBSERVING.md.

Exit status: 0 where the trace is refuted, 1 where it isn't.";

// The files that a command gets, of which the first is a trace, and whether it says why.
fn with_files<'a>(
    alloc: Global,
    command: Command<'a>,
    name: &'static str,
    help: &'static str,
) -> Result<Command<'a>, AllocError>
    ensures { IfOk result (λ c. app_of c ≡ beside_app (app_of command.entry) name.entry.now) }
{
    let command = with(alloc, command, "why", Flag, WHY)?;
    let command = with(alloc, command, "TRACE", Input, SEEN)?;
    with(alloc, command, name, Input, help)
}

pub(crate) fn certify_command<'a>(alloc: Global) -> Result<Command<'a>, AllocError>
    ensures { IfOk result (λ c. app_of c ≡ certify_app) }
{
    let command = Command::new(alloc, "certify")
        .about(ABOUT)
        .after_help(ABOUT_TRACES);
    let command = with(alloc, command, "delayed", Flag, DELAYED)?;
    let command = with(alloc, command, "json", Flag, JSON)?;
    with_files(alloc, command, "HISTORY", HISTORY)
}

pub(crate) fn refute_command<'a>(alloc: Global) -> Result<Command<'a>, AllocError>
    ensures { IfOk result (λ c. app_of c ≡ refute_app) }
{
    let command = Command::new(alloc, "refute")
        .about(ABOUT_REFUTE)
        .after_help(ABOUT_REFUTATIONS);
    let command = with(alloc, command, "json", Flag, JSON)?;
    with_files(alloc, command, "REFUTATION", REFUTATION)
}

// Whether both files are standard input.
fn are_one_input(trace: &str, file: &str) -> bool
    ensures one { result ≡ true → (trace.now ≡ codes "-") × (file.now ≡ codes "-") }
    ensures two { result ≡ false → AreTwoInputs trace.now file.now }
{
    trace == "-" && file == "-"
}

pub(crate) fn certify_asked<'a>(
    alloc: Global,
    matches: &ArgMatches<'a>,
) -> Result<Asked<'a>, UsageFault>
    ensures asks { IfOk result (AsksBy (codes "certify") (rows_of (found_of matches.now))) }
    ensures race { IfOk result IsRaceInRange }
    ensures refuses { IfErr result (IsRefusedBy (codes "certify") (rows_of (found_of matches.now))) }
{
    let trace = text_needed(alloc, matches, "TRACE", "error: no trace")?;
    let history = text_needed(alloc, matches, "HISTORY", "error: no history")?;
    if are_one_input(trace, history) {
        return Err(text_of(alloc, "error: TRACE and HISTORY are both standard input"));
    }
    Ok(Asked::Certify {
        delayed: flag_asked(matches, "delayed"),
        json: flag_asked(matches, "json"),
        why: flag_asked(matches, "why"),
        trace,
        history,
    })
}

pub(crate) fn refute_asked<'a>(
    alloc: Global,
    matches: &ArgMatches<'a>,
) -> Result<Asked<'a>, UsageFault>
    ensures asks { IfOk result (AsksBy (codes "refute") (rows_of (found_of matches.now))) }
    ensures race { IfOk result IsRaceInRange }
    ensures refuses { IfErr result (IsRefusedBy (codes "refute") (rows_of (found_of matches.now))) }
{
    let trace = text_needed(alloc, matches, "TRACE", "error: no trace")?;
    let refutation = text_needed(alloc, matches, "REFUTATION", "error: no refutation")?;
    if are_one_input(trace, refutation) {
        return Err(text_of(alloc, "error: TRACE and REFUTATION are both standard input"));
    }
    let json = flag_asked(matches, "json");
    Ok(Asked::Refute {
        json,
        why: flag_asked(matches, "why"),
        trace,
        refutation,
    })
}
