//! The command `run`.

ghost use Rattle.std.specs.Prelude.{◌≡◌, IfErr, IfOk, codes};
ghost use Rattle.clap.specs.Words.{app_of, found_of, rows_of};
ghost use Rattle.command_line.specs.Asking.{AsksBy, GoesOnFrom, IsNoBeginning, IsNotShown, IsRaceInRange, IsRefusedBy};
ghost use Rattle.command_line.specs.Asking.{HasCause, SaysShown};
ghost use Rattle.command_line.specs.CommandLine.{run_app, with_shown_rules};

use crate::drawing::is_one_input;
use crate::options::Argument::{Flag, Input, Text};
use crate::options::{NO_FILE, WHY, flag_asked, text_asked, text_needed, text_of, with};
use crate::request::{Asked, Shown, UsageFault};
use crate::shown::no_kinds_in;
use casdisk_texts::kinds_of;
use clap::{ArgMatches, Command};
use history::all_kinds;
use std::alloc::{AllocError, Global};

const KINDS: &str = "Kinds of lines to show, joined by commas [default: all]";

const TRACE: &str = "Print what hosts see, the lines of a trace, in place of a history's";

const CHECK: &str = "Judge each step as it is made, and say the answer on standard error";

const FROM: &str = "Make the steps of HISTORY once more, and go on from there";

const FLUSH: &str = "Send what each line prints as soon as it is made";

const ABOUT_LINES: &str = "\
The first line of the script is its configuration, of decimal numbers:
  config BLOCKS AWUN ACWU NABSN NABO PAIRS SQ CQ JOBS
  config2 BLOCKS AWUN ACWU NABSN NABO PAIRS SQ CQ JOBS CQS

Each further line is one of these:
  publish Q E + E + ..  puts entries into submission queue Q
  fetch Q               takes its next command, or fused pair, as a ticket
  grant T               begins the next unit of ticket T
  block T               makes the next block of its open unit
  post T                posts its next completion
  reap Q                takes a completion out of completion queue Q
  settle                makes each Grant, Block and Post that can be made
  medium L              shows block L of the volume
  # ..                  does nothing

An entry E is NAME FUSE CID SLBA NLB DATA, where NAME is flush, write, read, compare or zeroes, or
it is raw HEX DATA. DATA is - for none, A1 for a block of such bytes, or blocks joined by dots.

Kinds of lines, each named by the word that it begins with:
  publish, fetch, grant, block, post, reap, refused, medium

With --trace a reap has behind its completion the data that was read, and no other line is printed
but publish: see docs/OBSERVING.md.";

// The command with what it shows.
fn with_shown<'a>(alloc: Global, command: Command<'a>) -> Result<Command<'a>, AllocError>
    ensures { IfOk result (λ c. app_of c ≡ with_shown_rules (app_of command.entry)) }
{
    let command = with(alloc, command, "show", Text("KINDS"), KINDS)?;
    with(alloc, command, "trace", Flag, TRACE)
}

pub(crate) fn run_command<'a>(alloc: Global) -> Result<Command<'a>, AllocError>
    ensures { IfOk result (λ c. app_of c ≡ run_app) }
{
    let command = Command::new(alloc, "run")
        .about("Runs a script over one controller and prints what each step did")
        .after_help(ABOUT_LINES);
    let command = with_shown(alloc, command)?;
    let command = with(alloc, command, "check", Flag, CHECK)?;
    let command = with(alloc, command, "from", Text("HISTORY"), FROM)?;
    let command = with(alloc, command, "flush", Flag, FLUSH)?;
    let command = with(alloc, command, "why", Flag, WHY)?;
    with(
        alloc,
        command,
        "FILE",
        Input,
        "The script; - is standard input",
    )
}

// What the options of a run show: all kinds of lines where they name none.
fn shown_asked(alloc: Global, matches: &ArgMatches<'_>) -> Result<Shown, UsageFault>
    ensures says { IfOk result (SaysShown (rows_of (found_of matches.now))) }
    ensures refuses { IfErr result (HasCause (IsNotShown (rows_of (found_of matches.now)))) }
{
    let trace = flag_asked(matches, "trace");
    if trace && flag_asked(matches, "check") {
        return Err(text_of(alloc, "error: '--trace' and '--check' exclude each other"));
    }
    let Some(text) = text_asked(matches, "show") else {
        if trace {
            return Ok(Shown::Trace);
        }
        return Ok(Shown::Kinds(all_kinds()));
    };
    if trace {
        return Err(text_of(alloc, "error: '--trace' and '--show' exclude each other"));
    }
    match kinds_of(text) {
        Some(kinds) => Ok(Shown::Kinds(kinds)),
        None => Err(no_kinds_in(alloc, text)),
    }
}

// The history that a run goes on from, where one is named.
fn from_asked<'a>(alloc: Global, matches: &ArgMatches<'a>) -> Result<Option<&'a str>, UsageFault>
    ensures says { IfOk result (GoesOnFrom (rows_of (found_of matches.now))) }
    ensures refuses { IfErr result (HasCause (IsNoBeginning (rows_of (found_of matches.now)))) }
{
    let Some(history) = text_asked(matches, "from") else {
        return Ok(None);
    };
    if flag_asked(matches, "trace") {
        return Err(text_of(alloc, "error: '--trace' and '--from' exclude each other"));
    }
    if flag_asked(matches, "check") {
        return Err(text_of(alloc, "error: '--check' and '--from' exclude each other"));
    }
    Ok(Some(history))
}

pub(crate) fn run_asked<'a>(
    alloc: Global,
    matches: &ArgMatches<'a>,
) -> Result<Asked<'a>, UsageFault>
    ensures asks { IfOk result (AsksBy (codes "run") (rows_of (found_of matches.now))) }
    ensures race { IfOk result IsRaceInRange }
    ensures refuses { IfErr result (IsRefusedBy (codes "run") (rows_of (found_of matches.now))) }
{
    let shown = shown_asked(alloc, matches)?;
    let from = from_asked(alloc, matches)?;
    let file = text_needed(alloc, matches, "FILE", NO_FILE)?;
    if is_one_input(from, file) {
        return Err(text_of(alloc, "error: HISTORY and FILE are both standard input"));
    }
    Ok(Asked::Run {
        shown,
        from,
        check: flag_asked(matches, "check"),
        flush: flag_asked(matches, "flush"),
        why: flag_asked(matches, "why"),
        file,
    })
}
