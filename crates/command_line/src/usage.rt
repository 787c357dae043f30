//! The command line.

ghost use Rattle.std.specs.Prelude.{◌≡◌, IfErr, IfOk, IsOkAnd, map, string_bytes, true};
ghost use Rattle.clap.specs.Words.{app_of, found_of, kind_of, rows_of, with_subcommand};
ghost use Rattle.command_line.specs.Asking.{AreRefused, Asks, AsksBy, IsRaceInRange, IsRefusedBy, IsShownBy, IsToldBy};
ghost use Rattle.command_line.specs.CommandLine.{casdisk_app, top_app};

use crate::beside::{certify_asked, certify_command, refute_asked, refute_command};
use crate::checking::{check_asked, check_command, explain_asked, explain_command};
use crate::drawing::{draw_asked, draw_command};
use crate::observing::{observe_asked, observe_command};
use crate::options::text_of;
use crate::racing::{race_asked, race_command};
use crate::randoms::{random_asked, random_command};
use crate::request::{Asked, UsageFault};
use crate::running::{run_asked, run_command};
use crate::shrinking::{shrink_asked, shrink_command};
use crate::telling::{tell_asked, tell_command};
use clap::error::ErrorKind;
use clap::{ArgMatches, Command, Error};
use std::alloc::{AllocError, Global};

const ABOUT_SCRIPTS: &str = "\
A script is a text: its first line is the controller's configuration, and each further line is one
step. Try one: casdisk run examples/one_block.script. Each line is described in docs/SCRIPTS.md.

Exit status: 0 where all is done, 1 where a history isn't legal or explains no trace, 2 after a bad
line, configuration or command line, 3 after a failed input or output, 4 without memory, 5 where a
search gave up, 6 where it found nothing.";

// The command with this one below it, which has no options for those below itself.
fn with_command<'a>(
    command: Command<'a>,
    below: Result<Command<'a>, AllocError>,
) -> Result<Command<'a>, AllocError>
    requires plain { IfOk below (λ b. (app_of b).top.is_plain ≡ true) }
    ensures { IfOk result
        (λ c. IsOkAnd below.entry (λ b. app_of c ≡ with_subcommand (app_of command.entry) (app_of b).top)) }
{
    command.subcommand(below?)
}

// The program, without its commands.
fn top_command<'a>(alloc: Global) -> Command<'a>
    ensures { app_of result ≡ top_app }
{
    Command::new(alloc, "casdisk")
        .version("0.1.0")
        .about("An NVM Express controller in software, around the fused Compare and Write")
        .after_help(ABOUT_SCRIPTS)
        .arg_required_else_help(true)
        .subcommand_required(true)
}

fn command<'a>(alloc: Global) -> Result<Command<'a>, AllocError>
    ensures { IfOk result (λ c. app_of c ≡ casdisk_app) }
{
    let command = with_command(top_command(alloc), run_command(alloc))?;
    let command = with_command(command, check_command(alloc))?;
    let command = with_command(command, explain_command(alloc))?;
    let command = with_command(command, race_command(alloc))?;
    let command = with_command(command, certify_command(alloc))?;
    let command = with_command(command, refute_command(alloc))?;
    let command = with_command(command, observe_command(alloc))?;
    let command = with_command(command, tell_command(alloc))?;
    let command = with_command(command, draw_command(alloc))?;
    let command = with_command(command, random_command(alloc))?;
    with_command(command, shrink_command(alloc))
}

// What the options of a command of this name ask for.
fn command_asked<'a>(
    alloc: Global,
    name: &str,
    matches: &ArgMatches<'a>,
) -> Result<Asked<'a>, UsageFault>
    ensures asks { IfOk result (AsksBy name.now (rows_of (found_of matches.now))) }
    ensures race { IfOk result IsRaceInRange }
    ensures refuses { IfErr result (IsRefusedBy name.now (rows_of (found_of matches.now))) }
{
    if name == "check" {
        check_asked(alloc, matches)
    } else if name == "explain" {
        explain_asked(alloc, matches)
    } else if name == "certify" {
        certify_asked(alloc, matches)
    } else if name == "refute" {
        refute_asked(alloc, matches)
    } else if name == "observe" {
        observe_asked(alloc, matches)
    } else if name == "race" {
        race_asked(alloc, matches)
    } else if name == "run" {
        run_asked(alloc, matches)
    } else if name == "tell" {
        tell_asked(alloc, matches)
    } else if name == "draw" {
        draw_asked(alloc, matches)
    } else if name == "random" {
        random_asked(alloc, matches)
    } else if name == "shrink" {
        shrink_asked(alloc, matches)
    } else {
        Err(text_of(alloc, "error: no command"))
    }
}

// The words of an error without a tip to pass an option as a value: whoever mistypes one would read a file of that
// name.
fn without_tip(alloc: Global, text: String) -> Result<String, AllocError> {
    let Some((before, tip)) = text.as_str().split_once("\n\n  tip: to pass '--") else {
        return Ok(text);
    };
    let Some((_, behind)) = tip.split_once("\n\n") else {
        return Ok(text);
    };
    format!(in alloc; "{before}\n\n{behind}")
}

// What is answered to words of which clap makes this error: its text where they ask for help or for the version, and
// else that it is one.
fn untaken<'a>(alloc: Global, error: &Error) -> Result<Asked<'a>, UsageFault>
    ensures shown { IfOk result (IsShownBy (kind_of error.now)) }
    ensures told { IfErr result (IsToldBy (kind_of error.now)) }
{
    match error.kind() {
        ErrorKind::OutOfMemory => Err(UsageFault::NoMemory),
        ErrorKind::DisplayHelp | ErrorKind::DisplayVersion => {
            Ok(Asked::Show(error.to_string(alloc)?))
        }
        _ => {
            let text = error.to_string(alloc)?;
            Err(UsageFault::Text(without_tip(alloc, text)?))
        }
    }
}

/// Reads the words that the program was started with, its name first. The numbers of a race that is asked for are in
/// their ranges.
///
/// # Errors
///
/// A text for a bad command line, an unknown or empty kind of lines, options that exclude each other and numbers of no
/// race among them; `NoMemory` where a growth was refused.
pub fn asked<'a>(alloc: Global, words: &'a [String]) -> Result<Asked<'a>, UsageFault>
    ensures asks { IfOk result (Asks (map string_bytes words.entry.now)) }
    ensures race { IfOk result IsRaceInRange }
    ensures refuses { IfErr result (AreRefused (map string_bytes words.entry.now)) }
{
    let matches = match command(alloc)?.try_get_matches_from(words) {
        Ok(matches) => matches,
        Err(error) => return untaken(alloc, &error),
    };
    match matches.subcommand() {
        Some((name, inner)) => command_asked(alloc, name, inner),
        None => Err(text_of(alloc, "error: no command")),
    }
}
