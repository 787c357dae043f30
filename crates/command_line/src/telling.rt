//! The command that tells a history in words.

ghost use Rattle.std.specs.Prelude.{◌≡◌, IfErr, IfOk, Some, codes};
ghost use Rattle.clap.specs.Words.{app_of, first_of, found_of, rows_of};
ghost use Rattle.command_line.specs.Asking.{AsksBy, HasCause, IsNoColor, IsRaceInRange, IsRefusedBy, color_asked};
ghost use Rattle.command_line.specs.Asking.{color_in};
ghost use Rattle.command_line.specs.CommandLine.{tell_app};

use crate::options::Argument::{Flag, Input, Text};
use crate::options::{JSON, NO_FILE, WHY, flag_asked, text_asked, text_needed, text_of, with};
use crate::request::{Asked, ColorChoice, UsageFault};
use clap::{ArgMatches, Command};
use std::alloc::{AllocError, Global};

const LINES: &str = "The history or trace; - is standard input";

const COLOR: &str = "Colour each line by its kind: auto, always, never [default: auto]";

const NO_COLOR: &str = "error: '--color' is auto, always or never";

const ABOUT_WORDS: &str = "\
Each line is told by one line, as soon as it is read: a command by its name and its blocks, a status
by its name and its numbers. Of a trace, each line is told as that of a history is. Whether it is
legal, or can be explained, isn't asked: see 'check' and 'observe'. By 'auto' lines are coloured on
a terminal, unless the environment has NO_COLOR.

Exit status: 0 where all is told, 2 after a bad line or configuration.";

pub(crate) fn tell_command<'a>(alloc: Global) -> Result<Command<'a>, AllocError>
    ensures { IfOk result (λ c. app_of c ≡ tell_app) }
{
    let command = Command::new(alloc, "tell")
        .about("Tells a history or a trace in words, a line for a line")
        .after_help(ABOUT_WORDS);
    let command = with(alloc, command, "color", Text("WHEN"), COLOR)?;
    let command = with(alloc, command, "json", Flag, JSON)?;
    let command = with(alloc, command, "why", Flag, WHY)?;
    with(alloc, command, "FILE", Input, LINES)
}

// When lines are coloured, by a word for that.
fn color_of(word: &str) -> Option<ColorChoice>
    ensures value { result ≡ color_in word.now }
{
    if word == "auto" {
        Some(ColorChoice::Auto)
    } else if word == "always" {
        Some(ColorChoice::Always)
    } else if word == "never" {
        Some(ColorChoice::Never)
    } else {
        None
    }
}

// When lines are coloured: where no option says it, as the terminal is.
fn color_asked(alloc: Global, matches: &ArgMatches<'_>) -> Result<ColorChoice, UsageFault>
    ensures says { IfOk result
        (λ c. color_asked (first_of (codes "color") (rows_of (found_of matches.now))) ≡ Some c) }
    ensures refuses { IfErr result (HasCause (IsNoColor (rows_of (found_of matches.now)))) }
{
    let Some(word) = text_asked(matches, "color") else {
        return Ok(ColorChoice::Auto);
    };
    match color_of(word) {
        Some(color) => Ok(color),
        None => Err(text_of(alloc, NO_COLOR)),
    }
}

pub(crate) fn tell_asked<'a>(
    alloc: Global,
    matches: &ArgMatches<'a>,
) -> Result<Asked<'a>, UsageFault>
    ensures asks { IfOk result (AsksBy (codes "tell") (rows_of (found_of matches.now))) }
    ensures race { IfOk result IsRaceInRange }
    ensures refuses { IfErr result (IsRefusedBy (codes "tell") (rows_of (found_of matches.now))) }
{
    let color = color_asked(alloc, matches)?;
    let file = text_needed(alloc, matches, "FILE", NO_FILE)?;
    Ok(Asked::Tell {
        color,
        json: flag_asked(matches, "json"),
        why: flag_asked(matches, "why"),
        file,
    })
}
