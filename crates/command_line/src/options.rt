//! Options of several commands: how a command gets them, and what they say.

ghost use Rattle.std.specs.Prelude.{◌≡◌, IfErr, IfOk, IfSome, None, Some, map, option_map, ℕ};
ghost use Rattle.clap.specs.Words.{all_of, app_of, first_of, found_of, rows_of, rule_of, with_rule};
ghost use Rattle.command_line.specs.Asking.{HasCause, MaySayNumber, SaysFlag, SaysNumber, SaysText};
ghost use Rattle.command_line.specs.CommandLine.{argument_rule, default_rule, flag_rule, input_rule, needed_rule};
ghost use Rattle.command_line.specs.CommandLine.{number_rule, text_rule};

use crate::request::UsageFault;
use clap::{Arg, ArgAction, ArgMatches, Command, value_parser};
use std::alloc::{AllocError, Global};

pub(crate) const HISTORY: &str = "The history; - is standard input";

pub(crate) const REFUTATION: &str = "What is said to refute it; - is standard input";

pub(crate) const SEEN: &str = "What hosts saw; - is standard input";

pub(crate) const WHY: &str = "Say why it failed, in a second line on standard error";

pub(crate) const JSON: &str = "Print the answer as a JSON object";

pub(crate) const QUIET: &str = "Don't say how far it is";

pub(crate) const NO_FILE: &str = "error: no file";

// A file that has to be named.
fn input_argument<'a>(alloc: Global, name: &'static str, help: &'static str) -> Arg<'a>
    ensures { rule_of result ≡ input_rule name.entry.now }
{
    Arg::new(alloc, name)
        .help(help)
        .required(true)
        .action(ArgAction::Set)
}

// An option with a text.
fn text_option<'a>(
    alloc: Global,
    name: &'static str,
    value: &'static str,
    help: &'static str,
) -> Arg<'a>
    ensures { rule_of result ≡ text_rule name.entry.now }
{
    Arg::new(alloc, name)
        .long(name)
        .value_name(value)
        .help(help)
        .action(ArgAction::Set)
}

// An option without a value.
fn flag_option<'a>(alloc: Global, name: &'static str, help: &'static str) -> Arg<'a>
    ensures { rule_of result ≡ flag_rule name.entry.now }
{
    Arg::new(alloc, name)
        .long(name)
        .help(help)
        .action(ArgAction::SetTrue)
}

// An option with a number.
fn number_option<'a>(
    alloc: Global,
    name: &'static str,
    value: &'static str,
    help: &'static str,
) -> Arg<'a>
    ensures { rule_of result ≡ number_rule name.entry.now }
{
    text_option(alloc, name, value, help).value_parser(value_parser!(u64))
}

// One that has to be there.
fn needed_option<'a>(
    alloc: Global,
    name: &'static str,
    value: &'static str,
    help: &'static str,
) -> Arg<'a>
    ensures { rule_of result ≡ needed_rule name.entry.now }
{
    number_option(alloc, name, value, help).required(true)
}

// One that is this number where it isn't there.
fn default_option<'a>(
    alloc: Global,
    name: &'static str,
    value: &'static str,
    default: &'static str,
    help: &'static str,
) -> Arg<'a>
    ensures { rule_of result ≡ default_rule name.entry.now default.entry.now }
{
    number_option(alloc, name, value, help).default_value(default)
}

// An option with the two numbers of an area of slots.
fn area_option<'a>(alloc: Global, name: &'static str, help: &'static str) -> Arg<'a>
    ensures { rule_of result ≡ argument_rule Argument.Area name.entry.now }
{
    Arg::new(alloc, name)
        .long(name)
        .value_names(&["FIRST", "COUNT"])
        .help(help)
        .value_parser(value_parser!(u64))
        .action(ArgAction::Set)
}

/// What a command takes: a file or an option. An option with a value has a word for it in its help.
#[derive(Clone, Copy)]
pub(crate) enum Argument {
    /// A file, which has to be named.
    Input,
    /// An option with a text.
    Text(&'static str),
    /// An option without a value.
    Flag,
    /// The option of an area of slots, with two numbers.
    Area,
    /// An option with a number, which may be left out.
    Number(&'static str),
    /// One that has to be there.
    Needed(&'static str),
    /// One that is the second of these where it isn't there.
    NumberOr(&'static str, &'static str),
}

// What a command takes by this name.
fn argument_of<'a>(
    alloc: Global,
    name: &'static str,
    argument: Argument,
    help: &'static str,
) -> Arg<'a>
    ensures { rule_of result ≡ argument_rule argument name.entry.now }
{
    match argument {
        Argument::Input => input_argument(alloc, name, help),
        Argument::Text(value) => text_option(alloc, name, value, help),
        Argument::Flag => flag_option(alloc, name, help),
        Argument::Area => area_option(alloc, name, help),
        Argument::Number(value) => number_option(alloc, name, value, help),
        Argument::Needed(value) => needed_option(alloc, name, value, help),
        Argument::NumberOr(value, or) => default_option(alloc, name, value, or, help),
    }
}

/// The command with one argument more.
pub(crate) fn with<'a>(
    alloc: Global,
    command: Command<'a>,
    name: &'static str,
    argument: Argument,
    help: &'static str,
) -> Result<Command<'a>, AllocError>
    ensures { IfOk result
        (λ c. app_of c ≡ with_rule (app_of command.entry) (argument_rule argument name.entry.now)) }
{
    command.arg(argument_of(alloc, name, argument, help))
}

pub(crate) fn text_of(alloc: Global, words: &str) -> UsageFault {
    match String::from_str(alloc, words) {
        Ok(text) => UsageFault::Text(text),
        Err(_) => UsageFault::NoMemory,
    }
}

/// Whether this option without a value is there.
pub(crate) fn flag_asked(matches: &ArgMatches<'_>, name: &'static str) -> bool
    ensures says { SaysFlag name.entry.now (rows_of (found_of matches.now)) result }
{
    matches.get_flag(name)
}

/// The text that this option says, or the file that stands in its place.
pub(crate) fn text_asked<'a>(matches: &ArgMatches<'a>, name: &'static str) -> Option<&'a str>
    ensures { option_map (λ t. t.now) result ≡ first_of name.entry.now (rows_of (found_of matches.now)) }
{
    matches.get_str(name)
}

/// The same, where it has to be there.
///
/// # Errors
///
/// These words, where it isn't.
pub(crate) fn text_needed<'a>(
    alloc: Global,
    matches: &ArgMatches<'a>,
    name: &'static str,
    words: &str,
) -> Result<&'a str, UsageFault>
    ensures says { IfOk result (λ t. SaysText name.entry.now (rows_of (found_of matches.now)) t.now) }
    ensures refuses { IfErr result (HasCause (first_of name.entry.now (rows_of (found_of matches.now)) ≡ None)) }
{
    match text_asked(matches, name) {
        Some(text) => Ok(text),
        None => Err(text_of(alloc, words)),
    }
}

/// The number that this option says.
pub(crate) fn number_asked(matches: &ArgMatches<'_>, name: &'static str) -> Option<u64>
    ensures says { IfSome result (SaysNumber name.entry.now (rows_of (found_of matches.now))) }
    ensures only { (n : ℕ) → SaysNumber name.entry.now (rows_of (found_of matches.now)) n → result ≡ Some n }
{
    matches.get_one::<u64>(name)
}

/// The words that this option says, one after the other.
pub(crate) fn words_asked<'m, 'a>(
    matches: &'m ArgMatches<'a>,
    name: &'static str,
) -> Option<&'m [&'a str]>
    ensures { option_map (λ s. map (λ v. v.now) s.now) result
        ≡ all_of name.entry.now (rows_of (found_of matches.now)) }
{
    matches.get_strs(name)
}

/// The number that this option says, none where it says none.
pub(crate) fn number_may_be(matches: &ArgMatches<'_>, name: &'static str) -> Option<u64>
    ensures { MaySayNumber name.entry.now (rows_of (found_of matches.now)) result }
{
    number_asked(matches, name)
}
