//! The command `draw`.

ghost use Rattle.std.specs.Prelude.{◌≡◌, IfErr, IfOk, None, codes, false, is_none, option_map};
ghost use Rattle.clap.specs.Words.{app_of, found_of, rows_of};
ghost use Rattle.command_line.specs.Asking.{AsksBy, HasCause, IsNoRange, IsRaceInRange, IsStepRange, IsRefusedBy};
ghost use Rattle.command_line.specs.Asking.{is_one_input, is_step_range, names_part};
ghost use Rattle.command_line.specs.CommandLine.{draw_app, with_lane_rules, with_range_rules};

use crate::area::area_asked;
use crate::options::Argument::{Area, Flag, Input, Number, Text};
use crate::options::{
    HISTORY, NO_FILE, WHY, flag_asked, number_may_be, text_asked, text_needed, text_of, with,
};
use crate::request::{Asked, SlotArea, UsageFault};
use clap::{ArgMatches, Command};
use std::alloc::{AllocError, Global};

const BLOCKS: &str = "Show the value of each block that is touched";

const SLOTS: &str =
    "Show who holds each slot and is believed to, on COUNT blocks from block FIRST on";

const TRACE: &str = "Draw it only if it explains what hosts saw, and show what they saw";

const PAGE: &str = "Write a web page in which to look into the whole history";

const PAGE_IS_WHOLE: &str =
    "error: '--page' has the whole history: it excludes '--from', '--to', '--blocks', '--slots' and '--trace'";

const FROM_IS_0: &str = "error: '--from' is the place of a step, from 1";

const TO_IS_0: &str = "error: '--to' is the place of a step, from 1";

const FROM_BEHIND: &str = "error: '--from' is a later step than '--to'";

const ABOUT_PICTURES: &str = "\
What is printed is one SVG, which any browser opens. A history is what 'casdisk run' prints: a
configuration line, and then a line for each step; K counts those lines from 1. Of a history that
isn't legal, the picture ends with its first bad step. At most 10000 steps are drawn: see
docs/DRAWING.md.

With --trace, a history that doesn't explain TRACE isn't drawn: what is printed then is what
'casdisk certify TRACE FILE' prints.

With --page what is printed is one HTML file, which needs no network: a picture to scroll and to
search, with what is so behind each step. It has each step up to the first bad one, however many.

Exit status: 0 where it is drawn, 1 where the history isn't legal or doesn't explain the trace, 2
after a bad line or configuration, where the slots go beyond the volume, or where there are too many
steps.";

// The command with its range of steps.
fn with_range<'a>(alloc: Global, command: Command<'a>) -> Result<Command<'a>, AllocError>
    ensures { IfOk result (λ c. app_of c ≡ with_range_rules (app_of command.entry)) }
{
    let command = with(alloc, command, "from", Number("K"), "Begin with step K")?;
    with(alloc, command, "to", Number("K"), "End with step K")
}

// The command with what it shows besides.
fn with_lanes<'a>(alloc: Global, command: Command<'a>) -> Result<Command<'a>, AllocError>
    ensures { IfOk result (λ c. app_of c ≡ with_lane_rules (app_of command.entry)) }
{
    let command = with(alloc, command, "blocks", Flag, BLOCKS)?;
    let command = with(alloc, command, "slots", Area, SLOTS)?;
    with(alloc, command, "trace", Text("TRACE"), TRACE)
}

pub(crate) fn draw_command<'a>(alloc: Global) -> Result<Command<'a>, AllocError>
    ensures { IfOk result (λ c. app_of c ≡ draw_app) }
{
    let command = Command::new(alloc, "draw")
        .about("Draws a history as a picture, an SVG")
        .after_help(ABOUT_PICTURES);
    let command = with_range(alloc, command)?;
    let command = with_lanes(alloc, command)?;
    let command = with(alloc, command, "page", Flag, PAGE)?;
    let command = with(alloc, command, "why", Flag, WHY)?;
    with(alloc, command, "FILE", Input, HISTORY)
}

// What is wrong with a range of steps, if something is.
fn range_fault(from: Option<u64>, to: Option<u64>) -> Option<&'static str>
    ensures value { is_none result ≡ is_step_range from to }
{
    if from.unwrap_or(1) == 0 {
        return Some(FROM_IS_0);
    }
    if to.unwrap_or(1) == 0 {
        return Some(TO_IS_0);
    }
    if to.unwrap_or(u64::MAX) < from.unwrap_or(1) {
        return Some(FROM_BEHIND);
    }
    None
}

/// A range of steps, of which the first and the last may be left out.
#[derive(Clone, Copy)]
struct StepRange {
    from: Option<u64>,
    to: Option<u64>,
}

// The range of steps that the options say.
fn range_asked(alloc: Global, matches: &ArgMatches<'_>) -> Result<StepRange, UsageFault>
    ensures says { IfOk result (λ r. IsStepRange (rows_of (found_of matches.now)) r.from r.to) }
    ensures refuses { IfErr result (HasCause (IsNoRange (rows_of (found_of matches.now)))) }
{
    let from = number_may_be(matches, "from");
    let to = number_may_be(matches, "to");
    match range_fault(from, to) {
        Some(words) => Err(text_of(alloc, words)),
        None => Ok(StepRange { from, to }),
    }
}

// Whether a file, where one is named, and another are both standard input.
pub(crate) fn is_one_input(beside: Option<&str>, file: &str) -> bool
    ensures value { result ≡ is_one_input (option_map (λ t. t.now) beside.entry) file.now }
{
    match beside {
        Some(beside) => beside == "-" && file == "-",
        None => false,
    }
}

// Whether options name a part of a history, or what a picture shows besides.
fn names_part(range: StepRange, blocks: bool, area: Option<SlotArea>, trace: Option<&str>) -> bool
    ensures value { result ≡ names_part range.from range.to blocks area trace.entry }
    ensures none { result ≡ false → (range.from ≡ None) × (range.to ≡ None) × (blocks ≡ false) × (area ≡ None)
        × (trace.entry ≡ None) }
{
    range.from.is_some() || range.to.is_some() || blocks || area.is_some() || trace.is_some()
}

pub(crate) fn draw_asked<'a>(
    alloc: Global,
    matches: &ArgMatches<'a>,
) -> Result<Asked<'a>, UsageFault>
    ensures asks { IfOk result (AsksBy (codes "draw") (rows_of (found_of matches.now))) }
    ensures race { IfOk result IsRaceInRange }
    ensures refuses { IfErr result (IsRefusedBy (codes "draw") (rows_of (found_of matches.now))) }
{
    let range = range_asked(alloc, matches)?;
    let area = area_asked(alloc, matches)?;
    let file = text_needed(alloc, matches, "FILE", NO_FILE)?;
    let trace = text_asked(matches, "trace");
    if is_one_input(trace, file) {
        return Err(text_of(alloc, "error: TRACE and FILE are both standard input"));
    }
    let blocks = flag_asked(matches, "blocks");
    let why = flag_asked(matches, "why");
    if !flag_asked(matches, "page") {
        return Ok(Asked::Draw {
            from: range.from,
            to: range.to,
            blocks,
            area,
            trace,
            why,
            file,
        });
    }
    if names_part(range, blocks, area, trace) {
        return Err(text_of(alloc, PAGE_IS_WHOLE));
    }
    Ok(Asked::Page { why, file })
}
