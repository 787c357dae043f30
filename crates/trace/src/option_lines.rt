//! The lines of a trace's head that say how it is to be read.

ghost use Rattle.std.specs.Prelude.{◌≡◌};
ghost use Rattle.trace.specs.OptionLines.{begins as the_begins, ignored_in as the_ignored_in};
ghost use Rattle.trace.specs.OptionLines.{option_in, option_rank, rest_behind as the_rest, with_option};

use crate::options::{IgnoredFields, TraceOptions};

/// One line of a trace's head.
#[derive(Clone, Copy, Debug, PartialEq, Eq)]
pub enum TraceOption {
    /// What the blocks held at the beginning is unknown.
    ContentsUnknown,
    /// Any status but success and Compare Failure says that the command did nothing.
    StatusesAny,
    /// These fields of a completion aren't compared.
    Ignore(IgnoredFields),
}

impl TraceOption {
    /// Its place among the lines of a head, from 1.
    pub fn rank(&self) -> u8
        ensures value { result ≡ option_rank self.now }
    {
        match self {
            TraceOption::ContentsUnknown => 1,
            TraceOption::StatusesAny => 2,
            TraceOption::Ignore(_) => 3,
        }
    }

    /// These options, and this one.
    pub fn added_to(&self, options: TraceOptions) -> TraceOptions
        ensures value { result ≡ with_option self.now options }
    {
        let mut more = options;
        match self {
            TraceOption::ContentsUnknown => more.contents_unknown = true,
            TraceOption::StatusesAny => more.statuses_any = true,
            TraceOption::Ignore(ignored) => more.ignored = *ignored,
        }
        more
    }
}

fn begins(text: &[u8], word: &[u8]) -> bool
    ensures value { result ≡ the_begins word.now text.now }
{
    word.len() <= text.len() && &text[..word.len()] == word
}

// What stands behind a word, where a text begins with it; else the text.
fn rest_behind<'a>(text: &'a [u8], word: &[u8]) -> &'a [u8]
    ensures value { result.now ≡ the_rest word.now text.entry.now }
{
    if begins(text, word) {
        return &text[word.len()..];
    }
    text
}

// The fields that these words name, each behind a space.
#[tactic(auto, unfolding(crate::specs::OptionLines::ignored_in))]
fn ignored_in(text: &[u8]) -> Option<IgnoredFields>
    ensures value { result ≡ the_ignored_in text.now }
{
    let more = rest_behind(text, b" DNR");
    let crd = rest_behind(more, b" MORE");
    let dw0 = rest_behind(crd, b" CRD");
    let dw1 = rest_behind(dw0, b" DW0");
    let sqhd = rest_behind(dw1, b" DW1");
    let end = rest_behind(sqhd, b" SQHD");
    if text.is_empty() || !end.is_empty() {
        return None;
    }
    Some(IgnoredFields {
        dnr: begins(text, b" DNR"),
        more: begins(more, b" MORE"),
        crd: begins(crd, b" CRD"),
        dw0: begins(dw0, b" DW0"),
        dw1: begins(dw1, b" DW1"),
        sqhd: begins(sqhd, b" SQHD"),
    })
}

/// The option whose line this is, without its line feed; None exactly where it is the line of none.
#[tactic(auto, unfolding(crate::specs::OptionLines::option_in))]
pub fn parse_option(line: &[u8]) -> Option<TraceOption>
    ensures value { result ≡ option_in line.now }
{
    if line == b"observe contents unknown".as_slice() {
        return Some(TraceOption::ContentsUnknown);
    }
    if line == b"observe statuses any".as_slice() {
        return Some(TraceOption::StatusesAny);
    }
    if !begins(line, b"observe ignore") {
        return None;
    }
    match ignored_in(rest_behind(line, b"observe ignore")) {
        Some(ignored) => Some(TraceOption::Ignore(ignored)),
        None => None,
    }
}
