//! What the command line asks for.

ghost use Rattle.std.specs.Prelude.{◌≡◌};
ghost use Rattle.command_line.specs.declared.request.UsageFault.TheVariants.{NoMemory};

use history::Kinds;
use race_numbers::Race;
use std::alloc::AllocError;
use thiserror::Error;

/// An area of slots: `count` blocks of the volume from block `first` on.
#[derive(Clone, Copy, Debug, PartialEq, Eq)]
pub struct SlotArea {
    pub first: u64,
    pub count: u32,
}

/// When lines are coloured.
#[derive(Clone, Copy, Debug, PartialEq, Eq)]
pub enum ColorChoice {
    /// On a terminal, where `NO_COLOR` isn't set.
    Auto,
    Always,
    Never,
}

/// What a run prints behind its configuration line.
#[derive(Clone, Copy, Debug, PartialEq, Eq)]
pub enum Shown {
    /// The lines of these kinds.
    Kinds(Kinds),
    /// The lines of a trace: what hosts see.
    Trace,
}

/// What the words of the command line ask for. Where `why` is true, a second line on standard error says why a command
/// failed; where `quiet` is true, nothing says how far it is; where `json` is true, an answer is a JSON object.
#[derive(Drop)]
pub enum Asked<'a> {
    /// To run the script in this file; where it checks, each step is judged as it is made, and never where its trace is
    /// shown; where it flushes, each line is sent as soon as it is made. It goes on from the history in another file,
    /// where one is named, and never where it checks or shows its trace.
    Run {
        shown: Shown,
        from: Option<&'a str>,
        check: bool,
        flush: bool,
        why: bool,
        file: &'a str,
    },
    /// To check the history in this file; where it follows, as it comes, up to its first bad step, and where there is
    /// an area of slots, the discipline of that area too. It never follows where there is one.
    Check {
        follow: bool,
        area: Option<SlotArea>,
        quiet: bool,
        json: bool,
        why: bool,
        file: &'a str,
    },
    /// To check the history in this file, and the discipline of an area of slots, and say what is wrong with its first
    /// bad line; where it follows, as it comes. It never follows where there is an area.
    Explain {
        follow: bool,
        area: Option<SlotArea>,
        json: bool,
        why: bool,
        file: &'a str,
    },
    /// To compare the history in one file with what hosts saw, in another, which may have been logged with delays.
    Certify {
        delayed: bool,
        json: bool,
        why: bool,
        trace: &'a str,
        history: &'a str,
    },
    /// To compare what is said to refute a trace, in one file, with what hosts saw, in another.
    Refute {
        json: bool,
        why: bool,
        trace: &'a str,
        refutation: &'a str,
    },
    /// To look for a history that explains what hosts saw, in so many steps of search at most, and to write it into one
    /// file, or what refutes them into another.
    Observe {
        witness: Option<&'a str>,
        refutation: Option<&'a str>,
        steps: u64,
        json: bool,
        why: bool,
        trace: &'a str,
    },
    /// To tell the history in this file in words; where it colours, each line in the colour of its kind.
    Tell {
        color: ColorChoice,
        json: bool,
        why: bool,
        file: &'a str,
    },
    /// To draw the steps of the history in this file from one place to another, where none is named from its first or
    /// to its last; with the values of blocks, with an area of slots, and as the witness of the trace in another file.
    Draw {
        from: Option<u64>,
        to: Option<u64>,
        blocks: bool,
        area: Option<SlotArea>,
        trace: Option<&'a str>,
        why: bool,
        file: &'a str,
    },
    /// To write the history in this file as a web page, in which a script shows it.
    Page {
        why: bool,
        file: &'a str,
    },
    /// To print a script of so many lines, which this seed makes; by these numbers of a configuration and of this kind,
    /// where they are named.
    Random {
        seed: u64,
        lines: u64,
        config: Option<&'a str>,
        like: Option<&'a str>,
    },
    /// To make the script in this file small, by questions.
    Shrink {
        why: bool,
        script: &'a str,
    },
    /// To let hosts race, and print the history, or its trace: on threads, or by turns that this seed makes. Where
    /// several seeds are named, to let them race once by each. The weights of the turns are those that are named. So
    /// many of the hosts die.
    Race {
        race: Race,
        crash: Option<u64>,
        seed: Option<u64>,
        seeds: Option<&'a str>,
        bias: Option<&'a str>,
        trace: bool,
        quiet: bool,
        json: bool,
        why: bool,
    },
    /// To print this text, of `--help` or `--version`.
    Show(String),
}

/// Why the words ask for nothing.
#[derive(Debug, Drop, Error)]
pub enum UsageFault {
    /// They are a bad command line, for this reason.
    #[error("{0}")]
    Text(String),
    /// A growth was refused.
    #[error("no memory")]
    NoMemory,
}

impl From<AllocError> for UsageFault {
    ghost from_gives = { λ _ fault. fault ≡ NoMemory };

    fn from(_error: AllocError) -> UsageFault {
        UsageFault::NoMemory
    }
}
