//! Why a command failed, in the words that it has always, and in those of `--why`.

use crate::kept::Kept;
use casdisk_texts::RunFault;
use file_commands::{Cause, Grammar, why_bad};
use history::read_config_line;
use nvme_model::config::{ConfigFault, ConfigNumbers};
use std::alloc::Global;
use std::fmt;
use std::io::{Eprint, ErrorKind, Read};
use trace::parse_option;

/// Why a command failed; and the second line about it, where one was asked for and something is known.
#[derive(Drop)]
pub(crate) struct Failed<F> {
    pub(crate) fault: F,
    pub(crate) why: Option<String>,
}

/// Why a command of one file failed.
pub(crate) type Failure = Failed<RunFault>;

impl Failure {
    /// The same, where it is this fault of a command of two files.
    pub(crate) fn told_as<F>(self, fault: F) -> Failed<F> {
        Failed {
            fault,
            why: self.why,
        }
    }
}

impl From<RunFault> for Failure {
    fn from(fault: RunFault) -> Failure {
        Failure { fault, why: None }
    }
}

/// Says why a command failed, and then the second line where there is one; gives this status.
pub(crate) fn end_fault<R: Eprint, F: fmt::Display + Drop>(
    rt: &R,
    fault: F,
    status: u8,
    why: Option<String>,
) -> u8 {
    // (where standard error takes no words, the status says it alone)
    let _ = rt.eprintln(fault);
    if let Some(why) = why {
        let _ = rt.eprintln(why);
    }
    status
}

/// Says why a command failed, and gives the status of its fault.
pub(crate) fn end_failure<R: Eprint>(rt: &R, failure: Failure) -> u8 {
    let Failure { fault, why } = failure;
    end_fault(rt, fault, fault.status(), why)
}

// The system's own cause, in its words where it is one of those that a name gives most often.
#[derive(Drop)]
struct SystemCause(ErrorKind);

impl fmt::Display for SystemCause {
    fn fmt<W: fmt::Write>(&self, f: &mut fmt::Formatter<W>) -> fmt::Result {
        match self.0 {
            ErrorKind::NotFound => f.write_str("No such file or directory"),
            ErrorKind::PermissionDenied => f.write_str("Permission denied"),
            ErrorKind::IsADirectory => f.write_str("Is a directory"),
            ErrorKind::NotADirectory => f.write_str("Not a directory"),
            ErrorKind::StorageFull => f.write_str("No space left on device"),
            other => write!(f, "{other}"),
        }
    }
}

// A word of a line, in quotes, where it is short and has no byte that a terminal takes for something else.
#[derive(Drop)]
struct Quoted<'a>(&'a [u8]);

impl fmt::Display for Quoted<'_> {
    fn fmt<W: fmt::Write>(&self, f: &mut fmt::Formatter<W>) -> fmt::Result {
        f.write_str("\"")?;
        for byte in self.0 {
            if byte.is_ascii_graphic() {
                f.write_char(char::from(*byte))?;
            } else {
                write!(f, "\\x{:02x}", *byte)?;
            }
        }
        f.write_str("\"")
    }
}

// What is the matter with a line that is right by itself.
fn misplaced(alloc: Global, grammar: Grammar, number: u64, text: &[u8]) -> Option<String> {
    if grammar == Grammar::Slice {
        return format!(in alloc;
            "line {number}: blocks rise, and behind them commands, by their queue and their entry"
        ).ok();
    }
    if grammar != Grammar::Trace || parse_option(text).is_none() {
        return None;
    }
    format!(in alloc;
        "line {number}: contents, statuses and ignore stand once each, in this order, before all that was seen, and contents with 15 queue pairs at most"
    ).ok()
}

// The number and the place of a bad line, and why it is none.
fn line_reason(
    alloc: Global,
    grammar: Grammar,
    number: u64,
    text: &[u8],
    fed: bool,
) -> Option<String> {
    if !fed {
        let column = text.len().saturating_add(1);
        return format!(in alloc;
            "line {number}, column {column}: the file ends, due is a line feed"
        ).ok();
    }
    let Some(reason) = why_bad(alloc, grammar, text).ok()? else {
        return misplaced(alloc, grammar, number, text);
    };
    if reason.cause == Cause::NoKind {
        let word = first_word(text);
        return format!(in alloc; "line {number}: no kind of step is called {}", Quoted(word)).ok();
    }
    format!(in alloc; "line {number}, column {}: {}", reason.column, reason.cause).ok()
}

// The first word of a line.
fn first_word(text: &[u8]) -> &[u8] {
    for at in 0..text.len() {
        if text[at] == b' ' {
            return &text[..at];
        }
    }
    text
}

// Which number of a configuration line a fault is about, what it is, and what is due there.
#[derive(Drop)]
struct Refused(ConfigFault, ConfigNumbers);

impl fmt::Display for Refused {
    fn fmt<W: fmt::Write>(&self, f: &mut fmt::Formatter<W>) -> fmt::Result {
        let c = self.1;
        let cut = c.atomic;
        match self.0 {
            ConfigFault::AwunTooLarge => write!(f, "2: AWUN is {}, due is 0 to 255", cut.awun),
            ConfigFault::AcwuTooLarge => write!(f, "3: ACWU is {}, due is 0 to 255", cut.acwu),
            ConfigFault::BoundaryBelowUnit => write!(
                f,
                "4: NABSN is {}, due is 0, or no less than AWUN, {}, and ACWU, {}",
                cut.nabsn, cut.awun, cut.acwu
            ),
            ConfigFault::OffsetPastBoundary => write!(
                f,
                "5: NABO is {}, due is 0 to NABSN, {}",
                cut.nabo, cut.nabsn
            ),
            ConfigFault::Blocks => write!(f, "1: BLOCKS is {}, due is 1 to 65536", c.blocks),
            ConfigFault::Pairs => write!(f, "6: PAIRS is {}, due is 1 to 16", c.pairs),
            ConfigFault::SqSize => write!(f, "7: SQ is {}, due is 2 to 1024", c.sq_size),
            ConfigFault::CqSize => write!(f, "8: CQ is {}, due is 2 to 1024", c.cq_size),
            ConfigFault::Jobs => write!(f, "9: JOBS is {}, due is 1 to 256", c.jobs),
            ConfigFault::CqCount => write!(
                f,
                "10: CQS is {}, due is 1 or more, and less than PAIRS, {}",
                c.cqs, c.pairs
            ),
        }
    }
}

/// What a configuration line that stands there says of the number that is refused.
pub(crate) fn config_reason(alloc: Global, place: &str, line: &[u8], number: u8) -> Option<String> {
    let fault = ConfigFault::of_number(number)?;
    let numbers = read_config_line(alloc, line).ok()?;
    format!(in alloc; "{place}, number {}", Refused(fault, numbers)).ok()
}

// What a file is called that was asked for.
fn name_of(file: &str) -> &str {
    if file == "-" {
        return "standard input";
    }
    file
}

// A file, and why the system didn't do what it was asked there.
fn named_cause(alloc: Global, file: &str, kind: ErrorKind) -> Option<String> {
    format!(in alloc; "casdisk: {}: {}", name_of(file), SystemCause(kind)).ok()
}

/// Why a file wasn't opened.
pub(crate) fn unopened(alloc: Global, file: &str, kind: ErrorKind) -> Failure {
    Failure {
        fault: RunFault::Input,
        why: named_cause(alloc, file, kind),
    }
}

/// Why a file wasn't written.
pub(crate) fn unwritten(alloc: Global, file: &str, kind: ErrorKind) -> Failure {
    Failure {
        fault: RunFault::Output,
        why: named_cause(alloc, file, kind),
    }
}

/// Why what was read of a file failed so: always where it couldn't be read or its configuration is refused, and of a
/// bad line where that is asked for. The lines behind its first are those of `grammar`.
pub(crate) fn failure_of<R: Read + Drop>(
    alloc: Global,
    file: &str,
    read: &Kept<R>,
    grammar: Grammar,
    fault: RunFault,
) -> Failure {
    let why = match fault {
        RunFault::BadLine(number) => bad_line_reason(alloc, read, grammar, number),
        RunFault::BadConfig(number) => config_reason(alloc, "line 1", read.first_line(), number),
        RunFault::Input => match read.failed() {
            Some(kind) => named_cause(alloc, file, kind),
            None => None,
        },
        RunFault::Output | RunFault::NoMemory => None,
    };
    Failure { fault, why }
}

// Which line of this number there has to be, where those behind are of this grammar.
fn grammar_of(behind: Grammar, number: u64) -> Grammar {
    match (behind, number) {
        (Grammar::Slice, 1) => Grammar::RefutationHead,
        (Grammar::Slice, 2) => Grammar::RefutedLines,
        (_, 1) => Grammar::Configuration,
        (_, _) => behind,
    }
}

// Why the line of this number is none, where its text is kept.
fn bad_line_reason<R: Read + Drop>(
    alloc: Global,
    read: &Kept<R>,
    grammar: Grammar,
    number: u64,
) -> Option<String> {
    let line = read.line(number)?;
    line_reason(
        alloc,
        grammar_of(grammar, number),
        number,
        line.text,
        line.fed,
    )
}
