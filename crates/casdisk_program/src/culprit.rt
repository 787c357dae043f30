//! What else is said of the first bad step: which step before it has to do with it.

use std::fmt;

/// A unit that ended without a mark, and the line of the file with its last block.
#[derive(Clone, Copy)]
pub struct Unmarked {
    pub unit: u64,
    pub line: u64,
}

/// A unit that is open, with its blocks and the line of its Grant.
#[derive(Clone, Copy)]
pub struct OpenUnit {
    pub ticket: u64,
    pub unit: u64,
    pub slba: u64,
    pub blocks: u32,
    pub line: u64,
}

/// Who wrote a block: a ticket, by the unit with the mark on this line.
#[derive(Clone, Copy)]
pub struct Writer {
    pub ticket: u64,
    pub line: u64,
}

/// An answer of a Compare that isn't right: its block and its line, the first byte that is unlike what is compared, if
/// there is one, and who wrote the block last.
#[derive(Clone, Copy)]
pub struct WrongAnswer {
    pub lba: u64,
    pub line: u64,
    pub unlike: Option<(usize, u8, u8)>,
    pub writer: Option<Writer>,
}

/// What has to do with the first bad step.
#[derive(Clone, Copy)]
pub enum Culprit {
    /// A ticket owes no completion, since this unit of it ended without a mark.
    Unmarked(Unmarked),
    /// A unit may not begin, since this one is open.
    Open(OpenUnit),
    /// A Compare is answered so.
    Answer(WrongAnswer),
    /// Blocks of the unit were answered before, the first wrong one so.
    Earlier(WrongAnswer),
    /// A Compare is told as equal, or the two of a pair as another outcome: this block differs, by this line.
    Differs { lba: u64, line: u64 },
}

// Since when a block holds what it holds.
#[derive(Drop)]
struct Since(Option<Writer>);

impl fmt::Display for Since {
    fn fmt<W: fmt::Write>(&self, f: &mut fmt::Formatter<W>) -> fmt::Result {
        match self.0 {
            Some(writer) => write!(f, "since line {} (ticket {})", writer.line, writer.ticket),
            None => f.write_str("since the start"),
        }
    }
}

impl fmt::Display for WrongAnswer {
    fn fmt<W: fmt::Write>(&self, f: &mut fmt::Formatter<W>) -> fmt::Result {
        let since = Since(self.writer);
        match self.unlike {
            Some((place, held, compared)) => write!(
                f,
                "byte {place} is {held:02X} {since}, compared with {compared:02X}"
            ),
            None => write!(f, "it holds what is compared {since}"),
        }
    }
}

impl fmt::Display for Culprit {
    fn fmt<W: fmt::Write>(&self, f: &mut fmt::Formatter<W>) -> fmt::Result {
        match self {
            Culprit::Unmarked(it) => write!(
                f,
                "unit {} ended without a mark, at line {}",
                it.unit, it.line
            ),
            Culprit::Open(it) => write!(
                f,
                "unit {} of ticket {}, {} blocks from {}, granted at line {}",
                it.unit, it.ticket, it.blocks, it.slba, it.line
            ),
            Culprit::Answer(it) => write!(f, "{it}"),
            Culprit::Differs { lba, line } => write!(f, "block {lba} differs, at line {line}"),
            Culprit::Earlier(it) => write!(f, "that of block {} at line {}: {it}", it.lba, it.line),
        }
    }
}
