//! Why no history was found, as far as the search saw. Nothing is promised of it.

use trace_walk::Unfit;

/// What is the matter with the last of the first lines for which no history was found.
#[derive(Clone, Copy, Debug, PartialEq, Eq)]
pub enum Obstacle {
    /// The line itself can't be so.
    Unfit(Unfit),
    /// No completion before it says that there is room.
    NoRoom,
    /// No command with this identifier is out.
    NoCommand,
    /// Its SQHD is no number of entries that can have been fetched.
    Head,
    /// The command can't end with this status, or this data.
    Status,
    /// A Read found in this block what nobody wrote there.
    Value(u64),
    /// No order of Fetches, effects and completions gives it.
    Order,
}

/// What a command is called.
#[derive(Clone, Copy, Debug, PartialEq, Eq)]
pub enum CommandName {
    Flush,
    Write,
    Read,
    Compare,
    WriteZeroes,
    Other,
}

/// Why no history was found.
#[derive(Clone, Copy, Debug, Drop, PartialEq, Eq)]
pub struct Unexplained {
    /// For so many first lines of the trace, the fewest, none was found.
    pub lines: usize,
    pub why: Obstacle,
    /// The submission queue, from 1, and the identifier of the command that the last of them is for.
    pub queue: u16,
    pub cid: u16,
    pub command: CommandName,
    /// The number of the line, from 1, at which it was published.
    pub published: usize,
}
