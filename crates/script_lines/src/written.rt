//! Lines of a script, by their words.

use entry_codec::Fuse;
use nvme_model::submission::Payload;

/// The commands that have a name in a script.
#[derive(Clone, Copy, Debug, PartialEq, Eq)]
pub enum CommandWord {
    Flush,
    Write,
    Read,
    Compare,
    WriteZeroes,
}

/// A command on namespace 1, by its name and its numbers.
#[derive(Clone, Copy, Debug, PartialEq, Eq)]
pub struct WrittenCommand {
    pub name: CommandWord,
    pub fuse: Fuse,
    pub cid: u16,
    /// The first block.
    pub slba: u64,
    /// How many blocks, 0's based.
    pub nlb: u16,
}

/// How an entry is spelled, but for its data.
#[derive(Clone, Copy, Debug, PartialEq, Eq)]
pub enum EntryForm {
    /// By the name of its command and four numbers.
    Named(WrittenCommand),
    /// By its 64 bytes, whatever they are.
    Raw([u8; 64]),
}

/// An entry of a `publish` line, with the data beside it.
#[derive(Debug, Drop)]
pub struct WrittenEntry {
    pub form: EntryForm,
    pub payload: Payload,
}

/// The words of a `publish` line of one entry or two.
#[derive(Debug, Drop)]
pub struct PublishWords {
    pub queue: u16,
    pub first: WrittenEntry,
    pub second: Option<WrittenEntry>,
}

/// A line of a script behind its first.
#[derive(Debug, Drop)]
pub enum WrittenLine {
    Publish(PublishWords),
    Fetch(u16),
    Grant(u64),
    Block(u64),
    Post(u64),
    Reap(u16),
    Settle,
    Medium(u64),
}
