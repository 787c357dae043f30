//! The heads of the columns, one a step.

ghost use Rattle.std.specs.Prelude.{◌≡◌, IfOk};
ghost use Rattle.picture_shapes.specs.Picture.{head_of, entry_kind, is_marked};

use crate::picture_words::PictureWords;
use history_words::{Paint, entry_words};
use nvme_model::entry::Entry;
use std::alloc::{AllocError as NoMemory, Global};

/// The kind of an entry.
#[derive(Clone, Copy, Debug, PartialEq, Eq)]
pub enum EntryKind {
    Publish,
    Fetch,
    Grant,
    Block,
    Post,
    Reap,
}

/// The head of a column: the place of its entry, its kind, whether a unit takes effect there, and its line in words.
#[derive(Debug, Drop)]
pub struct Head {
    pub place: u64,
    pub kind: EntryKind,
    pub mark: bool,
    pub words: PictureWords,
}

fn entry_kind(entry: &Entry) -> EntryKind
    ensures value { result ≡ entry_kind entry.now }
{
    match entry {
        Entry::Publish(_) => EntryKind::Publish,
        Entry::Fetch(_) => EntryKind::Fetch,
        Entry::Grant(_) => EntryKind::Grant,
        Entry::Block(_) => EntryKind::Block,
        Entry::Post(_) => EntryKind::Post,
        Entry::Reap(_) => EntryKind::Reap,
    }
}

fn is_marked(entry: &Entry) -> bool
    ensures value { result ≡ is_marked entry.now }
{
    match entry {
        Entry::Block(line) => line.effect,
        Entry::Publish(_) | Entry::Fetch(_) | Entry::Grant(_) | Entry::Post(_) | Entry::Reap(_) =>
            false,
    }
}

/// The head of an entry's column.
pub(crate) fn head_of(alloc: Global, place: u64, entry: &Entry) -> Result<Head, NoMemory>
    ensures value { IfOk result (λ head. head ≡ head_of place entry.now) }
{
    let words = entry_words(alloc, entry, Paint::Plain)?;
    Ok(Head {
        place,
        kind: entry_kind(entry),
        mark: is_marked(entry),
        words: PictureWords::new(words),
    })
}
