//! The text of a history, read whole.

ghost use Rattle.std.specs.Prelude.{◌≡◌, IfErr, IfOk, IfSome, reverse};
ghost use Rattle.std.specs.Io.KnownBytes.{IsAtEnd};
ghost use Rattle.casdisk_texts.specs.Files.{HasHistory, IsUnread};

use crate::fault::RunFault;
use crate::history_lines::HistoryLines;
use crate::meaning::EntryMeaning;
use history::{Config, Entry};
use std::alloc::{AllocError as NoMemory, Global};
use std::io::Read;

/// A configuration, and entries, the oldest first.
#[derive(Drop)]
pub(crate) struct ReadHistory {
    pub(crate) config: Config,
    pub(crate) entries: Vec<Entry>,
}

// Entries are kept, the oldest first.
impl EntryMeaning for Vec<Entry> {
    ghost stands = { λ m c past. m.items ≡ reverse past };

    ghost kept = { λ _. tt };

    fn take_entry(&mut self, entry: Entry) -> Result<(), NoMemory> {
        self.push(entry)?;
        Ok(())
    }
}

// Reads a configuration line and the lines of a history to the reader's end.
pub(crate) fn read_history<R: Read>(alloc: Global, reader: &mut R) -> Result<ReadHistory, RunFault>
    ensures whole { IfOk result (λ told. IsAtEnd (R.remaining reader.new) × IfSome (R.remaining reader.old)
        (HasHistory (λ c past. (c ≡ told.config) × (told.entries.items ≡ reverse past)))) }
    ensures unread { IfErr result (λ fault. IsUnread fault (R.remaining reader.old) (R.remaining reader.new)) }
{
    let mut lines = HistoryLines::begin(alloc, reader)?;
    let config = lines.config;
    let mut entries = Vec::new(alloc);
    match lines.take_entries(&mut entries, reader) {
        Ok(()) => Ok(ReadHistory { config, entries }),
        Err(fault) => Err(fault),
    }
}
