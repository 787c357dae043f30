//! The lines of a history, read as entries one at a time.

ghost use Rattle.std.specs.Prelude.{◌≡◌, IfErr, IfOk, List, Option, [], ℕ};
ghost use Rattle.nvme_model.specs.History.{Past};
ghost use Rattle.casdisk_texts.specs.Entries.{GivesEntry, IsBegun, IsReadTo, ReadsHistory};
ghost use Rattle.casdisk_texts.specs.Files.{IsUnread};
ghost use Rattle.casdisk_texts.specs.Followed.{StopsFirst};

use crate::fault::RunFault;
use crate::first_line::read_first;
use crate::meaning::EntryMeaning;
use crate::running::read_fault;
use history::{Config, Entry, LineFault, parse_line};
use line_text::{Lines, NextLine};
use std::alloc::Global;
use std::io::Read;

/// The lines of a history behind the first, which was read: the configuration.
#[derive(Drop)]
pub struct HistoryLines {
    alloc: Global,
    pub config: Config,
    pub lines: Lines,
    // the line that was read last
    line: Vec<u8>,
}

impl HistoryLines {
    /// Reads the first line, and its configuration.
    ///
    /// # Errors
    ///
    /// `BadLine(1)` where it is no configuration line, `BadConfig` with the fault's number, `Input`, and `NoMemory`.
    pub fn begin<R: Read>(alloc: Global, reader: &mut R) -> Result<HistoryLines, RunFault>
        ensures begun { IfOk result
            (λ h. IsBegun h.config (R.remaining reader.old) (R.remaining reader.new) h.lines) }
        ensures unread { IfErr result (λ f. IsUnread f (R.remaining reader.old) (R.remaining reader.new)) }
        ensures first { IfErr result (λ f. StopsFirst f (R.remaining reader.old) (R.remaining reader.new)) }
    {
        let Ok(mut lines) = Lines::new(alloc) else {
            return Err(RunFault::NoMemory);
        };
        let mut line = Vec::new(alloc);
        let config = read_first(alloc, &mut lines, &mut line, reader)?;
        Ok(HistoryLines {
            alloc,
            config,
            lines,
            line,
        })
    }

    // The entry of the next line, which has this number; None at the reader's end.
    pub(crate) fn next_entry<R: Read>(
        &mut self,
        number: u64,
        reader: &mut R,
    ) -> Result<Option<Entry>, RunFault>
        ensures given { (past : Past) (input : Option (List ℕ)) →
            IsReadTo past number input (R.remaining reader.old) self.old.lines →
            GivesEntry past number result input (R.remaining reader.new) self.new.lines }
    {
        match self.lines.next_line(reader, &mut self.line) {
            Err(fault) => return Err(read_fault(fault)),
            Ok(NextLine::Rest) => {
                if self.line.is_empty() {
                    return Ok(None);
                }
                return Err(RunFault::BadLine(number));
            }
            Ok(NextLine::Whole) => {}
        }
        match parse_line(self.alloc, self.line.as_slice()) {
            Ok(entry) => Ok(Some(entry)),
            Err(LineFault::Malformed) => Err(RunFault::BadLine(number)),
            Err(LineFault::NoMemory) => Err(RunFault::NoMemory),
        }
    }

    /// Gives the entries of all lines to what takes them, to the reader's end or to the first bad line.
    ///
    /// # Errors
    ///
    /// `BadLine` with the number of the first line that may not stand there, `Input`, where no line that was read is
    /// bad, and `NoMemory`. A line whose number doesn't fit 64 bits is `NoMemory` too.
    pub fn take_entries<T: EntryMeaning, R: Read>(
        &mut self,
        taker: &mut T,
        reader: &mut R,
    ) -> Result<(), RunFault>
        ensures takes { (input : Option (List ℕ)) →
            IsBegun self.old.config input (R.remaining reader.old) self.old.lines →
            T.stands taker.old self.old.config [] →
            ReadsHistory (λ c past. (c ≡ self.old.config) × T.stands taker.new c past) result input
            (R.remaining reader.new) }
        ensures kept { T.kept taker.new ≡ T.kept taker.old }
    {
        for number in 2..u64::MAX {
            let entry = match self.next_entry(number, reader) {
                Ok(Some(entry)) => entry,
                Ok(None) => return Ok(()),
                Err(fault) => return Err(fault),
            };
            match taker.take_entry(entry) {
                Ok(()) => {}
                Err(_) => return Err(RunFault::NoMemory),
            }
        }

        // The number of a line can't grow any more.
        Err(RunFault::NoMemory)
    }
}
