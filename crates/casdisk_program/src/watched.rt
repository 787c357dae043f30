//! A reader that watches the history that it gives, for what else is said of its first bad step.

use crate::contents::Contents;
use crate::culprit::Culprit;
use crate::in_flight::Commands;
use crate::open_units::OpenUnits;
use crate::unmarked::UnmarkedUnits;
use broken_rules::{Broken, Unlike};
use casdisk_texts::Explained;
use history::{BlockLine, Entry, GrantLine, parse_line};
use nvme_model::operation::Found;
use nvme_model::refusal::Why;
use std::alloc::{AllocError as NoMemory, Global};
use std::io::{Read, Result as IoResult};

// Follows a history, up to the first step with which one before it has to do.
#[derive(Drop)]
struct Watcher {
    alloc: Global,
    // what was read of a line
    line: Vec<u8>,
    lines: u64,
    unmarked: UnmarkedUnits,
    commands: Commands,
    units: OpenUnits,
    contents: Contents,
    // the line, and what has to do with it
    found: Option<(u64, Culprit)>,
    // whether a growth was refused; then nothing is known
    lost: bool,
}

impl Watcher {
    fn new(alloc: Global) -> Watcher {
        Watcher {
            alloc,
            line: Vec::new(alloc),
            lines: 0,
            unmarked: UnmarkedUnits::new(alloc),
            commands: Commands::new(alloc),
            units: OpenUnits::new(alloc),
            contents: Contents::new(alloc),
            found: None,
            lost: false,
        }
    }

    fn begin(&mut self, grant: GrantLine) -> Result<Option<Culprit>, NoMemory> {
        self.unmarked.begin(&grant, self.lines)?;
        match self.units.begin(grant, self.lines)? {
            Some(open) => Ok(Some(Culprit::Open(open))),
            None => Ok(None),
        }
    }

    fn make(&mut self, block: BlockLine) -> Result<Option<Culprit>, NoMemory> {
        self.unmarked.make(&block, self.lines);
        if block.found == Found::Differs {
            self.commands
                .note_differs(block.ticket, block.lba, self.lines);
        }
        match self
            .units
            .make(&block, self.lines, &self.commands, &mut self.contents)?
        {
            Some(wrong) => Ok(Some(Culprit::Answer(wrong))),
            None => Ok(None),
        }
    }

    // Follows a step; a step before it that has to do with it, if it is bad.
    fn follow(&mut self, entry: Entry) -> Result<Option<Culprit>, NoMemory> {
        match entry {
            Entry::Publish(line) => self.commands.publish(line)?,
            Entry::Fetch(line) => self.commands.fetch(line)?,
            Entry::Grant(grant) => return self.begin(grant),
            Entry::Block(block) => return self.make(block),
            Entry::Post(post) => {
                if let Some(unmarked) = self.unmarked.of(post.ticket) {
                    return Ok(Some(Culprit::Unmarked(unmarked)));
                }
                if let Some((lba, line)) = self.commands.post(&post) {
                    return Ok(Some(Culprit::Differs { lba, line }));
                }
            }
            Entry::Reap(_) => {}
        }
        Ok(None)
    }

    // Takes the line that was read.
    fn take_line(&mut self) {
        self.lines = self.lines.saturating_add(1);
        // (the configuration, and lines that are none)
        let Ok(entry) = parse_line(self.alloc, self.line.as_slice()) else {
            return;
        };
        match self.follow(entry) {
            Ok(Some(culprit)) => self.found = Some((self.lines, culprit)),
            Ok(None) => {}
            Err(_) => self.lost = true,
        }
    }

    // Watches these bytes.
    fn watch(&mut self, bytes: &[u8]) {
        for byte in bytes {
            if self.lost || self.found.is_some() {
                return;
            }
            if *byte == b'\n' {
                self.take_line();
                self.line.clear();
            } else if self.line.push(*byte).is_err() {
                self.lost = true;
            }
        }
    }

    // What has to do with the first bad step.
    fn culprit_of(&self, explained: Explained) -> Option<Culprit> {
        let Explained::BadAt(step) = explained else {
            return None;
        };
        let (line, culprit) = self.found?;
        if line != step.place.saturating_add(1) {
            return None;
        }
        match (step.broken, culprit) {
            (Broken::NothingOwed { .. }, Culprit::Unmarked(_)) => Some(culprit),
            (Broken::Refused(Why::Conflict), Culprit::Open(_)) => Some(culprit),
            (Broken::Answer { .. }, Culprit::Answer(_)) => Some(culprit),
            (Broken::Completion(Unlike::Status { .. }), Culprit::Differs { .. }) => Some(culprit),
            (Broken::Mark { .. }, Culprit::Answer(wrong)) => Some(Culprit::Earlier(wrong)),
            (_, _) => None,
        }
    }
}

/// A reader that watches the history that it gives: what comes from a pipe can't be read again. It gives what its
/// source gives.
#[derive(Drop)]
pub(crate) struct Watched<R: Read + Drop> {
    pub(crate) source: R,
    watcher: Watcher,
}

impl<R: Read + Drop> Watched<R> {
    pub(crate) fn new(alloc: Global, source: R) -> Watched<R> {
        let watcher = Watcher::new(alloc);
        Watched { source, watcher }
    }

    /// What has to do with the first bad step.
    pub(crate) fn culprit_of(&self, explained: Explained) -> Option<Culprit> {
        self.watcher.culprit_of(explained)
    }
}

impl<R: Read + Drop> Read for Watched<R> {
    ghost remaining = { λ r. R.remaining r.source };

    fn read(&mut self, buf: &mut [u8]) -> IoResult<usize> {
        let count = self.source.read(buf)?;
        self.watcher.watch(&buf[..count]);
        Ok(count)
    }
}
