//! The entries of a file, one a line, judged as they come.

ghost use Rattle.std.specs.Prelude.{◌≡◌, ◌∷◌, [], IfErr, IfOk, IfSome, None, OnErr, OnOk, Some, if◌then◌else◌, true};
ghost use Rattle.std.specs.Io.KnownBytes.{IsAtEnd};
ghost use Rattle.nvme_model.specs.History.{Past};
ghost use Rattle.nvme_model.specs.declared.config.ConfigNumbers.{ConfigNumbers};
ghost use Rattle.broken_rules.specs.Broken.{first_broken};
ghost use Rattle.history_check.specs.Kept.{Stands};
ghost use Rattle.casdisk_texts.specs.Files.{HasHistory, IsUnread};
ghost use Rattle.casdisk_texts.specs.Judged.{HasFirstBad, HasJudged};

use crate::fault::RunFault;
use crate::history_lines::HistoryLines;
use crate::meaning::EntryMeaning;
use crate::watching::Watch;
use broken_rules::Broken;
use history::{Config, Entry};
use history_check::Checker;
use std::alloc::{AllocError as NoMemory, Global};
use std::io::Read;

/// The first entry that may not follow: its place, from 1, and the rule that it breaks first, where that was asked.
#[derive(Clone, Copy)]
pub struct FirstBad {
    pub place: Option<u64>,
    pub broken: Option<Broken>,
}

/// Judges entries, and keeps none of them. Which rule a bad one breaks is asked for where `WHY` is true.
#[derive(Drop)]
pub struct Judge<const WHY: bool> {
    pub checker: Checker,
    /// How many there were.
    pub count: u64,
    pub bad: FirstBad,
}

// The place of an entry that may not follow.
fn bad_place(follows: bool, place: u64) -> Option<u64>
    ensures value { result ≡ (if follows then None else Some place) }
{
    if follows { None } else { Some(place) }
}

impl<const WHY: bool> Judge<WHY> {
    /// One that has judged no entry.
    ///
    /// # Errors
    ///
    /// `NoMemory` where a growth is refused.
    pub fn new(alloc: Global, config: &Config) -> Result<Judge<WHY>, NoMemory>
        ensures begun { IfOk result (λ judge. HasJudged WHY config.now [] judge.checker judge.count judge.bad) }
        ensures none { IfOk result (λ judge. judge.bad.place ≡ None) }
    {
        Ok(Judge {
            checker: Checker::new(alloc, config)?,
            count: 0,
            bad: FirstBad {
                place: None,
                broken: None,
            },
        })
    }

    // The rule that the next entry breaks, where that is asked.
    fn why(&self, entry: &Entry) -> Result<Option<Broken>, NoMemory>
        ensures first { (past : Past) →
            Stands self.now.checker.config past self.now.checker → WHY ≡ true →
            IfOk result (λ b. b ≡ first_broken self.now.checker.config past entry.now) }
    {
        if WHY {
            self.checker.why(entry)
        } else {
            Ok(None)
        }
    }

    /// Judges the next entry.
    ///
    /// # Errors
    ///
    /// `NoMemory` where a growth is refused, or the count can't grow; nothing has changed then.
    pub fn judge(&mut self, entry: &Entry) -> Result<(), NoMemory>
        ensures judged { (c : ConfigNumbers) (past : Past) →
            HasJudged WHY c past self.old.checker self.old.count self.old.bad →
            OnOk result (HasJudged WHY c (entry.now ∷ past) self.new.checker self.new.count self.new.bad) }
        ensures err { OnErr result (self.new ≡ self.old) }
    {
        let Some(count) = self.count.checked_add(1) else {
            return Err(NoMemory);
        };
        if self.bad.place.is_some() {
            self.count = count;
            return Ok(());
        }
        let broken = self.why(entry)?;
        let follows = self.checker.take(entry)?;
        self.count = count;
        self.bad = FirstBad {
            place: bad_place(follows, count),
            broken,
        };
        Ok(())
    }
}

impl<const WHY: bool> EntryMeaning for Judge<WHY> {
    ghost stands = { λ m c past. HasJudged WHY c past m.checker m.count m.bad };

    ghost kept = { λ _. tt };

    fn take_entry(&mut self, entry: Entry) -> Result<(), NoMemory> {
        self.judge(&entry)
    }
}

impl<const WHY: bool> Watch for Judge<WHY> {
    ghost stands = { λ m c past. HasJudged WHY c past m.checker m.count m.bad };

    fn see(&mut self, entry: &Entry) -> Result<(), NoMemory> {
        self.judge(entry)
    }
}

// Reads a configuration line and the lines of a history to the reader's end, and judges the history.
pub(crate) fn judge_text<const WHY: bool, R: Read>(
    alloc: Global,
    reader: &mut R,
) -> Result<FirstBad, RunFault>
    ensures whole { IfOk result (λ bad. IsAtEnd (R.remaining reader.new)
        × IfSome (R.remaining reader.old) (HasHistory (λ c past. HasFirstBad WHY c past bad))) }
    ensures unread { IfErr result (λ fault. IsUnread fault (R.remaining reader.old) (R.remaining reader.new)) }
{
    let mut lines = HistoryLines::begin(alloc, reader)?;
    let Ok(mut judge) = Judge::<WHY>::new(alloc, &lines.config) else {
        return Err(RunFault::NoMemory);
    };
    match lines.take_entries(&mut judge, reader) {
        Ok(()) => Ok(judge.bad),
        Err(fault) => Err(fault),
    }
}
