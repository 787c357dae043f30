//! A controller that makes the entries of a history once more.

ghost use Rattle.std.specs.Prelude.{◌≡◌, ◌≢◌, ◌≤◌, ◌∷◌, IfOk, None, OnErr, OnOk, Some, length};
ghost use Rattle.nvme_model.specs.History.{Past};
ghost use Rattle.nvme_model.specs.History.{step_of as the_step_of};
ghost use Rattle.nvme_model.specs.declared.config.ConfigNumbers.{ConfigNumbers};
ghost use Rattle.nvme_model.specs.declared.entry.Entry.{Entry};
ghost use Rattle.nvme_model.specs.declared.refusal.Why.{Why as TheWhy};
ghost use Rattle.history.specs.Lines.{HasLine, entry_in, entry_line};
ghost use Rattle.casdisk_texts.specs.Doing.{why_of as the_why_of};
ghost use Rattle.casdisk_texts.specs.Remade.{HasRemade, MakesAgain, MakesEntry, RemakesNext, StopsRemaking};
ghost use Rattle.casdisk_texts.specs.Remade.{remade_line};

use crate::meaning::{LineMeaning, Taken, WriteFault};
use crate::performing::{send_text, why_of};
use crate::printing::kind_of;
use history::{Entry, Kinds, LineFault, parse_line, shows, write_line};
use nvme_model::refusal::Why;
use nvme_model::step::Step;
use nvme_model::submission::Submissions;
use std::alloc::{AllocError as NoMemory, Global};
use std::io::Write;
use step_core::{Core, Refused};

/// A controller that makes the entries of a history once more, and prints the lines of these kinds, up to the first
/// that it makes otherwise. It forgets each step once it is printed.
#[derive(Drop)]
pub(crate) struct Remaker {
    pub(crate) alloc: Global,
    pub(crate) core: Core,
    pub(crate) kinds: Kinds,
    // the line of the step that was made last
    pub(crate) text: Vec<u8>,
    // the first place, from 1, at which it did something else
    pub(crate) other: Option<u64>,
}

// The step of an entry.
fn step_of(entry: Entry) -> Step
    ensures value { result ≡ the_step_of entry }
{
    match entry {
        Entry::Publish(line) => {
            Step::Publish(line.queue, Submissions::new(line.batch.into_vec()))
        }
        Entry::Fetch(line) => Step::Fetch(line.queue),
        Entry::Grant(line) => Step::Grant(line.ticket),
        Entry::Block(line) => Step::Block(line.ticket),
        Entry::Post(line) => Step::Post(line.ticket),
        Entry::Reap(line) => Step::Reap(line.queue),
    }
}

// Whether a step was refused for a cause, and not for want of memory.
fn is_for_cause(refused: &Refused) -> Result<(), NoMemory>
    ensures cause { OnOk result (the_why_of refused.now ≢ TheWhy.NoMemory) }
{
    if why_of(refused) == Why::NoMemory {
        return Err(NoMemory);
    }
    Ok(())
}

impl Remaker {
    // Leaves the line of the newest entry in `text`.
    fn write_last(&mut self) -> Result<(), NoMemory>
        ensures same { (self.new.core ≡ self.old.core) × (self.new.kinds ≡ self.old.kinds)
            × (self.new.other ≡ self.old.other) }
        ensures line { (e : Entry) (past : Past) → self.old.core.past ≡ e ∷ past →
            self.old.core.forgotten ≤ length past → OnOk result ((self.new.text.items ≡ entry_line e) × HasLine e) }
    {
        self.text.clear();
        let Some(entry) = self.core.history().last() else {
            return Ok(());
        };
        match write_line(entry, &mut self.text) {
            Ok(()) => Ok(()),
            Err(_) => Err(NoMemory),
        }
    }

    // Makes this step, and leaves the line of what it added in `text`. False where it was refused.
    fn make(&mut self, step: Step) -> Result<bool, NoMemory>
        ensures same { (self.new.core.config ≡ self.old.core.config) × (self.new.kinds ≡ self.old.kinds)
            × (self.new.other ≡ self.old.other) }
        ensures made { IfOk result (λ made. MakesAgain self.old.core.config self.old.core.past step made
            self.new.core.past self.new.text.items) }
    {
        // A read tells the proof that no more were forgotten than there are.
        let _ = self.core.history();
        match self.core.step(step) {
            Ok(_) => self.write_last()?,
            Err(refused) => {
                is_for_cause(&refused)?;
                return Ok(false);
            }
        }
        self.core.forget(usize::MAX);
        Ok(true)
    }

    // Makes the step of an entry that has this line. Says whether it added just that entry, whose line is then in
    // `text`.
    fn make_entry(&mut self, entry: Entry, line: &[u8]) -> Result<bool, NoMemory>
        ensures same { (self.new.core.config ≡ self.old.core.config) × (self.new.kinds ≡ self.old.kinds)
            × (self.new.other ≡ self.old.other) }
        ensures made { entry_in line.now ≡ Some entry → IfOk result (λ again. MakesEntry self.old.core.config
            self.old.core.past entry again self.new.core.past self.new.text.items) }
    {
        let made = self.make(step_of(entry))?;
        if !made {
            return Ok(false);
        }
        Ok(self.text.as_slice() == line)
    }

    // The same, and prints the line where it is that entry.
    fn remake<W: Write>(
        &mut self,
        entry: Entry,
        line: &[u8],
        writer: &mut W,
    ) -> Result<(), WriteFault>
        ensures same { (self.new.core.config ≡ self.old.core.config) × (self.new.kinds ≡ self.old.kinds) }
        ensures done { (c : ConfigNumbers) (past : Past) → HasRemade c past self.old.core self.old.other →
            self.old.other ≡ None → entry_in line.now ≡ Some entry → OnOk result (RemakesNext c self.old.kinds.0 past
            entry self.new.core self.new.other (W.contents writer.old) (W.contents writer.new)) }
        ensures stopped { (c : ConfigNumbers) (past : Past) → HasRemade c past self.old.core self.old.other →
            self.old.other ≡ None → entry_in line.now ≡ Some entry → OnErr result (StopsRemaking c self.old.kinds.0 past
            entry (W.contents writer.old) (W.contents writer.new)) }
    {
        let Some(place) = (self.core.history().len() as u64).checked_add(1) else {
            return Err(WriteFault::NoMemory);
        };
        let shown = shows(self.kinds, kind_of(&entry));
        let Ok(again) = self.make_entry(entry, line) else {
            return Err(WriteFault::NoMemory);
        };
        if !again {
            self.other = Some(place);
            return Ok(());
        }
        if !shown {
            return Ok(());
        }
        let Ok(()) = self.text.push(b'\n') else {
            return Err(WriteFault::NoMemory);
        };
        send_text(self.text.as_slice(), writer)
    }
}

impl LineMeaning for Remaker {
    ghost stands = { λ m c past. HasRemade c past m.core m.other };

    ghost meaning = { λ m. remade_line m.core.config m.kinds.0 };

    fn take_line<W: Write>(&mut self, line: &[u8], writer: &mut W) -> Result<Taken, WriteFault> {
        let entry = match parse_line(self.alloc, line) {
            Ok(entry) => entry,
            Err(LineFault::Malformed) => return Ok(Taken::Bad),
            Err(LineFault::NoMemory) => return Err(WriteFault::NoMemory),
        };
        if self.other.is_none() {
            self.remake(entry, line, writer)?;
        }
        Ok(Taken::Done)
    }
}
