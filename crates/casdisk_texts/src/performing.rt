//! What a controller does of the lines of a script.

ghost use Rattle.std.specs.Prelude.{◌≡◌, ◌≤◌, OnOk, OnErr, [], length};
ghost use Rattle.nvme_model.specs.History.{Past};
ghost use Rattle.nvme_model.specs.declared.config.ConfigNumbers.{ConfigNumbers};
ghost use Rattle.nvme_model.specs.declared.entry.Entry.{Entry};
ghost use Rattle.std.specs.Io.KnownBytes.{Appends};
ghost use Rattle.line_text.specs.Known.{AppendsFront};
ghost use Rattle.nvme_model.specs.declared.refusal.Why.{Why as TheWhy};
ghost use Rattle.nvme_model.specs.declared.step.Step.{Step as TheStep};
ghost use Rattle.controller_interface.specs.State.{Serves, ControllerState};
ghost use Rattle.casdisk_texts.specs.Doing.{SaysAll};
ghost use Rattle.casdisk_texts.specs.Doing.{why_of as the_why_of};
ghost use Rattle.casdisk_texts.specs.Said.{all_ready, entry_text, medium_text, refusal_text, script_line, settle_says};
ghost use Rattle.casdisk_texts.specs.Said.{step_says};
ghost use Rattle.std.specs.Prelude.{◌∷◌, ◌≢◌};

use crate::meaning::{LineMeaning, Taken, WriteFault};
use crate::printing::{print_entry, print_medium, print_refusal};
use crate::watching::Watch;
use history::{Kinds, LineFault};
use line_text::send;
use nvme_model::refusal::Why;
use nvme_model::step::Step;
use script_lines::{ScriptLine, read_script_line};
use std::alloc::Global;
use std::io::Write;
use step_core::{Answer, Core, Refused};

/// A controller that does what the lines of a script say, and prints the lines of these kinds. It forgets each step
/// once it is seen by whoever watches, and printed.
#[derive(Drop)]
pub(crate) struct Performer<J: Watch + Drop> {
    pub(crate) alloc: Global,
    pub(crate) core: Core,
    pub(crate) kinds: Kinds,
    pub(crate) watch: J,
    // the text of a line, until it is sent
    pub(crate) text: Vec<u8>,
}

pub(crate) fn why_of(refused: &Refused) -> Why
    ensures { result ≡ the_why_of refused.now }
{
    match refused {
        Refused::Publish(why, _) => *why,
        Refused::Step(why) => *why,
    }
}

// Writes a text at once.
pub(crate) fn send_text<W: Write>(text: &[u8], writer: &mut W) -> Result<(), WriteFault>
    ensures told { OnOk result (Appends (W.contents writer.old) (W.contents writer.new) text.now) }
    ensures stopped { OnErr result (AppendsFront (W.contents writer.old) (W.contents writer.new) text.now) }
{
    match send(writer, text) {
        Ok(()) => Ok(()),
        Err(_) => Err(WriteFault::Output),
    }
}

impl<J: Watch + Drop> Performer<J> {
    // Prints that a step was refused, or stops where it was for want of memory.
    fn tell_refusal<W: Write>(&mut self, why: Why, writer: &mut W) -> Result<(), WriteFault>
        ensures same { (self.new.core ≡ self.old.core) × (self.new.kinds ≡ self.old.kinds) }
        ensures unseen { self.new.watch ≡ self.old.watch }
        ensures told { OnOk result
            (Appends (W.contents writer.old) (W.contents writer.new) (refusal_text self.old.kinds.0 why)) }
        ensures other { OnOk result (why ≢ TheWhy.NoMemory) }
        ensures stopped { OnErr result
            (AppendsFront (W.contents writer.old) (W.contents writer.new) (refusal_text self.old.kinds.0 why)) }
        ensures silent { OnErr result (why ≡ TheWhy.NoMemory →
            Appends (W.contents writer.old) (W.contents writer.new) []) }
    {
        if why == Why::NoMemory {
            return Err(WriteFault::NoMemory);
        }
        self.text.clear();
        if print_refusal(self.kinds, why, &mut self.text).is_err() {
            return Err(WriteFault::NoMemory);
        }
        send_text(self.text.as_slice(), writer)
    }

    // Shows the newest entry, which isn't forgotten, to whoever watches, and prints it.
    fn tell_entry<W: Write>(&mut self, writer: &mut W) -> Result<(), WriteFault>
        ensures same { (self.new.core ≡ self.old.core) × (self.new.kinds ≡ self.old.kinds) }
        ensures told { (e : Entry) (past : Past) → self.old.core.past ≡ e ∷ past →
            self.old.core.forgotten ≤ length past →
            OnOk result (Appends (W.contents writer.old) (W.contents writer.new) (entry_text self.old.kinds.0 e)) }
        ensures stopped { (e : Entry) (past : Past) → self.old.core.past ≡ e ∷ past →
            self.old.core.forgotten ≤ length past → OnErr result
            (AppendsFront (W.contents writer.old) (W.contents writer.new) (entry_text self.old.kinds.0 e)) }
        ensures seen { (e : Entry) (past : Past) → self.old.core.past ≡ e ∷ past →
            self.old.core.forgotten ≤ length past → (c : ConfigNumbers) → J.stands self.old.watch c past →
            OnOk result (J.stands self.new.watch c (e ∷ past)) }
    {
        self.text.clear();
        let Some(entry) = self.core.history().last() else {
            return Ok(());
        };
        if print_entry(self.kinds, entry, &mut self.text).is_err() {
            return Err(WriteFault::NoMemory);
        }
        let Ok(()) = self.watch.see(entry) else {
            return Err(WriteFault::NoMemory);
        };
        send_text(self.text.as_slice(), writer)
    }

    // Prints a block of the volume.
    fn tell_medium<W: Write>(&mut self, lba: u64, writer: &mut W) -> Result<(), WriteFault>
        ensures same { (self.new.core ≡ self.old.core) × (self.new.kinds ≡ self.old.kinds) }
        ensures unseen { self.new.watch ≡ self.old.watch }
        ensures told { OnOk result (Appends (W.contents writer.old) (W.contents writer.new)
            (medium_text self.old.kinds.0 self.old.core.config self.old.core.past lba)) }
        ensures stopped { OnErr result (AppendsFront (W.contents writer.old) (W.contents writer.new)
            (medium_text self.old.kinds.0 self.old.core.config self.old.core.past lba)) }
    {
        self.text.clear();
        if print_medium(self.kinds, &self.core, lba, &mut self.text).is_err() {
            return Err(WriteFault::NoMemory);
        }
        send_text(self.text.as_slice(), writer)
    }

    // Prints how a step was answered: its entry, or that it was refused.
    fn tell_answer<W: Write>(
        &mut self,
        answer: Result<Answer, Refused>,
        writer: &mut W,
    ) -> Result<(), WriteFault>
        ensures same { (self.new.core ≡ self.old.core) × (self.new.kinds ≡ self.old.kinds) }
        ensures done { (before : ControllerState) (step : TheStep) → Serves before step answer self.old.core →
            before.forgotten ≤ length before.past →
            OnOk result (SaysAll (step_says self.old.kinds.0 before.config before.past step) self.new.core.past
            (W.contents writer.old) (W.contents writer.new)) }
        ensures stopped { (before : ControllerState) (step : TheStep) → Serves before step answer self.old.core →
            before.forgotten ≤ length before.past →
            OnErr result (AppendsFront (W.contents writer.old) (W.contents writer.new)
            (step_says self.old.kinds.0 before.config before.past step).1) }
        ensures seen { (before : ControllerState) (step : TheStep) → Serves before step answer self.old.core →
            before.forgotten ≤ length before.past → (c : ConfigNumbers) → J.stands self.old.watch c before.past →
            OnOk result (J.stands self.new.watch c self.new.core.past) }
    {
        match answer {
            Ok(_) => self.tell_entry(writer),
            Err(refused) => self.tell_refusal(why_of(&refused), writer),
        }
    }

    // Makes a step or refuses it, and prints which.
    fn do_step<W: Write>(&mut self, step: Step, writer: &mut W) -> Result<(), WriteFault>
        ensures same { (self.new.core.config ≡ self.old.core.config) × (self.new.kinds ≡ self.old.kinds) }
        ensures done { OnOk result (SaysAll (step_says self.old.kinds.0 self.old.core.config self.old.core.past step)
            self.new.core.past (W.contents writer.old) (W.contents writer.new)) }
        ensures stopped { OnErr result (AppendsFront (W.contents writer.old) (W.contents writer.new)
            (step_says self.old.kinds.0 self.old.core.config self.old.core.past step).1) }
        ensures seen { (c : ConfigNumbers) → J.stands self.old.watch c self.old.core.past →
            OnOk result (J.stands self.new.watch c self.new.core.past) }
    {
        // A read tells the proof that no more were forgotten than there are.
        let _ = self.core.history();
        let answer = self.core.step(step);
        let told = self.tell_answer(answer, writer);
        self.core.forget(usize::MAX);
        told
    }

    // Makes the step that is ready, until there is none.
    fn settle<W: Write>(&mut self, writer: &mut W) -> Result<(), WriteFault>
        ensures same { (self.new.core.config ≡ self.old.core.config) × (self.new.kinds ≡ self.old.kinds) }
        ensures done { OnOk result (SaysAll (settle_says all_ready self.old.kinds.0 self.old.core.config
            self.old.core.past) self.new.core.past (W.contents writer.old) (W.contents writer.new)) }
        ensures stopped { OnErr result (AppendsFront (W.contents writer.old) (W.contents writer.new)
            (settle_says all_ready self.old.kinds.0 self.old.core.config self.old.core.past).1) }
        ensures seen { (c : ConfigNumbers) → J.stands self.old.watch c self.old.core.past →
            OnOk result (J.stands self.new.watch c self.new.core.past) }
    {
        for _turn in 0..u64::MAX {
            let _ = self.core.history();
            let Some((_step, answer)) = self.core.step_ready() else {
                return Ok(());
            };
            self.tell_answer(answer, writer)?;
            self.core.forget(usize::MAX);
        }
        Ok(())
    }
}

impl<J: Watch + Drop> LineMeaning for Performer<J> {
    ghost stands = { λ m c past. (m.core.past ≡ past) × J.stands m.watch c past };

    ghost meaning = { λ m. script_line m.core.config m.kinds.0 };

    fn take_line<W: Write>(&mut self, line: &[u8], writer: &mut W) -> Result<Taken, WriteFault> {
        match read_script_line(self.alloc, line) {
            Err(LineFault::Malformed) => return Ok(Taken::Bad),
            Err(LineFault::NoMemory) => return Err(WriteFault::NoMemory),
            Ok(ScriptLine::Comment) => {}
            Ok(ScriptLine::Step(step)) => self.do_step(step, writer)?,
            Ok(ScriptLine::Settle) => self.settle(writer)?,
            Ok(ScriptLine::Medium(lba)) => self.tell_medium(lba, writer)?,
        }
        Ok(Taken::Done)
    }
}
