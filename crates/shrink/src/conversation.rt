//! A conversation about candidates.

ghost use Rattle.std.specs.Prelude.{◌+◌, ◌≡◌, ◌⊎◌, IfErr, IfOk, None, OnOk, Some, [], codes, false, true};
ghost use Rattle.std.specs.Io.KnownBytes.{Appends};
ghost use Rattle.line_text.specs.Lines.{GivesLine};
ghost use Rattle.line_text.specs.declared.lines.NextLine.{NextLine as TheNext};
ghost use Rattle.shrink.specs.declared.question.Unanswered.TheVariants.{NoMemory as NoRoom, Output as NoOutput};
ghost use Rattle.shrink.specs.Talk.{HasNoAnswer, SaysTry, StopsTalk};
ghost use Rattle.shrink.specs.Texts.{answer_word, try_text};

use crate::printing::send_flushed;
use crate::question::{Question, Unanswered};
use crate::text_line::TextLine;
use line_text::{Lines, NextLine, ReadFault};
use std::alloc::{AllocError as NoMemory, Global};
use std::io::{Read, Write};

/// A conversation: candidates go to a writer, and the answers, `fails` or `passes`, are lines of a reader.
#[derive(Drop)]
pub struct Conversation<R, W> {
    pub answers: R,
    pub writer: W,
    /// What was read of the answers and not yet given.
    pub ahead: Lines,
    /// The newest answer.
    pub word: Vec<u8>,
    /// The first line of the script, which no candidate lacks.
    pub first: Vec<u8>,
    /// How many candidates there were.
    pub tries: u64,
    /// The number of the newest candidate that failed; 0 where none did.
    pub failing: u64,
}

impl<R, W> Conversation<R, W> {
    /// Before the first candidate.
    ///
    /// # Errors
    ///
    /// `NoMemory` alone.
    pub fn new(alloc: Global, answers: R, writer: W) -> Result<Conversation<R, W>, NoMemory>
    where
        R: Drop,
        W: Drop,
        ensures begun { IfOk result (λ c. (c.answers ≡ answers) × (c.writer ≡ writer) × (c.ahead ≡ [])
            × (c.tries ≡ 0) × (c.failing ≡ 0)) }
    {
        let ahead = Lines::new(alloc)?;
        Ok(Conversation {
            answers,
            writer,
            ahead,
            word: Vec::new(alloc),
            first: Vec::new(alloc),
            tries: 0,
            failing: 0,
        })
    }
}

// The answer that a word is.
fn answer_of(word: &[u8]) -> Option<bool>
    ensures fails { result ≡ Some true → word.now ≡ codes "fails" }
    ensures passes { result ≡ Some false → word.now ≡ codes "passes" }
    ensures none { result ≡ None → (word.now ≡ codes "fails" → ⊥) × (word.now ≡ codes "passes" → ⊥) }
{
    if word == b"fails".as_slice() {
        return Some(true);
    }
    if word == b"passes".as_slice() {
        return Some(false);
    }
    None
}

impl<R: Read, W: Write> Conversation<R, W> {
    // Reads an answer.
    fn answer(&mut self) -> Result<bool, Unanswered>
        ensures kept { (self.new.writer ≡ self.old.writer) × (self.new.first ≡ self.old.first)
            × (self.new.tries ≡ self.old.tries) × (self.new.failing ≡ self.old.failing) }
        ensures answered { IfOk result (λ fails. GivesLine TheNext.Whole (R.remaining self.old.answers)
            (R.remaining self.new.answers) self.old.ahead self.new.ahead (answer_word fails)) }
        ensures none { IfErr result (HasNoAnswer (R.remaining self.old.answers) (R.remaining self.new.answers)
            self.old.ahead self.new.ahead) }
    {
        match self.ahead.next_line(&mut self.answers, &mut self.word) {
            Err(ReadFault::Input) => return Err(Unanswered::Input),
            Err(ReadFault::NoMemory) => return Err(Unanswered::NoMemory),
            Ok(NextLine::Rest) => return Err(Unanswered::Ended),
            Ok(NextLine::Whole) => {}
        }
        match answer_of(self.word.as_slice()) {
            Some(fails) => Ok(fails),
            None => Err(Unanswered::BadAnswer),
        }
    }

    // Writes a candidate.
    fn ask(&mut self, lines: &[TextLine]) -> Result<(), Unanswered>
        ensures kept { (self.new.answers ≡ self.old.answers) × (self.new.ahead ≡ self.old.ahead)
            × (self.new.first.items ≡ self.old.first.items) × (self.new.failing ≡ self.old.failing) }
        ensures asked { OnOk result (self.new.tries ≡ self.old.tries + 1) }
        ensures fault { IfErr result (λ why. (why ≡ NoOutput) ⊎ (why ≡ NoRoom)) }
        ensures whole { OnOk result (Appends (W.contents self.old.writer) (W.contents self.new.writer)
            (try_text (self.old.tries + 1) self.old.first.items lines.now)) }
    {
        if self.tries == u64::MAX {
            return Err(Unanswered::NoMemory);
        }
        self.tries += 1;
        match send_flushed(self.tries, self.first.as_slice(), lines, &mut self.writer) {
            Ok(()) => Ok(()),
            Err(_) => Err(Unanswered::Output),
        }
    }
}

impl<R: Read, W: Write> Question for Conversation<R, W> {
    ghost asks = { λ c lines fails d. SaysTry W.contents R.remaining c lines fails d };

    ghost stops = { λ c lines why d. StopsTalk W.contents R.remaining c lines why d };

    fn still_fails(&mut self, lines: &[TextLine]) -> Result<bool, Unanswered> {
        self.ask(lines)?;
        let fails = self.answer()?;
        if fails {
            self.failing = self.tries;
        }
        Ok(fails)
    }
}
