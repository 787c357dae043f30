//! Entries and answers of a trace, by its tables.

ghost use Rattle.std.specs.Prelude.{◌≡◌, List, suc, option_copied, reverse, slice_get};
ghost use Rattle.trace.specs.declared.seen.Seen.{Seen};
ghost use Rattle.refutation.specs.Lines.{answer_in, published_in};
ghost use Rattle.refutation.specs.MayAnswer.{are_together};
ghost use Rattle.refutation_check.specs.Answers.{KnowsAnswers, answers_in, are_at_one_line, entry_at, entry_place};
ghost use Rattle.refutation_check.specs.Answers.{reaped_at};

use crate::tables::{EntryCid, EntryNumber, EntryPlace, TraceAnswers, count_of};
use nvme_model::submission::Submission;
use trace::{ReapedLine, Seen};

fn entry_at<'a>(trace: &'a [Seen], place: Option<EntryPlace>) -> Option<&'a Submission>
    ensures { option_copied result ≡ entry_at trace.now place }
{
    let at = place?;
    match trace.get(at.line)? {
        Seen::Published(line) => line.batch.as_slice().get(at.place),
        Seen::Reaped(_) => None,
    }
}

fn reaped_at<'a>(trace: &'a [Seen], number: Option<usize>) -> Option<&'a ReapedLine>
    ensures { option_copied result ≡ reaped_at trace.now number }
{
    match trace.get(number?)? {
        Seen::Published(_) => None,
        Seen::Reaped(line) => Some(line),
    }
}

fn are_at_one_line(first: Option<EntryPlace>, second: Option<EntryPlace>) -> bool
    ensures { result ≡ are_at_one_line first second }
{
    match second {
        None => first.is_none(),
        Some(b) => match first {
            None => false,
            Some(a) => a.line == b.line,
        },
    }
}

impl TraceAnswers {
    /// How many entries are published to a submission queue.
    pub fn count(&self, queue: u16) -> u64
        ensures value { result ≡ (answers_in self.now).published queue }
    {
        count_of(&self.published, queue)
    }

    /// Where an entry of a submission queue is published.
    pub fn place(&self, queue: u16, number: u64) -> Option<EntryPlace>
        ensures value { result ≡ (answers_in self.now).entries queue number }
    {
        self.entries.get(&EntryNumber { queue, number }).copied()
    }

    /// The line that answers an entry of a submission queue, from 0.
    pub fn answer(&self, queue: u16, number: u64) -> Option<usize>
        ensures value { result ≡ (answers_in self.now).answers queue number }
    {
        self.answers.get(&EntryNumber { queue, number }).copied()
    }

    /// The number of the entry that waits under a CID of a submission queue.
    pub fn waiting(&self, queue: u16, cid: u16) -> Option<u64>
        ensures value { result ≡ (answers_in self.now).waiting queue cid }
    {
        self.waiting.get(&EntryCid { queue, cid }).copied()
    }

    /// An entry of a submission queue, of the trace whose tables these are, the oldest line first.
    pub fn entry<'a>(&self, trace: &'a [Seen], queue: u16, number: u64) -> Option<&'a Submission>
        ensures value { KnowsAnswers (reverse trace.now) (answers_in self.now) →
            option_copied result ≡ slice_get (published_in (reverse trace.now) queue) number }
    {
        entry_at(trace, self.place(queue, number))
    }

    /// The completion that answers an entry of a submission queue, of the trace whose tables these are, the oldest line
    /// first.
    pub fn completion<'a>(
        &self,
        trace: &'a [Seen],
        queue: u16,
        number: u64,
    ) -> Option<&'a ReapedLine>
        ensures value { KnowsAnswers (reverse trace.now) (answers_in self.now) →
            option_copied result ≡ answer_in (reverse trace.now) queue number }
    {
        reaped_at(trace, self.answer(queue, number))
    }

    // Where the entry behind this one is published.
    fn place_behind(&self, queue: u16, number: u64) -> Option<EntryPlace>
        ensures value { (trace : List Seen) → KnowsAnswers trace (answers_in self.now) →
            result ≡ entry_place trace queue (suc number) }
    {
        match number.checked_add(1) {
            Some(next) => self.place(queue, next),
            None => None,
        }
    }

    /// The entry behind this one of a submission queue, of the trace whose tables these are, the oldest line first.
    pub fn entry_behind<'a>(
        &self,
        trace: &'a [Seen],
        queue: u16,
        number: u64,
    ) -> Option<&'a Submission>
        ensures value { KnowsAnswers (reverse trace.now) (answers_in self.now) →
            option_copied result ≡ slice_get (published_in (reverse trace.now) queue) (suc number) }
    {
        entry_at(trace, self.place_behind(queue, number))
    }

    /// Whether one line publishes this entry of a submission queue and the next.
    pub fn are_together(&self, queue: u16, number: u64) -> bool
        ensures value { (trace : List Seen) → KnowsAnswers trace (answers_in self.now) →
            result ≡ are_together trace queue number }
    {
        are_at_one_line(self.place(queue, number), self.place_behind(queue, number))
    }
}
