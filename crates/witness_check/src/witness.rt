//! A history that is compared with what hosts saw, entry by entry.

ghost use Rattle.std.specs.Option.{option_copied};
ghost use Rattle.std.specs.Prelude.{◌≡◌, ◌∷◌, ◌<◌, ◌-◌, ◌%◌, [], IfOk, OnErr, Option, Some, true};
ghost use Rattle.nvme_model.specs.EntryBytes.{cqe_fields};
ghost use Rattle.nvme_model.specs.History.{Past};
ghost use Rattle.nvme_model.specs.declared.config.ConfigNumbers.{ConfigNumbers};
ghost use Rattle.nvme_model.specs.declared.entry.Entry.{Entry};
ghost use Rattle.trace.specs.declared.options.TraceOptions.{TraceOptions};
ghost use Rattle.trace.specs.declared.seen.Seen.{Seen};
ghost use Rattle.witness_check.specs.Differing.{Distinguishes};
ghost use Rattle.witness_check.specs.Followed.{Compares, FollowsHistory, TellsEntry, is_inner};
ghost use Rattle.witness_check.specs.Waiting.{data_or_none};

use crate::difference::Difference;
use crate::payloads::{Payloads, no_payloads, pop_at, push_at};
use crate::same::{publish_differs, reap_differs};
use crate::turn::sqid_of;
use history::{Config, Entry};
use history_check::Checker;
use nvme_model::entry::{PostLine, PublishLine, ReapLine};
use nvme_model::submission::Payload;
use std::alloc::{AllocError as NoMemory, Global};
use std::marker::Model;
use trace::{Seen, TraceOptions};

/// What is said of one more entry of a history, where a trace says something next.
#[derive(Clone, Copy, Debug, PartialEq, Eq)]
pub enum Told {
    /// The entries with this one aren't legal.
    Bad,
    /// They are, and hosts see nothing of it.
    Hidden,
    /// They are, and hosts see what the trace says next.
    Same,
    /// They are, and hosts see something that the trace doesn't say next: this is what differs.
    Unlike(Difference),
}

/// Follows a history entry by entry, and says of each whether it is legal there and is seen as a trace says. It keeps a
/// checker and the data of the completions that wait: no entry, and nothing of the trace.
#[derive(Drop)]
pub struct Witness {
    alloc: Global,
    checker: Checker,
    // by completion queue
    // A checker keeps completions without their data. A Post's data is put here before the checker
    // takes it, so a refused growth changes nothing; which queue a Post is for is read off its
    // SQID.
    waiting: Vec<Payloads>,
}

impl Model for Witness {
    ghost use Rattle.witness_check.specs.Followed.{Followed};

    ghost Value = { Followed };

    ghost view = { λ w. record { checker = w.checker; waiting = w.waiting.items } };
}

// The place of the completion queue of a completion, of so many.
pub(crate) fn place_of(cqe: &[u8; 16], count: usize) -> usize
    ensures value { 0 < count → result ≡ ((cqe_fields cqe.now).sqid - 1) % count }
{
    if count == 0 {
        return 0;
    }
    usize::from(sqid_of(cqe).saturating_sub(1)) % count
}

// What is said of something that hosts see, where this is what differs from what the trace says next.
fn same_or_unlike(difference: Option<Difference>) -> Told
    ensures value { (o : TraceOptions) (s t : Seen) → Distinguishes o s t difference → Compares o (Some s) (Some t)
        result }
{
    match difference {
        None => Told::Same,
        Some(difference) => Told::Unlike(difference),
    }
}

// What is said of a legal Publish.
fn told_publish(options: &TraceOptions, line: &PublishLine, next: Option<&Seen>) -> Told
    ensures value { Compares options.now (Some (Seen.Published line.now)) (option_copied next.entry) result }
{
    match next {
        None => Told::Unlike(Difference::TraceEnds),
        Some(next) => same_or_unlike(publish_differs(options, line, next)),
    }
}

// What is said of a legal Reap with this data.
fn told_reap(
    options: &TraceOptions,
    line: &ReapLine,
    payload: Option<&Payload>,
    next: Option<&Seen>,
) -> Told
    ensures value { Compares options.now (Some (Seen.Reaped (record {
      queue = line.now.queue;
      cqe = line.now.cqe;
      payload = data_or_none (option_copied payload.entry);
    }))) (option_copied next.entry) result }
{
    let Some(next) = next else {
        return Told::Unlike(Difference::TraceEnds);
    };
    match payload {
        None => same_or_unlike(reap_differs(options, line, &[], next)),
        Some(payload) => same_or_unlike(reap_differs(options, line, payload.as_slice(), next)),
    }
}

impl Witness {
    /// One that has taken no entry.
    ///
    /// # Errors
    ///
    /// `NoMemory` where a growth is refused.
    pub fn new(alloc: Global, config: &Config) -> Result<Witness, NoMemory>
        ensures ok { IfOk result (λ witness. FollowsHistory config.now [] witness) }
    {
        Ok(Witness {
            alloc,
            checker: Checker::new(alloc, config)?,
            waiting: no_payloads(alloc, config.numbers().cqs)?,
        })
    }

    // Takes an entry that neither hosts see nor a completion queue.
    fn take_hidden(&mut self, entry: &Entry) -> Result<Told, NoMemory>
        requires inner { is_inner entry.now ≡ true }
        ensures ok { (o : TraceOptions) (c : ConfigNumbers) (past : Past) (next : Option Seen) →
            FollowsHistory c past self.old → IfOk result
            (λ told. TellsEntry o c past entry.now next told × FollowsHistory c (entry.now ∷ past) self.new) }
        ensures err { OnErr result (self.new ≡ self.old) }
    {
        if !self.checker.take(entry)? {
            return Ok(Told::Bad);
        }
        Ok(Told::Hidden)
    }

    // Takes a Post. Its data waits from here on.
    fn take_post(&mut self, entry: &Entry, line: &PostLine) -> Result<Told, NoMemory>
        requires same { entry.now ≡ Entry.Post line.now }
        ensures ok { (o : TraceOptions) (c : ConfigNumbers) (past : Past) (next : Option Seen) →
            FollowsHistory c past self.old → IfOk result
            (λ told. TellsEntry o c past entry.now next told × FollowsHistory c (entry.now ∷ past) self.new) }
        ensures err { OnErr result (self.new ≡ self.old) }
    {
        let place = place_of(&line.cqe, self.waiting.as_slice().len());
        push_at(
            self.alloc,
            &mut self.waiting,
            place,
            line.payload.as_slice(),
        )?;
        if !self.checker.take(entry)? {
            return Ok(Told::Bad);
        }
        Ok(Told::Hidden)
    }

    // Takes a Reap, and lets its data go.
    fn take_reap(
        &mut self,
        options: &TraceOptions,
        entry: &Entry,
        line: &ReapLine,
        next: Option<&Seen>,
    ) -> Result<Told, NoMemory>
        requires same { entry.now ≡ Entry.Reap line.now }
        ensures ok { (c : ConfigNumbers) (past : Past) → FollowsHistory c past self.old → IfOk result
            (λ told. TellsEntry options.now c past entry.now (option_copied next.entry) told
            × FollowsHistory c (entry.now ∷ past) self.new) }
        ensures err { OnErr result (self.new ≡ self.old) }
    {
        if !self.checker.take(entry)? {
            return Ok(Told::Bad);
        }
        let place = usize::from(line.queue.saturating_sub(1));
        let payload = pop_at(&mut self.waiting, place);
        Ok(told_reap(options, line, payload.as_ref(), next))
    }

    /// Takes the next entry, and says whether the entries with it are legal and, where hosts see it, whether the trace
    /// says the same next, as these options read it.
    ///
    /// # Errors
    ///
    /// `NoMemory` where a growth is refused; the entry isn't taken, and nothing has changed.
    pub fn take(
        &mut self,
        options: &TraceOptions,
        entry: &Entry,
        next: Option<&Seen>,
    ) -> Result<Told, NoMemory>
        ensures ok { (c : ConfigNumbers) (past : Past) → FollowsHistory c past self.old → IfOk result
            (λ told. TellsEntry options.now c past entry.now (option_copied next.entry) told
            × FollowsHistory c (entry.now ∷ past) self.new) }
        ensures err { OnErr result (self.new ≡ self.old) }
    {
        match entry {
            Entry::Post(line) => self.take_post(entry, line),
            Entry::Reap(line) => self.take_reap(options, entry, line, next),
            Entry::Publish(line) => {
                if !self.checker.take(entry)? {
                    return Ok(Told::Bad);
                }
                Ok(told_publish(options, line, next))
            }
            Entry::Fetch(_) | Entry::Grant(_) | Entry::Block(_) => self.take_hidden(entry),
        }
    }
}
