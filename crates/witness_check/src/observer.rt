//! What hosts see of a legal history, entry by entry.

ghost use Rattle.std.specs.Prelude.{◌≡◌, ◌∷◌, [], IfOk, None, OnErr, Some};
ghost use Rattle.nvme_model.specs.Config.{config_fault};
ghost use Rattle.nvme_model.specs.History.{Past};
ghost use Rattle.nvme_model.specs.Legal.{IsLegal};
ghost use Rattle.nvme_model.specs.declared.config.ConfigNumbers.{ConfigNumbers};
ghost use Rattle.nvme_model.specs.declared.entry.Entry.{Entry};
ghost use Rattle.trace.specs.Observed.{shown};
ghost use Rattle.trace.specs.declared.seen.Seen.{Seen};
ghost use Rattle.witness_check.specs.Seeing.{AreWaitingPayloads, seen_of};
ghost use Rattle.witness_check.specs.Waiting.{data_or_none};

use crate::payloads::{Payloads, no_payloads, pop_at, push_at};
use crate::sight::Sight;
use crate::witness::place_of;
use history::{Config, Entry};
use nvme_model::entry::{PostLine, ReapLine};
use nvme_model::submission::Payload;
use std::alloc::{AllocError as NoMemory, Global};
use std::marker::Model;
use trace::ReapedLine;

/// Follows a legal history entry by entry, and says what hosts see of each. It judges nothing and keeps no entry: only
/// the data of the completions that wait.
#[derive(Drop)]
pub struct Observer {
    alloc: Global,
    // by completion queue
    waiting: Vec<Payloads>,
}

impl Model for Observer {
    ghost use Rattle.std.specs.Prelude.{List, ℕ};

    ghost Value = { List (List (List ℕ)) };

    ghost view = { λ o. o.waiting.items };
}

// This data, or none.
fn payload_or_none(alloc: Global, payload: Option<Payload>) -> Payload
    ensures value { result ≡ data_or_none payload }
{
    match payload {
        Some(payload) => payload,
        None => Payload::new(Vec::new(alloc)),
    }
}

impl Observer {
    /// One that has taken no entry.
    ///
    /// # Errors
    ///
    /// `NoMemory` where a growth is refused.
    pub fn new(alloc: Global, config: &Config) -> Result<Observer, NoMemory>
        ensures ok { IfOk result (λ observer. AreWaitingPayloads config.now [] observer) }
    {
        Ok(Observer {
            alloc,
            waiting: no_payloads(alloc, config.numbers().cqs)?,
        })
    }

    // Takes a Post. Its data waits from here on.
    fn take_post(&mut self, line: &PostLine) -> Result<(), NoMemory>
        ensures ok { (c : ConfigNumbers) (past : Past) → config_fault c ≡ None →
            IsLegal c (Entry.Post line.now ∷ past) → AreWaitingPayloads c past self.old →
            IfOk result (λ _. AreWaitingPayloads c (Entry.Post line.now ∷ past) self.new) }
        ensures err { OnErr result (self.new ≡ self.old) }
    {
        let place = place_of(&line.cqe, self.waiting.as_slice().len());
        push_at(
            self.alloc,
            &mut self.waiting,
            place,
            line.payload.as_slice(),
        )?;
        Ok(())
    }

    // Takes a Reap, and gives it with its data.
    fn take_reap(&mut self, line: &ReapLine) -> ReapedLine
        ensures seen { (c : ConfigNumbers) (past : Past) → IsLegal c (Entry.Reap line.now ∷ past) →
            AreWaitingPayloads c past self.old → Some (Seen.Reaped result) ≡ shown c past (Entry.Reap line.now) }
        ensures waits { (c : ConfigNumbers) (past : Past) → IsLegal c (Entry.Reap line.now ∷ past) →
            AreWaitingPayloads c past self.old → AreWaitingPayloads c (Entry.Reap line.now ∷ past) self.new }
    {
        let place = usize::from(line.queue.saturating_sub(1));
        let payload = pop_at(&mut self.waiting, place);
        ReapedLine {
            queue: line.queue,
            cqe: line.cqe,
            payload: payload_or_none(self.alloc, payload),
        }
    }

    /// Takes the next entry, and says what hosts see of it, where the history with it is legal.
    ///
    /// # Errors
    ///
    /// `NoMemory` where a growth is refused; the entry isn't taken, and nothing has changed.
    pub fn take<'a>(&mut self, entry: &'a Entry) -> Result<Sight<'a>, NoMemory>
        ensures seen { (c : ConfigNumbers) (past : Past) → IsLegal c (entry.now ∷ past) →
            AreWaitingPayloads c past self.old → IfOk result (λ s. seen_of s ≡ shown c past entry.entry.now) }
        ensures waits { (c : ConfigNumbers) (past : Past) → config_fault c ≡ None → IsLegal c (entry.now ∷ past) →
            AreWaitingPayloads c past self.old → IfOk result (λ _. AreWaitingPayloads c (entry.now ∷ past) self.new) }
        ensures err { OnErr result (self.new ≡ self.old) }
    {
        match entry {
            Entry::Publish(line) => Ok(Sight::Published(line)),
            Entry::Post(line) => {
                self.take_post(line)?;
                Ok(Sight::Hidden)
            }
            Entry::Reap(line) => Ok(Sight::Reaped(self.take_reap(line))),
            Entry::Fetch(_) | Entry::Grant(_) | Entry::Block(_) => Ok(Sight::Hidden),
        }
    }
}
