//! The controller: its fields, and how a step reads and changes them.

ghost use Rattle.std.specs.Prelude.{◌≡◌, ◌≤◌, ◌<◌, [], IfOk, IfSome, MatchOption, MatchResult, OnErr, OnOk};
ghost use Rattle.std.specs.Prelude.{false, length, max, min, true};
ghost use Rattle.nvme_model.specs.Kept.{ControllerInvariant};
ghost use Rattle.nvme_model.specs.Legal.{IsLegal};
ghost use Rattle.nvme_model.specs.Medium.{medium};
ghost use Rattle.nvme_model.specs.Refusals.{no_completion_queue, no_queue};
ghost use Rattle.nvme_model.specs.Tickets.{in_flight};
ghost use Rattle.nvme_model.specs.Laws.{is_held};
ghost use Rattle.nvme_model.specs.Value.{value};
ghost use Rattle.nvme_model.specs.declared.refusal.Why.{Why as TheWhy};
ghost use Rattle.step_core.specs.Found.{IsCqRing, IsJob, IsSqRing};
ghost use Rattle.controller_interface.specs.State.{HasPromised, KeepsRoom, LacksRoom};

mod block;
mod data;
mod fetch;
mod grant;
mod next;
mod post;
mod publish;
mod reap;
mod room;
mod steps;

use crate::spare_boxes::SpareBoxes;
use block_array::Volume;
use history::{Config, History};
use job_table::{Job, Jobs};
use nvme_model::refusal::Why;
use range_reserve::Ranges;
use rings::{CidsInUse, CqRing, SqRing, cq_rings, none_in_use, sq_rings};
use std::alloc::{AllocError as NoMemory, Global};
use std::marker::Model;

/// A controller: its volume, queues and tickets, and the history of its accepted steps.
#[derive(Drop)]
pub struct Core {
    alloc: Global,
    config: Config,
    volume: Volume,
    submission: Vec<SqRing>,
    // Of each submission queue.
    in_use: Vec<CidsInUse>,
    completion: Vec<CqRing>,
    jobs: Jobs,
    ranges: Ranges,
    tickets: u64,
    history: History,
    promised: usize,
    spare: SpareBoxes,
}

impl Model for Core {
    ghost use Rattle.std.specs.Prelude.{◌+◌, ◌^◌, ◌<◌, ◌≤◌};
    ghost use Rattle.step_core.specs.Kept.{IsCoreOf};
    ghost use Rattle.controller_interface.specs.State.{ControllerState};

    ghost Value = { ControllerState };

    ghost view = { λ c. record {
      config = c.config;
      past = c.history.past;
      forgotten = c.history.forgotten;
      promised = c.promised;
      room = record { entries = c.history.room; ranges = c.ranges.room };
    } };

    ghost invariant = { λ c.
        IsCoreOf c.config c.history.past (record {
          volume = c.volume;
          submission = c.submission.items;
          in_use = c.in_use.items;
          completion = c.completion.items;
          jobs = c.jobs;
          held = c.ranges.held;
          tickets = c.tickets;
        })
        × (c.promised ≤ c.history.room) × (c.promised ≤ c.ranges.room) × (c.promised + 1 < 2 ^ 64) };
}

impl Core {
    /// A controller of this configuration: its history is empty, and its blocks are zeros.
    ///
    /// # Errors
    ///
    /// `NoMemory` where a growth is refused.
    pub fn new(alloc: Global, config: Config) -> Result<Core, NoMemory>
        ensures ok { IfOk result (λ core.
            core ≡ record { config = config; past = []; forgotten = 0; promised = 0; room = core.room }) }
        ensures kept { IfOk result (λ core. ControllerInvariant core.config core.past) }
    {
        let numbers = config.numbers();
        Ok(Core {
            alloc,
            config,
            volume: Volume::new(alloc, numbers.blocks)?,
            submission: sq_rings(alloc, numbers.pairs, numbers.sq_size)?,
            in_use: none_in_use(alloc, numbers.pairs, 2 * numbers.jobs as usize)?,
            completion: cq_rings(alloc, numbers.cqs, numbers.cq_size)?,
            jobs: Jobs::new(alloc, numbers.jobs as usize)?,
            ranges: Ranges::new(alloc),
            tickets: 0,
            history: History::new(alloc),
            promised: 0,
            spare: SpareBoxes::new(alloc)?,
        })
    }

    /// Its configuration.
    pub fn config(&self) -> Config
        ensures value { result ≡ self.now.config }
    {
        self.config
    }

    /// The block of this number as it lies in the volume, None past the end. Takes no memory.
    pub fn medium(&self, lba: u64) -> Option<&[u8; 512]>
        ensures value { MatchOption result (self.now.config.blocks ≤ lba)
            (λ b. (lba < self.now.config.blocks) × (b.now ≡ medium self.now.past lba)) }
        ensures contents { IfSome result (λ b. is_held self.now.past lba ≡ false → b.now ≡ value self.now.past lba) }
    {
        if lba >= u64::from(self.config.numbers().blocks) {
            return None;
        }
        Some(self.volume.block(lba))
    }

    /// Makes the memory of the next `more` Grants, Blocks and Reaps, so that none of them is refused for want of it.
    ///
    /// # Errors
    ///
    /// `NoMemory` where there was less room and a growth is refused, or for the largest number of all. What is promised
    /// is then as before, and the room is no less.
    pub fn reserve(&mut self, more: usize) -> Result<(), NoMemory>
        ensures ok { OnOk result
            (self.new ≡ record self.old { promised = max self.old.promised more; room = self.new.room }) }
        ensures err { OnErr result (self.new ≡ record self.old { room = self.new.room }) }
        ensures full { OnErr result (LacksRoom self.old.room more) }
        ensures room { KeepsRoom self.old.room self.new.room }
        ensures promise { HasPromised self.new }
        ensures kept { ControllerInvariant self.new.config self.new.past }
    {
        let count = self.promised.max(more);
        self.history.reserve(count)?;
        self.ranges.reserve(count)?;
        if count == usize::MAX {
            return Err(NoMemory);
        }
        self.promised = count;
        Ok(())
    }

    /// Forgets the entries of the history before this place, from 0, the oldest first: their memory is free for others.
    /// Behind the end all are forgotten; what was forgotten before stays so. The places of the others, and what the
    /// next steps do, are as before.
    ///
    /// It costs what it drops and what it leaves, and nothing for what was forgotten before.
    pub fn forget(&mut self, place: usize)
        ensures state { self.new ≡ record self.old {
          forgotten = max self.old.forgotten (min place (length self.old.past));
          room = self.new.room;
        } }
        ensures room { KeepsRoom self.old.room self.new.room }
        ensures kept { ControllerInvariant self.new.config self.new.past }
    {
        self.history.forget(place);
    }

    /// The entries of all accepted steps, the oldest first, but for those that were forgotten.
    pub fn history(&self) -> &History
        ensures past { result.now.past ≡ self.now.past }
        ensures forgotten { result.now.forgotten ≡ self.now.forgotten }
        ensures few { self.now.forgotten ≤ length self.now.past }
        ensures legal { IsLegal self.now.config self.now.past }
        ensures kept { ControllerInvariant self.now.config self.now.past }
        ensures promise { HasPromised self.now }
    {
        // A read tells the proof that no more were forgotten than there are.
        let _ = self.history.forgotten();
        &self.history
    }

    // The ring of this submission queue.
    fn sq_ring(&self, queue: u16) -> Option<&SqRing>
        ensures value { MatchOption result (no_queue self.now.config queue ≡ true)
            (λ r. IsSqRing self.now.config self.now.past queue r.now) }
    {
        if queue == 0 || queue > self.config.numbers().pairs {
            return None;
        }
        Some(&self.submission[queue as usize - 1])
    }

    // The ring of this completion queue.
    fn cq_ring(&self, queue: u16) -> Option<&CqRing>
        ensures value { MatchOption result (no_completion_queue self.now.config queue ≡ true)
            (λ r. IsCqRing self.now.config self.now.past queue r.now) }
    {
        if queue == 0 || queue > self.config.numbers().cqs {
            return None;
        }
        Some(&self.completion[queue as usize - 1])
    }

    // The job of this ticket.
    fn job(&self, ticket: u64) -> Result<&Job, Why>
        ensures value { MatchResult result
            (λ j. IsJob self.now.config self.now.past ticket j.now)
            (λ why. (in_flight self.now.past ticket ≡ false) × (why ≡ TheWhy.NoTicket)) }
    {
        match self.jobs.get(ticket) {
            Some(job) => Ok(job),
            None => Err(Why::NoTicket),
        }
    }
}
