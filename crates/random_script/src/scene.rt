//! A controller beside the script, which says what each line would do.

use controller_interface::{Answer, Refused, Work};
use history::Config;
use nvme_model::refusal::Why;
use nvme_model::step::Step;
use script_lines::{WrittenLine, step_asked};
use std::alloc::{AllocError as NoMemory, Global};
use step_core::Core;

// A ticket in flight.
#[derive(Clone, Copy)]
struct OwingTicket {
    ticket: u64,
    // completions that it hasn't posted
    owed: u8,
}

/// A controller that makes the steps of the script as it is drawn, and the tickets that it has in flight.
#[derive(Drop)]
pub(crate) struct Scene {
    pub(crate) alloc: Global,
    pub(crate) core: Core,
    flying: Vec<OwingTicket>,
    // tickets so far
    fetched: u64,
}

fn why_of(refused: &Refused) -> Why {
    match refused {
        Refused::Publish(why, _) => *why,
        Refused::Step(why) => *why,
    }
}

impl Scene {
    /// Before the first line.
    pub(crate) fn new(alloc: Global, config: Config) -> Result<Scene, NoMemory> {
        Ok(Scene {
            alloc,
            core: Core::new(alloc, config)?,
            flying: Vec::new(alloc),
            fetched: 0,
        })
    }

    /// How many tickets are in flight.
    pub(crate) fn in_flight(&self) -> usize {
        self.flying.len()
    }

    /// The ticket in flight at this place, counted round and round; 1 where there is none.
    pub(crate) fn ticket_at(&self, place: usize) -> u64 {
        if self.flying.is_empty() {
            return 1;
        }
        self.flying[place % self.flying.len()].ticket
    }

    /// Tickets so far, at most a million.
    pub(crate) fn tickets(&self) -> u32 {
        self.fetched.min(1_000_000) as u32
    }

    // One completion of this ticket was posted; with its last it isn't in flight any more.
    fn posted(&mut self, ticket: u64) {
        for flying in self.flying.iter_mut() {
            if flying.ticket == ticket {
                flying.owed = flying.owed.saturating_sub(1);
            }
        }
        self.flying.retain(|flying| flying.owed > 0);
    }

    // A ticket was fetched.
    fn begun(&mut self, work: &Work) -> Result<(), NoMemory> {
        self.fetched = work.ticket();
        self.flying.push(OwingTicket {
            ticket: work.ticket(),
            owed: work.judged().taken(),
        })?;
        Ok(())
    }

    // Keeps what an accepted step did to the tickets in flight; a Post has this ticket.
    fn note(&mut self, answer: &Answer, ticket: u64) -> Result<(), NoMemory> {
        match answer {
            Answer::Fetched(work) => self.begun(work),
            Answer::Posted(_) => {
                self.posted(ticket);
                Ok(())
            }
            Answer::Published
            | Answer::Granted(_, _, _)
            | Answer::Blocked(_)
            | Answer::Reaped { .. } => Ok(()),
        }
    }

    // Whether a step is accepted; where it is, it is made.
    fn step(&mut self, step: Step, ticket: u64) -> Result<bool, NoMemory> {
        match self.core.step(step) {
            Ok(answer) => {
                self.note(&answer, ticket)?;
                Ok(true)
            }
            Err(refused) => {
                if why_of(&refused) == Why::NoMemory {
                    return Err(NoMemory);
                }
                Ok(false)
            }
        }
    }

    /// Whether the step of a line is accepted; where it is, it is made.
    pub(crate) fn makes(&mut self, line: &WrittenLine) -> Result<bool, NoMemory> {
        let Some(step) = step_asked(self.alloc, line)? else {
            return Ok(true);
        };
        let ticket = match line {
            WrittenLine::Post(ticket) => *ticket,
            WrittenLine::Publish(_)
            | WrittenLine::Fetch(_)
            | WrittenLine::Grant(_)
            | WrittenLine::Block(_)
            | WrittenLine::Reap(_)
            | WrittenLine::Settle
            | WrittenLine::Medium(_) => 0,
        };
        self.step(step, ticket)
    }

    /// Makes each Grant, Block and Post that can be made, until none can.
    pub(crate) fn settle(&mut self) -> Result<(), NoMemory> {
        for _turn in 0..u64::MAX {
            let Some((step, answer)) = self.core.step_ready() else {
                return Ok(());
            };
            let ticket = match step {
                Step::Post(ticket) => ticket,
                Step::Publish(_, _)
                | Step::Fetch(_)
                | Step::Grant(_)
                | Step::Block(_)
                | Step::Reap(_) => 0,
            };
            let Ok(answer) = answer else {
                return Err(NoMemory);
            };
            self.note(&answer, ticket)?;
        }
        Ok(())
    }
}
