//! The commands of a history that are in flight, with their data.

use crate::of_ticket::{OfTicket, place_of};
use entry_codec::decode_sqe;
use history::{FetchLine, PostLine, PublishLine};
use line_text::BLOCK;
use nvme_model::status::Verdict;
use nvme_model::submission::Submission;
use std::alloc::{AllocError as NoMemory, Global};
use std::collections::VecDeque;

/// A command or a fused pair, by its ticket.
#[derive(Drop)]
pub(crate) struct Command {
    pub(crate) ticket: u64,
    pub(crate) is_pair: bool,
    slba: u64,
    // how many completions it owes
    owes: u8,
    // a block that differs, and the line that says so
    differs: Option<(u64, u64)>,
    first: Vec<u8>,
    second: Vec<u8>,
}

/// What is published and not fetched, and what was fetched and isn't answered whole.
#[derive(Drop)]
pub(crate) struct Commands {
    alloc: Global,
    // by the number of the queue
    published: Vec<VecDeque<Submission>>,
    flying: Vec<Command>,
}

// The data for a block, where the first is for block `slba`; less or nothing where the data ends.
fn data_of(bytes: &[u8], slba: u64, lba: u64) -> &[u8] {
    let skipped = u128::from(lba.saturating_sub(slba)) * BLOCK as u128;
    if skipped >= bytes.len() as u128 {
        return &[];
    }
    let rest = &bytes[skipped as usize..];
    if rest.len() <= BLOCK {
        return rest;
    }
    let (first, _) = rest.split_at(BLOCK);
    first
}

impl Command {
    /// What it compares with a block.
    pub(crate) fn compared(&self, lba: u64) -> &[u8] {
        data_of(self.first.as_slice(), self.slba, lba)
    }

    /// What it writes to a block; nothing where that is zeros.
    pub(crate) fn written(&self, lba: u64) -> &[u8] {
        let data = if self.is_pair {
            &self.second
        } else {
            &self.first
        };
        data_of(data.as_slice(), self.slba, lba)
    }
}

impl OfTicket for Command {
    fn ticket(&self) -> u64 {
        self.ticket
    }
}

// The next entry of a queue: where its range begins, and its data.
fn next_of(queue: &mut VecDeque<Submission>) -> Option<(u64, Vec<u8>)> {
    let submission = queue.pop_front()?;
    let slba = decode_sqe(&submission.entry).slba();
    Some((slba, submission.payload.into_vec()))
}

// What a command is answered of which a block differs, and the second of a pair whose first is answered so: 256 times
// the type of the status and its code.
const COMPARE_FAILURE: u16 = 0x285;

const FAILED_FUSED: u16 = 0x009;

// The type and the code of a completion's status, in the same way.
fn status_of(cqe: &[u8; 16]) -> u16 {
    let word = u16::from_le_bytes([cqe[14], cqe[15]]);
    word / 2 % 2048
}

// Whether it is of two commands.
fn is_of_two(verdict: Verdict) -> bool {
    match verdict {
        Verdict::Pair | Verdict::PairFailed(_, _) => true,
        Verdict::Single | Verdict::SingleFailed(_) => false,
    }
}

impl Commands {
    pub(crate) fn new(alloc: Global) -> Commands {
        Commands {
            alloc,
            published: Vec::new(alloc),
            flying: Vec::new(alloc),
        }
    }

    /// Entries are published.
    pub(crate) fn publish(&mut self, line: PublishLine) -> Result<(), NoMemory> {
        let place = usize::from(line.queue);
        for _queue in self.published.len()..place.saturating_add(1) {
            self.published.push(VecDeque::new(self.alloc))?;
        }
        if let Some(queue) = self.published.get_mut(place) {
            for submission in line.batch.into_vec() {
                queue.push_back(submission)?;
            }
        }
        Ok(())
    }

    /// A command or a pair is fetched.
    pub(crate) fn fetch(&mut self, line: FetchLine) -> Result<(), NoMemory> {
        let is_pair = is_of_two(line.verdict);
        let Some(queue) = self.published.get_mut(usize::from(line.queue)) else {
            return Ok(());
        };
        let Some((slba, first)) = next_of(queue) else {
            return Ok(());
        };
        let mut second = Vec::new(self.alloc);
        if is_pair && let Some((_, data)) = next_of(queue) {
            second = data;
        }
        self.flying.push(Command {
            ticket: line.ticket,
            is_pair,
            slba,
            owes: if is_pair { 2 } else { 1 },
            differs: None,
            first,
            second,
        })?;
        Ok(())
    }

    /// This block of a ticket differs.
    pub(crate) fn note_differs(&mut self, ticket: u64, lba: u64, line: u64) {
        if let Some(at) = place_of(self.flying.as_slice(), ticket) {
            self.flying[at].differs = Some((lba, line));
        }
    }

    /// A completion of a ticket is posted; the block that differs, and its line, where the completion says another
    /// status than such a block's.
    pub(crate) fn post(&mut self, line: &PostLine) -> Option<(u64, u64)> {
        let at = place_of(self.flying.as_slice(), line.ticket)?;
        let command = &mut self.flying[at];
        // (the second of a pair tells that the first failed)
        let due = if command.is_pair && command.owes < 2 {
            FAILED_FUSED
        } else {
            COMPARE_FAILURE
        };
        let differs = command.differs;
        command.owes = command.owes.saturating_sub(1);
        if command.owes == 0 {
            self.flying.swap_remove(at);
        }
        if status_of(&line.cqe) == due {
            None
        } else {
            differs
        }
    }

    /// The command of a ticket.
    pub(crate) fn of(&self, ticket: u64) -> Option<&Command> {
        let at = place_of(self.flying.as_slice(), ticket)?;
        Some(&self.flying[at])
    }
}
