//! What a Fetch took: its commands, what they do, and their data.

ghost use Rattle.std.specs.Prelude.{◌≡◌, ◌*◌, ◌-◌, ◌≤◌, ◌∷◌, drop, get_or, length, option_to_list, take};
ghost use Rattle.nvme_model.specs.Array.{zeros};
ghost use Rattle.nvme_model.specs.Operations.{compare_data, has_compare, has_write, mode, op, write_data};
ghost use Rattle.nvme_model.specs.Tickets.{cids, command, first_fields};

use entry_codec::{Sqe, decode_sqe};
use nvme_model::array::Mode;
use nvme_model::operation::Op;
use nvme_model::status::Verdict;
use nvme_model::submission::Submission;
use std::marker::Model;

const ZEROS: [u8; 512] = [0; 512];

/// What a Fetch took, from which queue, and its verdict.
#[derive(Drop)]
pub struct Commands {
    queue: u16,
    verdict: Verdict,
    first: Submission,
    second: Option<Submission>,
}

// Contracts see the ticket.
impl Model for Commands {
    ghost use Rattle.std.specs.Prelude.{◌∷◌, option_to_list};
    ghost use Rattle.nvme_model.specs.Tickets.{Ticket};

    ghost Value = { Ticket };

    ghost view = { λ k. record {
      queue = k.queue;
      commands = k.first ∷ option_to_list k.second;
      verdict = k.verdict;
    } };
}

impl Commands {
    /// One command, or a pair, of this submission queue.
    pub fn new(
        queue: u16,
        verdict: Verdict,
        first: Submission,
        second: Option<Submission>,
    ) -> Commands
        ensures value { result ≡ record { queue = queue; commands = first ∷ option_to_list second; verdict = verdict } }
    {
        Commands {
            queue,
            verdict,
            first,
            second,
        }
    }

    /// How many commands there are, 1 or 2.
    pub fn len(&self) -> u8
        ensures value { result ≡ length self.now.commands }
        ensures most { result ≤ 2 }
    {
        match self.second {
            Some(_) => 2,
            None => 1,
        }
    }

    /// The verdict.
    pub(crate) fn verdict(&self) -> Verdict
        ensures value { result ≡ self.now.verdict }
    {
        self.verdict
    }

    /// The submission queue.
    pub fn queue(&self) -> u16
        ensures value { result ≡ self.now.queue }
    {
        self.queue
    }

    /// The CID of a command by its number, from 0; 0 where there is none.
    pub fn cid_at(&self, number: u8) -> u16
        ensures value { result ≡ get_or (cids self.now) number 0 }
    {
        match (&self.second, number) {
            (_, 0) => decode_sqe(&self.first.entry).cid,
            (Some(second), 1) => decode_sqe(&second.entry).cid,
            _ => 0,
        }
    }

    /// The fields of the first command.
    pub(crate) fn first_fields(&self) -> Sqe
        ensures value { result ≡ first_fields self.now }
    {
        decode_sqe(&self.first.entry)
    }

    /// What it does with its blocks.
    pub(crate) fn op(&self) -> Option<Op>
        ensures value { result ≡ op self.now }
    {
        match self.verdict {
            Verdict::Single => self.first_fields().operation(),
            Verdict::Pair => Some(Op::Pair),
            Verdict::SingleFailed(_) | Verdict::PairFailed(_, _) => None,
        }
    }

    /// How its units hold their blocks.
    pub fn mode(&self) -> Mode
        ensures value { result ≡ mode self.now }
    {
        if has_write(self.op()) {
            Mode::Exclusive
        } else {
            Mode::Shared
        }
    }

    /// What it writes at block `lba`.
    pub(crate) fn write_data(&self, lba: u64) -> &[u8]
        ensures value { result.now ≡ write_data self.now lba }
    {
        let slba = self.first_fields().slba();
        match self.op() {
            Some(Op::WriteZeroes) => zero_block(),
            Some(Op::Pair) => block_of(self.second_payload(), slba, lba),
            Some(Op::Read | Op::Compare | Op::Write) | None => block_of(
                self.first.payload.as_slice(),
                slba,
                lba,
            ),
        }
    }

    // The data beside the second command.
    fn second_payload(&self) -> &[u8]
        ensures value { result.now ≡ (command self.now 1).payload }
    {
        match &self.second {
            Some(second) => second.payload.as_slice(),
            None => &[],
        }
    }

    /// Block `lba` of the Compare's data.
    pub(crate) fn compare_data(&self, lba: u64) -> &[u8]
        ensures value { result.now ≡ compare_data self.now lba }
    {
        block_of(
            self.first.payload.as_slice(),
            self.first_fields().slba(),
            lba,
        )
    }
}

// A block of zeros.
fn zero_block() -> &'static [u8]
    ensures value { result.now ≡ zeros }
{
    &ZEROS
}

/// Whether it writes blocks.
pub(crate) fn has_write(op: Option<Op>) -> bool
    ensures value { result ≡ has_write op }
{
    match op {
        Some(Op::Write | Op::WriteZeroes | Op::Pair) => true,
        Some(Op::Read | Op::Compare) | None => false,
    }
}

/// Whether it compares blocks.
pub(crate) fn has_compare(op: Option<Op>) -> bool
    ensures value { result ≡ has_compare op }
{
    match op {
        Some(Op::Compare | Op::Pair) => true,
        Some(Op::Read | Op::Write | Op::WriteZeroes) | None => false,
    }
}

// The block of data for block `lba`, where the first is for block `slba`; less or nothing where the
// data ends.
fn block_of(bytes: &[u8], slba: u64, lba: u64) -> &[u8]
    ensures value { result.now ≡ take 512 (drop (512 * (lba - slba)) bytes.now) }
{
    let skipped = u128::from(lba.saturating_sub(slba));
    if skipped >= bytes.len() as u128 {
        return &[];
    }
    let start = 512 * skipped;
    if start >= bytes.len() as u128 {
        return &[];
    }
    let rest = &bytes[start as usize..];
    if rest.len() <= 512 {
        return rest;
    }
    let (block, _) = rest.split_at(512);
    block
}
