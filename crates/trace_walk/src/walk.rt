//! A history that is being made, and what it has made of the volume.

use crate::fitting::wanted_completion;
use crate::numbers::{number_at, zeros};
use crate::tables::{Line, OPEN, TraceTables};
use crate::ticket::{SoughtOp, SoughtTicket};
use entry_codec::Status;
use nvme_model::array::Range;
use std::alloc::{AllocError as NoMemory, Global};

/// One step of a history in which each unit is one step.
#[derive(Clone, Copy)]
pub enum Move {
    /// The next line of the trace.
    Line,
    /// A Fetch from this submission queue.
    Fetch(usize),
    /// The unit of this ticket: its number, its blocks, and how many are equal, of a comparing one, before one differs.
    Unit(usize, u64, Range, u32),
    /// A completion, of all that are reaped, of this ticket, which had so many before and stood at this place among
    /// those in flight.
    Post(usize, usize, u8, usize),
}

/// What can be done next.
#[derive(Clone, Copy)]
pub enum Choice {
    Line,
    /// A Fetch from this submission queue.
    Fetch(usize),
    /// A Fetch from this submission queue, of an entry that was refused.
    Refuse(usize),
    /// The next unit of this ticket.
    Unit(usize),
    /// The next unit of this ticket, which compares: so many blocks are equal before one differs, and what is open of
    /// them is fixed so.
    Compared(usize, u32),
    /// The next completion of this completion queue, of this ticket.
    Post(usize, usize),
}

/// What a step fixed of what a block held at the beginning.
#[derive(Clone, Copy)]
pub struct Fixed {
    /// The step.
    pub(crate) step: usize,
    pub block: u64,
    pub value: u64,
    /// Whether the block held this value, or another one.
    pub held: bool,
}

/// A history that is being made.
#[derive(Drop)]
pub struct Walk {
    pub alloc: Global,
    // how many lines of the trace were taken
    pub at: usize,
    // by submission queue
    pub published: Vec<usize>,
    pub fetched: Vec<usize>,
    pub answered: Vec<usize>,
    // by completion queue
    pub posted: Vec<usize>,
    pub reaped: Vec<usize>,
    pub tickets: Vec<SoughtTicket>,
    pub in_flight: Vec<usize>,
    // by block: its value, and the place of who wrote it
    pub(crate) values: Vec<u64>,
    pub(crate) writers: Vec<usize>,
    // a number of all those values, and of those of each 64th block
    pub(crate) sum: u64,
    pub(crate) sums: Vec<u64>,
    // by place: how many are still to find that value
    pub left: Vec<usize>,
    pub(crate) moves: Vec<Move>,
    // what lay in the blocks that were written, the newest last
    pub(crate) covered: Vec<(u64, usize)>,
    // what of the beginning was fixed, the newest last
    pub(crate) fixed: Vec<Fixed>,
    // whether what some block held is open
    pub(crate) has_open: bool,
    // identifiers in use, while a Fetch is judged
    pub(crate) in_use: Vec<u16>,
}

fn left_of(alloc: Global, tables: &TraceTables) -> Result<Vec<usize>, NoMemory> {
    let mut left = Vec::new(alloc);
    for need in tables.needs.as_slice() {
        left.push(need.finders)?;
    }
    Ok(left)
}

fn no_sums(alloc: Global) -> Result<Vec<u64>, NoMemory> {
    let mut sums = Vec::new(alloc);
    for _ in 0..64 {
        sums.push(0)?;
    }
    Ok(sums)
}

// Whether the completion of a comparing ticket says Compare Failure.
fn has_to_fail(tables: &TraceTables, ticket: &SoughtTicket) -> bool {
    match wanted_completion(tables, ticket) {
        Some(completion) => ticket.compares() && completion.cqe.status == Status::COMPARE_FAILURE,
        None => false,
    }
}

impl Walk {
    pub fn new(alloc: Global, tables: &TraceTables) -> Result<Walk, NoMemory> {
        let pairs = usize::from(tables.numbers.pairs);
        let cqs = usize::from(tables.numbers.cqs);
        let mut values = Vec::new(alloc);
        let mut writers = Vec::new(alloc);
        let mut has_open = false;
        for block in 0..tables.numbers.blocks {
            let value = tables.first(u64::from(block));
            has_open = has_open || value == OPEN;
            values.push(value)?;
            writers.push(usize::MAX)?;
        }
        Ok(Walk {
            alloc,
            at: 0,
            published: zeros(alloc, pairs)?,
            fetched: zeros(alloc, pairs)?,
            answered: zeros(alloc, pairs)?,
            posted: zeros(alloc, cqs)?,
            reaped: zeros(alloc, cqs)?,
            tickets: Vec::new(alloc),
            in_flight: Vec::new(alloc),
            values,
            writers,
            sum: 0,
            sums: no_sums(alloc)?,
            left: left_of(alloc, tables)?,
            moves: Vec::new(alloc),
            covered: Vec::new(alloc),
            fixed: Vec::new(alloc),
            has_open,
            in_use: Vec::new(alloc),
        })
    }

    /// The ticket with this number, from 0.
    pub fn ticket(&self, number: usize) -> Option<SoughtTicket> {
        self.tickets.get(number).copied()
    }

    /// The steps that were made, the oldest first.
    pub fn moves(&self) -> &[Move] {
        self.moves.as_slice()
    }

    /// What was fixed of the beginning, the oldest first.
    pub fn fixed(&self) -> &[Fixed] {
        self.fixed.as_slice()
    }

    /// Whether what each of these blocks holds is known.
    pub fn is_known(&self, range: &Range) -> bool {
        if !self.has_open {
            return true;
        }
        for k in 0..range.blocks {
            if self.value(range.slba.saturating_add(u64::from(k))) == OPEN {
                return false;
            }
        }
        true
    }

    // Whether a block whose beginning is open can have held this value.
    fn may_hold(&self, block: u64, value: u64) -> bool {
        for one in self.fixed.as_slice() {
            if one.block == block && one.value == value && !one.held {
                return false;
            }
        }
        true
    }

    /// The value of a block.
    pub fn value(&self, block: u64) -> u64 {
        let place = block.min(65_536) as usize;
        self.values.get(place).copied().unwrap_or(0)
    }

    /// The place of who wrote a block last.
    pub fn writer(&self, block: u64) -> usize {
        let place = block.min(65_536) as usize;
        self.writers.get(place).copied().unwrap_or(usize::MAX)
    }

    /// The next line of the trace.
    pub fn line(&self, tables: &TraceTables) -> Option<Line> {
        tables.lines.get(self.at).copied()
    }

    /// Whether the next Post to this completion queue has room.
    pub fn has_room(&self, tables: &TraceTables, cq: usize) -> bool {
        let posted = number_at(&self.posted, cq);
        let waiting = posted.saturating_sub(number_at(&self.reaped, cq));
        waiting.saturating_add(1) < usize::from(tables.numbers.cq_size)
    }

    /// The blocks of the next unit of a ticket.
    pub fn next_unit(&self, tables: &TraceTables, ticket: &SoughtTicket) -> Option<Range> {
        if !ticket.has_unit() || ticket.next > 65_535 {
            return None;
        }
        if ticket.kind == SoughtOp::Pair {
            return Some(ticket.range);
        }
        let end = ticket.next.saturating_add(u64::from(ticket.left));
        if end > 65_536 || ticket.left == 0 {
            return None;
        }
        tables.units.cut(ticket.next, ticket.left).next()
    }

    /// Whether so many of these blocks can have the values that a ticket is to find, before one has another.
    pub fn may_be_equal(
        &self,
        tables: &TraceTables,
        ticket: &SoughtTicket,
        range: &Range,
        equal: u32,
    ) -> bool {
        let Some(place) = ticket.finds else {
            return false;
        };
        for k in 0..range.blocks.min(equal.saturating_add(1)) {
            let block = range.slba.saturating_add(u64::from(k));
            let due = tables.value(place.saturating_add(ticket.behind(block)));
            let value = self.value(block);
            let may_hold = value == due || value == OPEN && self.may_hold(block, due);
            if k < equal && !may_hold || k == equal && value == due {
                return false;
            }
        }
        true
    }

    /// How many of these blocks have the values that a ticket is to find, before one has another.
    pub fn equal(&self, tables: &TraceTables, ticket: &SoughtTicket, range: &Range) -> u32 {
        let Some(place) = ticket.finds else {
            return 0;
        };
        let first = place.saturating_add(ticket.behind(range.slba));
        for k in 0..range.blocks {
            let due = tables.value(first.saturating_add(k as usize));
            let block = range.slba.saturating_add(u64::from(k));
            let value = self.value(block);
            let open = value == OPEN && !has_to_fail(tables, ticket) && self.may_hold(block, due);
            if value != due && !open {
                return k;
            }
        }
        range.blocks
    }
}
