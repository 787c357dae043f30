//! Makes one more step of a history.

use crate::fitting::is_sure;
use crate::numbers::{number_at, set_number};
use crate::tables::{Line, NOBODYS, OPEN, Published, TraceTables};
use crate::ticket::{Gives, SoughtOp, SoughtTicket, code_of};
use crate::values::mixed;
use crate::walk::{Choice, Fixed, Move, Walk};
use entry_codec::Status;
use fused_match::{Judged, judge};
use nvme_model::array::Range;
use nvme_model::operation::Op;
use std::alloc::AllocError as NoMemory;

// The completion that a ticket which passed its checks is to have: the next one for its queue with its identifier that
// says success or Compare Failure.
fn wanted_by(tables: &TraceTables, queue: usize, cid: u16, answered: usize) -> Option<usize> {
    let by_cid = tables.by_cid.get(queue)?;
    let first = by_cid.partition_point(|known| (known.0, known.1) < (cid, answered));
    for place in first..by_cid.len() {
        let (known, number) = by_cid.get(place).copied()?;
        if known != cid {
            return None;
        }
        let which = tables.awaited.get(queue)?.get(number).copied()?;
        let status = tables.completion(which)?.cqe.status;
        if status == Status::SUCCESS || status == Status::COMPARE_FAILURE {
            return Some(which);
        }
    }
    None
}

// What a ticket is to find: of a Read what its completion has, else what lies beside it.
fn found_at(
    tables: &TraceTables,
    kind: SoughtOp,
    first: &Published,
    want: Option<usize>,
) -> Option<usize> {
    match kind {
        SoughtOp::Read => Some(tables.completion(want?)?.values),
        SoughtOp::Compare | SoughtOp::Pair => Some(first.values),
        SoughtOp::Write | SoughtOp::WriteZeroes | SoughtOp::Idle => None,
    }
}

fn given_at(kind: SoughtOp, first: &Published, second: Option<&Published>) -> Gives {
    match kind {
        SoughtOp::Read | SoughtOp::Compare | SoughtOp::Idle => Gives::Nothing,
        SoughtOp::WriteZeroes => Gives::Zeros,
        SoughtOp::Write => Gives::Values(first.values),
        SoughtOp::Pair => match second {
            Some(second) => Gives::Values(second.values),
            None => Gives::Nothing,
        },
    }
}

fn kind_of(op: Op) -> SoughtOp {
    match op {
        Op::Read => SoughtOp::Read,
        Op::Compare => SoughtOp::Compare,
        Op::Write => SoughtOp::Write,
        Op::WriteZeroes => SoughtOp::WriteZeroes,
        Op::Pair => SoughtOp::Pair,
    }
}

// A ticket of these entries that has done nothing.
fn idle_ticket(queue: usize, number: usize, cids: [u16; 2], taken: u8) -> SoughtTicket {
    SoughtTicket {
        queue,
        first: number,
        kind: SoughtOp::Idle,
        taken,
        failed: false,
        refused: false,
        codes: [0, 0],
        want: None,
        cids,
        range: Range { slba: 0, blocks: 0 },
        next: 0,
        left: 0,
        unit: 0,
        differs: false,
        posts: 0,
        finds: None,
        gives: Gives::Nothing,
    }
}

// What becomes of a ticket by its checks.
fn judge_ticket(ticket: &mut SoughtTicket, judged: Judged) {
    match judged {
        Judged::Flush => {}
        Judged::Single(op, range) => {
            ticket.kind = kind_of(op);
            ticket.range = range;
        }
        Judged::Pair(range) => {
            ticket.kind = SoughtOp::Pair;
            ticket.range = range;
        }
        Judged::SingleFailed(status) => {
            ticket.failed = true;
            ticket.codes = [code_of(status), code_of(status)];
        }
        Judged::PairFailed(first, second) => {
            ticket.failed = true;
            ticket.codes = [code_of(first), code_of(second)];
        }
    }
}

impl Walk {
    // The identifiers in use on a submission queue.
    fn note_in_use(&mut self, queue: usize) -> Result<(), NoMemory> {
        self.in_use.clear();
        for number in self.in_flight.as_slice() {
            let Some(ticket) = self.tickets.get(*number).copied() else {
                continue;
            };
            if ticket.queue != queue {
                continue;
            }
            if ticket.posts == 0 {
                self.in_use.push(ticket.cids[0])?;
            }
            if ticket.taken == 2 {
                self.in_use.push(ticket.cids[1])?;
            }
        }
        Ok(())
    }

    fn new_ticket(
        &self,
        tables: &TraceTables,
        queue: usize,
        judged: Judged,
        first: &Published,
        second: Option<&Published>,
    ) -> SoughtTicket {
        let cid = first.item.sqe().cid;
        let other = second.map_or(cid, |second| second.item.sqe().cid);
        let number = number_at(&self.fetched, queue);
        let mut ticket = idle_ticket(queue, number, [cid, other], judged.taken());
        judge_ticket(&mut ticket, judged);
        if ticket.kind != SoughtOp::Idle {
            ticket.next = ticket.range.slba;
            ticket.left = ticket.range.blocks;
            ticket.want = wanted_by(tables, queue, cid, number_at(&self.answered, queue));
            ticket.finds = found_at(tables, ticket.kind, first, ticket.want);
            ticket.gives = given_at(ticket.kind, first, second);
        }
        ticket
    }

    // Fetches the next entry, or the next pair, of a submission queue: as it was published, or as one that was refused.
    fn make_fetch(
        &mut self,
        tables: &TraceTables,
        queue: usize,
        refused: bool,
    ) -> Result<(), NoMemory> {
        let number = number_at(&self.fetched, queue);
        let Some(mut first) = tables.entry(queue, number) else {
            return Ok(());
        };
        if refused {
            first = first.refused();
        }
        let after = number.saturating_add(1);
        let mut second = None;
        if after < number_at(&self.published, queue) {
            second = tables.entry(queue, after);
        }
        self.note_in_use(queue)?;
        let next = second.map(|second| second.item);
        let size = tables.numbers.blocks;
        let judged = judge(
            &first.item,
            next.as_ref(),
            self.in_use.as_slice(),
            &tables.units,
            size,
        );
        let mut ticket = self.new_ticket(tables, queue, judged, &first, second.as_ref());
        ticket.refused = refused;
        let made = self.tickets.len();
        self.moves.push(Move::Fetch(queue))?;
        self.tickets.push(ticket)?;
        self.in_flight.push(made)?;
        let taken = usize::from(judged.taken());
        set_number(&mut self.fetched, queue, number.saturating_add(taken));
        Ok(())
    }

    fn make_line(&mut self, tables: &TraceTables) -> Result<(), NoMemory> {
        match self.line(tables) {
            Some(Line::Publish(queue, _, after)) => set_number(&mut self.published, queue, after),
            Some(Line::Reap(cq)) => {
                let reaped = number_at(&self.reaped, cq).saturating_add(1);
                set_number(&mut self.reaped, cq, reaped);
            }
            None => {}
        }
        self.at = self.at.saturating_add(1);
        self.moves.push(Move::Line)?;
        Ok(())
    }

    // One fewer is to find what these blocks have.
    fn note_found(&mut self, tables: &TraceTables, ticket: &SoughtTicket, range: &Range) {
        if !is_sure(tables, ticket) {
            return;
        }
        for k in 0..range.blocks {
            let place = self.writer(range.slba.saturating_add(u64::from(k)));
            if let Some(left) = self.left.get_mut(place) {
                *left = left.saturating_sub(1);
            }
        }
    }

    fn write_blocks(
        &mut self,
        tables: &TraceTables,
        ticket: &SoughtTicket,
        range: &Range,
    ) -> Result<(), NoMemory> {
        for k in 0..range.blocks {
            let block = range.slba.saturating_add(u64::from(k));
            let (value, place) = match ticket.gives {
                Gives::Values(first) => {
                    let place = first.saturating_add(ticket.behind(block));
                    (tables.value(place), place)
                }
                Gives::Zeros | Gives::Nothing => (0, usize::MAX),
            };
            let known = (self.value(block), self.writer(block));
            self.covered.push(known)?;
            self.put(block, value, place);
        }
        Ok(())
    }

    pub(crate) fn put(&mut self, block: u64, value: u64, writer: usize) {
        let place = block.min(65_536) as usize;
        if let Some(known) = self.values.get_mut(place) {
            let more = mixed(block, value).wrapping_sub(mixed(block, *known));
            *known = value;
            self.sum = self.sum.wrapping_add(more);
            if let Some(sum) = self.sums.get_mut(place % 64) {
                *sum = sum.wrapping_add(more);
            }
        }
        set_number(&mut self.writers, place, writer);
    }

    // Notes what this unit, of which so many blocks are equal, says of what its blocks held at the beginning.
    fn fix_blocks(
        &mut self,
        tables: &TraceTables,
        ticket: &SoughtTicket,
        range: &Range,
        equal: u32,
    ) -> Result<(), NoMemory> {
        let Some(first) = ticket.finds else {
            return Ok(());
        };
        for k in 0..range.blocks.min(equal.saturating_add(1)) {
            let block = range.slba.saturating_add(u64::from(k));
            let value = tables.value(first.saturating_add(ticket.behind(block)));
            let held = k < equal;
            let known = self.value(block);
            if known == OPEN || known == NOBODYS && !held {
                self.fixed.push(Fixed {
                    step: self.moves.len(),
                    block,
                    value,
                    held,
                })?;
                if held {
                    self.put(block, value, usize::MAX);
                }
            }
        }
        Ok(())
    }

    // Makes the next unit of a ticket, of which so many blocks are equal where that is given.
    fn make_unit(
        &mut self,
        tables: &TraceTables,
        number: usize,
        given: Option<u32>,
    ) -> Result<(), NoMemory> {
        let Some(ticket) = self.ticket(number) else {
            return Ok(());
        };
        let Some(range) = self.next_unit(tables, &ticket) else {
            return Ok(());
        };
        let equal = match given {
            Some(equal) => equal,
            None => self.equal(tables, &ticket, &range),
        };
        let differs = ticket.compares() && equal < range.blocks;
        if ticket.finds.is_some() && equal == range.blocks {
            self.note_found(tables, &ticket, &range);
        }
        if !tables.first.is_empty() {
            self.fix_blocks(tables, &ticket, &range, equal)?;
        }
        if ticket.writes() && !differs {
            self.write_blocks(tables, &ticket, &range)?;
        }
        if let Some(known) = self.tickets.get_mut(number) {
            known.differs = differs;
            known.next = range.slba.saturating_add(u64::from(range.blocks));
            known.left = ticket.left.saturating_sub(range.blocks);
            known.unit = ticket.unit.saturating_add(1);
        }
        self.moves
            .push(Move::Unit(number, ticket.unit, range, equal))?;
        Ok(())
    }

    // One more completion of a queue pair was posted, or one fewer.
    pub(crate) fn count_posts(&mut self, cq: usize, queue: usize, posted: usize, answered: usize) {
        set_number(&mut self.posted, cq, posted);
        set_number(&mut self.answered, queue, answered);
    }

    fn make_post(
        &mut self,
        tables: &TraceTables,
        cq: usize,
        number: usize,
    ) -> Result<(), NoMemory> {
        let Some(ticket) = self.ticket(number) else {
            return Ok(());
        };
        let posted = number_at(&self.posted, cq);
        let which = match tables.wanted(cq, posted) {
            Some((which, _)) => which,
            None => usize::MAX,
        };
        let answered = number_at(&self.answered, ticket.queue).saturating_add(1);
        self.count_posts(cq, ticket.queue, posted.saturating_add(1), answered);
        let posts = ticket.posts.saturating_add(1);
        if let Some(known) = self.tickets.get_mut(number) {
            known.posts = posts;
        }
        let place = self.in_flight.iter().position(|known| *known == number);
        let place = place.unwrap_or(usize::MAX);
        if posts >= ticket.taken && place < self.in_flight.len() {
            let _ = self.in_flight.remove(place);
        }
        self.moves
            .push(Move::Post(which, number, ticket.posts, place))?;
        Ok(())
    }

    /// Makes one more step.
    pub fn make(&mut self, tables: &TraceTables, choice: Choice) -> Result<(), NoMemory> {
        match choice {
            Choice::Line => self.make_line(tables),
            Choice::Fetch(queue) => self.make_fetch(tables, queue, false),
            Choice::Refuse(queue) => self.make_fetch(tables, queue, true),
            Choice::Unit(number) => self.make_unit(tables, number, None),
            Choice::Compared(number, equal) => self.make_unit(tables, number, Some(equal)),
            Choice::Post(cq, number) => self.make_post(tables, cq, number),
        }
    }
}
