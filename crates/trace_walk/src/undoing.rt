//! Takes back the newest steps of a history.

use crate::fitting::is_sure;
use crate::numbers::{number_at, set_number};
use crate::tables::{Line, OPEN, TraceTables};
use crate::ticket::SoughtTicket;
use crate::walk::{Move, Walk};
use nvme_model::array::Range;
use std::alloc::AllocError as NoMemory;

impl Walk {
    fn undo_line(&mut self, tables: &TraceTables) {
        self.at = self.at.saturating_sub(1);
        match self.line(tables) {
            Some(Line::Publish(queue, before, _)) => set_number(&mut self.published, queue, before),
            Some(Line::Reap(cq)) => {
                let reaped = number_at(&self.reaped, cq).saturating_sub(1);
                set_number(&mut self.reaped, cq, reaped);
            }
            None => {}
        }
    }

    fn undo_fetch(&mut self, queue: usize) {
        let _ = self.in_flight.pop();
        if let Some(ticket) = self.tickets.pop() {
            set_number(&mut self.fetched, queue, ticket.first);
        }
    }

    fn uncover(&mut self, range: &Range) {
        for k in (0..range.blocks).rev() {
            let block = range.slba.saturating_add(u64::from(k));
            if let Some((value, writer)) = self.covered.pop() {
                self.put(block, value, writer);
            }
        }
    }

    // One more is to find what these blocks have.
    fn unnote_found(&mut self, tables: &TraceTables, ticket: &SoughtTicket, range: &Range) {
        if !is_sure(tables, ticket) {
            return;
        }
        for k in 0..range.blocks {
            let place = self.writer(range.slba.saturating_add(u64::from(k)));
            if let Some(left) = self.left.get_mut(place) {
                *left = left.saturating_add(1);
            }
        }
    }

    // What the step that is taken back fixed of the beginning is open again.
    fn unfix_blocks(&mut self) {
        for _ in 0..self.fixed.len() {
            let Some(one) = self.fixed.last().copied() else {
                return;
            };
            if one.step < self.moves.len() {
                return;
            }
            let _ = self.fixed.pop();
            if one.held {
                self.put(one.block, OPEN, usize::MAX);
            }
        }
    }

    fn undo_unit(
        &mut self,
        tables: &TraceTables,
        number: usize,
        unit: u64,
        range: &Range,
        equal: u32,
    ) {
        let Some(ticket) = self.ticket(number) else {
            return;
        };
        let differs = ticket.compares() && equal < range.blocks;
        if ticket.writes() && !differs {
            self.uncover(range);
        }
        self.unfix_blocks();
        if ticket.finds.is_some() && equal == range.blocks {
            self.unnote_found(tables, &ticket, range);
        }
        if let Some(known) = self.tickets.get_mut(number) {
            known.differs = false;
            known.next = range.slba;
            known.left = ticket.left.saturating_add(range.blocks);
            known.unit = unit;
        }
    }

    fn undo_post(
        &mut self,
        tables: &TraceTables,
        number: usize,
        posts: u8,
        place: usize,
    ) -> Result<(), NoMemory> {
        let Some(ticket) = self.ticket(number) else {
            return Ok(());
        };
        let cq = tables.cq_of(ticket.queue);
        let posted = number_at(&self.posted, cq).saturating_sub(1);
        let answered = number_at(&self.answered, ticket.queue).saturating_sub(1);
        self.count_posts(cq, ticket.queue, posted, answered);
        if let Some(known) = self.tickets.get_mut(number) {
            known.posts = posts;
        }
        if ticket.posts >= ticket.taken && place <= self.in_flight.len() {
            self.in_flight.insert(place, number)?;
        }
        Ok(())
    }

    fn undo(&mut self, tables: &TraceTables, step: Move) -> Result<(), NoMemory> {
        match step {
            Move::Line => self.undo_line(tables),
            Move::Fetch(queue) => self.undo_fetch(queue),
            Move::Unit(number, unit, range, equal) => {
                self.undo_unit(tables, number, unit, &range, equal);
            }
            Move::Post(_, number, posts, place) => {
                return self.undo_post(tables, number, posts, place);
            }
        }
        Ok(())
    }

    /// Takes back all but the first so many steps.
    pub fn undo_to(&mut self, tables: &TraceTables, count: usize) -> Result<(), NoMemory> {
        for _ in count..self.moves.len() {
            if let Some(step) = self.moves.pop() {
                self.undo(tables, step)?;
            }
        }
        Ok(())
    }
}
