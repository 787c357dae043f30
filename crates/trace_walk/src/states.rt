//! Places of a search, in one number each.

use crate::block_set::BlockSet;
use crate::numbers::number_at;
use crate::tables::{OPEN, TraceTables};
use crate::ticket::SoughtTicket;
use crate::values::mixed;
use crate::walk::Walk;

impl SoughtTicket {
    /// The blocks of the whole.
    pub fn blocks(&self) -> BlockSet {
        BlockSet::of(self.range.slba, self.range.blocks)
    }
}

impl Walk {
    // A number of what blocks that are open didn't hold.
    fn not_held(&self) -> u64 {
        let mut all = 0u64;
        if self.has_open {
            for one in self.fixed.as_slice() {
                if !one.held && self.value(one.block) == OPEN {
                    all = all.wrapping_add(mixed(one.block, one.value));
                }
            }
        }
        all
    }

    /// A number that hardly any other place to go on from has.
    pub fn state(&self) -> u64 {
        let mut state = mixed(self.sum.wrapping_add(self.not_held()), self.at as u64);
        for fetched in self.fetched.as_slice() {
            state = mixed(state, *fetched as u64);
        }
        for posted in self.posted.as_slice() {
            state = mixed(state, *posted as u64);
        }
        let mut all = 0u64;
        for number in self.in_flight.as_slice() {
            if let Some(ticket) = self.tickets.get(*number) {
                let who = mixed(ticket.queue as u64, ticket.first as u64);
                let far = mixed(ticket.unit, u64::from(ticket.posts));
                let end = mixed(u64::from(ticket.taken), u64::from(ticket.differs));
                let codes = mixed(u64::from(ticket.codes[0]), u64::from(ticket.codes[1]));
                all = all.wrapping_add(mixed(mixed(who, far), mixed(end, codes)));
            }
        }
        mixed(state, all)
    }

    // A number of the tickets in flight that have a unit to come and reach one of these blocks.
    fn units_on(&self, blocks: BlockSet) -> u64 {
        let mut all = 0u64;
        for number in self.in_flight.as_slice() {
            if let Some(ticket) = self.tickets.get(*number) {
                if ticket.has_unit() && ticket.blocks().meets(blocks) {
                    let who = mixed(ticket.queue as u64, ticket.first as u64);
                    all = all.wrapping_add(mixed(who, ticket.unit));
                }
            }
        }
        all
    }

    // Whether an entry of a submission queue that is published and not fetched reaches one of these blocks.
    fn is_more_on(&self, tables: &TraceTables, queue: usize, blocks: BlockSet) -> bool {
        let first = number_at(&self.fetched, queue);
        for number in first..number_at(&self.published, queue) {
            if let Some(entry) = tables.entry(queue, number) {
                let sqe = entry.item.sqe();
                if !sqe.is_flush() && BlockSet::of(sqe.slba(), sqe.blocks()).meets(blocks) {
                    return true;
                }
            }
        }
        false
    }

    /// A number that hardly any other place has from which something else can happen to these blocks before the next
    /// lines, where the tables are tidy.
    pub fn state_on(&self, tables: &TraceTables, blocks: BlockSet) -> u64 {
        let mut state = mixed(blocks.number(), self.at as u64);
        let mut place = 0u64;
        for sum in self.sums.as_slice() {
            if BlockSet::of(place, 1).meets(blocks) {
                state = mixed(state, *sum);
            }
            place = place.wrapping_add(1);
        }
        for queue in 0..self.fetched.len() {
            if self.is_more_on(tables, queue, blocks) {
                let fetched = number_at(&self.fetched, queue);
                state = mixed(state, mixed(queue as u64, fetched as u64));
            }
        }
        mixed(state, self.units_on(blocks))
    }
}
