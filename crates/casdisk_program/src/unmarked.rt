//! Why a ticket owes no completion: a unit of it that ended without a mark.

use crate::culprit::Unmarked;
use crate::of_ticket::{OfTicket, place_of};
use history::{BlockLine, GrantLine};
use std::alloc::{AllocError as NoMemory, Global};

// A ticket, and its first unit that has no mark so far.
#[derive(Clone, Copy)]
struct Unit {
    ticket: u64,
    unmarked: Unmarked,
}

/// The tickets that have a unit without a mark.
#[derive(Drop)]
pub(crate) struct UnmarkedUnits {
    units: Vec<Unit>,
}

impl OfTicket for Unit {
    fn ticket(&self) -> u64 {
        self.ticket
    }
}

impl UnmarkedUnits {
    pub(crate) fn new(alloc: Global) -> UnmarkedUnits {
        UnmarkedUnits {
            units: Vec::new(alloc),
        }
    }

    /// A unit begins.
    pub(crate) fn begin(&mut self, grant: &GrantLine, line: u64) -> Result<(), NoMemory> {
        if place_of(self.units.as_slice(), grant.ticket).is_some() {
            return Ok(());
        }
        self.units.push(Unit {
            ticket: grant.ticket,
            unmarked: Unmarked {
                unit: grant.unit,
                line,
            },
        })?;
        Ok(())
    }

    /// A block of a unit is made, which may mark it.
    pub(crate) fn make(&mut self, block: &BlockLine, line: u64) {
        let Some(at) = place_of(self.units.as_slice(), block.ticket) else {
            return;
        };
        if self.units[at].unmarked.unit != block.unit {
            return;
        }
        if block.effect {
            self.units.swap_remove(at);
        } else {
            self.units[at].unmarked.line = line;
        }
    }

    /// The unit without a mark of a ticket.
    pub(crate) fn of(&self, ticket: u64) -> Option<Unmarked> {
        let at = place_of(self.units.as_slice(), ticket)?;
        Some(self.units[at].unmarked)
    }
}
