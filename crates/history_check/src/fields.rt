//! What a checker keeps.

ghost use Rattle.std.specs.Prelude.{◌≡◌, [], IfOk};

use crate::flight::CheckedTicket;
use block_array::Volume;
use history::Config;
use nvme_model::array::Range;
use range_reserve::Ranges;
use rings::{CidsInUse, CqRing, SqRing, cq_rings, none_in_use, sq_rings};
use std::alloc::{AllocError as NoMemory, Global};
use std::marker::Model;

/// The units of a ticket, in order.
#[derive(Drop)]
pub struct TicketUnits {
    ranges: Vec<Range>,
}

impl Model for TicketUnits {
    ghost use Rattle.std.specs.Prelude.{List};
    ghost use Rattle.nvme_model.specs.declared.array.Range.{Range};

    ghost Value = { List Range };

    ghost view = { λ u. u.ranges.items };
}

impl TicketUnits {
    /// These units.
    pub fn new(ranges: Vec<Range>) -> TicketUnits
        ensures { result ≡ ranges.items }
    {
        TicketUnits { ranges }
    }

    pub fn as_slice(&self) -> &[Range]
        ensures { result.now ≡ self.now }
    {
        self.ranges.as_slice()
    }
}

/// A ticket in flight.
#[derive(Drop)]
pub struct CheckedInFlight {
    pub ticket: u64,
    pub flight: CheckedTicket,
    pub units: TicketUnits,
}

/// What a checker keeps.
#[derive(Drop)]
pub struct Fields {
    pub volume: Volume,
    /// By submission queue.
    pub submission: Vec<SqRing>,
    /// By submission queue, with room for two of each ticket that may be in flight.
    pub in_use: Vec<CidsInUse>,
    /// By completion queue; without the data, which no later entry is judged by.
    pub completion: Vec<CqRing>,
    /// By rising ticket.
    pub flights: Vec<CheckedInFlight>,
    /// Of the open units.
    pub ranges: Ranges,
    pub tickets: u64,
}

impl Fields {
    ghost use Rattle.history_check.specs.Kept.{IsCheckerState, checker_state_in};

    /// What is kept of no entry.
    ///
    /// # Errors
    ///
    /// `NoMemory` where a growth is refused.
    pub fn new(alloc: Global, config: &Config) -> Result<Fields, NoMemory>
        ensures keeps { IfOk result (λ fields. IsCheckerState config.now [] (checker_state_in fields)) }
    {
        let numbers = config.numbers();
        Ok(Fields {
            volume: Volume::new(alloc, numbers.blocks)?,
            submission: sq_rings(alloc, numbers.pairs, numbers.sq_size)?,
            in_use: none_in_use(alloc, numbers.pairs, 2 * numbers.jobs as usize)?,
            completion: cq_rings(alloc, numbers.cqs, numbers.cq_size)?,
            flights: Vec::new(alloc),
            ranges: Ranges::new(alloc),
            tickets: 0,
        })
    }
}
