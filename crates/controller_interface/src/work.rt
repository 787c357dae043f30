//! What a fetched ticket has to do.

ghost use Rattle.std.specs.Prelude.{◌≡◌};
ghost use Rattle.controller_interface.specs.Works.{work_units};
ghost use Rattle.fused_match.specs.Judged.{IsSoundFor};

use atomic_units::{UnitIter, Units};
use fused_match::Judged;
use std::marker::Model;

/// A fetched ticket and what it has to do; it can't be copied, and one that is dropped leaves its ticket unfinished.
///
/// Its `units` are the cut of its range, and its pair fits one unit.
#[derive(Debug, Drop)]
pub struct Work {
    ticket: u64,
    units: Units,
    judged: Judged,
}

impl Model for Work {
    ghost use Rattle.controller_interface.specs.Works.{TicketWork};
    ghost use Rattle.fused_match.specs.Judged.{IsSoundFor};

    ghost Value = { TicketWork };

    ghost view = { λ w. record { ticket = w.ticket; atomic = w.units; judged = w.judged } };

    ghost invariant = { λ w. IsSoundFor w.units w.judged };
}

impl Work {
    /// The work of this ticket.
    pub fn new(ticket: u64, units: Units, judged: Judged) -> Work
        requires { IsSoundFor units judged }
        ensures { result ≡ record { ticket = ticket; atomic = units; judged = judged } }
    {
        Work {
            ticket,
            units,
            judged,
        }
    }

    /// The ticket, numbered from 1.
    pub fn ticket(&self) -> u64
        ensures value { result ≡ self.now.ticket }
    {
        self.ticket
    }

    /// What its Fetch found, which says what it has to do.
    pub fn judged(&self) -> Judged
        ensures value { result ≡ self.now.judged }
        ensures law { IsSoundFor self.now.atomic result }
    {
        self.judged
    }

    /// The units of a command on blocks, which are the cut of its range, in order; None for anything else.
    pub fn units(&self) -> Option<UnitIter>
        ensures units { result ≡ work_units self.now }
    {
        match self.judged {
            Judged::Single(_, range) => Some(self.units.cut(range.slba, range.blocks)),
            Judged::Flush | Judged::Pair(_) | Judged::SingleFailed(_) | Judged::PairFailed(_, _) =>
                None,
        }
    }
}
