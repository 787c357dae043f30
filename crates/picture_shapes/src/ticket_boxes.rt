//! The tickets in flight and their units.

ghost use Rattle.std.specs.Prelude.{◌≡◌, ◌++◌, ◌<◌, IfSome, OnOk, length};
ghost use Rattle.picture_shapes.specs.TicketBoxes.{flying_place, new_flying, no_tickets, owes_more, tickets_after};
ghost use Rattle.picture_shapes.specs.TicketBoxes.{tickets_closed, tickets_fetched, tickets_granted, tickets_made};
ghost use Rattle.picture_shapes.specs.TicketBoxes.{tickets_posted, unit_made, unit_shown};

use crate::rows::{LaneRow, Rows};
use nvme_model::entry::{BlockLine, Entry, FetchLine, GrantLine, PostLine};
use std::alloc::{AllocError as NoMemory, Global};
use std::marker::Model;

/// A unit, from its Grant to its last Block, in the row of its ticket.
#[derive(Clone, Copy, Debug, PartialEq, Eq)]
pub struct UnitBox {
    pub row: usize,
    pub unit: u64,
    pub slba: u64,
    pub blocks: u32,
    pub granted: u64,
    /// The place of its last Block, or of its Grant.
    pub last: u64,
}

/// A ticket, from its Fetch to its last Post.
#[derive(Clone, Copy, Debug, PartialEq, Eq)]
pub struct TicketBox {
    pub row: usize,
    pub ticket: u64,
    pub queue: u16,
    pub fetched: u64,
    pub posted: Option<u64>,
}

/// A ticket in flight: how many completions it owes, and its unit that was granted last.
#[derive(Clone, Copy, Debug, PartialEq, Eq)]
pub struct OpenTicket {
    pub ticket: TicketBox,
    pub owed: u8,
    pub unit: Option<UnitBox>,
}

/// The tickets in flight, those that were, and their units.
#[derive(Drop)]
pub struct TicketBoxes {
    rows: Rows,
    flying: Vec<OpenTicket>,
    done: Vec<TicketBox>,
    units: Vec<UnitBox>,
}

impl Model for TicketBoxes {
    ghost use Rattle.picture_shapes.specs.TicketBoxes.{TicketBoxesState};

    ghost Value = { TicketBoxesState };

    ghost view = { λ t. record { rows = t.rows; flying = t.flying.items; done = t.done.items; units = t.units.items } };
}

// Where a ticket in flight is.
fn flying_place(flying: &[OpenTicket], ticket: u64) -> Option<usize>
    ensures value { result ≡ flying_place ticket flying.now }
    ensures bound { IfSome result (λ i. i < length flying.now) }
{
    flying.iter().position(|one| one.ticket.ticket == ticket)
}

// A unit with a Block at this place.
fn unit_made(place: u64, unit: Option<UnitBox>) -> Option<UnitBox>
    ensures value { result ≡ unit_made place unit }
{
    match unit {
        Some(unit) => Some(UnitBox {
            last: place,
            ..unit
        }),
        None => None,
    }
}

// Keeps a unit that ends at `from` or behind it.
fn keep_unit(units: &mut Vec<UnitBox>, from: u64, unit: Option<UnitBox>) -> Result<(), NoMemory>
    ensures value { OnOk result (units.new.items ≡ units.old.items ++ unit_shown from unit) }
{
    if let Some(unit) = unit {
        if from <= unit.last {
            units.push(unit)?;
        }
    }
    Ok(())
}

impl TicketBoxes {
    /// None.
    pub fn new(alloc: Global) -> TicketBoxes
        ensures none { result ≡ no_tickets }
    {
        TicketBoxes {
            rows: Rows::new(alloc),
            flying: Vec::new(alloc),
            done: Vec::new(alloc),
            units: Vec::new(alloc),
        }
    }

    fn fetch(&mut self, place: u64, line: &FetchLine) -> Result<(), NoMemory>
        ensures value { OnOk result (self.new ≡ tickets_fetched place line.now self.old) }
    {
        let row = self.rows.take(0)?;
        self.flying.push(OpenTicket {
            ticket: TicketBox {
                row,
                ticket: line.ticket,
                queue: line.queue,
                fetched: place,
                posted: None,
            },
            owed: line.verdict.taken(),
            unit: None,
        })?;
        Ok(())
    }

    fn grant(&mut self, from: u64, place: u64, line: &GrantLine) -> Result<(), NoMemory>
        ensures value { OnOk result (self.new ≡ tickets_granted from place line.now self.old) }
    {
        let Some(i) = flying_place(self.flying.as_slice(), line.ticket) else {
            return Ok(());
        };
        keep_unit(&mut self.units, from, self.flying[i].unit)?;
        let range = line.range.get();
        self.flying[i].unit = Some(UnitBox {
            row: self.flying[i].ticket.row,
            unit: line.unit,
            slba: range.slba,
            blocks: range.blocks,
            granted: place,
            last: place,
        });
        Ok(())
    }

    fn block(&mut self, place: u64, line: &BlockLine)
        ensures value { self.new ≡ tickets_made place line.now self.old }
    {
        let Some(i) = flying_place(self.flying.as_slice(), line.ticket) else {
            return;
        };
        self.flying[i].unit = unit_made(place, self.flying[i].unit);
    }

    // A ticket owes nothing more.
    fn close(&mut self, from: u64, place: u64, i: usize) -> Result<(), NoMemory>
        ensures value { OnOk result (self.new ≡ tickets_closed from place i self.old) }
    {
        if i >= self.flying.len() {
            return Ok(());
        }
        let one = self.flying.remove(i);
        keep_unit(&mut self.units, from, one.unit)?;
        self.rows.free(0, one.ticket.row);
        if from <= place {
            self.done.push(TicketBox {
                posted: Some(place),
                ..one.ticket
            })?;
        }
        Ok(())
    }

    fn post(&mut self, from: u64, place: u64, line: &PostLine) -> Result<(), NoMemory>
        ensures value { OnOk result (self.new ≡ tickets_posted from place line.now self.old) }
    {
        let Some(i) = flying_place(self.flying.as_slice(), line.ticket) else {
            return Ok(());
        };
        let owed = self.flying[i].owed;
        if owed <= 1 {
            return self.close(from, place, i);
        }
        self.flying[i].owed = owed - 1;
        Ok(())
    }

    /// Takes the entry at this place, which may follow. Of what ended before `from` nothing is kept.
    ///
    /// # Errors
    ///
    /// `NoMemory` where a growth is refused.
    pub fn take(&mut self, from: u64, place: u64, entry: &Entry) -> Result<(), NoMemory>
        ensures value { OnOk result (self.new ≡ tickets_after from place entry.now self.old) }
    {
        match entry {
            Entry::Publish(_) => Ok(()),
            Entry::Fetch(line) => self.fetch(place, line),
            Entry::Grant(line) => self.grant(from, place, line),
            Entry::Block(line) => {
                self.block(place, line);
                Ok(())
            }
            Entry::Post(line) => self.post(from, place, line),
            Entry::Reap(_) => Ok(()),
        }
    }

    pub fn rows(&self) -> &[LaneRow]
        ensures { result.now ≡ self.now.rows }
    {
        self.rows.as_slice()
    }

    /// The tickets in flight.
    pub fn flying(&self) -> &[OpenTicket]
        ensures { result.now ≡ self.now.flying }
    {
        self.flying.as_slice()
    }

    /// The tickets that owe nothing more.
    pub fn done(&self) -> &[TicketBox]
        ensures { result.now ≡ self.now.done }
    {
        self.done.as_slice()
    }

    /// The units of which another came behind, or whose ticket owes nothing more.
    pub fn units(&self) -> &[UnitBox]
        ensures { result.now ≡ self.now.units }
    {
        self.units.as_slice()
    }
}
