//! The entries of a unit that is one step: its Grant and its Blocks.

use history::{BlockLine, Entry, GrantLine, UnitRange};
use nvme_model::array::Range;
use nvme_model::operation::Found;
use std::alloc::AllocError as NoMemory;
use trace_walk::SoughtTicket;

/// Entries that are written, the oldest first.
#[derive(Drop)]
pub(crate) struct UnitWriter {
    pub(crate) entries: Vec<Entry>,
}

impl UnitWriter {
    fn block(
        &mut self,
        ticket: u64,
        unit: u64,
        lba: u64,
        found: Found,
        effect: bool,
    ) -> Result<(), NoMemory> {
        self.entries.push(Entry::Block(BlockLine {
            ticket,
            unit,
            lba,
            found,
            effect,
        }))?;
        Ok(())
    }

    fn grant(
        &mut self,
        ticket: u64,
        unit: u64,
        range: &Range,
        known: &SoughtTicket,
    ) -> Result<(), NoMemory> {
        self.entries.push(Entry::Grant(GrantLine {
            ticket,
            unit,
            range: UnitRange::new(range.slba, range.blocks.min(65_535) as u16),
            mode: known.mode(),
        }))?;
        Ok(())
    }

    // The Blocks of a unit that all find the same; the first, or the last, is the effect.
    fn blocks(
        &mut self,
        ticket: u64,
        unit: u64,
        range: &Range,
        found: Found,
        effect: Option<u32>,
    ) -> Result<(), NoMemory> {
        for k in 0..range.blocks {
            let lba = range.slba.saturating_add(u64::from(k));
            self.block(ticket, unit, lba, found, effect == Some(k))?;
        }
        Ok(())
    }

    // The Blocks of a comparing unit, so many of which are equal before one differs.
    fn comparing(
        &mut self,
        ticket: u64,
        unit: u64,
        range: &Range,
        equal: u32,
    ) -> Result<bool, NoMemory> {
        let front = Range {
            slba: range.slba,
            blocks: equal,
        };
        if equal < range.blocks {
            self.blocks(ticket, unit, &front, Found::Equal, None)?;
            let lba = range.slba.saturating_add(u64::from(equal));
            self.block(ticket, unit, lba, Found::Differs, true)?;
            return Ok(false);
        }
        self.blocks(ticket, unit, &front, Found::Equal, equal.checked_sub(1))?;
        Ok(true)
    }

    /// Writes the entries of a unit, of which so many blocks are equal before one differs.
    pub(crate) fn unit(
        &mut self,
        ticket: u64,
        unit: u64,
        range: &Range,
        equal: u32,
        known: &SoughtTicket,
    ) -> Result<(), NoMemory> {
        self.grant(ticket, unit, range, known)?;
        if known.compares() {
            if self.comparing(ticket, unit, range, equal)? && known.writes() {
                self.blocks(ticket, unit, range, Found::Written, None)?;
            }
            return Ok(());
        }
        let found = if known.writes() {
            Found::Written
        } else {
            Found::Read
        };
        self.blocks(ticket, unit, range, found, Some(0))
    }
}
