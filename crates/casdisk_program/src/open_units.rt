//! The units of a history that are open.

use crate::contents::Contents;
use crate::culprit::{OpenUnit, Writer, WrongAnswer};
use crate::in_flight::{Command, Commands};
use crate::of_ticket::{OfTicket, place_of};
use history::{BlockLine, GrantLine};
use nvme_model::array::Mode;
use nvme_model::operation::Found;
use std::alloc::{AllocError as NoMemory, Global};

// A unit that is granted and hasn't ended.
#[derive(Clone, Copy)]
struct Granted {
    unit: OpenUnit,
    mode: Mode,
    // how many Blocks it has so far
    made: u32,
    wrote: bool,
    // the line of its mark
    mark: Option<u64>,
    wrong: Option<WrongAnswer>,
}

/// The units that are open.
#[derive(Drop)]
pub(crate) struct OpenUnits {
    granted: Vec<Granted>,
}

impl OfTicket for Granted {
    fn ticket(&self) -> u64 {
        self.unit.ticket
    }
}

// Whether two ranges share a block.
fn overlap(a: &OpenUnit, b: &OpenUnit) -> bool {
    let (end, other) = (
        a.slba.saturating_add(u64::from(a.blocks)),
        b.slba.saturating_add(u64::from(b.blocks)),
    );
    a.slba < other && b.slba < end
}

// Whether an answer of a Compare isn't right, and how.
fn wrong_answer(
    block: &BlockLine,
    line: u64,
    command: &Command,
    contents: &Contents,
) -> Option<WrongAnswer> {
    let is_equal = match block.found {
        Found::Equal => true,
        Found::Differs => false,
        Found::Read | Found::Written => return None,
    };
    let unlike = contents.unlike(block.lba, command.compared(block.lba));
    if unlike.is_none() == is_equal {
        return None;
    }
    Some(WrongAnswer {
        lba: block.lba,
        line,
        unlike: match unlike {
            Some(it) => Some((it.place, it.held, it.compared)),
            None => None,
        },
        writer: contents.writer(block.lba),
    })
}

// Notes what a unit wrote that has ended.
fn write_down(unit: Granted, command: &Command, contents: &mut Contents) -> Result<(), NoMemory> {
    let (true, Some(line)) = (unit.wrote, unit.mark) else {
        return Ok(());
    };
    let ticket = unit.unit.ticket;
    for count in 0..unit.unit.blocks {
        let lba = unit.unit.slba.saturating_add(u64::from(count));
        contents.write(lba, command.written(lba), Writer { ticket, line })?;
    }
    Ok(())
}

impl OpenUnits {
    pub(crate) fn new(alloc: Global) -> OpenUnits {
        OpenUnits {
            granted: Vec::new(alloc),
        }
    }

    /// A unit begins; an open one with which it conflicts.
    pub(crate) fn begin(
        &mut self,
        line: GrantLine,
        number: u64,
    ) -> Result<Option<OpenUnit>, NoMemory> {
        let range = line.range.get();
        let unit = OpenUnit {
            ticket: line.ticket,
            unit: line.unit,
            slba: range.slba,
            blocks: range.blocks,
            line: number,
        };
        for other in &self.granted {
            let apart = line.mode == Mode::Shared && other.mode == Mode::Shared;
            if !apart && overlap(&unit, &other.unit) {
                return Ok(Some(other.unit));
            }
        }
        self.granted.push(Granted {
            unit,
            mode: line.mode,
            made: 0,
            wrote: false,
            mark: None,
            wrong: None,
        })?;
        Ok(None)
    }

    /// A block is made; an answer of the unit that isn't right, if the unit has its mark.
    pub(crate) fn make(
        &mut self,
        block: &BlockLine,
        number: u64,
        commands: &Commands,
        contents: &mut Contents,
    ) -> Result<Option<WrongAnswer>, NoMemory> {
        let Some(at) = place_of(self.granted.as_slice(), block.ticket) else {
            return Ok(None);
        };
        let Some(command) = commands.of(block.ticket) else {
            return Ok(None);
        };
        let wrong = wrong_answer(block, number, command, contents);
        let unit = &mut self.granted[at];
        unit.made = unit.made.saturating_add(1);
        unit.wrote = unit.wrote || block.found == Found::Written;
        if block.effect && unit.mark.is_none() {
            unit.mark = Some(number);
        }
        if unit.wrong.is_none() {
            unit.wrong = wrong;
        }
        if unit.mark.is_some() && unit.wrong.is_some() {
            return Ok(unit.wrong);
        }
        let needed = if command.is_pair {
            unit.unit.blocks.saturating_mul(2)
        } else {
            unit.unit.blocks
        };
        if unit.made >= needed || block.found == Found::Differs {
            let ended = self.granted.swap_remove(at);
            write_down(ended, command, contents)?;
        }
        Ok(None)
    }
}
