//! Block: the next block of a ticket's open unit.

ghost use Rattle.std.specs.Prelude.{◌≡◌, ◌≤◌, ◌<◌, ◌+◌, ℕ, IfOk, OnErr, if◌then◌else◌, length, true};
ghost use Rattle.nvme_model.specs.History.{Past};
ghost use Rattle.nvme_model.specs.declared.config.ConfigNumbers.{ConfigNumbers};
ghost use Rattle.nvme_model.specs.declared.entry.Entry.{Entry};
ghost use Rattle.history_check.specs.Kept.{IsCheckerState, checker_state_in};
ghost use Rattle.history_check.specs.Steps.{Took};
ghost use Rattle.history_check.specs.Contents.{contents_in, written_in};
ghost use Rattle.nvme_model.specs.Array.{has_block};
ghost use Rattle.nvme_model.specs.Operations.{write_data};
ghost use Rattle.range_reserve.specs.Reserved.{held_beside};

use crate::commands::Commands;
use crate::fields::Fields;
use crate::flight::TakenBlock;
use crate::places::ticket_place;
use crate::values::write_range;
use block_array::Volume;
use nvme_model::entry::BlockLine;
use range_reserve::Ranges;
use std::alloc::{AllocError as NoMemory, Global};

// Writes the blocks of a unit where its effect does.
fn write_taken(volume: &mut Volume, ticket: &Commands, done: TakenBlock)
    requires within { done.range.slba + done.range.blocks ≤ length volume.old }
    requires whole { done.writes ≡ true → (l : ℕ) →
        has_block done.range l ≡ true → length (write_data ticket.now l) ≡ 512 }
    ensures length { length volume.new ≡ length volume.old }
    ensures value { (l : ℕ) → l < length volume.old → contents_in volume.new l ≡ (if done.writes
        then written_in (contents_in volume.old) ticket.now done.range l else contents_in volume.old l) }
{
    if done.writes {
        write_range(volume, ticket, done.range);
    }
}

// Lets a ticket's range go where its unit has ended.
fn release_ended(ranges: &mut Ranges, ticket: u64, ended: bool)
    ensures held { ranges.new.held ≡ (if ended then held_beside ranges.old.held ticket else ranges.old.held) }
{
    if ended {
        ranges.release(ticket);
    }
}

/// Takes a Block, and says whether it may follow.
///
/// # Errors
///
/// `NoMemory` where a growth is refused; nothing has changed.
pub fn take_block(alloc: Global, fields: &mut Fields, line: &BlockLine) -> Result<bool, NoMemory>
    requires keeps { (c : ConfigNumbers) × (past : Past) × IsCheckerState c past (checker_state_in fields.old) }
    ensures took { (c : ConfigNumbers) (past : Past) → IsCheckerState c past (checker_state_in fields.old) →
        IfOk result (λ b. Took c past (Entry.Block line.now) b (checker_state_in fields.new)) }
    ensures err { OnErr result (checker_state_in fields.new ≡ checker_state_in fields.old) }
{
    let Some(place) = ticket_place(fields.flights.as_slice(), line.ticket) else {
        return Ok(false);
    };
    let flight = &fields.flights[place].flight;
    if !flight.block_fits(alloc, &fields.volume, line)? {
        return Ok(false);
    }
    let flight = &mut fields.flights[place].flight;
    let done = flight.take_block(alloc, &fields.volume, line)?;
    write_taken(&mut fields.volume, flight.ticket(), done);
    release_ended(&mut fields.ranges, line.ticket, done.ended);
    Ok(true)
}
