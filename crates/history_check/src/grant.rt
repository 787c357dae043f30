//! Grant: the next unit of a ticket begins.

ghost use Rattle.std.specs.Prelude.{◌≡◌, IfOk, OnErr, slice_get};
ghost use Rattle.nvme_model.specs.History.{Past};
ghost use Rattle.nvme_model.specs.declared.config.ConfigNumbers.{ConfigNumbers};
ghost use Rattle.nvme_model.specs.declared.entry.Entry.{Entry};
ghost use Rattle.history_check.specs.Kept.{IsCheckerState, checker_state_in};
ghost use Rattle.history_check.specs.Steps.{Took};
ghost use Rattle.nvme_model.specs.Operations.{is_exclusive};
ghost use Rattle.history_check.specs.Steps.{grant_by};

use crate::fields::{CheckedInFlight, Fields};
use crate::places::ticket_place;
use nvme_model::array::{Mode, Range};
use nvme_model::entry::GrantLine;
use range_reserve::Ranges;
use std::alloc::{AllocError as NoMemory, Global};

// Whether this is to hold blocks alone.
fn is_exclusive(mode: Mode) -> bool
    ensures value { result ≡ is_exclusive mode }
{
    match mode {
        Mode::Exclusive => true,
        Mode::Shared => false,
    }
}

// The unit that a Grant would open.
pub(crate) fn next_unit(one: &CheckedInFlight) -> Option<Range>
    ensures value { result ≡ slice_get one.now.units one.now.flight.opened }
{
    let units = one.units.as_slice();
    let opened = one.flight.opened();
    if opened >= units.len() as u64 {
        return None;
    }
    Some(units[opened as usize])
}

// Whether a Grant of a ticket in flight may follow, where these ranges are held.
fn grant_fits(one: &CheckedInFlight, ranges: &Ranges, line: &GrantLine) -> bool
    ensures value { result ≡
        grant_by one.now.flight (slice_get one.now.units one.now.flight.opened) ranges.now.held line.now }
{
    let Some(next) = next_unit(one) else {
        return false;
    };
    if one.flight.differs() || one.flight.has_open() {
        return false;
    }
    let mode = one.flight.ticket().mode();
    if ranges.conflicts(next, mode) {
        return false;
    }
    let range = line.range.get();
    line.unit == one.flight.opened()
        && next.slba == range.slba
        && next.blocks == range.blocks
        && is_exclusive(line.mode) == is_exclusive(mode)
}

/// Takes a Grant, and says whether it may follow.
///
/// # Errors
///
/// `NoMemory` where a growth is refused; nothing has changed.
pub fn take_grant(alloc: Global, fields: &mut Fields, line: &GrantLine) -> Result<bool, NoMemory>
    requires keeps { (c : ConfigNumbers) × (past : Past) × IsCheckerState c past (checker_state_in fields.old) }
    ensures took { (c : ConfigNumbers) (past : Past) → IsCheckerState c past (checker_state_in fields.old) →
        IfOk result (λ b. Took c past (Entry.Grant line.now) b (checker_state_in fields.new)) }
    ensures err { OnErr result (checker_state_in fields.new ≡ checker_state_in fields.old) }
{
    let Some(place) = ticket_place(fields.flights.as_slice(), line.ticket) else {
        return Ok(false);
    };
    if !grant_fits(&fields.flights[place], &fields.ranges, line) {
        return Ok(false);
    }
    fields.ranges.reserve(1)?;
    let range = line.range.get();
    fields.ranges.grant(line.ticket, range, line.mode).unwrap();
    fields.flights[place].flight.open(alloc, line);
    Ok(true)
}
