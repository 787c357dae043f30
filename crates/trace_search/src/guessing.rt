//! Which of the units that can be made next is most likely right.

use crate::around::Around;
use crate::choosing::{can_make, goes_before, waits_before};
use crate::gates::{Wanted, gate_ticket, queue_waiting};
use crate::missing::{missing, value_given};
use trace_walk::{Choice, TraceTables, Walk};

// A ticket that is to write a block, this value or another one, first one that can be made now.
fn who_writes(
    walk: &Walk,
    tables: &TraceTables,
    around: &Around,
    block: u64,
    wanted: Option<u64>,
    unwanted: u64,
) -> Option<usize> {
    let mut later = None;
    for number in around.tickets.as_slice() {
        let Some(ticket) = walk.tickets.get(*number) else {
            continue;
        };
        if !ticket.writes() || !ticket.will_reach(block) {
            continue;
        }
        let value = value_given(walk, tables, ticket, block);
        let serves = match wanted {
            Some(wanted) => value == wanted,
            None => value != unwanted,
        };
        if serves && can_make(walk, tables, *number, around) {
            return Some(*number);
        }
        if serves && later.is_none() {
            later = Some(*number);
        }
    }
    later
}

// The ticket that has to make a unit so that this one can, where it can't itself.
fn helper(walk: &Walk, tables: &TraceTables, around: &Around, number: usize) -> Option<usize> {
    let ticket = walk.ticket(number)?;
    let range = walk.next_unit(tables, &ticket)?;
    if let Some((block, value)) = missing(walk, tables, &ticket, &range) {
        let here = who_writes(walk, tables, around, block, Some(value), 0);
        if here.is_some() {
            return here;
        }
        let queue = queue_waiting(walk, tables, block, Wanted::Value(value))?;
        return gate_ticket(walk, tables, queue);
    }
    if ticket.writes() {
        let here = goes_before(walk, tables, number, &range, &around.tickets);
        if here.is_some() {
            return here;
        }
        let queue = waits_before(walk, tables, number, &range)?;
        return gate_ticket(walk, tables, queue);
    }
    let value = walk.value(range.slba);
    who_writes(walk, tables, around, range.slba, None, value)
}

// The unit that brings the next line nearer.
fn guess(walk: &Walk, tables: &TraceTables, around: &Around) -> Option<usize> {
    let mut number = around.target?;
    for _ in 0..around.tickets.len() {
        if can_make(walk, tables, number, around) {
            return Some(number);
        }
        number = helper(walk, tables, around, number)?;
    }
    None
}

/// Puts the unit that is most likely right last among these choices, from place `first` on.
pub(crate) fn put_best_last(
    walk: &Walk,
    tables: &TraceTables,
    around: &Around,
    first: usize,
    choices: &mut Vec<Choice>,
) {
    let Some(best) = guess(walk, tables, around) else {
        return;
    };
    let last = choices.len().saturating_sub(1);
    for place in first..choices.len() {
        let is_best = match choices.get(place) {
            Some(Choice::Unit(number)) => *number == best,
            Some(Choice::Compared(number, _)) => *number == best,
            Some(Choice::Line | Choice::Fetch(_) | Choice::Refuse(_) | Choice::Post(_, _)) | None =>
                false,
        };
        if is_best && place < choices.len() && last < choices.len() {
            choices.swap(place, last);
            return;
        }
    }
}
