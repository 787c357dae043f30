//! What a ticket misses that is to find values, and whether somebody can still write it.

use crate::choosing::place_written;
use crate::gates::{Wanted, queue_waiting};
use entry_codec::Status;
use nvme_model::array::Range;
use trace_walk::{BlockSet, Gives, SoughtTicket, TraceTables, Walk, wanted_completion};

/// What a ticket writes to a block.
pub(crate) fn value_given(
    walk: &Walk,
    tables: &TraceTables,
    ticket: &SoughtTicket,
    block: u64,
) -> u64 {
    match ticket.gives {
        Gives::Values(first) => tables.value(first.saturating_add(ticket.behind(block))),
        Gives::Zeros | Gives::Nothing => 0,
    }
}

/// The first of these blocks whose value isn't what a ticket is to find, and that value.
pub(crate) fn missing(
    walk: &Walk,
    tables: &TraceTables,
    ticket: &SoughtTicket,
    range: &Range,
) -> Option<(u64, u64)> {
    let place = ticket.finds?;
    let equal = walk.equal(tables, ticket, range);
    if equal >= range.blocks {
        return None;
    }
    let block = range.slba.saturating_add(u64::from(equal));
    Some((
        block,
        tables.value(place.saturating_add(ticket.behind(block))),
    ))
}

// Whether a block has what somebody finds there who isn't published yet, so that nothing but what comes behind it in
// its chain is written there before the next line.
fn is_kept(walk: &Walk, tables: &TraceTables, block: u64, chain: usize) -> bool {
    let need = tables.need(walk.writer(block));
    need.alone && need.until > walk.at && need.chain != chain
}

// Whether a ticket in flight can write this value to a block before the next line.
fn is_coming(walk: &Walk, tables: &TraceTables, block: u64, value: u64) -> bool {
    for number in walk.in_flight.as_slice() {
        let Some(ticket) = walk.tickets.get(*number) else {
            continue;
        };
        if ticket.writes()
            && ticket.will_reach(block)
            && value_given(walk, tables, ticket, block) == value
        {
            let chain = tables.need(place_written(walk, ticket, block)).chain;
            if !is_kept(walk, tables, block, chain) {
                return true;
            }
        }
    }
    false
}

// Whether a ticket is to find what its completion says.
fn has_to_find(tables: &TraceTables, ticket: &SoughtTicket) -> bool {
    match wanted_completion(tables, ticket) {
        Some(completion) => completion.cqe.status == Status::SUCCESS,
        None => false,
    }
}

/// The blocks of a ticket that is to find before the next line what nobody can write before it.
pub(crate) fn unfound(walk: &Walk, tables: &TraceTables, number: usize) -> Option<BlockSet> {
    let ticket = walk.ticket(number)?;
    let range = walk.next_unit(tables, &ticket)?;
    if !has_to_find(tables, &ticket) {
        return None;
    }
    let (block, value) = missing(walk, tables, &ticket, &range)?;
    let is_waiting = queue_waiting(walk, tables, block, Wanted::Value(value)).is_some();
    if is_waiting || is_coming(walk, tables, block, value) {
        return None;
    }
    Some(ticket.blocks())
}
