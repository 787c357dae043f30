//! What has to end before the next line, and which tickets may have to do with it.

use crate::forced::{FetchDue, fetching, is_at_head, users};
use crate::gates::{Gate, gate_of};
use crate::missing::unfound;
use std::alloc::AllocError as NoMemory;
use trace_walk::{BlockSet, Line, SoughtTicket, TraceTables, Walk, number_at};

/// What has to end before the next line, and the tickets that may have to do with it.
#[derive(Drop)]
pub(crate) struct Around {
    /// The ticket whose completion is reaped next.
    pub(crate) target: Option<usize>,
    /// The tickets in flight, those that matter first.
    pub(crate) tickets: Vec<usize>,
    /// Whether nothing but units of these matters.
    pub(crate) units_alone: bool,
    /// The blocks that matter: where nothing helps, nothing on other blocks would have.
    pub(crate) blocks: BlockSet,
}

/// The ticket whose completion is reaped next, where it is sure.
pub(crate) fn target(walk: &Walk, tables: &TraceTables) -> Option<usize> {
    let Some(Line::Reap(cq)) = walk.line(tables) else {
        return None;
    };
    let (_, completion) = tables.wanted(cq, number_at(&walk.posted, cq))?;
    let (head, sure) = is_at_head(walk, tables, &completion);
    let (count, number) = users(walk, completion.queue, completion.cqe.cid);
    if head && sure && count == 1 {
        Some(number)
    } else {
        None
    }
}

// Whether the completion that is reaped next has no ticket, whatever is done before.
fn is_lost(walk: &Walk, tables: &TraceTables) -> bool {
    let Some(Line::Reap(cq)) = walk.line(tables) else {
        return false;
    };
    let Some((_, completion)) = tables.wanted(cq, number_at(&walk.posted, cq)) else {
        return false;
    };
    tables.tidy
        && is_at_head(walk, tables, &completion).1
        && fetching(walk, tables, completion.queue) == FetchDue::Never
        && target(walk, tables).is_none()
}

// Whether a ticket meets one of these, and one of the two writes.
fn meets_any(walk: &Walk, ticket: &SoughtTicket, others: &[usize]) -> bool {
    for number in others {
        if let Some(other) = walk.tickets.get(*number) {
            if ticket.meets(other) && (ticket.writes() || other.writes()) {
                return true;
            }
        }
    }
    false
}

// Adds the tickets in flight that meet one of these.
fn add_meeting(walk: &Walk, tickets: &mut Vec<usize>) -> Result<(), NoMemory> {
    for _ in 0..walk.in_flight.len() {
        let before = tickets.len();
        for number in walk.in_flight.as_slice() {
            let Some(ticket) = walk.ticket(*number) else {
                continue;
            };
            if !tickets.contains(number) && meets_any(walk, &ticket, tickets) {
                tickets.push(*number)?;
            }
        }
        if tickets.len() == before {
            return Ok(());
        }
    }
    Ok(())
}

// Whether an entry of a submission queue that is published and not fetched may meet one of these tickets.
fn more_may_meet(walk: &Walk, tables: &TraceTables, queue: usize, tickets: &[usize]) -> bool {
    let first = number_at(&walk.fetched, queue);
    for number in first..number_at(&walk.published, queue) {
        let Some(entry) = tables.entry(queue, number) else {
            continue;
        };
        let sqe = entry.item.sqe();
        if !sqe.is_flush() && reaches(walk, sqe.slba(), sqe.blocks(), tickets) {
            return true;
        }
    }
    false
}

// Whether one of these tickets is still to reach one of these blocks.
fn reaches(walk: &Walk, slba: u64, blocks: u32, tickets: &[usize]) -> bool {
    let end = slba.saturating_add(u64::from(blocks));
    for number in tickets {
        if let Some(ticket) = walk.tickets.get(*number) {
            let last = ticket.next.saturating_add(u64::from(ticket.left));
            if ticket.has_unit() && ticket.next < end && slba < last {
                return true;
            }
        }
    }
    false
}

// Adds the tickets that have to do with these, and says whether those are all.
fn add_near(walk: &Walk, tables: &TraceTables, tickets: &mut Vec<usize>) -> Result<bool, NoMemory> {
    for _ in 0..=walk.in_flight.len() {
        add_meeting(walk, tickets)?;
        let before = tickets.len();
        for queue in 0..walk.fetched.len() {
            if !more_may_meet(walk, tables, queue, tickets) {
                continue;
            }
            match gate_of(walk, tables, queue) {
                Gate::Ticket(number) => {
                    if !tickets.contains(&number) {
                        tickets.push(number)?;
                    }
                }
                Gate::Never => {}
                Gate::Unsure => return Ok(false),
            }
        }
        if tickets.len() == before {
            return Ok(true);
        }
    }
    Ok(false)
}

// The blocks of these tickets.
fn blocks_of(walk: &Walk, tables: &TraceTables, tickets: &[usize]) -> BlockSet {
    if !tables.tidy {
        return BlockSet::ALL;
    }
    let mut blocks = BlockSet::NONE;
    for number in tickets {
        if let Some(ticket) = walk.tickets.get(*number) {
            blocks = blocks.with(ticket.blocks());
        }
    }
    blocks
}

/// What has to end before the next line, and what may have to do with it.
pub(crate) fn look_around(
    walk: &Walk,
    tables: &TraceTables,
    mut tickets: Vec<usize>,
) -> Result<Around, NoMemory> {
    tickets.clear();
    let target = target(walk, tables);
    if let Some(number) = target {
        if let Some(blocks) = unfound(walk, tables, number) {
            let blocks = if tables.tidy { blocks } else { BlockSet::ALL };
            return Ok(Around {
                target,
                tickets,
                units_alone: true,
                blocks,
            });
        }
        tickets.push(number)?;
    }
    let is_known = target.is_some() || is_lost(walk, tables);
    if is_known && add_near(walk, tables, &mut tickets)? {
        let blocks = blocks_of(walk, tables, tickets.as_slice());
        return Ok(Around {
            target,
            tickets,
            units_alone: true,
            blocks,
        });
    }
    for number in walk.in_flight.as_slice() {
        if !tickets.contains(number) {
            tickets.push(*number)?;
        }
    }
    Ok(Around {
        target,
        tickets,
        units_alone: false,
        blocks: BlockSet::ALL,
    })
}
