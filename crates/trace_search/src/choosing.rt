//! What can be done next where nothing can be done at once.

use crate::around::Around;
use crate::comparing::add_compared;
use crate::forced::{FetchDue, fetching, finds_all, has_data, is_at_head, is_doubtful, line_fits};
use crate::gates::{Wanted, queue_waiting};
use entry_codec::Status;
use nvme_model::array::Range;
use std::alloc::AllocError as NoMemory;
use trace_walk::{
    Choice, Gives, SoughtOp, SoughtTicket, TraceTables, Walk, fits, is_sure, number_at,
    wanted_completion,
};

// Whether a unit may be made now, by what its ticket's completion says.
fn may_make(
    walk: &Walk,
    tables: &TraceTables,
    ticket: &SoughtTicket,
    range: &Range,
    idle: bool,
) -> bool {
    let Some(completion) = wanted_completion(tables, ticket) else {
        return match ticket.kind {
            SoughtOp::Pair => idle || finds_all(walk, tables, ticket, range),
            SoughtOp::Idle
            | SoughtOp::Read
            | SoughtOp::Compare
            | SoughtOp::Write
            | SoughtOp::WriteZeroes => idle || ticket.writes(),
        };
    };
    let success = completion.cqe.status == Status::SUCCESS;
    if ticket.compares() && !success && !walk.is_known(range) {
        return !finds_all(walk, tables, ticket, range);
    }
    match ticket.kind {
        SoughtOp::Read => success
            && has_data(ticket, &completion)
            && finds_all(walk, tables, ticket, range),
        SoughtOp::Compare => {
            let whole = ticket.left <= range.blocks;
            finds_all(walk, tables, ticket, range) && !(whole && !success)
        }
        SoughtOp::Pair => success && finds_all(walk, tables, ticket, range),
        SoughtOp::Idle | SoughtOp::Write | SoughtOp::WriteZeroes => success,
    }
}

/// The place of what a ticket writes to a block.
pub(crate) fn place_written(walk: &Walk, ticket: &SoughtTicket, block: u64) -> usize {
    match ticket.gives {
        Gives::Values(first) => first.saturating_add(ticket.behind(block)),
        Gives::Zeros | Gives::Nothing => usize::MAX,
    }
}

// Whether somebody is still to find what would be covered in this block.
fn covers_too_soon(walk: &Walk, tables: &TraceTables, ticket: &SoughtTicket, block: u64) -> bool {
    let place = walk.writer(block);
    if !tables.need(place).alone {
        return false;
    }
    let mut own = 0usize;
    if ticket.kind == SoughtOp::Pair && is_sure(tables, ticket) {
        own = 1;
    }
    number_at(&walk.left, place) > own
}

// The line before which a ticket has written this block, or what it writes there was found; never, where it isn't
// sure that it writes.
fn due_at(walk: &Walk, tables: &TraceTables, ticket: &SoughtTicket, block: u64) -> usize {
    let Some(completion) = wanted_completion(tables, ticket) else {
        return usize::MAX;
    };
    if completion.cqe.status != Status::SUCCESS {
        return usize::MAX;
    }
    let need = tables.need(place_written(walk, ticket, block));
    if need.alone {
        completion.line.min(need.due)
    } else {
        completion.line
    }
}

// Another ticket that has to write this block before what lies at this place is written there.
fn goes_before_at(
    walk: &Walk,
    tables: &TraceTables,
    number: usize,
    block: u64,
    place: usize,
    others: &[usize],
) -> Option<usize> {
    let need = tables.need(place);
    if !need.alone || need.until == 0 {
        return None;
    }
    for other in others {
        let Some(one) = walk.tickets.get(*other) else {
            continue;
        };
        let writes = *other != number && one.writes() && one.will_reach(block);
        let chain = tables.need(place_written(walk, one, block)).chain;
        if writes && chain != need.chain && due_at(walk, tables, one, block) < need.until {
            return Some(*other);
        }
    }
    None
}

/// Another ticket that has to write one of these blocks before this one does.
pub(crate) fn goes_before(
    walk: &Walk,
    tables: &TraceTables,
    number: usize,
    range: &Range,
    others: &[usize],
) -> Option<usize> {
    let ticket = walk.ticket(number)?;
    for k in 0..range.blocks {
        let block = range.slba.saturating_add(u64::from(k));
        let place = place_written(walk, &ticket, block);
        let before = goes_before_at(walk, tables, number, block, place, others);
        if before.is_some() {
            return before;
        }
    }
    None
}

/// A submission queue in which an entry waits that has to write one of these blocks before a ticket does.
pub(crate) fn waits_before(
    walk: &Walk,
    tables: &TraceTables,
    number: usize,
    range: &Range,
) -> Option<usize> {
    let ticket = walk.ticket(number)?;
    for k in 0..range.blocks {
        let block = range.slba.saturating_add(u64::from(k));
        let need = tables.need(place_written(walk, &ticket, block));
        if need.alone && need.until > 0 {
            let queue = queue_waiting(walk, tables, block, Wanted::Before(need));
            if queue.is_some() {
                return queue;
            }
        }
    }
    None
}

// Whether no history can have this unit, which writes, now.
fn is_hopeless(
    walk: &Walk,
    tables: &TraceTables,
    number: usize,
    range: &Range,
    others: &[usize],
) -> bool {
    let Some(ticket) = walk.ticket(number) else {
        return true;
    };
    for k in 0..range.blocks {
        let block = range.slba.saturating_add(u64::from(k));
        if covers_too_soon(walk, tables, &ticket, block) {
            return true;
        }
    }
    goes_before(walk, tables, number, range, others).is_some()
        || waits_before(walk, tables, number, range).is_some()
}

/// Whether the next unit of a ticket can be made now, as far as one sees.
pub(crate) fn can_make(walk: &Walk, tables: &TraceTables, number: usize, around: &Around) -> bool {
    let Some(ticket) = walk.ticket(number) else {
        return false;
    };
    let Some(range) = walk.next_unit(tables, &ticket) else {
        return false;
    };
    if !may_make(walk, tables, &ticket, &range, !around.units_alone) {
        return false;
    }
    if !ticket.writes() || ticket.compares() && !finds_all(walk, tables, &ticket, &range) {
        return true;
    }
    !is_hopeless(walk, tables, number, &range, around.tickets.as_slice())
}

// Adds the units that can be made now.
fn add_units(
    walk: &Walk,
    tables: &TraceTables,
    around: &Around,
    choices: &mut Vec<Choice>,
) -> Result<(), NoMemory> {
    for number in around.tickets.iter().rev() {
        if !can_make(walk, tables, *number, around) {
            continue;
        }
        let is_added = add_compared(walk, tables, *number, choices)?;
        if !is_added {
            choices.push(Choice::Unit(*number))?;
        }
    }
    Ok(())
}

// Adds the Fetches that can be made now.
fn add_fetches(
    walk: &Walk,
    tables: &TraceTables,
    choices: &mut Vec<Choice>,
) -> Result<(), NoMemory> {
    if walk.in_flight.len() >= usize::from(tables.numbers.jobs) {
        return Ok(());
    }
    for queue in 0..walk.fetched.len() {
        if fetching(walk, tables, queue) != FetchDue::Never {
            if is_doubtful(walk, tables, queue) {
                choices.push(Choice::Refuse(queue))?;
            }
            choices.push(Choice::Fetch(queue))?;
        }
    }
    Ok(())
}

// Whether a ticket can have the next completion of this completion queue now.
fn can_post(walk: &Walk, tables: &TraceTables, cq: usize, ticket: &SoughtTicket) -> bool {
    let Some((which, completion)) = tables.wanted(cq, number_at(&walk.posted, cq)) else {
        return ticket.owes().is_some();
    };
    is_at_head(walk, tables, &completion).0
        && ticket.queue == completion.queue
        && fits(
            &tables.options,
            ticket,
            which,
            &completion.cqe,
            completion.length,
        )
}

// Adds the Posts that can be made now.
fn add_posts(walk: &Walk, tables: &TraceTables, choices: &mut Vec<Choice>) -> Result<(), NoMemory> {
    for number in walk.in_flight.as_slice() {
        let Some(ticket) = walk.tickets.get(*number) else {
            continue;
        };
        let cq = tables.cq_of(ticket.queue);
        if walk.has_room(tables, cq) && can_post(walk, tables, cq, ticket) {
            choices.push(Choice::Post(cq, *number))?;
        }
    }
    Ok(())
}

/// Adds all that can be done next, the best last.
pub(crate) fn add_choices(
    walk: &Walk,
    tables: &TraceTables,
    around: &Around,
    choices: &mut Vec<Choice>,
) -> Result<(), NoMemory> {
    if around.units_alone {
        return add_units(walk, tables, around, choices);
    }
    if line_fits(walk, tables).0 {
        choices.push(Choice::Line)?;
    }
    add_units(walk, tables, around, choices)?;
    add_posts(walk, tables, choices)?;
    add_fetches(walk, tables, choices)
}
