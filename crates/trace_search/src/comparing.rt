//! Units that compare blocks of which it is open what they held: each answer that the completion allows is tried.

use entry_codec::Status;
use std::alloc::AllocError as NoMemory;
use trace_walk::{Choice, SoughtTicket, TraceTables, Walk, wanted_completion};

// Whether a ticket can have a unit whose blocks are all equal, or one of which a block differs.
fn can_be(tables: &TraceTables, ticket: &SoughtTicket, all_equal: bool, is_last: bool) -> bool {
    match wanted_completion(tables, ticket) {
        None => true,
        Some(completion) if completion.cqe.status == Status::SUCCESS => all_equal,
        Some(_) => !(all_equal && is_last),
    }
}

/// Adds the next unit of a ticket once for each answer that it may have, and says so, where it compares blocks of which
/// one is open.
pub(crate) fn add_compared(
    walk: &Walk,
    tables: &TraceTables,
    number: usize,
    choices: &mut Vec<Choice>,
) -> Result<bool, NoMemory> {
    let Some(ticket) = walk.ticket(number) else {
        return Ok(false);
    };
    let Some(range) = walk.next_unit(tables, &ticket) else {
        return Ok(false);
    };
    if !ticket.compares() || walk.is_known(&range) {
        return Ok(false);
    }
    let is_last = ticket.left <= range.blocks;
    for equal in 0..=range.blocks {
        let can_be = can_be(tables, &ticket, equal == range.blocks, is_last);
        if can_be && walk.may_be_equal(tables, &ticket, &range, equal) {
            choices.push(Choice::Compared(number, equal))?;
        }
    }
    Ok(true)
}
