//! Which completion a ticket can have.

use crate::tables::{Awaited, TraceTables};
use crate::ticket::{SoughtOp, SoughtTicket, code_of};
use entry_codec::{Cqe, Status};
use trace::TraceOptions;

/// Whether it is sure which completion a ticket has, and that it says success.
pub fn is_sure(tables: &TraceTables, ticket: &SoughtTicket) -> bool {
    match wanted_completion(tables, ticket) {
        Some(completion) => completion.sure && completion.cqe.status == Status::SUCCESS,
        None => false,
    }
}

/// The completion that a ticket is to have.
pub fn wanted_completion(tables: &TraceTables, ticket: &SoughtTicket) -> Option<Awaited> {
    tables.completion(ticket.want?)
}

// Whether a status says that nothing was done.
fn is_nothing(code: u16) -> bool {
    code != 0 && code != code_of(Status::COMPARE_FAILURE)
}

// Whether a status will do for what a ticket owes.
fn will_do(options: &TraceOptions, owes: Option<u16>, code: u16) -> bool {
    match owes {
        Some(due) => due == code || options.statuses_any && is_nothing(due) && is_nothing(code),
        None => false,
    }
}

/// Whether a completion can be the next one of a ticket, as these options read it.
pub fn fits(
    options: &TraceOptions,
    ticket: &SoughtTicket,
    which: usize,
    cqe: &Cqe,
    length: usize,
) -> bool {
    if ticket.cid() != cqe.cid || !will_do(options, ticket.owes(), code_of(cqe.status)) {
        return false;
    }
    if ticket.kind == SoughtOp::Read {
        return ticket.want == Some(which);
    }
    length == 0
}
