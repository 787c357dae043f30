//! Steps that can be made at once: where a history explains the trace, one does that makes such a step now.

use entry_codec::Status;
use nvme_model::array::Range;
use trace_walk::{
    Awaited, Choice, Line, SoughtOp, SoughtTicket, TraceTables, Walk, fits, number_at,
    wanted_completion,
};

/// Whether a Fetch from a submission queue is to be made.
#[derive(Clone, Copy, PartialEq, Eq)]
pub(crate) enum FetchDue {
    Never,
    Maybe,
    Now,
}

// Whether the newest entries of a queue end with a first of a pair, not yet fetched, whose second comes next.
fn splits_a_pair(walk: &Walk, tables: &TraceTables, queue: usize) -> bool {
    let published = number_at(&walk.published, queue);
    if published <= number_at(&walk.fetched, queue) {
        return false;
    }
    is_fused(tables, queue, published.saturating_sub(1), 1) && is_fused(tables, queue, published, 2)
}

/// Whether the next line can be taken, and whether nothing can be better before it.
pub(crate) fn line_fits(walk: &Walk, tables: &TraceTables) -> (bool, bool) {
    match walk.line(tables) {
        Some(Line::Publish(queue, _, after)) => {
            let waiting = after.saturating_sub(number_at(&walk.fetched, queue));
            let room = waiting < usize::from(tables.numbers.sq_size);
            (room, room && !splits_a_pair(walk, tables, queue))
        }
        Some(Line::Reap(cq)) => {
            let some = number_at(&walk.posted, cq) > number_at(&walk.reaped, cq);
            (some, some)
        }
        None => (false, false),
    }
}

// Whether an entry that is published before a completion is reaped, and isn't fetched yet, has its identifier.
fn is_reused(walk: &Walk, tables: &TraceTables, completion: &Awaited) -> bool {
    let Some(entries) = tables.entries.get(completion.queue) else {
        return false;
    };
    for number in number_at(&walk.fetched, completion.queue)..entries.len() {
        match entries.get(number) {
            Some(entry) if entry.line < completion.line => {
                if entry.item.sqe().cid == completion.cqe.cid {
                    return true;
                }
            }
            Some(_) | None => return false,
        }
    }
    false
}

// Whether a Fetch is to be made, where no SQHD says more: at once, unless its identifiers may still be in use.
fn fetching_freely(walk: &Walk, tables: &TraceTables, queue: usize, fetched: usize) -> FetchDue {
    for number in fetched..fetched.saturating_add(2) {
        if let Some(entry) = tables.entry(queue, number) {
            if users(walk, queue, entry.item.sqe().cid).0 > 0 {
                return FetchDue::Maybe;
            }
        }
    }
    FetchDue::Now
}

/// Whether as many entries are fetched as this completion says, and that number is sure.
pub(crate) fn is_at_head(walk: &Walk, tables: &TraceTables, completion: &Awaited) -> (bool, bool) {
    if tables.options.ignored.sqhd {
        return (true, !is_reused(walk, tables, completion));
    }
    let size = usize::from(tables.numbers.sq_size);
    let fetched = number_at(&walk.fetched, completion.queue);
    let head = fetched.checked_rem(size) == Some(usize::from(completion.cqe.sqhd));
    let round = fetched.saturating_add(size).saturating_sub(1);
    let wraps = match tables.entry(completion.queue, round) {
        Some(entry) => entry.line < completion.line,
        None => false,
    };
    (head, !wraps)
}

/// The tickets in flight of a queue that use an identifier: how many, and the last of them.
pub(crate) fn users(walk: &Walk, queue: usize, cid: u16) -> (usize, usize) {
    let mut count = 0usize;
    let mut last = usize::MAX;
    for number in walk.in_flight.as_slice() {
        if let Some(ticket) = walk.tickets.get(*number) {
            if ticket.queue == queue && ticket.uses(cid) {
                count = count.saturating_add(1);
                last = *number;
            }
        }
    }
    (count, last)
}

// A Post to this completion queue that nothing else can take the place of.
fn forced_post_to(walk: &Walk, tables: &TraceTables, cq: usize) -> Option<Choice> {
    let (which, completion) = tables.wanted(cq, number_at(&walk.posted, cq))?;
    let (head, sure) = is_at_head(walk, tables, &completion);
    if !head || !sure || !walk.has_room(tables, cq) {
        return None;
    }
    let (count, number) = users(walk, completion.queue, completion.cqe.cid);
    let ticket = walk.ticket(number)?;
    if count == 1
        && fits(
            &tables.options,
            &ticket,
            which,
            &completion.cqe,
            completion.length,
        )
    {
        return Some(Choice::Post(cq, number));
    }
    None
}

fn forced_post(walk: &Walk, tables: &TraceTables) -> Option<Choice> {
    for cq in 0..walk.posted.len() {
        let choice = forced_post_to(walk, tables, cq);
        if choice.is_some() {
            return choice;
        }
    }
    None
}

// A unit that only reads or compares, and whose answer is right now.
fn forced_unit(walk: &Walk, tables: &TraceTables) -> Option<Choice> {
    for number in walk.in_flight.as_slice() {
        let ticket = walk.tickets.get(*number)?;
        if ticket.finds.is_some() && ticket.has_unit() {
            let range = walk.next_unit(tables, ticket)?;
            if is_right_now(walk, tables, ticket, &range) {
                return Some(Choice::Unit(*number));
            }
        }
    }
    None
}

fn is_right_now(walk: &Walk, tables: &TraceTables, ticket: &SoughtTicket, range: &Range) -> bool {
    let Some(completion) = wanted_completion(tables, ticket) else {
        return false;
    };
    if !walk.is_known(range) {
        return false;
    }
    let success = completion.cqe.status == Status::SUCCESS;
    match ticket.kind {
        SoughtOp::Read => success
            && has_data(ticket, &completion)
            && finds_all(walk, tables, ticket, range),
        SoughtOp::Compare => finds_all(walk, tables, ticket, range) == success,
        SoughtOp::Pair => !success && !finds_all(walk, tables, ticket, range),
        SoughtOp::Idle | SoughtOp::Write | SoughtOp::WriteZeroes => false,
    }
}

/// Whether a ticket finds in these blocks what it is to find.
pub(crate) fn finds_all(
    walk: &Walk,
    tables: &TraceTables,
    ticket: &SoughtTicket,
    range: &Range,
) -> bool {
    walk.equal(tables, ticket, range) == range.blocks
}

/// Whether a Fetch from a submission queue is to be made.
pub(crate) fn fetching(walk: &Walk, tables: &TraceTables, queue: usize) -> FetchDue {
    let fetched = number_at(&walk.fetched, queue);
    let published = number_at(&walk.published, queue);
    if fetched >= published {
        return FetchDue::Never;
    }
    if published == fetched.saturating_add(1) && splits_a_pair(walk, tables, queue) {
        return FetchDue::Maybe;
    }
    if tables.options.ignored.sqhd {
        return fetching_freely(walk, tables, queue, fetched);
    }
    let Some(completion) = tables.awaited(queue, number_at(&walk.answered, queue)) else {
        return fetching_freely(walk, tables, queue, fetched);
    };
    let (head, sure) = is_at_head(walk, tables, &completion);
    if !head {
        FetchDue::Now
    } else if sure {
        FetchDue::Never
    } else {
        FetchDue::Maybe
    }
}

/// Whether the next entry of a submission queue may have been refused.
pub(crate) fn is_doubtful(walk: &Walk, tables: &TraceTables, queue: usize) -> bool {
    match tables.entry(queue, number_at(&walk.fetched, queue)) {
        Some(entry) => entry.doubtful,
        None => false,
    }
}

fn forced_fetch(walk: &Walk, tables: &TraceTables) -> Option<Choice> {
    if tables.crowded {
        return None;
    }
    for queue in 0..walk.fetched.len() {
        let now = fetching(walk, tables, queue) == FetchDue::Now;
        if now && !is_doubtful(walk, tables, queue) {
            return Some(Choice::Fetch(queue));
        }
    }
    None
}

/// A step that can be made at once.
pub(crate) fn forced(walk: &Walk, tables: &TraceTables) -> Option<Choice> {
    if line_fits(walk, tables).1 {
        return Some(Choice::Line);
    }
    let post = forced_post(walk, tables);
    if post.is_some() {
        return post;
    }
    let unit = forced_unit(walk, tables);
    if unit.is_some() {
        return unit;
    }
    forced_fetch(walk, tables)
}

fn is_fused(tables: &TraceTables, queue: usize, number: usize, fuse: u8) -> bool {
    match tables.entry(queue, number) {
        Some(entry) => entry.item.sqe().fuse() == fuse,
        None => false,
    }
}

/// Whether a completion has as many bytes as a Read reads.
pub(crate) fn has_data(ticket: &SoughtTicket, completion: &Awaited) -> bool {
    completion.length == (ticket.range.blocks as usize).saturating_mul(512)
}
