//! Which rule an entry breaks.

ghost use Rattle.std.specs.Prelude.{◌≡◌, IfOk, OnErr, slice_get, true};
ghost use Rattle.nvme_model.specs.History.{Past};
ghost use Rattle.nvme_model.specs.declared.config.ConfigNumbers.{ConfigNumbers};
ghost use Rattle.nvme_model.specs.declared.entry.Entry.{Entry};
ghost use Rattle.history_check.specs.Tables.{tables};
ghost use Rattle.history_check.specs.Kept.{IsCheckerState, checker_state_in};
ghost use Rattle.history_check.specs.Whys.{broken_by, grant_why, why_needs_memory};

use crate::fetch::{judge_front, next_item};
use crate::fields::{CheckedInFlight, Fields};
use crate::grant::next_unit;
use crate::places::{ring_place, ticket_place};
use broken_rules::{Broken, fetch_broken, grant_broken, reap_broken};
use history::{Config, Entry};
use nvme_model::entry::{BlockLine, FetchLine, GrantLine, PostLine, PublishLine, ReapLine};
use nvme_model::refusal::Why;
use range_reserve::Ranges;
use std::alloc::{AllocError as NoMemory, Global};

fn why_publish(fields: &Fields, line: &PublishLine) -> Option<Broken>
    ensures value { (c : ConfigNumbers) (past : Past) →
        IsCheckerState c past (checker_state_in fields.now)
        → result ≡ broken_by c (tables c past) (Entry.Publish line.now) }
{
    let Some(place) = ring_place(line.queue, fields.submission.len()) else {
        return Some(Broken::Refused(Why::NoQueue));
    };
    let why = fields.submission[place].refuses(line.batch.as_slice())?;
    Some(Broken::Refused(why))
}

fn why_fetch(config: &Config, fields: &Fields, line: &FetchLine) -> Option<Broken>
    requires keeps { (past : Past) × IsCheckerState config.now past (checker_state_in fields.now) }
    ensures value { (past : Past) → IsCheckerState config.now past (checker_state_in fields.now) →
        result ≡ broken_by config.now (tables config.now past) (Entry.Fetch line.now) }
{
    let Some(place) = ring_place(line.queue, fields.submission.len()) else {
        return Some(Broken::Refused(Why::NoQueue));
    };
    let ring = &fields.submission[place];
    let Some(first) = ring.peek(0) else {
        return Some(Broken::Refused(Why::NoEntry));
    };
    if fields.flights.len() >= usize::from(config.numbers().jobs) {
        return Some(Broken::Refused(Why::JobsFull));
    }
    let next = next_item(ring);
    let in_use = fields.in_use[place].as_slice();
    let judged = judge_front(config, in_use, first, next.as_ref());
    fetch_broken(line, fields.tickets, &judged.verdict())
}

// A Grant of a ticket in flight.
fn why_not_granted(one: &CheckedInFlight, ranges: &Ranges, line: &GrantLine) -> Option<Broken>
    ensures value { result ≡
        grant_why one.now.flight (slice_get one.now.units one.now.flight.opened) ranges.now.held line.now }
{
    let Some(next) = next_unit(one) else {
        return Some(Broken::Refused(Why::WrongState));
    };
    if one.flight.differs() || one.flight.has_open() {
        return Some(Broken::Refused(Why::WrongState));
    }
    let mode = one.flight.ticket().mode();
    if ranges.conflicts(next, mode) {
        return Some(Broken::Refused(Why::Conflict));
    }
    grant_broken(line, one.flight.opened(), Some(next), mode)
}

fn why_grant(fields: &Fields, line: &GrantLine) -> Option<Broken>
    requires keeps { (c : ConfigNumbers) × (past : Past) × IsCheckerState c past (checker_state_in fields.now) }
    ensures value { (c : ConfigNumbers) (past : Past) →
        IsCheckerState c past (checker_state_in fields.now)
        → result ≡ broken_by c (tables c past) (Entry.Grant line.now) }
{
    let Some(place) = ticket_place(fields.flights.as_slice(), line.ticket) else {
        return Some(Broken::Refused(Why::NoTicket));
    };
    why_not_granted(&fields.flights[place], &fields.ranges, line)
}

fn why_block(alloc: Global, fields: &Fields, line: &BlockLine) -> Result<Option<Broken>, NoMemory>
    requires keeps { (c : ConfigNumbers) × (past : Past) × IsCheckerState c past (checker_state_in fields.now) }
    ensures value { (c : ConfigNumbers) (past : Past) →
        IsCheckerState c past (checker_state_in fields.now)
        → IfOk result (λ b. b ≡ broken_by c (tables c past) (Entry.Block line.now)) }
{
    let Some(place) = ticket_place(fields.flights.as_slice(), line.ticket) else {
        return Ok(Some(Broken::Refused(Why::NoTicket)));
    };
    let one = &fields.flights[place];
    one.flight.block_wrong(alloc, &fields.volume, line)
}

fn why_post(config: &Config, fields: &Fields, line: &PostLine) -> Option<Broken>
    requires keeps { (past : Past) × IsCheckerState config.now past (checker_state_in fields.now) }
    ensures value { (past : Past) → IsCheckerState config.now past (checker_state_in fields.now) →
        result ≡ broken_by config.now (tables config.now past) (Entry.Post line.now) }
{
    let Some(place) = ticket_place(fields.flights.as_slice(), line.ticket) else {
        return Some(Broken::Refused(Why::NoTicket));
    };
    let one = &fields.flights[place];
    let count = one.units.as_slice().len() as u64;
    if one.flight.owes_nothing(count) {
        return Some(Broken::Refused(Why::WrongState));
    }
    let queue = one.flight.ticket().queue();
    let head = fields.submission[usize::from(queue) - 1].head();
    let at = usize::from((queue - 1) % config.numbers().cqs);
    let ring = &fields.completion[at];
    if ring.is_full() {
        return Some(Broken::Refused(Why::CqFull));
    }
    one.flight.post_wrong(count, head, ring.phase(), line)
}

fn why_reap(fields: &Fields, line: &ReapLine) -> Option<Broken>
    ensures value { (c : ConfigNumbers) (past : Past) →
        IsCheckerState c past (checker_state_in fields.now)
        → result ≡ broken_by c (tables c past) (Entry.Reap line.now) }
{
    let Some(place) = ring_place(line.queue, fields.completion.len()) else {
        return Some(Broken::Refused(Why::NoQueue));
    };
    match fields.completion[place].front() {
        None => reap_broken(line, None),
        Some(oldest) => reap_broken(line, Some(&oldest.cqe)),
    }
}

/// The first rule that an entry breaks behind a legal history.
///
/// # Errors
///
/// `NoMemory` where a growth is refused.
pub fn why_broken(
    alloc: Global,
    config: &Config,
    fields: &Fields,
    entry: &Entry,
) -> Result<Option<Broken>, NoMemory>
    requires keeps { (past : Past) × IsCheckerState config.now past (checker_state_in fields.now) }
    ensures value { (past : Past) → IsCheckerState config.now past (checker_state_in fields.now) →
        IfOk result (λ b. b ≡ broken_by config.now (tables config.now past) entry.now) }
    ensures wants { OnErr result (why_needs_memory entry.now ≡ true) }
{
    match entry {
        Entry::Publish(line) => Ok(why_publish(fields, line)),
        Entry::Fetch(line) => Ok(why_fetch(config, fields, line)),
        Entry::Grant(line) => Ok(why_grant(fields, line)),
        Entry::Block(line) => why_block(alloc, fields, line),
        Entry::Post(line) => Ok(why_post(config, fields, line)),
        Entry::Reap(line) => Ok(why_reap(fields, line)),
    }
}
