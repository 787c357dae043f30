//! Fetch: the next command, or the next fused pair, of a submission queue becomes a ticket.

ghost use Rattle.std.specs.Option.{option_copied, option_map};
ghost use Rattle.std.specs.Prelude.{◌≡◌, ◌+◌, ◌++◌, ◌≤◌, ◌==◌, ◌&&◌, IfOk, OnErr, length, slice_get};
ghost use Rattle.nvme_model.specs.History.{Past};
ghost use Rattle.nvme_model.specs.declared.config.ConfigNumbers.{ConfigNumbers};
ghost use Rattle.nvme_model.specs.declared.entry.Entry.{Entry};
ghost use Rattle.history_check.specs.Kept.{IsCheckerState, checker_state_in};
ghost use Rattle.history_check.specs.Steps.{Took};
ghost use Rattle.fused_match.specs.Judged.{IsSound, NamesBlocks, operation_in, units_in_order, verdict_by};
ghost use Rattle.fused_match.specs.Judged.{waiting_items};
ghost use Rattle.nvme_model.specs.EntryBytes.{sqe_fields};
ghost use Rattle.nvme_model.specs.Operations.{op_by};
ghost use Rattle.nvme_model.specs.Tickets.{cids};
ghost use Rattle.nvme_model.specs.Verdict.{item_of, same_verdict, verdict_of};

use crate::commands::Commands;
use crate::fields::{CheckedInFlight, Fields, TicketUnits};
use crate::flight::CheckedTicket;
use crate::places::ring_place;
use broken_rules::same_verdict;
use fused_match::{Item, Judged, judge};
use history::Config;
use nvme_model::array::Range;
use nvme_model::entry::FetchLine;
use nvme_model::submission::Submission;
use rings::{CidsInUse, SqRing};
use std::alloc::{AllocError as NoMemory, Global};

// What a check sees of the entry behind the first of a ring, if there is one.
pub(crate) fn next_item(ring: &SqRing) -> Option<Item>
    ensures value { result ≡ option_map item_of (slice_get ring.now.waiting 1) }
{
    ring.peek(1).map(Item::of)
}

// What becomes of the entries at the front of a ring, where these CIDs are in use.
pub(crate) fn judge_front(
    config: &Config,
    in_use: &[u16],
    first: &Submission,
    next: Option<&Item>,
) -> Judged
    ensures verdict { verdict_by result ≡ verdict_of config.now.atomic config.now.blocks in_use.now
        (waiting_items (item_of first.now) (option_copied next.entry)) }
    ensures operation { operation_in result ≡ op_by (verdict_by result) (sqe_fields first.now.entry) }
    ensures range { NamesBlocks result (sqe_fields first.now.entry) }
{
    let blocks = config.numbers().blocks;
    judge(&Item::of(first), next, in_use, &config.units(), blocks)
}

// The units of a ticket.
fn units_of(alloc: Global, config: &Config, judged: &Judged) -> Result<Vec<Range>, NoMemory>
    requires sound { IsSound judged.now }
    ensures value { IfOk result (λ units. units.items ≡ units_in_order config.now.atomic judged.now) }
{
    match judged {
        Judged::Single(_, range) => config.units().cut(range.slba, range.blocks).collect(alloc),
        Judged::Pair(range) => {
            let mut units = Vec::new(alloc);
            units.push(*range)?;
            Ok(units)
        }
        Judged::Flush | Judged::SingleFailed(_) | Judged::PairFailed(_, _) => Ok(Vec::new(alloc)),
    }
}

// Puts the CIDs of a ticket in use.
fn put_in_use(used: &mut CidsInUse, commands: &Commands)
    requires room { length used.old.cids + length (cids commands.now) ≤ used.old.room }
    ensures more { used.new ≡ record used.old { cids = used.old.cids ++ cids commands.now } }
{
    for place in 0..commands.len() {
        used.add(commands.cid_at(place));
    }
}

// Whether a Fetch says the next ticket, and what became of its entries.
fn fetch_fits(line: &FetchLine, tickets: u64, judged: &Judged) -> bool
    ensures value { result ≡
        ((line.now.ticket == tickets + 1) && same_verdict line.now.verdict (verdict_by judged.now)) }
{
    line.ticket != 0 && line.ticket - 1 == tickets && same_verdict(line.verdict, judged.verdict())
}

/// Takes a Fetch, and says whether it may follow.
///
/// # Errors
///
/// `NoMemory` where a growth is refused; nothing has changed.
pub fn take_fetch(
    alloc: Global,
    config: &Config,
    fields: &mut Fields,
    line: &FetchLine,
) -> Result<bool, NoMemory>
    requires keeps { (past : Past) × IsCheckerState config.now past (checker_state_in fields.old) }
    ensures took { (past : Past) → IsCheckerState config.now past (checker_state_in fields.old) →
        IfOk result (λ b. Took config.now past (Entry.Fetch line.now) b (checker_state_in fields.new)) }
    ensures err { OnErr result (checker_state_in fields.new ≡ checker_state_in fields.old) }
{
    let Some(place) = ring_place(line.queue, fields.submission.len()) else {
        return Ok(false);
    };
    let ring = &fields.submission[place];
    let Some(first) = ring.peek(0) else {
        return Ok(false);
    };
    if fields.flights.len() >= usize::from(config.numbers().jobs) {
        return Ok(false);
    }
    let next = next_item(ring);
    let in_use = fields.in_use[place].as_slice();
    let judged = judge_front(config, in_use, first, next.as_ref());
    if !fetch_fits(line, fields.tickets, &judged) {
        return Ok(false);
    }
    let units = TicketUnits::new(units_of(alloc, config, &judged)?);
    fields.flights.reserve(1)?;
    let (first, second) = fields.submission[place].take_commands(judged.taken());
    let commands = Commands::new(line.queue, line.verdict, first, second);
    put_in_use(&mut fields.in_use[place], &commands);
    fields.flights.push_reserved(CheckedInFlight {
        ticket: line.ticket,
        flight: CheckedTicket::new(alloc, commands),
        units,
    });
    fields.tickets = line.ticket;
    Ok(true)
}
