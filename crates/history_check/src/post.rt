//! Post: a ticket's next completion goes into its completion queue.

ghost use Rattle.nvme_model.specs.History.{Past};
ghost use Rattle.nvme_model.specs.declared.config.ConfigNumbers.{ConfigNumbers};
ghost use Rattle.nvme_model.specs.declared.entry.Entry.{Entry};
ghost use Rattle.history_check.specs.Kept.{IsCheckerState, checker_state_in};
ghost use Rattle.history_check.specs.Steps.{Took};

use crate::fields::Fields;
use crate::places::ticket_place;
use history::Config;
use nvme_model::entry::PostLine;
use nvme_model::submission::Payload;
use std::alloc::Global;

/// Takes a Post, and says whether it may follow. Takes no memory.
pub fn take_post(alloc: Global, config: &Config, fields: &mut Fields, line: &PostLine) -> bool
    requires keeps { (past : Past) × IsCheckerState config.now past (checker_state_in fields.old) }
    ensures took { (past : Past) → IsCheckerState config.now past (checker_state_in fields.old) →
        Took config.now past (Entry.Post line.now) result (checker_state_in fields.new) }
{
    let Some(place) = ticket_place(fields.flights.as_slice(), line.ticket) else {
        return false;
    };
    let one = &fields.flights[place];
    let count = one.units.as_slice().len() as u64;
    if one.flight.owes_nothing(count) {
        return false;
    }
    let queue = one.flight.ticket().queue();
    let at = usize::from((queue - 1) % config.numbers().cqs);
    let head = fields.submission[usize::from(queue) - 1].head();
    let phase = fields.completion[at].phase();
    if !one.flight.post_fits(count, head, phase, line) {
        return false;
    }
    let flies_on = one.flight.flies_on();
    let cid = one.flight.next_cid();
    let nothing = Payload::new(Vec::new(alloc));
    let Ok(()) = fields.completion[at].post(line.cqe, nothing) else {
        return false;
    };
    fields.in_use[usize::from(queue) - 1].remove(cid);
    if flies_on {
        fields.flights[place].flight.post();
        return true;
    }
    fields.flights.remove(place);
    true
}
