//! Steps that room was made for.

use nvme_model::refusal::Why;
use step_core::{Core, Refused, Step};

fn is_promised(step: &Step) -> bool {
    matches!(step, Step::Grant(_) | Step::Block(_) | Step::Reap(_))
}

// How many steps from this place on are Grants, Blocks and Reaps.
fn promised_from(steps: &[Step], place: usize) -> usize {
    let mut count: usize = 0;
    for step in steps.get(place..).unwrap_or(&[]) {
        if !is_promised(step) {
            return count;
        }
        count = count.saturating_add(1);
    }
    count
}

// The next step is made, and may be refused; whether there is one and memory wasn't wanting.
fn makes_next(core: &mut Core, rest: &mut Vec<Step>) -> bool {
    match rest.pop() {
        Some(step) => !matches!(core.step(step), Err(Refused::Step(Why::NoMemory))),
        None => false,
    }
}

// Makes so many of the steps, the last one first, and room for so many more.
fn make_room(core: &mut Core, rest: &mut Vec<Step>, place: usize, count: usize) -> bool {
    if place > rest.len() {
        return false;
    }
    for _ in 0..place {
        makes_next(core, rest);
    }
    core.reserve(count).is_ok()
}

// Makes the steps that room was made for, with calls between them that take no memory; whether none of them wants any.
fn make_promised(core: &mut Core, rest: &mut Vec<Step>, count: usize) -> bool {
    for _ in 0..count {
        if !makes_next(core, rest) {
            return false;
        }
        let _ = core.ready();
        let _ = core.medium(0);
    }
    true
}

/// Makes so many steps, room for those behind them that are promised, and those; whether none of these wants memory.
pub(crate) fn keep_promise(
    core: &mut Core,
    steps: Vec<Step>,
    place: usize,
    is_first: bool,
) -> bool {
    let count = promised_from(steps.as_slice(), place);
    let mut rest = steps;
    rest.reverse();
    make_room(core, &mut rest, place, count) && (is_first || make_promised(core, &mut rest, count))
}
