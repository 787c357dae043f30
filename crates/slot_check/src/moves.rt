//! What a batch does to the slots of an area: its claims, releases and takeovers.

ghost use Rattle.std.specs.Prelude.{IfOk, OnOk, filter, length, map, ℕ, ◌++◌, ◌+◌, ◌<◌, ◌^◌, ◌≡◌};
ghost use Rattle.std.specs.Option.{option_to_list};
ghost use Rattle.nvme_model.specs.Array.{has_block};
ghost use Rattle.nvme_model.specs.Slots.{in_area, swaps_in};
ghost use Rattle.host_laws.specs.Rules.{takeovers_within};
ghost use Rattle.host_laws.specs.Takeovers.{giving, takeovers_in};

use crate::batch::{has_block, swap_of};
use crate::swap::Swap;
use crate::takeover::{Takeover, add_givings, takeover_of};
use nvme_model::array::Range;
use nvme_model::submission::Submission;
use std::alloc::{AllocError as NoMemory, Global};

/// What a batch does to the slots of an area. What gives a slot is among the swaps, be it a claim or a takeover.
#[derive(Drop)]
pub struct Moves {
    pub swaps: Vec<Swap>,
    pub takeovers: Vec<Takeover>,
}

/// What a batch does to a slot.
trait OfSlot: Drop {
    ghost block: { Self → ℕ };

    fn lba(&self) -> u64
        ensures { result ≡ block self.now };
}

impl OfSlot for Swap {
    ghost block = { λ s. s.lba };

    fn lba(&self) -> u64 {
        self.lba()
    }
}

impl OfSlot for Takeover {
    ghost block = { λ w. w.lba };

    fn lba(&self) -> u64 {
        self.lba()
    }
}

// Adds it, where there is one and its slot is of the area.
fn push_in_area<T: OfSlot>(found: &mut Vec<T>, slots: Range, one: Option<T>) -> Result<(), NoMemory>
    ensures ok { OnOk result (found.new.items
        ≡ found.old.items ++ filter (λ s. has_block slots (T.block s)) (option_to_list one)) }
{
    let Some(one) = one else {
        return Ok(());
    };
    if !has_block(slots, one.lba()) {
        return Ok(());
    }
    found.push(one)?;
    Ok(())
}

/// What a batch does to the slots of an area, where its first entry has this number on this queue.
///
/// # Errors
///
/// `NoMemory` where a growth is refused.
pub fn moves_in_area(
    alloc: Global,
    slots: Range,
    queue: u16,
    first: u64,
    batch: &[Submission],
) -> Result<Moves, NoMemory>
    requires room { first + length batch.now < 2 ^ 64 }
    ensures swaps { IfOk result (λ m. m.swaps.items ≡
        in_area slots (swaps_in queue first batch.now) ++ map giving m.takeovers.items) }
    ensures takeovers { IfOk result (λ m. m.takeovers.items ≡
        takeovers_within slots (takeovers_in queue first batch.now)) }
{
    let mut swaps = Vec::new(alloc);
    let mut takeovers = Vec::new(alloc);
    let mut place = 0;
    while place + 1 < batch.len() {
        let number = first + place as u64;
        let a = &batch[place];
        let b = &batch[place + 1];
        push_in_area(&mut swaps, slots, swap_of(queue, number, a, b))?;
        push_in_area(&mut takeovers, slots, takeover_of(queue, number, a, b))?;
        place += 1;
    }
    add_givings(&mut swaps, takeovers.as_slice())?;
    Ok(Moves { swaps, takeovers })
}
