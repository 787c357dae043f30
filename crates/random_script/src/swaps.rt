//! Claims and releases of slots.

ghost use Rattle.std.specs.Prelude.{◌≡◌, ◌≢◌, ◌<◌, ◌≤◌, IfOk};
ghost use Rattle.nvme_model.specs.Array.{zeros};
ghost use Rattle.nvme_model.specs.Slots as slots;
ghost use Rattle.random_script.specs.Kinds.{IsHeldBlock, IsSwap, IsSwapData};

use crate::commands::{TwoEntries, drawn_cid};
use crate::numbers::RandomNumbers;
use entry_codec::Fuse;
use nvme_model::submission::Payload;
use script_lines::{CommandWord, EntryForm, WrittenCommand, WrittenEntry};
use std::alloc::{AllocError as NoMemory, Global};
use step_core::Core;

/// A claim or a release on a submission queue.
#[derive(Drop)]
pub(crate) struct DrawnSwap {
    pub(crate) queue: u16,
    pub(crate) two: TwoEntries,
}

// The block of a free slot.
fn free_block(alloc: Global) -> Result<Payload, NoMemory>
    ensures free { IfOk result (λ p. p ≡ zeros) }
{
    Payload::copy_of(alloc, &[0; 512])
}

// The block of a slot that is held under this name.
fn block_of(host: u8, serial: u8) -> [u8; 512]
    ensures value { result ≡ slots.slot_block (record { host = host; serial = serial }) }
{
    let mut block = [0; 512];
    block[0] = host;
    block[8] = serial;
    block
}

// The serial of a claim.
fn drawn_serial(random: &mut RandomNumbers) -> u8
    ensures some { 1 ≤ result }
{
    1 + random.below(250) as u8
}

// The name of a claim of this host, which has the number of its queue.
fn name_block(alloc: Global, host: u8, random: &mut RandomNumbers) -> Result<Payload, NoMemory>
    requires some { 1 ≤ host }
    ensures held { IfOk result IsHeldBlock }
{
    Payload::copy_of(alloc, &block_of(host, drawn_serial(random)))
}

// A pair on this block with this data.
fn swap_on(slot: u64, random: &mut RandomNumbers, found: Payload, written: Payload) -> TwoEntries
    requires one { IsSwapData found written }
    ensures swap { IsSwap result.first result.second }
{
    let cid = random.below(500) as u16;
    let compare = WrittenCommand {
        name: CommandWord::Compare,
        fuse: Fuse::First,
        cid,
        slba: slot,
        nlb: 0,
    };
    let write = WrittenCommand {
        name: CommandWord::Write,
        fuse: Fuse::Second,
        cid: cid + 500,
        slba: slot,
        nlb: 0,
    };
    TwoEntries {
        first: WrittenEntry {
            form: EntryForm::Named(compare),
            payload: found,
        },
        second: WrittenEntry {
            form: EntryForm::Named(write),
            payload: written,
        },
    }
}

// A claim of a slot by the host of a queue.
fn claim(
    alloc: Global,
    random: &mut RandomNumbers,
    slot: u64,
    queue: u16,
) -> Result<DrawnSwap, NoMemory>
    requires low { 1 ≤ queue }
    requires high { queue < 256 }
    ensures swap { IfOk result (λ s. IsSwap s.two.first s.two.second) }
{
    let found = free_block(alloc)?;
    let written = name_block(alloc, queue as u8, random)?;
    Ok(DrawnSwap {
        queue,
        two: swap_on(slot, random, found, written),
    })
}

// A release of the slot that has this block, by its holder.
fn release(
    alloc: Global,
    random: &mut RandomNumbers,
    slot: u64,
    block: &[u8; 512],
) -> Result<DrawnSwap, NoMemory>
    requires { block.now ≢ zeros }
    ensures swap { IfOk result (λ s. IsSwap s.two.first s.two.second) }
{
    let found = Payload::copy_of(alloc, block)?;
    let written = free_block(alloc)?;
    Ok(DrawnSwap {
        queue: u16::from(block[0]),
        two: swap_on(slot, random, found, written),
    })
}

/// A claim of a slot where it is free, and else a release by its holder; in one case in four a claim, free or not. The
/// slots are the first four blocks of the volume, and the host of a queue has its number.
pub(crate) fn drawn_swap(
    alloc: Global,
    core: &Core,
    random: &mut RandomNumbers,
) -> Result<DrawnSwap, NoMemory>
    ensures swap { IfOk result (λ s. IsSwap s.two.first s.two.second) }
{
    let numbers = core.config().numbers();
    let queue = 1 + random.below(u32::from(numbers.pairs).max(1)).min(15) as u16;
    let slot = u64::from(random.below(numbers.blocks.min(4).max(1)));
    let claims = random.one_in(4);
    let Some(block) = core.medium(slot) else {
        return claim(alloc, random, slot, queue);
    };
    if claims || block[0] == 0 {
        return claim(alloc, random, slot, queue);
    }
    release(alloc, random, slot, block)
}
