//! Commands that have a name.

ghost use Rattle.std.specs.Prelude.{◌≡◌, ◌≢◌, ◌≤◌, IfOk};
ghost use Rattle.random_script.specs.Kinds.{IsSingleCommand, IsLong, IsPair, IsShort};
ghost use Rattle.script_lines.specs.declared.written.CommandWord.{CommandWord as TheName};
ghost use Rattle.script_lines.specs.declared.written.EntryForm.{EntryForm as TheForm};

use crate::data::{drawn_data, held_data};
use crate::numbers::RandomNumbers;
use entry_codec::Fuse;
use nvme_model::submission::Payload;
use script_lines::{CommandWord, EntryForm, WrittenCommand, WrittenEntry};
use std::alloc::{AllocError as NoMemory, Global};
use step_core::Core;

/// Blocks that a command names: the first, and how many, 0's based.
#[derive(Clone, Copy)]
pub(crate) struct Extent {
    pub(crate) slba: u64,
    pub(crate) nlb: u16,
}

/// Two entries.
#[derive(Drop)]
pub(crate) struct TwoEntries {
    pub(crate) first: WrittenEntry,
    pub(crate) second: WrittenEntry,
}

/// Blocks of the volume, at most so many; in one case in twenty-four past its end.
pub(crate) fn drawn_extent(core: &Core, random: &mut RandomNumbers, most: u16) -> Extent {
    let blocks = core.config().numbers().blocks.max(1);
    if random.one_in(24) {
        return Extent {
            slba: u64::from(blocks),
            nlb: 0,
        };
    }
    let slba = random.below(blocks);
    let room = (blocks - slba).min(u32::from(most)).max(1);
    Extent {
        slba: u64::from(slba),
        nlb: random.below(room) as u16,
    }
}

/// A command identifier, which another command in flight seldom has.
pub(crate) fn drawn_cid(random: &mut RandomNumbers) -> u16 {
    random.below(1000) as u16
}

// A command that has blocks.
fn drawn_operation(random: &mut RandomNumbers) -> CommandWord
    ensures { result ≢ TheName.Flush }
{
    match random.below(9) {
        0..=2 => CommandWord::Write,
        3..=5 => CommandWord::Read,
        6..=7 => CommandWord::Compare,
        _ => CommandWord::WriteZeroes,
    }
}

// The data that a command needs: what a Compare finds in half of the cases, and in one case in twenty-four none.
fn drawn_payload(
    alloc: Global,
    core: &Core,
    random: &mut RandomNumbers,
    command: &WrittenCommand,
) -> Result<Payload, NoMemory> {
    let blocks = u32::from(command.nlb) + 1;
    if random.one_in(24) {
        return Ok(Payload::new(Vec::new(alloc)));
    }
    let data = match command.name {
        CommandWord::Write => drawn_data(alloc, random, blocks)?,
        CommandWord::Compare => {
            if random.one_in(2) {
                held_data(alloc, core, command.slba, blocks)?
            } else {
                drawn_data(alloc, random, blocks)?
            }
        }
        CommandWord::Flush | CommandWord::Read | CommandWord::WriteZeroes => Vec::new(alloc),
    };
    Ok(Payload::new(data))
}

// The command with data.
fn with_payload(
    alloc: Global,
    core: &Core,
    random: &mut RandomNumbers,
    command: WrittenCommand,
) -> Result<WrittenEntry, NoMemory>
    ensures form { IfOk result (λ x. x.form ≡ TheForm.Named command) }
{
    let payload = drawn_payload(alloc, core, random, &command)?;
    Ok(WrittenEntry {
        form: EntryForm::Named(command),
        payload,
    })
}

/// A command by itself on these blocks; in one case in ten a Flush.
pub(crate) fn drawn_alone(
    alloc: Global,
    core: &Core,
    random: &mut RandomNumbers,
    extent: Extent,
) -> Result<WrittenEntry, NoMemory>
    ensures alone { IfOk result (λ x. IsSingleCommand x.form) }
    ensures short { extent.nlb ≡ 0 → IfOk result (λ x. IsShort x.form) }
{
    let cid = drawn_cid(random);
    let command = if random.one_in(10) {
        WrittenCommand {
            name: CommandWord::Flush,
            fuse: Fuse::Normal,
            cid,
            slba: 0,
            nlb: 0,
        }
    } else {
        WrittenCommand {
            name: drawn_operation(random),
            fuse: Fuse::Normal,
            cid,
            slba: extent.slba,
            nlb: extent.nlb,
        }
    };
    with_payload(alloc, core, random, command)
}

/// A command by itself on more than one block.
pub(crate) fn drawn_long(
    alloc: Global,
    core: &Core,
    random: &mut RandomNumbers,
) -> Result<WrittenEntry, NoMemory>
    ensures long { IfOk result (λ x. IsLong x.form) }
{
    let extent = drawn_extent(core, random, 12);
    let command = WrittenCommand {
        name: drawn_operation(random),
        fuse: Fuse::Normal,
        cid: drawn_cid(random),
        slba: extent.slba,
        nlb: extent.nlb.max(1),
    };
    with_payload(alloc, core, random, command)
}

/// A fused pair on few blocks.
pub(crate) fn drawn_pair(
    alloc: Global,
    core: &Core,
    random: &mut RandomNumbers,
) -> Result<TwoEntries, NoMemory>
    ensures pair { IfOk result (λ two. IsPair two.first.form two.second.form) }
{
    let most = core.config().numbers().atomic.acwu.min(255) + 1;
    let extent = drawn_extent(core, random, most);
    let compare = WrittenCommand {
        name: CommandWord::Compare,
        fuse: Fuse::First,
        cid: drawn_cid(random),
        slba: extent.slba,
        nlb: extent.nlb,
    };
    let write = WrittenCommand {
        name: CommandWord::Write,
        fuse: Fuse::Second,
        cid: drawn_cid(random),
        slba: extent.slba,
        nlb: extent.nlb,
    };
    let first = with_payload(alloc, core, random, compare)?;
    let second = with_payload(alloc, core, random, write)?;
    Ok(TwoEntries { first, second })
}
