//! What the commands of a trace do, as their entries have it.

ghost use Rattle.std.specs.Prelude.{◌≡◌, ◌≤◌, ◌+◌, IfOk, option_copied};
ghost use Rattle.nvme_model.specs.Cut.{cut};
ghost use Rattle.nvme_model.specs.Operations.{has_write};
ghost use Rattle.refutation.specs.Slices.{looks};
ghost use Rattle.refutation_check.specs.Commands.{entry_op, entry_units, found_units};

use entry_codec::decode_sqe;
use history::Config;
use nvme_model::array::Range;
use nvme_model::operation::Op;
use nvme_model::submission::Submission;
use std::alloc::{AllocError as NoMemory, Global};

/// What the command of an entry does, where nothing is wrong with it.
pub fn op_of(entry: &Submission) -> Option<Op>
    ensures value { result ≡ entry_op entry.now }
{
    let fields = decode_sqe(&entry.entry);
    match fields.fuse() {
        1 => Some(Op::Pair),
        2 => None,
        _ => fields.operation(),
    }
}

/// Whether it writes blocks.
pub(crate) fn has_write(op: Option<Op>) -> bool
    ensures value { result ≡ has_write op }
{
    match op {
        Some(Op::Write | Op::WriteZeroes | Op::Pair) => true,
        Some(Op::Read | Op::Compare) | None => false,
    }
}

/// Whether it reads or compares blocks.
pub(crate) fn looks(op: Option<Op>) -> bool
    ensures value { result ≡ looks op }
{
    match op {
        Some(Op::Read | Op::Compare | Op::Pair) => true,
        Some(Op::Write | Op::WriteZeroes) | None => false,
    }
}

// The units of a range.
fn cut(alloc: Global, config: &Config, slba: u64, blocks: u32) -> Result<Vec<Range>, NoMemory>
    requires some { 1 ≤ blocks }
    requires within { slba + blocks ≤ 65536 }
    ensures value { IfOk result (λ us. us.items ≡ cut config.now.atomic slba blocks) }
{
    config.units().cut(slba, blocks).collect(alloc)
}

/// The units of the command of an entry; none where the volume doesn't have all its blocks.
///
/// # Errors
///
/// `NoMemory` alone.
pub fn units_of(alloc: Global, config: &Config, entry: &Submission) -> Result<Vec<Range>, NoMemory>
    ensures value { IfOk result (λ us. us.items ≡ entry_units config.now entry.now) }
{
    let fields = decode_sqe(&entry.entry);
    let (slba, blocks) = (fields.slba(), fields.blocks());
    let size = u64::from(config.numbers().blocks);
    if size < u64::from(blocks) || size - u64::from(blocks) < slba {
        return Ok(Vec::new(alloc));
    }
    match op_of(entry) {
        None => Ok(Vec::new(alloc)),
        Some(Op::Read) => cut(alloc, config, slba, blocks),
        Some(Op::Write) => cut(alloc, config, slba, blocks),
        Some(Op::Compare) => cut(alloc, config, slba, blocks),
        Some(Op::WriteZeroes) => cut(alloc, config, slba, blocks),
        Some(Op::Pair) => {
            let mut units = Vec::new(alloc);
            units.push(Range { slba, blocks })?;
            Ok(units)
        }
    }
}
