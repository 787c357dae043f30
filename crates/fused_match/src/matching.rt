//! Which entries a Fetch takes together, and what becomes of them.

ghost use Rattle.std.specs.Prelude.{◌≡◌, ◌≤◌};
ghost use Rattle.std.specs.Option.{option_copied};
ghost use Rattle.nvme_model.specs.EntryBytes.{block_count as blocks_of, slba as slba_of};
ghost use Rattle.nvme_model.specs.Operations.{op_by};
ghost use Rattle.nvme_model.specs.Verdict.{of_command, of_pair, verdict_of};
ghost use Rattle.fused_match.specs.Judged.{NamesBlocks, operation_in, verdict_by, waiting_items};

use crate::checks::{command_fault, pair_fault};
use crate::item::Item;
use crate::judged::Judged;
use atomic_units::Units;
use entry_codec::Sqe;
use nvme_model::array::Range;
use nvme_model::status::Status;

fn range_of(sqe: &Sqe) -> Range
    ensures slba { result.slba ≡ slba_of sqe.now }
    ensures blocks { result.blocks ≡ blocks_of sqe.now }
{
    Range {
        slba: sqe.slba(),
        blocks: sqe.blocks(),
    }
}

// A command that passed its checks, or failed so.
fn single(sqe: &Sqe, fault: Option<Status>) -> Judged
    ensures verdict { verdict_by result ≡ of_command fault }
    ensures operation { operation_in result ≡ op_by (verdict_by result) sqe.now }
    ensures range { NamesBlocks result sqe.now }
{
    if let Some(status) = fault {
        return Judged::SingleFailed(status);
    }
    match sqe.operation() {
        Some(op) => Judged::Single(op, range_of(sqe)),
        None => Judged::Flush,
    }
}

// A matched pair that passed its checks, or failed so.
fn pair(sqe: &Sqe, fault: Option<(Status, Status)>) -> Judged
    ensures verdict { verdict_by result ≡ of_pair fault }
    ensures operation { operation_in result ≡ op_by (verdict_by result) sqe.now }
    ensures range { NamesBlocks result sqe.now }
{
    match fault {
        Some((first, second)) => Judged::PairFailed(first, second),
        None => Judged::Pair(range_of(sqe)),
    }
}

/// What a Fetch does with the entries at the front of a queue: `next` is the one behind the first, if it is published.
///
/// `in_use` are the CIDs in use on the queue, `size` is the number of the volume's blocks. A first of a
/// fused pair (FUSE 01b) is taken with a second (FUSE 10b) right behind it; without one, and a second at the front, end
/// alone with Command Aborted due to Missing Fused Command (Base 2.0, Fused Operations).
pub fn judge(first: &Item, next: Option<&Item>, in_use: &[u16], units: &Units, size: u32) -> Judged
    ensures verdict { verdict_by result ≡
        verdict_of units.now size in_use.now (waiting_items first.now (option_copied next.entry)) }
    ensures operation { operation_in result ≡ op_by (verdict_by result) first.now.fields }
    ensures range { NamesBlocks result first.now.fields }
{
    let sqe = first.sqe();
    if sqe.fuse() == 1 {
        let Some(second) = next else {
            return Judged::SingleFailed(Status::MISSING_FUSED);
        };
        if second.sqe().fuse() != 2 {
            return Judged::SingleFailed(Status::MISSING_FUSED);
        }
        return pair(&sqe, pair_fault(first, second, in_use, units, size));
    }
    if sqe.fuse() == 2 {
        return Judged::SingleFailed(Status::MISSING_FUSED);
    }
    single(&sqe, command_fault(first, in_use, size))
}
