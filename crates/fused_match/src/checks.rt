//! The checks of one command and of a matched pair, in the order of their tables.

ghost use Rattle.std.specs.Prelude.{◌≡◌, ◌+◌, ◌≤◌, ◌&&◌, ◌||◌, ◌==◌, IfNone, false, true, nat_lt, not};
ghost use Rattle.nvme_model.specs.Commands.{is_compare, is_flush, is_read, is_write, is_write_zeroes};
ghost use Rattle.nvme_model.specs.EntryBytes.{block_count, slba};
ghost use Rattle.nvme_model.specs.Verdict.{command_fault, is_in, pair_fault};

use crate::item::Item;
use atomic_units::Units;
use entry_codec::Sqe;
use nvme_model::status::Status;

fn is_known(sqe: &Sqe) -> bool
    ensures value { result ≡
        (is_flush sqe.now || is_write sqe.now || is_read sqe.now || is_compare sqe.now || is_write_zeroes sqe.now) }
{
    sqe.is_flush() || sqe.is_write() || sqe.is_read() || sqe.is_compare() || sqe.is_write_zeroes()
}

fn is_in_use(cid: u16, in_use: &[u16]) -> bool
    ensures value { result ≡ is_in cid in_use.now }
{
    in_use.contains(&cid)
}

fn is_too_long(sqe: &Sqe) -> bool
    ensures value { result ≡ (not (is_flush sqe.now) && nat_lt 256 (block_count sqe.now)) }
{
    !sqe.is_flush() && sqe.blocks() > 256
}

fn ends_beyond(sqe: &Sqe, size: u32) -> bool
    ensures value { result ≡ nat_lt size (slba sqe.now + block_count sqe.now) }
{
    match sqe.slba().checked_add(u64::from(sqe.blocks())) {
        Some(end) => end > u64::from(size),
        None => true,
    }
}

fn is_out_of_range(sqe: &Sqe, size: u32) -> bool
    ensures value { result ≡ (not (is_flush sqe.now) && nat_lt size (slba sqe.now + block_count sqe.now)) }
{
    !sqe.is_flush() && ends_beyond(sqe, size)
}

/// The status of a command that fails its checks, on a volume of `size` blocks.
pub(crate) fn command_fault(item: &Item, in_use: &[u16], size: u32) -> Option<Status>
    ensures value { result ≡ command_fault size in_use.now item.now }
    ensures fits { IfNone result (is_flush item.now.fields ≡ false →
        slba item.now.fields + block_count item.now.fields ≤ size) }
{
    let sqe = item.sqe();
    if !is_known(&sqe) {
        return Some(Status::INVALID_OPCODE);
    }
    if sqe.has_invalid_field() {
        return Some(Status::INVALID_FIELD);
    }
    if is_in_use(sqe.cid, in_use) {
        return Some(Status::CID_CONFLICT);
    }
    if sqe.nsid != 1 {
        return Some(Status::INVALID_NAMESPACE);
    }
    if is_too_long(&sqe) {
        return Some(Status::INVALID_FIELD);
    }
    if is_out_of_range(&sqe, size) {
        return Some(Status::OUT_OF_RANGE);
    }
    if item.length() != sqe.data_length() {
        return Some(Status::DATA_TRANSFER_ERROR);
    }
    None
}

/// The statuses of a matched pair that fails its checks, on a volume of `size` blocks.
pub(crate) fn pair_fault(
    first: &Item,
    second: &Item,
    in_use: &[u16],
    units: &Units,
    size: u32,
) -> Option<(Status, Status)>
    ensures value { result ≡ pair_fault units.now size in_use.now first.now second.now }
{
    let one = first.sqe();
    let other = second.sqe();
    if !is_compare_and_write(&one, &other) {
        return Some((Status::INVALID_FIELD, Status::INVALID_FIELD));
    }
    if has_conflict(one.cid, other.cid, in_use) {
        return Some((Status::CID_CONFLICT, Status::CID_CONFLICT));
    }
    if let Some(status) = command_fault(first, in_use, size) {
        return Some((status, Status::FAILED_FUSED));
    }
    if let Some(status) = command_fault(second, in_use, size) {
        return Some((Status::FAILED_FUSED, status));
    }
    if !is_same_range(&one, &other) {
        return Some((Status::INVALID_FIELD, Status::INVALID_FIELD));
    }
    if !units.pair_fits(one.slba(), one.blocks()) {
        return Some((Status::UNIT_EXCEEDED, Status::UNIT_EXCEEDED));
    }
    None
}

fn is_compare_and_write(first: &Sqe, second: &Sqe) -> bool
    ensures value { result ≡ (is_compare first.now && is_write second.now) }
    ensures compare { result ≡ true → is_flush first.now ≡ false }
{
    first.is_compare() && second.is_write()
}

fn has_conflict(first: u16, second: u16, in_use: &[u16]) -> bool
    ensures value { result ≡ (is_in first in_use.now || is_in second in_use.now || (first == second)) }
{
    is_in_use(first, in_use) || is_in_use(second, in_use) || first == second
}

fn is_same_range(first: &Sqe, second: &Sqe) -> bool
    ensures value { result
        ≡ ((slba first.now == slba second.now) && (block_count first.now == block_count second.now)) }
{
    first.slba() == second.slba() && first.blocks() == second.blocks()
}
