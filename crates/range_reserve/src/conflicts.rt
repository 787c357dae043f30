//! Which ranges conflict.

ghost use Rattle.std.specs.Prelude.{◌≡◌, ◌+◌, nat_lt};
ghost use Rattle.nvme_model.specs.Array.{overlap};
ghost use Rattle.nvme_model.specs.Open.{conflict};
ghost use Rattle.range_reserve.specs.Sorted.{has_conflict_before_end};

use crate::held::HeldRange;
use nvme_model::array::{Mode, Range};
use std::cmp::Ordering;

/// Whether the ranges share a block.
fn overlap(a: Range, b: Range) -> bool
    ensures value { result ≡ overlap a b }
{
    if a.blocks == 0 || b.blocks == 0 {
        return false;
    }
    match a.slba.cmp(&b.slba) {
        Ordering::Less => b.slba - a.slba < u64::from(a.blocks),
        Ordering::Equal => true,
        Ordering::Greater => a.slba - b.slba < u64::from(b.blocks),
    }
}

/// Whether the ranges share a block and one is Exclusive.
fn conflict(a: Range, a_mode: Mode, b: Range, b_mode: Mode) -> bool
    ensures value { result ≡ conflict a a_mode b b_mode }
{
    (a_mode == Mode::Exclusive || b_mode == Mode::Exclusive) && overlap(a, b)
}

/// Whether this start is before the end of the range.
fn starts_before_end(range: Range, start: u64) -> bool
    ensures value { result ≡ nat_lt start (range.slba + range.blocks) }
{
    start < range.slba || start - range.slba < u64::from(range.blocks)
}

/// Whether the range conflicts with one of those, by rising start, that stand before the first that starts behind it.
pub fn has_conflict_before_end(held: &[HeldRange], range: Range, mode: Mode) -> bool
    ensures value { result ≡ has_conflict_before_end held.now range mode }
{
    held.iter()
        .take_while(|other| starts_before_end(range, other.range.slba))
        .any(|other| conflict(range, mode, other.range, other.mode))
}
