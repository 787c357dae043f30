//! What one ticket holds.

ghost use Rattle.std.specs.List.{find};
ghost use Rattle.std.specs.Prelude.{◌≡◌, ◌==◌};
ghost use Rattle.range_reserve.specs.Sorted.{IsRisingBy, is_living, let_go, living, place_by};

use crate::places::ticket_place;
use nvme_model::array::{Mode, Range};

/// The range that a ticket holds, and how.
#[derive(Clone, Copy, Debug, PartialEq, Eq)]
pub struct HeldRange {
    pub ticket: u64,
    pub range: Range,
    pub mode: Mode,
}

/// Whether it holds blocks.
pub fn is_living(held: &HeldRange) -> bool
    ensures value { result ≡ is_living held.now }
{
    held.range.blocks > 0
}

/// What the ticket holds, of those by rising ticket, among which this is its place.
pub fn held_at(held: &[HeldRange], place: usize, ticket: u64) -> Option<HeldRange>
    requires rising { IsRisingBy (λ (h : HeldRange). h.ticket) held.now }
    requires place { place ≡ place_by (λ (h : HeldRange). h.ticket) ticket held.now }
    ensures value { result ≡ find (λ h. h.ticket == ticket) (living held.now) }
{
    let one = *held.get(place)?;
    if one.ticket == ticket && is_living(&one) {
        Some(one)
    } else {
        None
    }
}

/// What the ticket holds, of those by rising ticket.
pub fn held_by(held: &[HeldRange], ticket: u64) -> Option<HeldRange>
    requires rising { IsRisingBy (λ (h : HeldRange). h.ticket) held.now }
    ensures value { result ≡ find (λ h. h.ticket == ticket) (living held.now) }
{
    held_at(held, ticket_place(held, ticket), ticket)
}

/// The same without its blocks, as it stays in its place.
pub fn let_go(held: HeldRange) -> HeldRange
    ensures value { result ≡ let_go held }
{
    HeldRange {
        range: Range {
            blocks: 0,
            ..held.range
        },
        ..held
    }
}
