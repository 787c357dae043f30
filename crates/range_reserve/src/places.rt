//! Where a ticket or a start stands among what is held, by binary search.

ghost use Rattle.std.specs.Prelude.{◌≡◌, ◌≤◌, length};
ghost use Rattle.range_reserve.specs.Sorted.{IsRisingBy, held_key, place_by, start_key};
ghost use Rattle.range_reserve.specs.declared.held.HeldRange.{HeldRange};

use crate::held::HeldRange;

/// The start and then the ticket, as one number.
fn start_key(start: u64, ticket: u64) -> u128
    ensures value { result ≡ start_key start ticket }
{
    u128::from(start) * 18_446_744_073_709_551_616 + u128::from(ticket)
}

/// How many of those by rising ticket are below this one.
pub fn ticket_place(held: &[HeldRange], ticket: u64) -> usize
    requires rising { IsRisingBy (λ (h : HeldRange). h.ticket) held.now }
    ensures place { result ≡ place_by (λ (h : HeldRange). h.ticket) ticket held.now }
    ensures bound { result ≤ length held.now }
{
    held.partition_point(|one| one.ticket < ticket)
}

/// How many of those by start stand before this start and ticket.
pub fn start_place(held: &[HeldRange], start: u64, ticket: u64) -> usize
    requires rising { IsRisingBy held_key held.now }
    ensures place { result ≡ place_by held_key (start_key start ticket) held.now }
    ensures bound { result ≤ length held.now }
{
    let key = start_key(start, ticket);
    held.partition_point(|one| start_key(one.range.slba, one.ticket) < key)
}
