//! Where a queue and a ticket stand in what is kept.

ghost use Rattle.std.specs.List.Sorted.{IsNonDecreasingBy};
ghost use Rattle.std.specs.Prelude.{◌≡◌, ◌+◌, ◌<◌, ◌==◌, ◌||◌, MatchOption, nat_lt, position, true};
ghost use Rattle.history_check.specs.declared.fields.CheckedInFlight.{CheckedInFlight};

use crate::fields::CheckedInFlight;

/// The place of the ring of a queue, where there are so many.
pub fn ring_place(queue: u16, count: usize) -> Option<usize>
    ensures value { MatchOption result (((queue == 0) || nat_lt count queue) ≡ true)
        (λ i. (i + 1 ≡ queue) × (i < count)) }
{
    if queue == 0 || usize::from(queue) > count {
        return None;
    }
    Some(usize::from(queue) - 1)
}

/// The place of a ticket in flight, found by halves among those by rising ticket.
pub fn ticket_place(flights: &[CheckedInFlight], ticket: u64) -> Option<usize>
    requires rising { IsNonDecreasingBy (λ (e : CheckedInFlight). e.ticket) flights.now }
    ensures value { result ≡ position (λ e. e.ticket == ticket) flights.now }
{
    let place = flights.partition_point(|one| one.ticket < ticket);
    if place < flights.len() && flights[place].ticket == ticket {
        return Some(place);
    }
    None
}
