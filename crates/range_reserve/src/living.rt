//! Lists of what tickets hold, where one that was let go stays in its place, with no blocks, until another takes it.

ghost use Rattle.std.specs.Prelude.{◌≡◌, ◌+◌, ◌*◌, ◌≤◌, ◌<◌, ◌⊎◌, ℕ, Bool, false, length, true, vec_capacity};
ghost use Rattle.std.specs.Prelude.{vec_len};
ghost use Rattle.std.specs.List.{list_all};
ghost use Rattle.range_reserve.specs.Reserved.{insert_held, holds_range};
ghost use Rattle.range_reserve.specs.Sorted.{HasPut, IsRisingBy, dead_at, held_key, is_free, is_living, living};
ghost use Rattle.range_reserve.specs.Sorted.{place_by};
ghost use Rattle.range_reserve.specs.declared.held.HeldRange.{HeldRange};

use crate::held::{HeldRange, is_living};
use crate::places::{start_place, ticket_place};

// Whether one stands at this place that holds no blocks.
fn is_dead_at(held: &[HeldRange], place: usize) -> bool
    ensures value { result ≡ dead_at held.now place }
{
    match held.get(place) {
        Some(one) => !is_living(one),
        None => false,
    }
}

// Takes those out that hold no blocks, where the list is full or has many of them beside `live` that do.
fn sweep(list: &mut Vec<HeldRange>, live: usize)
    ensures either { (list.new.items ≡ list.old.items) ⊎ (list.new.items ≡ living list.old.items) }
    ensures room { length (living list.old.items) < vec_capacity list.old →
        vec_len list.new < vec_capacity list.new }
    ensures few { (vec_len list.new ≤ 2 * live + 65) ⊎ (list.new.items ≡ living list.old.items) }
    ensures capacity { vec_capacity list.new ≡ vec_capacity list.old }
{
    let len = list.len();
    if len == list.capacity() || len / 2 > live.saturating_add(32) {
        list.retain(|one| is_living(one));
    }
}

// Puts it at the place of its number, where there is room: over one beside it that holds no blocks, or between both.
fn put_at(list: &mut Vec<HeldRange>, place: usize, held: HeldRange)
    requires place { place ≤ vec_len list.old }
    requires room { vec_len list.old < vec_capacity list.old }
    requires living { is_living held ≡ true }
    ensures put { (n : HeldRange → ℕ) → IsRisingBy n list.old.items → is_free n (n held) list.old.items ≡ true →
        place ≡ place_by n (n held) list.old.items → HasPut n held list.old.items list.new.items }
    ensures each { (p : HeldRange → Bool) → list_all p list.old.items ≡ true → p held ≡ true →
        list_all p list.new.items ≡ true }
    ensures capacity { vec_capacity list.old ≤ vec_capacity list.new }
{
    if is_dead_at(list.as_slice(), place) {
        list[place] = held;
    } else if place > 0 && is_dead_at(list.as_slice(), place - 1) {
        list[place - 1] = held;
    } else {
        let _has_room = list.insert(place, held).is_ok();
    }
}

/// Puts it among those by rising ticket, of which `live` hold blocks; there is room for one more that does.
pub fn put_by_ticket(list: &mut Vec<HeldRange>, live: usize, held: HeldRange)
    requires rising { IsRisingBy (λ (h : HeldRange). h.ticket) list.old.items }
    requires free { holds_range (living list.old.items) held.ticket ≡ false }
    requires living { is_living held ≡ true }
    requires room { length (living list.old.items) < vec_capacity list.old }
    ensures rising { IsRisingBy (λ (h : HeldRange). h.ticket) list.new.items }
    ensures living { living list.new.items ≡ insert_held held (living list.old.items) }
    ensures capacity { vec_capacity list.old ≤ vec_capacity list.new }
{
    sweep(list, live);
    let place = ticket_place(list.as_slice(), held.ticket);
    put_at(list, place, held);
}

/// Puts it among those by rising start, of which `live` hold blocks; there is room for one more that does.
pub fn put_by_start(list: &mut Vec<HeldRange>, live: usize, held: HeldRange)
    requires rising { IsRisingBy held_key list.old.items }
    requires free { is_free held_key (held_key held) list.old.items ≡ true }
    requires living { is_living held ≡ true }
    requires room { length (living list.old.items) < vec_capacity list.old }
    ensures put { HasPut held_key held list.old.items list.new.items }
    ensures each { (p : HeldRange → Bool) → list_all p list.old.items ≡ true → p held ≡ true →
        list_all p list.new.items ≡ true }
    ensures capacity { vec_capacity list.old ≤ vec_capacity list.new }
{
    sweep(list, live);
    let place = start_place(list.as_slice(), held.range.slba, held.ticket);
    put_at(list, place, held);
}
