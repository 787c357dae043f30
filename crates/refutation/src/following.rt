//! Which piece may stand next.

ghost use Rattle.std.specs.List.{list_all, list_any};
ghost use Rattle.std.specs.Prelude.{◌≡◌, ◌||◌, ◌∷◌, ℕ, List, MatchOption, not, slice_get};
ghost use Rattle.refutation.specs.Layers.{is_next, lacks_none};
ghost use Rattle.refutation.specs.Orders.{comes_before, finds_by, has, held_by, is_met, is_sure, is_whole};
ghost use Rattle.refutation.specs.Orders.{may_differ, may_follow, may_hold, writes_by, written};

use crate::piece::{HeldBlock, HeldBlocks, Piece};

pub(crate) fn has(numbers: &[usize], number: usize) -> bool
    ensures { result ≡ has numbers.now number }
{
    numbers.contains(&number)
}

fn is_sure(slice: &[Piece], number: usize) -> bool
    ensures { result ≡ is_sure slice.now number }
{
    match slice.get(number) {
        Some(piece) => piece.is_sure(),
        None => false,
    }
}

fn comes_before(slice: &[Piece], first: usize, second: usize) -> bool
    ensures { result ≡ comes_before slice.now first second }
{
    match slice.get(second) {
        Some(piece) => has(piece.behind(), first),
        None => false,
    }
}

/// What these leave on a block, if they do.
fn written<'a>(blocks: &'a [HeldBlock], block: u64) -> Option<&'a [u8]>
    ensures { MatchOption result
        ((before : List ℕ) → written blocks.now block before ≡ before)
        (λ left. (before : List ℕ) → written blocks.now block before ≡ left.now) }
{
    for held in blocks {
        if held.number() == block {
            return Some(held.data());
        }
    }
    None
}

// What a piece leaves on a block: what it writes there, or what it finds, if it does.
fn left_by<'a>(slice: &'a [Piece], number: usize, block: u64) -> Option<&'a [u8]>
    ensures { MatchOption result
        ((before : List ℕ) → written (writes_by (slice_get slice.now number)) block
        (written (finds_by (slice_get slice.now number)) block before) ≡ before)
        (λ left. (before : List ℕ) → written (writes_by (slice_get slice.now number)) block
        (written (finds_by (slice_get slice.now number)) block before) ≡ left.now) }
{
    let Some(piece) = slice.get(number) else {
        return None;
    };
    match written(piece.writes(), block) {
        Some(data) => Some(data),
        None => written(piece.finds(), block),
    }
}

/// What the newest of these pieces that writes or finds a block leaves there, or what it held before.
pub(crate) fn held_by<'a>(
    blank: &'a [u8],
    slice: &'a [Piece],
    order: &[usize],
    block: u64,
) -> &'a [u8]
    ensures { result.now ≡ held_by blank.now slice.now order.now block }
{
    for number in order {
        if let Some(data) = left_by(slice, *number, block) {
            return data;
        }
    }
    blank
}

fn may_hold(blank: &[u8], slice: &[Piece], order: &[usize], held: &HeldBlock) -> bool
    ensures { result ≡ may_hold (held_by blank.now slice.now order.now) held.now }
{
    let data = held_by(blank, slice, order, held.number());
    data.is_empty() || data == held.data()
}

fn may_differ(blank: &[u8], slice: &[Piece], order: &[usize], held: &HeldBlock) -> bool
    ensures { result ≡ may_differ (held_by blank.now slice.now order.now) held.now }
{
    let data = held_by(blank, slice, order, held.number());
    data.is_empty() || data != held.data()
}

fn differs(blank: &[u8], slice: &[Piece], order: &[usize], blocks: &[HeldBlock]) -> bool
    ensures { result ≡ list_any (may_differ (held_by blank.now slice.now order.now)) blocks.now }
{
    blocks
        .iter()
        .any(|held| may_differ(blank, slice, order, held))
}

fn finds(blank: &[u8], slice: &[Piece], order: &[usize], blocks: &[HeldBlock]) -> bool
    ensures { result ≡ list_all (may_hold (held_by blank.now slice.now order.now)) blocks.now }
{
    blocks
        .iter()
        .all(|held| may_hold(blank, slice, order, held))
}

fn all_differ(blank: &[u8], slice: &[Piece], order: &[usize], lists: &[HeldBlocks]) -> bool
    ensures { result ≡ list_all
        (λ hs. list_any (may_differ (held_by blank.now slice.now order.now)) hs) lists.now }
{
    lists
        .iter()
        .all(|blocks| differs(blank, slice, order, blocks.as_slice()))
}

fn is_met(blank: &[u8], slice: &[Piece], order: &[usize], piece: &Piece) -> bool
    ensures { result ≡ is_met (held_by blank.now slice.now order.now) piece.now }
{
    finds(blank, slice, order, piece.finds()) && all_differ(blank, slice, order, piece.differs())
}

fn comes_before_any(slice: &[Piece], number: usize, order: &[usize]) -> bool
    ensures { result ≡ list_any (λ m. comes_before slice.now number m) order.now }
{
    order
        .iter()
        .any(|other| comes_before(slice, number, *other))
}

fn may_follow(blank: &[u8], slice: &[Piece], order: &[usize], number: usize) -> bool
    ensures { result ≡ may_follow blank.now slice.now order.now number }
{
    let Some(piece) = slice.get(number) else {
        return false;
    };
    !has(order, number)
        && !comes_before_any(slice, number, order)
        && is_met(blank, slice, order, piece)
}

fn is_placed(slice: &[Piece], order: &[usize], number: usize, other: usize) -> bool
    ensures { result ≡ (not (is_sure slice.now other) || has (number ∷ order.now) other) }
{
    !is_sure(slice, other) || (number == other || has(order, other))
}

fn all_placed(slice: &[Piece], order: &[usize], number: usize, others: &[usize]) -> bool
    ensures { result ≡
        list_all (λ m. not (is_sure slice.now m) || has (number ∷ order.now) m) others.now }
{
    others
        .iter()
        .all(|other| is_placed(slice, order, number, *other))
}

fn lacks_none(slice: &[Piece], order: &[usize], number: usize) -> bool
    ensures { result ≡ lacks_none slice.now order.now number }
{
    match slice.get(number) {
        Some(piece) => all_placed(slice, order, number, piece.behind()),
        None => true,
    }
}

/// Whether the piece may stand next behind these, the newest first, and lets each sure piece have its place.
pub(crate) fn is_next(blank: &[u8], slice: &[Piece], order: &[usize], number: usize) -> bool
    ensures { result ≡ is_next blank.now slice.now order.now number }
{
    may_follow(blank, slice, order, number) && lacks_none(slice, order, number)
}

/// Whether each sure piece is among these.
pub(crate) fn is_whole(slice: &[Piece], order: &[usize]) -> bool
    ensures { result ≡ is_whole slice.now order.now }
{
    (0..slice.len()).all(|number| !is_sure(slice, number) || has(order, number))
}
