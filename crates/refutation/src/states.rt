//! Which orders lead to one state.

ghost use Rattle.std.specs.List.{list_all};
ghost use Rattle.std.specs.Prelude.{◌≡◌};
ghost use Rattle.refutation.specs.Layers.{is_same, same_at, same_for, same_made};
ghost use Rattle.refutation.specs.Orders.{has};

use crate::following::{has, held_by};
use crate::piece::{HeldBlock, HeldBlocks, Piece};

fn has_all(numbers: &[usize], others: &[usize]) -> bool
    ensures { result ≡ list_all (has numbers.now) others.now }
{
    others.iter().all(|other| has(numbers, *other))
}

fn same_made(a: &[usize], b: &[usize]) -> bool
    ensures { result ≡ same_made a.now b.now }
{
    has_all(b, a) && has_all(a, b)
}

fn same_at(blank: &[u8], slice: &[Piece], a: &[usize], b: &[usize], held: &HeldBlock) -> bool
    ensures { result ≡ same_at blank.now slice.now a.now b.now held.now }
{
    held_by(blank, slice, a, held.number()) == held_by(blank, slice, b, held.number())
}

fn same_at_all(
    blank: &[u8],
    slice: &[Piece],
    a: &[usize],
    b: &[usize],
    blocks: &[HeldBlock],
) -> bool
    ensures { result ≡ list_all (same_at blank.now slice.now a.now b.now) blocks.now }
{
    blocks.iter().all(|held| same_at(blank, slice, a, b, held))
}

fn same_at_lists(
    blank: &[u8],
    slice: &[Piece],
    a: &[usize],
    b: &[usize],
    lists: &[HeldBlocks],
) -> bool
    ensures { result ≡ list_all (λ hs. list_all (same_at blank.now slice.now a.now b.now) hs) lists.now }
{
    lists.iter().all(|blocks| same_at_all(blank, slice, a, b, blocks.as_slice()))
}

fn same_for(blank: &[u8], slice: &[Piece], a: &[usize], b: &[usize], piece: &Piece) -> bool
    ensures { result ≡ same_for blank.now slice.now a.now b.now piece.now }
{
    same_at_all(blank, slice, a, b, piece.finds())
        && same_at_lists(blank, slice, a, b, piece.differs())
}

fn same_for_all(blank: &[u8], slice: &[Piece], a: &[usize], b: &[usize]) -> bool
    ensures { result ≡ list_all (same_for blank.now slice.now a.now b.now) slice.now }
{
    slice
        .iter()
        .all(|piece| same_for(blank, slice, a, b, piece))
}

/// Whether both orders lead to one state: the same pieces were made, and each block that a piece looks at holds the
/// same.
pub(crate) fn is_same(blank: &[u8], slice: &[Piece], a: &[usize], b: &[usize]) -> bool
    ensures { result ≡ is_same blank.now slice.now a.now b.now }
{
    same_made(a, b) && same_for_all(blank, slice, a, b)
}
