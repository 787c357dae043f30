//! Layers of states, each state once.

ghost use Rattle.std.specs.List.{list_any, range_with_len};
ghost use Rattle.std.specs.Prelude.{◌≡◌, ◌++◌, ◌∷◌, [], IfOk, OnErr, if◌then◌else◌, length};
ghost use Rattle.refutation.specs.Layers.{has_no_order, is_next, is_same, next_layer, with_nexts, with_order};
ghost use Rattle.refutation.specs.Orders.{is_whole};

use crate::following::{is_next, is_whole};
use crate::piece::Piece;
use crate::states::is_same;
use std::alloc::{AllocError as NoMemory, Global};
use std::marker::Model;

/// Numbers of pieces in the order of their effects, the newest first.
#[derive(Drop)]
struct Order {
    numbers: Vec<usize>,
}

impl Model for Order {
    ghost use Rattle.std.specs.Prelude.{List, ℕ};

    ghost Value = { List ℕ };

    ghost view = { λ o. o.numbers.items };
}

impl Order {
    fn none(alloc: Global) -> Order
        ensures { result ≡ [] }
    {
        Order {
            numbers: Vec::new(alloc),
        }
    }

    fn as_slice(&self) -> &[usize]
        ensures { result.now ≡ self.now }
    {
        self.numbers.as_slice()
    }

    fn with(alloc: Global, number: usize, order: &Order) -> Result<Order, NoMemory>
        ensures { IfOk result (λ o. o ≡ number ∷ order.now) }
    {
        let mut numbers = Vec::new(alloc);
        numbers.push(number)?;
        numbers.extend_from_slice(order.as_slice())?;
        Ok(Order { numbers })
    }
}

fn has_same(blank: &[u8], slice: &[Piece], made: &[Order], order: &Order) -> bool
    ensures { result ≡ list_any (is_same blank.now slice.now order.now) made.now }
{
    made.iter().any(|other| is_same(blank, slice, order.as_slice(), other.as_slice()))
}

fn add_order(
    blank: &[u8],
    slice: &[Piece],
    made: &mut Vec<Order>,
    order: Order,
) -> Result<(), NoMemory>
    ensures { IfOk result (λ _. made.new.items ≡ with_order blank.now slice.now made.old.items order) }
{
    if !has_same(blank, slice, made.as_slice(), &order) {
        made.push(order)?;
    }
    Ok(())
}

fn add_next(
    alloc: Global,
    blank: &[u8],
    slice: &[Piece],
    made: &mut Vec<Order>,
    order: &Order,
    number: usize,
) -> Result<(), NoMemory>
    ensures { IfOk result (λ _. made.new.items ≡
        (if is_next blank.now slice.now order.now number
        then with_order blank.now slice.now made.old.items (number ∷ order.now)
        else made.old.items)) }
{
    if is_next(blank, slice, order.as_slice(), number) {
        add_order(blank, slice, made, Order::with(alloc, number, order)?)?;
    }
    Ok(())
}

fn add_nexts(
    alloc: Global,
    blank: &[u8],
    slice: &[Piece],
    made: &mut Vec<Order>,
    order: &Order,
) -> Result<(), NoMemory>
    ensures { IfOk result (λ _. made.new.items ≡
        with_nexts blank.now slice.now made.old.items order.now (range_with_len 0 (length slice.now))) }
{
    for number in 0..slice.len() {
        add_next(alloc, blank, slice, made, order, number)?;
    }
    Ok(())
}

fn next_layer(
    alloc: Global,
    blank: &[u8],
    slice: &[Piece],
    layer: &[Order],
) -> Result<Vec<Order>, NoMemory>
    ensures { IfOk result (λ made. made.items ≡ next_layer blank.now slice.now layer.now) }
{
    let mut made = Vec::new(alloc);
    for order in layer {
        add_nexts(alloc, blank, slice, &mut made, order)?;
    }
    Ok(made)
}

fn has_whole(slice: &[Piece], layer: &[Order]) -> bool
    ensures { result ≡ list_any (is_whole slice.now) layer.now }
{
    layer.iter().any(|order| is_whole(slice, order.as_slice()))
}

/// Whether no order of these pieces is possible, where a block that nothing wrote or found holds `blank`. Without bytes
/// in `blank` it isn't known what such a block holds.
///
/// It looks at each state that they lead to once. A step takes time by the states of its layer and the pieces, and
/// memory for two layers.
///
/// # Errors
///
/// `NoMemory` alone.
pub fn has_no_order(alloc: Global, blank: &[u8], slice: &[Piece]) -> Result<bool, NoMemory>
    ensures { IfOk result (λ none. none ≡ has_no_order blank.now slice.now) }
{
    let mut layer = Vec::new(alloc);
    layer.push(Order::none(alloc))?;
    'steps: for _ in 0..slice.len() {
        if layer.as_slice().is_empty() {
            return Ok(true);
        }
        if has_whole(slice, layer.as_slice()) {
            return Ok(false);
        }
        layer = next_layer(alloc, blank, slice, layer.as_slice())?;
    }
    Ok(layer.as_slice().is_empty())
}
