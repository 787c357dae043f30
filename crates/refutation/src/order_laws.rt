//! What holds of orders, each as the contract of a function that does nothing.

ghost use Rattle.std.specs.Prelude.{◌≡◌, List, false, true, ℕ};
ghost use Rattle.refutation.specs.Layers.{has_no_order};
ghost use Rattle.refutation.specs.Orders.{IsOrder};
ghost use Rattle.refutation.specs.Pieces.{Slice};

/// Where layers end before one is whole, no list is an order of the slice's pieces.
pub fn no_list_is_an_order()
    ensures { (blank : List ℕ) (slice : Slice) (order : List ℕ) →
        has_no_order blank slice ≡ true → IsOrder blank slice order → ⊥ }
{}

/// And where they don't, some list is one.
pub fn else_some_list_is_an_order()
    ensures { (blank : List ℕ) (slice : Slice) →
        has_no_order blank slice ≡ false → (order : List ℕ) × IsOrder blank slice order }
{}
