//! What holds of the ranges that tickets hold, each as the contract of a function that does nothing.

ghost use Rattle.std.specs.Prelude.{◌≡◌, ◌≢◌, ◌+◌, ◌↔◌, IsTrue, List, false, true, ℕ};
ghost use Rattle.nvme_model.specs.Array.{IsRange, has_block, overlap};
ghost use Rattle.nvme_model.specs.Open.{conflict};
ghost use Rattle.nvme_model.specs.Operations.{is_exclusive};
ghost use Rattle.nvme_model.specs.declared.array.Range.{Range};
ghost use Rattle.range_reserve.specs.declared.held.HeldRange.{HeldRange};
ghost use Rattle.range_reserve.specs.Reserved.{AreApart, AreTwo};

/// Of any two that are held, the ranges don't conflict and the tickets differ; and a block of an Exclusive range is in
/// no other.
pub fn reservations_are_apart()
    ensures conflict { (held : List HeldRange) (i j : ℕ) (g h : HeldRange) →
        AreApart held → AreTwo held i j g h → conflict g.range g.mode h.range h.mode ≡ false }
    ensures ticket { (held : List HeldRange) (i j : ℕ) (g h : HeldRange) →
        AreApart held → AreTwo held i j g h → g.ticket ≢ h.ticket }
    ensures block { (held : List HeldRange) (i j l : ℕ) (g h : HeldRange) →
        AreApart held → AreTwo held i j g h → is_exclusive g.mode ≡ true →
        has_block g.range l ≡ true → has_block h.range l ≡ false }
{}

/// Ranges overlap exactly where they share a block; so one without a block overlaps none, and ranges that only touch
/// don't.
pub fn an_overlap_is_a_shared_block()
    ensures shared { (r s : Range) →
        IsTrue (overlap r s) ↔ ((l : ℕ) × IsTrue (has_block r l) × IsTrue (has_block s l)) }
    ensures touching { (r s : Range) → r.slba + r.blocks ≡ s.slba → overlap r s ≡ false }
{}
