//! What holds of the units of a range, each as the contract of a function that does nothing.

ghost use Rattle.std.specs.Prelude.{◌≡◌, ◌+◌, ◌-◌, ◌≤◌, ◌↔◌, IsTrue, List, [], ◌∷◌, count_by, if◌then◌else◌, length};
ghost use Rattle.std.specs.Prelude.{min, sum_by, true, ℕ};
ghost use Rattle.nvme_model.specs.Array.{has_block};
ghost use Rattle.nvme_model.specs.Cells.{cell, in_one_cell, is_atomic};
ghost use Rattle.nvme_model.specs.Cut.{IsCut, cut, longest};
ghost use Rattle.nvme_model.specs.declared.array.Range.{Range};
ghost use Rattle.nvme_model.specs.declared.config.AtomicParameters.{AtomicParameters};
ghost use Rattle.atomic_units.specs.Room.{cell_room};
ghost use Rattle.atomic_units.specs.Tiles.{Adjoin, all_atomic};

/// The cut of a range is one list, and no other is a cut of it.
pub fn the_cut_is_one_list()
    ensures is { (u : AtomicParameters) (s n : ℕ) → IsCut u s n (cut u s n) }
    ensures unique { (u : AtomicParameters) (s n : ℕ) (rs : List Range) → IsCut u s n rs → rs ≡ cut u s n }
{}

/// A range is one unit exactly where it is atomic.
pub fn an_atomic_range_is_one_unit()
    ensures whole { (u : AtomicParameters) (s n : ℕ) →
        is_atomic u s n ≡ true → cut u s n ≡ record { slba = s; blocks = n } ∷ [] }
    ensures only { (u : AtomicParameters) (s n : ℕ) → length (cut u s n) ≡ 1 → is_atomic u s n ≡ true }
{}

/// The units of a range adjoin in order, are atomic, and have each block of it once and no other.
pub fn units_make_up_the_range()
    ensures adjoin { (u : AtomicParameters) (s n : ℕ) → Adjoin s n (cut u s n) }
    ensures atomic { (u : AtomicParameters) (s n : ℕ) → all_atomic u (cut u s n) ≡ true }
    ensures sum { (u : AtomicParameters) (s n : ℕ) → sum_by (λ (r : Range). r.blocks) (cut u s n) ≡ n }
    ensures once { (u : AtomicParameters) (s n l : ℕ) →
        count_by (λ r. has_block r l) (cut u s n) ≡ (if has_block (record { slba = s; blocks = n }) l then 1 else 0) }
{}

/// A unit reaches to the next boundary, unless AWUN or the end of the range comes first.
pub fn a_unit_ends_at_the_next_boundary()
    ensures reach { (u : AtomicParameters) (s n : ℕ) → 1 ≤ n → longest u s n ≡ cell_room u s (min n (u.awun + 1)) }
{}

/// Blocks are in one cell exactly where the last is in the cell of the first.
pub fn the_ends_decide_a_crossing()
    ensures ends { (u : AtomicParameters) (s n : ℕ) →
        1 ≤ n → IsTrue (in_one_cell u s n) ↔ (cell u (s + n - 1) ≡ cell u s) }
{}
