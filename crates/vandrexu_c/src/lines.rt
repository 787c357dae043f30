//! The lines of a controller's history.

ghost use Rattle.std.specs.Prelude.{◌≡◌, ◌≤◌, ◌⊎◌, List, None, Some, length, ℕ};
ghost use Rattle.c_handles.specs.Pieces.{IsForgotten, IsPiece, lines_told};
ghost use Rattle.vandrexu_c.specs.HistoryLines.{CopiesLines, LacksRoomForLine};
ghost use Rattle.vandrexu_c.specs.OwnedStates.{OwnedState};

use crate::held::Handle;
use crate::lending::lend;
use crate::numbers::TOO_SMALL;
use c_handles::numbers::{FORGOTTEN, NO_MEMORY};
use c_handles::{Piece, piece_told};
use std::alloc::Global;
use step_core::Core;

/// Copies the lines of a piece that fit; where the first one doesn't, its length is told alone.
pub(crate) fn copy_piece(piece: &Piece, out: &mut [u8], needed: &mut usize, next: &mut u64) -> u32
    requires fits { piece.now.fit ≤ length out.old }
    requires within { piece.now.fit ≤ length piece.now.text.items }
    ensures which { (result ≡ 0) ⊎ (result ≡ 103) }
    ensures done { (lines : List (List ℕ)) (from : ℕ) → IsPiece lines from (length out.old) piece.now → result ≡ 0 →
        CopiesLines lines from out.old out.new needed.new next.new }
    ensures too_small { (lines : List (List ℕ)) (from : ℕ) → IsPiece lines from (length out.old) piece.now →
        result ≡ 103 → LacksRoomForLine lines (length out.old) needed.new }
    ensures kept { (result ≡ 0 → ⊥) → (out.new ≡ out.old) × (next.new ≡ next.old) }
{
    let fit = piece.fit;
    let text = piece.text.as_slice();
    if fit == 0 && text.len() > 0 {
        *needed = text.len();
        return TOO_SMALL;
    }
    out[..fit].copy_from_slice(&text[..fit]);
    *needed = fit;
    *next = piece.next as u64;
    0
}

// Copies the lines of a controller's history from a place on, none where that was forgotten.
fn copy_lines(
    alloc: Global,
    core: &Core,
    from: usize,
    out: &mut [u8],
    needed: &mut usize,
    next: &mut u64,
) -> u32
    ensures which { (result ≡ 0) ⊎ (result ≡ 11) ⊎ (result ≡ 103) ⊎ (result ≡ 129) }
    ensures done { result ≡ 0 → CopiesLines (lines_told core.now from) from out.old out.new needed.new next.new }
    ensures too_small { result ≡ 103 → LacksRoomForLine (lines_told core.now from) (length out.old) needed.new }
    ensures forgotten { result ≡ 129 → IsForgotten core.now from }
    ensures gone { IsForgotten core.now from → result ≡ 129 }
    ensures kept { (result ≡ 0 → ⊥) → (out.new ≡ out.old) × (next.new ≡ next.old) }
{
    match piece_told(alloc, core, from, out.len()) {
        Ok(Some(piece)) => copy_piece(&piece, out, needed, next),
        Ok(None) => FORGOTTEN,
        Err(_) => NO_MEMORY,
    }
}

/// Copies lines of the history from a place on, as many whole ones as fit, each with its line feed: 0; or 103 where not
/// the first of them fits; or 129 where the first was forgotten; or 11 where memory is refused; or 101 where the handle
/// owns nothing. Place 0 is the configuration's line, and place k that of the k-th entry; where the first entry was
/// forgotten, place 0 gives its own line alone. At 0 `needed` is how many bytes they have, and `next` the
/// place behind them; at 103 `needed` is how many bytes the first one has. `out` and `next` are written at 0 alone.
#[unsafe(no_mangle)]
pub extern "C" fn vandrexu_controller_history(
    alloc: Global,
    controller: &mut Handle,
    from: u64,
    out: &mut [u8],
    needed: &mut usize,
    next: &mut u64,
) -> u32
    ensures no_handle { controller.old.held.core ≡ None → result ≡ 101 }
    ensures same { controller.new.held.core ≡ controller.old.held.core }
    ensures which { (m : OwnedState) → controller.old.held.core ≡ Some m →
        (result ≡ 0) ⊎ (result ≡ 11) ⊎ (result ≡ 103) ⊎ (result ≡ 129) }
    ensures done { (m : OwnedState) → controller.old.held.core ≡ Some m → result ≡ 0 →
        CopiesLines (lines_told m.core from) from out.old out.new needed.new next.new }
    ensures too_small { (m : OwnedState) → controller.old.held.core ≡ Some m → result ≡ 103 →
        LacksRoomForLine (lines_told m.core from) (length out.old) needed.new }
    ensures forgotten { (m : OwnedState) → controller.old.held.core ≡ Some m → result ≡ 129 → IsForgotten m.core from }
    ensures gone { (m : OwnedState) → controller.old.held.core ≡ Some m → IsForgotten m.core from → result ≡ 129 }
    ensures kept { (result ≡ 0 → ⊥) → (out.new ≡ out.old) × (next.new ≡ next.old) }
{
    lend!(alloc, controller, owned => copy_lines(
        alloc,
        &owned.as_ref().core,
        from as usize,
        out,
        needed,
        next,
    ))
}
