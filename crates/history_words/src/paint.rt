//! Colours of lines on a terminal.

ghost use Rattle.std.specs.Prelude.{◌≡◌, IfOk, string_bytes};
ghost use Rattle.history_words.specs.Told.{painted};

use crate::texts::joined;
use std::alloc::{AllocError as NoMemory, Global};

/// Whether lines are coloured by their kind.
#[derive(Clone, Copy, Debug, PartialEq, Eq)]
pub enum Paint {
    /// They aren't.
    Plain,
    /// They are, by the codes of a terminal.
    Colored,
}

// The text in the colour of this number.
pub(crate) fn painted(
    alloc: Global,
    paint: Paint,
    color: &str,
    text: &str,
) -> Result<String, NoMemory>
    ensures value { IfOk result (λ whole. string_bytes whole ≡ painted paint color.now text.now) }
{
    match paint {
        Paint::Plain => joined(alloc, &[text]),
        Paint::Colored => joined(alloc, &["\x1b[", color, "m", text, "\x1b[0m"]),
    }
}
