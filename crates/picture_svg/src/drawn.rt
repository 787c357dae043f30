//! What stands in a picture, each with its text.

ghost use Rattle.std.specs.Prelude.{◌≡◌, ◌++◌, List, OnOk, flat_map, ℕ};
ghost use Rattle.picture_svg.specs.Scale.{ScaleState};

use crate::scale::Scale;
use std::alloc::AllocError as NoMemory;

/// A shape of a picture.
pub(crate) trait Drawn {
    // its text
    ghost svg: { ScaleState → Self → List ℕ };

    /// Adds its text.
    fn push_svg(&self, text: &mut Vec<u8>, scale: &Scale) -> Result<(), NoMemory>
        ensures value { OnOk result (text.new.items ≡ text.old.items ++ svg scale.now self.now) };
}

/// Adds the text of each.
///
/// # Errors
///
/// `NoMemory` where a growth is refused.
pub(crate) fn push_each<D: Drawn>(
    text: &mut Vec<u8>,
    scale: &Scale,
    shapes: &[D],
) -> Result<(), NoMemory>
    ensures value { OnOk result (text.new.items ≡ text.old.items ++ flat_map (D.svg scale.now) shapes.now) }
{
    for shape in shapes {
        shape.push_svg(text, scale)?;
    }
    Ok(())
}
