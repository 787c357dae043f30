//! The kinds of lines that a text names.

ghost use Rattle.std.specs.Prelude.{◌≡◌, option_map};
ghost use Rattle.casdisk_texts.specs.Kinds.{kinds_in};

use bitflags::Flags;
use history::Kinds;

/// The kinds that a text names, joined by commas; a name twice counts once.
///
/// None where a name is unknown or empty.
pub fn kinds_of(text: &str) -> Option<Kinds>
    ensures value { option_map (λ kinds. kinds.0) result ≡ kinds_in text.now }
{
    let mut kinds = Kinds::empty();
    let mut rest = text;
    while let Some((name, after)) = rest.split_once(',') {
        kinds.insert(Kinds::from_name(name)?);
        rest = after;
    }
    kinds.insert(Kinds::from_name(rest)?);
    Some(kinds)
}
