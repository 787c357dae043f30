//! The kinds of lines that are shown, as a set.

ghost use Rattle.std.specs.Prelude.{⊤, ◌≡◌, ◌==◌, [], ◌∷◌, codes};
ghost use Rattle.std.specs.Int.RustNames.{bit_and};

use bitflags::{Flag, Flags, bitflag_items};

/// A set of kinds of lines; a kind has the name that its lines begin with.
#[derive(Clone, Copy, Debug, PartialEq, Eq)]
pub struct Kinds(u8);

bitflag_items! {
    impl Kinds: u8 {
        const publish = 0x01;
        const fetch = 0x02;
        const grant = 0x04;
        const block = 0x08;
        const post = 0x10;
        const reap = 0x20;
        const refused = 0x40;
        const medium = 0x80;
    }
}

impl Flags for Kinds {
    type Bits = u8;

    ghost exact = { ⊤ };

    ghost table = { (codes "publish", 1) ∷ (codes "fetch", 2) ∷ (codes "grant", 4) ∷ (codes "block", 8)
        ∷ (codes "post", 16) ∷ (codes "reap", 32) ∷ (codes "refused", 64) ∷ (codes "medium", 128) ∷ [] };

    ghost set_of = { λ k. k.0 };

    fn flags<'a>() -> &'a [Flag<Kinds>] {
        Kinds::FLAGS
    }

    fn bits(&self) -> u8 {
        self.0
    }

    fn from_bits_retain(bits: u8) -> Kinds {
        Kinds(bits)
    }
}

/// Whether lines of this kind are shown.
pub fn shows(kinds: Kinds, kind: Kinds) -> bool
    ensures { result ≡ (bit_and kinds.0 kind.0 == kind.0) }
{
    kinds.contains(kind)
}

/// All kinds.
pub fn all_kinds() -> Kinds
    ensures { result.0 ≡ 255 }
{
    Kinds(255)
}
