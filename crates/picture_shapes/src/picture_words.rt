//! Words of a picture, as bytes that contracts see.

ghost use Rattle.std.specs.Prelude.{◌≡◌, string_bytes};

use std::marker::Model;

/// Words that stand in a picture.
#[derive(Debug, Drop)]
pub struct PictureWords {
    text: String,
}

impl Model for PictureWords {
    ghost use Rattle.std.specs.Prelude.{List, string_bytes, ℕ};

    ghost Value = { List ℕ };

    ghost view = { λ w. string_bytes w.text };
}

impl PictureWords {
    /// These words.
    pub fn new(text: String) -> PictureWords
        ensures { result ≡ string_bytes text }
    {
        PictureWords { text }
    }

    pub fn as_bytes(&self) -> &[u8]
        ensures { result.now ≡ self.now }
    {
        self.text.as_bytes()
    }
}
