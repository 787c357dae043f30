//! What is said of the race of a seed.

ghost use Rattle.std.specs.Prelude.{◌≡◌, IfOk};
ghost use Rattle.casdisk_texts.specs.Objects.{object_text};
ghost use Rattle.casdisk_program.specs.Racing.{seed_fields};

use casdisk_texts::{Fields, object_line};
use std::alloc::{AllocError as NoMemory, Global};
use std::fmt;

/// What is said of a race.
#[derive(Clone, Copy, Debug, PartialEq, Eq)]
pub enum SeedAnswer {
    /// Its history is legal.
    Legal,
    /// It isn't, from this place on.
    BadAt(u64),
    /// It breaks the discipline of the slots here.
    SlotsAt(u64),
}

/// What is said of the race of a seed, in words.
#[derive(Drop)]
pub struct SeedWords {
    pub seed: u64,
    pub answer: SeedAnswer,
}

impl fmt::Display for SeedWords {
    fn fmt<W: fmt::Write>(&self, f: &mut fmt::Formatter<W>) -> fmt::Result {
        let seed = self.seed;
        match self.answer {
            SeedAnswer::Legal => write!(f, "seed {seed}: legal"),
            SeedAnswer::BadAt(place) => write!(f, "seed {seed}: bad at {place}"),
            SeedAnswer::SlotsAt(place) => write!(f, "seed {seed}: slots broken at {place}"),
        }
    }
}

/// The object of what is said of the race of a seed, with these words for it.
///
/// # Errors
///
/// `NoMemory` alone.
pub fn seed_object(
    alloc: Global,
    seed: u64,
    answer: SeedAnswer,
    words: &[u8],
) -> Result<Vec<u8>, NoMemory>
    ensures value { IfOk result (λ object. object.items ≡ object_text (seed_fields seed answer) words.now) }
{
    let numbers = [seed];
    let fields = match answer {
        SeedAnswer::Legal => Fields::plain("legal"),
        SeedAnswer::BadAt(place) => Fields::at("bad", place),
        SeedAnswer::SlotsAt(place) => Fields::at("slots bad", place),
    };
    object_line(alloc, &fields.with_rule(None, &numbers), words)
}
