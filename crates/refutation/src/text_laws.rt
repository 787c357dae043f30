//! The law of a refutation's text: the contract of a function that does nothing.

ghost use Rattle.std.specs.Prelude.{◌≡◌, List, Ok, ℕ};
ghost use Rattle.refutation.specs.Refutations.{IsRefutation, Refutation};
ghost use Rattle.refutation.specs.Texts.{refutation_in, refutation_text};

/// A refutation has one text, and each text one refutation.
pub fn refutations_have_one_spelling()
    ensures read_back { (r : Refutation) → IsRefutation r → refutation_in (refutation_text r) ≡ Ok r }
    ensures written_back { (text : List ℕ) (r : Refutation) → refutation_in text ≡ Ok r → refutation_text r ≡ text }
{}
