//! Numbers drawn from a seed.

ghost use Rattle.std.specs.Prelude.{◌%◌, ◌<◌, ◌==◌, ◌≡◌};
ghost use Rattle.random_script.specs.Drawn.{drawn_word, moved_on, seeded};

use rand_core::utils::NextWord;
use rand_pcg::Pcg32;
use std::marker::Model;

/// Numbers drawn one after the other from a seed of 64 bits, by PCG (XSH RR 64/32).
///
/// Nothing else goes into them, so the same seed and the same calls give the same numbers everywhere.
#[derive(Drop)]
pub struct RandomNumbers {
    pcg: Pcg32,
}

// Clauses see the state of the generator.
impl Model for RandomNumbers {
    ghost use Rattle.rand_pcg.specs.Lcg.{Lcg};

    ghost Value = { Lcg };

    ghost view = { λ r. r.pcg };
}

// The stream of all seeds.
const STREAM: u64 = 54;

impl RandomNumbers {
    /// The numbers of this seed, from the first on.
    #[tactic(auto, unfolding(crate::specs::Drawn::seeded))]
    pub fn from_seed(seed: u64) -> RandomNumbers
        ensures value { result ≡ seeded seed }
    {
        RandomNumbers {
            pcg: Pcg32::new(seed, STREAM),
        }
    }

    // The next word of 32 bits.
    #[tactic(auto, unfolding(crate::specs::Drawn::drawn_word, crate::specs::Drawn::moved_on))]
    fn word(&mut self) -> u32
        ensures value { result ≡ drawn_word self.old }
        ensures moved { self.new ≡ moved_on self.old }
    {
        self.pcg.next_word()
    }

    /// The next number below `n`: the rest of a word of 32 bits by it.
    pub fn below(&mut self, n: u32) -> u32
        requires { 0 < n }
        ensures range { result < n }
        ensures value { result ≡ drawn_word self.old % n }
        ensures moved { self.new ≡ moved_on self.old }
    {
        self.word() % n
    }

    /// Whether the next number below `n` is 0, as one in `n` is.
    pub fn one_in(&mut self, n: u32) -> bool
        requires { 0 < n }
        ensures value { result ≡ (drawn_word self.old % n == 0) }
        ensures moved { self.new ≡ moved_on self.old }
    {
        self.below(n) == 0
    }
}
