//! What a line of a script or an entry of a history means, for a loop that doesn't know.

ghost use Rattle.std.specs.Prelude.{ℕ, List, [], ◌∷◌, IfOk, OnErr, OnOk, ◌≡◌};
ghost use Rattle.nvme_model.specs.History.{Past};
ghost use Rattle.nvme_model.specs.declared.config.ConfigNumbers.{ConfigNumbers};
ghost use Rattle.casdisk_texts.specs.Meaning.{Meaning, TakesLine, StopsInLine};

use history::Entry;
use std::alloc::AllocError as NoMemory;
use std::io::Write;
use thiserror::Error;

/// Whether a line was one.
#[derive(Clone, Copy, Debug, PartialEq, Eq)]
pub enum Taken {
    /// It was done, and its text is written.
    Done,
    /// It is none that may stand there, and nothing was written.
    Bad,
}

/// Why a line wasn't done to its end.
#[derive(Clone, Copy, Debug, Drop, Error, PartialEq, Eq)]
pub enum WriteFault {
    /// Writing failed.
    #[error("output failed")]
    Output,
    /// A growth was refused.
    #[error("no memory")]
    NoMemory,
}

/// What does the lines of a script behind the first.
pub trait LineMeaning {
    // it is of this configuration, and this is the history that the lines so far have made
    ghost stands: { Self → ConfigNumbers → Past → Type 0 };

    // what a line then does to a history, and prints
    ghost meaning: { Self → Meaning };

    // numbers of it that no line changes
    ghost fixed: { Self → List ℕ } = { λ _. [] };

    /// Does what a line says and writes its text, or a beginning of it.
    fn take_line<W: Write>(&mut self, line: &[u8], writer: &mut W) -> Result<Taken, WriteFault>
        ensures taken { (c : ConfigNumbers) (past : Past) →
            stands self.old c past → IfOk result (λ taken. TakesLine taken (meaning self.old) (meaning self.new) past
            (stands self.new c) line.now (W.contents writer.old) (W.contents writer.new)) }
        ensures stopped { (c : ConfigNumbers) (past : Past) → stands self.old c past → OnErr result
            (StopsInLine (meaning self.old) past line.now (W.contents writer.old) (W.contents writer.new)) }
        ensures fixed { fixed self.new ≡ fixed self.old };
}

/// What takes the entries of a history, one after the other, and writes nothing.
pub trait EntryMeaning {
    // it is of this configuration, and has taken this history
    ghost stands: { Self → ConfigNumbers → Past → Type 0 };

    // what of it no entry changes
    // (as an area of slots: what takes the entries comes back as another value, and only its history
    // and its configuration are tied to what they were)
    ghost Kept: { Type 0 } = { Unit {0} };

    ghost kept: { Self → Self.Kept };

    /// Takes the next entry.
    ///
    /// # Errors
    ///
    /// `NoMemory` where a growth is refused, or a count can't grow.
    fn take_entry(&mut self, entry: Entry) -> Result<(), NoMemory>
        ensures taken { (c : ConfigNumbers) (past : Past) →
            stands self.old c past → OnOk result (stands self.new c (entry ∷ past)) }
        ensures kept { kept self.new ≡ kept self.old };
}
