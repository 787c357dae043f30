//! A count of what a search did.

ghost use Rattle.std.specs.Prelude.{◌≡◌, ◌<◌, ◌+◌};

use std::marker::Model;
use std::sync::ledger::{Blank, Book, Ledger, Share};

/// How many probes were made. It takes no bytes, and goes up one at a time.
#[derive(Drop)]
pub struct ProbeCount<L: Ledger> {
    book: Book<L>,
    share: Share<L>,
}

impl<L: Ledger> Model for ProbeCount<L> {
    ghost use Rattle.std.specs.Prelude.{◌<◌, ℕ};

    ghost Value = { ℕ };

    ghost view = { λ s. s.book.total };

    ghost invariant = { λ s. 0 < s.share.parts };
}

impl<L: Ledger> ProbeCount<L> {
    /// None were made yet.
    pub fn new(blank: Blank) -> ProbeCount<L>
        requires name { blank.name ≡ L.name }
        requires parts { blank.parts ≡ L.parts }
        requires some { 0 < blank.parts }
        ensures none { result ≡ 0 }
    {
        let (book, share) = blank.open::<L>();
        ProbeCount { book, share }
    }

    /// One more was made.
    pub fn add_one(&mut self)
        ensures one { self.new ≡ self.old + 1 }
    {
        self.book.add(&mut self.share, 1);
    }
}
