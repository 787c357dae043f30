//! Pieces of a slice.

ghost use Rattle.std.specs.Prelude.{◌≡◌};

use std::marker::Model;

/// A block that is looked at, and what it holds.
#[derive(Drop)]
pub struct HeldBlock {
    number: u64,
    data: Vec<u8>,
}

impl Model for HeldBlock {
    ghost use Rattle.refutation.specs.Pieces.{Held};

    ghost Value = { Held };

    ghost view = { λ h. (h.number, h.data.items) };
}

impl HeldBlock {
    pub fn new(number: u64, bytes: Vec<u8>) -> HeldBlock
        ensures { result ≡ (number, bytes.items) }
    {
        HeldBlock {
            number,
            data: bytes,
        }
    }

    pub fn number(&self) -> u64
        ensures { result ≡ self.now.0 }
    {
        self.number
    }

    pub fn data(&self) -> &[u8]
        ensures { result.now ≡ self.now.1 }
    {
        self.data.as_slice()
    }
}

/// What blocks held together: a Compare that failed found something else in one of them.
#[derive(Drop)]
pub struct HeldBlocks {
    blocks: Vec<HeldBlock>,
}

impl Model for HeldBlocks {
    ghost use Rattle.std.specs.Prelude.{List};
    ghost use Rattle.refutation.specs.Pieces.{Held};

    ghost Value = { List Held };

    ghost view = { λ hs. hs.blocks.items };
}

impl HeldBlocks {
    pub fn new(blocks: Vec<HeldBlock>) -> HeldBlocks
        ensures { result ≡ blocks.items }
    {
        HeldBlocks { blocks }
    }

    pub fn as_slice(&self) -> &[HeldBlock]
        ensures { result.now ≡ self.now }
    {
        self.blocks.as_slice()
    }
}

/// One effect of a slice. Pieces are named by their numbers in it, from 0.
#[derive(Drop)]
pub struct Piece {
    sure: bool,
    behind: Vec<usize>,
    finds: Vec<HeldBlock>,
    differs: Vec<HeldBlocks>,
    writes: Vec<HeldBlock>,
}

impl Model for Piece {
    ghost use Rattle.refutation.specs.Pieces.{Piece};

    ghost Value = { Piece };

    ghost view = { λ p. record {
      sure = p.sure;
      behind = p.behind.items;
      finds = p.finds.items;
      differs = p.differs.items;
      writes = p.writes.items;
    } };
}

impl Piece {
    /// A piece that each history has, if it is sure; the numbers of those that come before it; what it finds on blocks;
    /// the lists of which one block each holds something else; and what it leaves on blocks.
    pub fn new(
        sure: bool,
        behind: Vec<usize>,
        finds: Vec<HeldBlock>,
        differs: Vec<HeldBlocks>,
        writes: Vec<HeldBlock>,
    ) -> Piece
        ensures sure { result.sure ≡ sure }
        ensures behind { result.behind ≡ behind.items }
        ensures finds { result.finds ≡ finds.items }
        ensures differs { result.differs ≡ differs.items }
        ensures writes { result.writes ≡ writes.items }
    {
        Piece {
            sure,
            behind,
            finds,
            differs,
            writes,
        }
    }

    pub fn is_sure(&self) -> bool
        ensures { result ≡ self.now.sure }
    {
        self.sure
    }

    pub fn behind(&self) -> &[usize]
        ensures { result.now ≡ self.now.behind }
    {
        self.behind.as_slice()
    }

    pub fn finds(&self) -> &[HeldBlock]
        ensures { result.now ≡ self.now.finds }
    {
        self.finds.as_slice()
    }

    pub fn differs(&self) -> &[HeldBlocks]
        ensures { result.now ≡ self.now.differs }
    {
        self.differs.as_slice()
    }

    pub fn writes(&self) -> &[HeldBlock]
        ensures { result.now ≡ self.now.writes }
    {
        self.writes.as_slice()
    }
}
