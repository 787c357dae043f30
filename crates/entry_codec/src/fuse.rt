//! How a command is fused to its neighbour.

ghost use Rattle.std.specs.Prelude.{◌≡◌, ◌<◌};
ghost use Rattle.entry_codec.specs.Fuse.{fuse_number};

/// How a command is fused to its neighbour (Base 2.0, Fused Operations).
#[derive(Clone, Copy, Debug, PartialEq, Eq)]
pub enum Fuse {
    /// A command of its own.
    Normal,
    /// The first of a fused pair.
    First,
    /// The second of a fused pair.
    Second,
    /// A value that no command may have.
    Reserved,
}

impl Fuse {
    /// The two bits of FUSE, 0 to 3.
    pub fn number(&self) -> u8
        ensures value { result ≡ fuse_number self.now }
        ensures width { result < 4 }
    {
        match self {
            Fuse::Normal => 0,
            Fuse::First => 1,
            Fuse::Second => 2,
            Fuse::Reserved => 3,
        }
    }
}
