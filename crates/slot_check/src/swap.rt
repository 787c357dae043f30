//! Claims and releases of slots.

ghost use Rattle.std.specs.Prelude.{suc, ◌+◌, ◌<◌, ◌^◌, ◌≡◌};

use nvme_model::Name;
use std::marker::Model;

/// A claim or a release: its queue, the number of its first entry there, its block and its name.
#[derive(Clone, Copy, Debug, Drop, PartialEq, Eq)]
pub struct Swap {
    claims: bool,
    queue: u16,
    number: u64,
    lba: u64,
    name: Name,
}

impl Model for Swap {
    ghost use Rattle.std.specs.Prelude.{◌+◌, ◌<◌, ◌^◌};
    ghost use Rattle.nvme_model.specs.Slots as slots;

    ghost Value = { slots.Swap };

    ghost view = { λ s. record { claims = s.claims; queue = s.queue; number = s.number; lba = s.lba; name = s.name } };

    // Its second entry has a number, too.
    ghost invariant = { λ s. s.number + 1 < 2 ^ 64 };

    ghost inverse = { λ s.
        record { claims = s.claims; queue = s.queue; number = s.number; lba = s.lba; name = s.name } };
}

impl Swap {
    /// This claim or release.
    pub fn new(claims: bool, queue: u16, number: u64, lba: u64, name: Name) -> Swap
        requires room { number + 1 < 2 ^ 64 }
        ensures value { result ≡
            record { claims = claims; queue = queue; number = number; lba = lba; name = name } }
    {
        Swap {
            claims,
            queue,
            number,
            lba,
            name,
        }
    }

    /// Whether it is a claim.
    pub fn claims(&self) -> bool
        ensures value { result ≡ self.now.claims }
    {
        self.claims
    }

    pub fn queue(&self) -> u16
        ensures value { result ≡ self.now.queue }
    {
        self.queue
    }

    /// The number of its first entry.
    pub fn number(&self) -> u64
        ensures value { result ≡ self.now.number }
    {
        self.number
    }

    /// The number of its second entry.
    pub fn second(&self) -> u64
        ensures value { result ≡ suc self.now.number }
    {
        self.number + 1
    }

    pub fn lba(&self) -> u64
        ensures value { result ≡ self.now.lba }
    {
        self.lba
    }

    pub fn name(&self) -> Name
        ensures value { result ≡ self.now.name }
    {
        self.name
    }
}
