//! The slots of a driver's slot area.

ghost use Rattle.std.specs.Prelude.{◌≡◌, ◌≤◌, ◌<◌};

/// The slots of a driver's slot area: slot i is the block `first + i`.
#[derive(Clone, Copy, Debug, PartialEq, Eq)]
pub struct Slots {
    pub(crate) first: u64,
    pub(crate) count: u32,
    ghost some: { 1 ≤ count },
}

impl Slots {
    ghost use Rattle.slot_alloc.specs.Areas.{area, block_of};

    /// So many slots from block `first` on.
    pub fn new(first: u64, count: u32) -> Slots
        requires { 1 ≤ count }
        ensures { area result ≡ record { slba = first; blocks = count } }
    {
        Slots { first, count }
    }

    /// The block of a slot.
    pub fn block(self, slot: u32) -> u64
        requires { block_of (area self) slot < 18446744073709551616 }
        ensures { result ≡ block_of (area self) slot }
    {
        self.first + u64::from(slot)
    }
}
