//! A slot that was taken over.

ghost use Rattle.std.specs.Prelude.{◌≡◌};

/// A slot that was taken over, with the serial of its takeover. It can't be copied, and has to be spent: by
/// `give_back`, or by `leave`.
pub struct HeldSlot {
    pub(crate) slot: u32,
    pub(crate) serial: u64,
}

impl HeldSlot {
    ghost use Rattle.slot_takeover.specs.Takeovers.{held_serial, slot_held};

    /// The number of the slot.
    pub fn slot(&self) -> u32
        ensures { result ≡ slot_held self.now }
    {
        self.slot
    }

    /// Leaves the slot held: its number and the serial of its takeover.
    pub fn leave(self) -> (u32, u64)
        ensures slot { result.0 ≡ slot_held self }
        ensures serial { result.1 ≡ held_serial self }
    {
        let HeldSlot { slot, serial } = self;
        (slot, serial)
    }
}

/// A slot that was taken over, and may be dropped: it then stays held.
pub struct KeptSlot {
    pub held: HeldSlot,
}

impl Drop for KeptSlot {
    fn drop(self) {
        let KeptSlot { held } = self;
        let _ = held.leave();
    }
}

impl KeptSlot {
    /// The slot, to be given back.
    pub fn into_held(self) -> HeldSlot
        ensures { result ≡ self.held }
    {
        let KeptSlot { held } = self;
        held
    }
}
