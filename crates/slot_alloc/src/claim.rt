//! A slot that is held.

ghost use Rattle.std.specs.Prelude.{◌≡◌};

/// A slot that was claimed, with the serial of its claim. It can't be copied, and has to be spent: by a release, or by
/// `leave`.
pub struct Claim {
    pub(crate) slot: u32,
    pub(crate) serial: u64,
}

impl Claim {
    ghost use Rattle.slot_alloc.specs.Areas.{claim_serial, slot_of};

    /// The number of the slot.
    pub fn slot(&self) -> u32
        ensures { result ≡ slot_of self.now }
    {
        self.slot
    }

    /// Leaves the slot held: its number and the serial of its claim.
    pub fn leave(self) -> (u32, u64)
        ensures slot { result.0 ≡ slot_of self }
        ensures serial { result.1 ≡ claim_serial self }
    {
        let Claim { slot, serial } = self;
        (slot, serial)
    }
}

/// A claim that may be dropped: its slot then stays held.
pub struct KeptClaim {
    pub claim: Claim,
}

impl Drop for KeptClaim {
    fn drop(self) {
        let KeptClaim { claim } = self;
        let _ = claim.leave();
    }
}

impl KeptClaim {
    /// The claim, to be released.
    pub fn into_claim(self) -> Claim
        ensures { result ≡ self.claim }
    {
        let KeptClaim { claim } = self;
        claim
    }
}
