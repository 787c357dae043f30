//! Why a disk isn't made, and why no call of a host is begun.

use slot_host::NotBegun;

/// Why a disk isn't made.
#[derive(Clone, Copy, Debug, PartialEq, Eq)]
pub enum Unmade {
    /// There is no slot, or one beyond the volume.
    BadSlots,
    /// A growth was refused.
    NoMemory,
}

/// Why no call of a host is begun.
#[derive(Clone, Copy, Debug, PartialEq, Eq)]
pub enum Unasked {
    /// There is no such host.
    NoHost,
    /// The host begins none, for this cause.
    NotBegun(NotBegun),
}
