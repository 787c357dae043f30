//! The call of a host that isn't answered.

use driver_cas::Port;
use slot_alloc::{Claiming, Releasing};
use slot_takeover::{ReadingHolder, TakingOver};

/// A host's call that was begun and isn't answered, if there is one.
#[derive(Drop)]
pub(crate) enum UnderWay<P: Port> {
    Nothing,
    Claim(Claiming<P>),
    /// Of a slot that was claimed, or taken over.
    Release(Releasing<P>),
    Takeover(TakingOver<P>),
    /// Who holds a slot.
    Holder(ReadingHolder<P>),
}
