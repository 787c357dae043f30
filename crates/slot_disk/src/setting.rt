//! What a disk has from its beginning on.

ghost use Rattle.std.specs.Prelude.{◌+◌, ◌≤◌};

use driver_cas::SharedPort;
use history::Config;
use nvme_model::array::Range;
use slot_host::SlotHost;
use std::sync::Arc;
use work_queue::Engine;

/// A host of a disk, which owns its port.
pub(crate) type DiskHost = SlotHost<SharedPort<'static>>;

/// The configuration, the blocks of the slots, and the controller that all share.
#[derive(Drop)]
pub(crate) struct Setting {
    pub(crate) config: Config,
    pub(crate) slots: Range,
    pub(crate) engine: Arc<Engine>,
    ghost inside: { slots.slba + slots.blocks ≤ 65536 },
    ghost some: { 1 ≤ slots.blocks },
}
