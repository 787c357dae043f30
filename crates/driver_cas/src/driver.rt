//! A host's driver.

ghost use Rattle.std.specs.List.Sorted.{IsStrictlyIncreasing};
ghost use Rattle.std.specs.Prelude.{◌≡◌, ◌≤◌, ◌+◌, All, Contains, IfErr, IfOk, [], length, true, ℕ};
ghost use Rattle.driver_cas.specs.Cids.{held, queues_of};
ghost use Rattle.driver_cas.specs.Dropped.{drop_count};
ghost use Rattle.driver_cas.specs.declared.held.CidUse.{CidUse};
ghost use Rattle.driver_calls.specs.Log.{is_tidy, state_of};
ghost use Rattle.driver_calls.specs.Views.{since};
ghost use Rattle.driver_cas.specs.Tables.{use_fits};

use crate::cid_table::CidTable;
use crate::port::Port;
use nvme_model::array::Range;
use std::alloc::{AllocError as NoMemory, Global};
use std::snapshot::Snapshot;

/// A driver of one port, on submission queues of it.
#[derive(Drop)]
pub struct Driver<P: Port> {
    pub(crate) alloc: Global,
    pub(crate) port: P,
    // The port when the driver was made.
    pub(crate) began: Snapshot<P>,
    pub(crate) host: u32,
    // 0's based.
    pub(crate) acwu: u16,
    pub(crate) slots: Range,
    // The last that was drawn, 0 for none.
    pub(crate) serial: u64,
    pub(crate) cids: CidTable,
    // Of the completions that were reaped, those that no command waited for.
    pub(crate) dropped: u64,
    ghost sole: { P.steps port + length (P.log began.value) ≡ P.steps began.value + length (P.log port) },
    ghost grows: { length (P.log began.value) ≤ length (P.log port) },
    ghost tidy: { is_tidy (since (P.log began.value) (P.log port)) ≡ true },
    ghost own: { (q : ℕ) → Contains (queues_of cids) q → P.owns port q ≡ true },
    ghost matches: { (q cid : ℕ) →
        use_fits (held cids q cid) (state_of (since (P.log began.value) (P.log port)) q cid) ≡ true },
    ghost drops: { dropped ≡ drop_count (since (P.log began.value) (P.log port)) },
    ghost named: { 1 ≤ host },
    ghost within: { slots.slba + slots.blocks ≤ 65536 },
}

impl<P: Port> Driver<P> {
    /// A driver of this port on these submission queues of it, in rising order, as this host. A Compare and Write has
    /// at most `acwu` and one blocks (0's based). Blocks of `slots`, which may be empty, are for claims and releases
    /// alone.
    ///
    /// # Errors
    ///
    /// The port and the queues, where a growth is refused.
    pub fn new(
        alloc: Global,
        port: P,
        host: u32,
        acwu: u16,
        slots: Range,
        queues: Vec<u16>,
    ) -> Result<Driver<P>, (P, Vec<u16>, NoMemory)>
        requires host { 1 ≤ host }
        requires slots { slots.slba + slots.blocks ≤ 65536 }
        requires some { 1 ≤ length queues.items }
        requires rising { IsStrictlyIncreasing queues.items }
        requires own { All (λ q. P.owns port q ≡ true) queues.items }
        ensures port { IfOk result (λ d. (d.port ≡ port) × (d.began.value ≡ port)) }
        ensures host { IfOk result (λ d. (d.host ≡ host) × (d.acwu ≡ acwu) × (d.slots ≡ slots) × (d.serial ≡ 0)) }
        ensures queues { IfOk result (λ d. queues_of d.cids ≡ queues.items) }
        ensures free { IfOk result (λ d. (q cid : ℕ) → held d.cids q cid ≡ CidUse.Free) }
        ensures back { IfErr result (λ e. (e.0 ≡ port) × (e.1 ≡ queues)) }
    {
        let began = Snapshot::of(&port);
        match CidTable::new(alloc, queues) {
            Ok(cids) => Ok(Driver {
                alloc,
                port,
                began,
                host,
                acwu,
                slots,
                serial: 0,
                cids,
                dropped: 0,
            }),
            Err((queues, why)) => Err((port, queues, why)),
        }
    }

    /// The port, given back. Completions that calls are owed stay with it.
    pub fn into_port(self) -> P
        ensures { result ≡ self.port }
    {
        self.port
    }
}
