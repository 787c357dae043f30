//! What a slot host's call that is polled tells, as it lies in C.

ghost use Rattle.std.specs.Prelude.{◌≡◌};
ghost use Rattle.vandrexu_c.specs.SlotCalls.{begun_number, told_number, told_reply};
ghost use Rattle.vandrexu_c.specs.SlotReplies.{failed_reply, holder_reply, plain_reply, slot_reply};

use crate::host_reply::failed;
use crate::numbers::{BAD_NAME, HELD_BY_HOST, NO_CALL, NO_SLOT, NOT_HELD};
use c_handles::numbers::IN_CALL;
use driver_cas::Fault;
use slot_host::{NotBegun, SlotTold};
use slot_takeover::Holder;

const PENDING: u32 = 1;

const HELD: u32 = 2;

const TAKEN: u32 = 3;

const RELEASED: u32 = 4;

const FREE: u32 = 5;

const OF_NAME: u32 = 6;

const FOREIGN: u32 = 7;

const FAILED: u32 = 8;

/// What became of a call.
#[repr(C)]
#[derive(Clone, Copy)]
pub struct SlotReply {
    /// 1 for pending, 2 for held, 3 for taken, 4 for released, 5 for free, 6 for of a name, 7 for foreign, 8 for
    /// failed.
    pub kind: u32,
    /// Of a slot that is held now: its number.
    pub slot: u32,
    /// Of a name: its host and its serial.
    pub serial: u64,
    pub host: u32,
    /// Of a failed call: its status, the type and the code.
    pub sct: u8,
    pub sc: u8,
    pub zeros: [u8; 2],
}

// A reply with nothing beside its kind.
fn plain(kind: u32) -> SlotReply
    ensures { result ≡ plain_reply kind }
{
    SlotReply {
        kind,
        slot: 0,
        serial: 0,
        host: 0,
        sct: 0,
        sc: 0,
        zeros: [0, 0],
    }
}

// A slot is held.
fn held_now(slot: u32) -> SlotReply
    ensures { result ≡ slot_reply slot }
{
    SlotReply {
        slot,
        ..plain(HELD)
    }
}

// A call failed.
fn failed_by(fault: Fault) -> SlotReply
    ensures { result ≡ failed_reply fault }
{
    failed!(SlotReply, fault)
}

// Who holds a slot.
fn told_holder(holder: Holder) -> SlotReply
    ensures { result ≡ holder_reply holder }
{
    match holder {
        Holder::Free => plain(FREE),
        Holder::Of(name) => SlotReply {
            serial: name.serial,
            host: name.host,
            ..plain(OF_NAME)
        },
        Holder::Foreign => plain(FOREIGN),
    }
}

/// The number of a call that was begun, or wasn't.
pub(crate) fn number_begun(begun: Result<(), NotBegun>) -> u32
    ensures { result ≡ begun_number begun }
{
    match begun {
        Ok(()) => 0,
        Err(NotBegun::InCall) => IN_CALL,
        Err(NotBegun::NoSlot) => NO_SLOT,
        Err(NotBegun::NotHeld) => NOT_HELD,
        Err(NotBegun::Held) => HELD_BY_HOST,
        Err(NotBegun::BadName) => BAD_NAME,
        Err(NotBegun::Fault(fault)) => u32::from(fault.number()),
    }
}

/// The number of a poll.
pub(crate) fn number_told(told: &Option<SlotTold>) -> u32
    ensures { result ≡ told_number told.now }
{
    match told {
        None => NO_CALL,
        Some(SlotTold::Later(fault) | SlotTold::Failed(fault)) => u32::from(fault.number()),
        Some(
            SlotTold::Pending
            | SlotTold::Held(_)
            | SlotTold::Taken
            | SlotTold::Released
            | SlotTold::Holder(_),
        ) => 0,
    }
}

/// What it tells.
pub(crate) fn reply_told(told: &Option<SlotTold>) -> SlotReply
    ensures { result ≡ told_reply told.now }
{
    match told {
        None | Some(SlotTold::Pending | SlotTold::Later(_)) => plain(PENDING),
        Some(SlotTold::Held(slot)) => held_now(*slot),
        Some(SlotTold::Taken) => plain(TAKEN),
        Some(SlotTold::Released) => plain(RELEASED),
        Some(SlotTold::Holder(holder)) => told_holder(*holder),
        Some(SlotTold::Failed(fault)) => failed_by(*fault),
    }
}
