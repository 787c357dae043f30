//! What a call that is polled tells, as it lies in C.

ghost use Rattle.std.specs.Prelude.{◌≡◌};
ghost use Rattle.vandrexu_c.specs.HostReplies.{done_kind, failed_reply, plain_reply};

use driver_cas::{Fault, Reply};

pub(crate) const PENDING: u32 = 1;

const READ: u32 = 2;

const WRITTEN: u32 = 3;

const EQUAL: u32 = 4;

const DIFFERS: u32 = 5;

const SWAPPED: u32 = 6;

const FAILED: u32 = 7;

/// What became of a call.
#[repr(C)]
#[derive(Clone, Copy)]
pub struct HostReply {
    /// 1 for pending, 2 for read, 3 for written, 4 for equal, 5 for differs, 6 for swapped, 7 for failed.
    pub kind: u32,
    /// Of a failed call: its status, the type and the code.
    pub sct: u8,
    pub sc: u8,
    pub zeros: [u8; 2],
}

/// A reply without a status.
pub(crate) fn plain(kind: u32) -> HostReply
    ensures { result ≡ plain_reply kind }
{
    HostReply {
        kind,
        sct: 0,
        sc: 0,
        zeros: [0, 0],
    }
}

/// The kind of a reply.
pub(crate) fn kind_in(reply: &Reply) -> u32
    ensures { result ≡ done_kind reply.now }
{
    match reply {
        Reply::Read(_) => READ,
        Reply::Written => WRITTEN,
        Reply::Equal => EQUAL,
        Reply::Differs => DIFFERS,
        Reply::Swapped => SWAPPED,
    }
}

// The reply of this type to a call that failed, with its status where it has one.
macro_rules! failed {
    ($reply:ident, $fault:ident) => {
        match $fault {
            Fault::Status(status) => $reply {
                sct: status.sct(),
                sc: status.sc(),
                ..plain(FAILED)
            },
            Fault::Length
            | Fault::TooLong
            | Fault::RingFull
            | Fault::Busy
            | Fault::NoMemory
            | Fault::SlotArea
            | Fault::NoSerial => plain(FAILED),
        }
    };
}

pub(crate) use failed;

/// The reply to a call that failed.
pub(crate) fn failed_in(fault: Fault) -> HostReply
    ensures { result ≡ failed_reply fault }
{
    failed!(HostReply, fault)
}
