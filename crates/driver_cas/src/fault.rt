//! Why a port, or a call, doesn't do what it is asked.

ghost use Rattle.std.specs.Prelude.{◌≡◌};

use nvme_model::status::Status;
use thiserror::Error;

/// Why a port didn't publish or reap. Nothing was done.
#[derive(Clone, Copy, Debug, Drop, Error, PartialEq, Eq)]
pub enum PortFault {
    /// The submission queue has no room for the batch.
    #[error("no room in the submission queue")]
    RingFull,
    /// Another caller had the controller.
    #[error("busy")]
    Busy,
    /// A growth was refused.
    #[error("no memory")]
    NoMemory,
}

/// Why a call isn't started, or wasn't served.
#[derive(Clone, Copy, Debug, Drop, Error, PartialEq, Eq)]
pub enum Fault {
    /// No block, data that isn't whole blocks, or two data of unlike lengths.
    #[error("not whole blocks, or data of unlike lengths")]
    Length,
    /// More than 256 blocks, or in a Compare and Write more than `acwu` and one.
    #[error("too many blocks")]
    TooLong,
    /// Too few CIDs are free, or no submission queue has room.
    #[error("too few CIDs, or no room in a submission queue")]
    RingFull,
    /// A completion with this status: not success, and not a Compare that differs; of a pair the first that isn't
    /// success.
    #[error("status {}/{:02X}", .0.sct(), .0.sc())]
    Status(Status),
    /// Another caller had the controller.
    #[error("busy")]
    Busy,
    /// A growth was refused.
    #[error("no memory")]
    NoMemory,
    /// A Write, a Write Zeroes or a Compare and Write that touches the slot area.
    #[error("the slot area is written by claims and releases alone")]
    SlotArea,
    /// The driver has drawn the last serial.
    #[error("no serial is left")]
    NoSerial,
}

impl Fault {
    ghost use Rattle.driver_cas.specs.Faults.{call_fault_number};

    /// Its number, 41 to 48, behind those of refusals and of faults of configurations, units and completions.
    pub fn number(&self) -> u8
        ensures { result ≡ call_fault_number self.now }
    {
        match self {
            Fault::Length => 41,
            Fault::TooLong => 42,
            Fault::RingFull => 43,
            Fault::Status(_) => 44,
            Fault::Busy => 45,
            Fault::NoMemory => 46,
            Fault::SlotArea => 47,
            Fault::NoSerial => 48,
        }
    }
}
