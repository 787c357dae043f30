//! What is done at the port of a driver that owns it: an entry is taken away, or a completion is brought.

ghost use Rattle.remote_host.specs.Queues.{IsBrought, IsTakenAway};

use crate::port::{Outgoing, RemotePort};
use driver_cas::Attendance;
use nvme_model::submission::Payload;
use std::alloc::AllocError as NoMemory;

/// Takes away the entry that was published first of those that are there.
#[derive(Drop)]
pub struct TakeAway;

/// Brings a completion.
#[derive(Drop)]
pub struct Bring {
    /// The completion queue entry.
    pub cqe: [u8; 16],
    /// What a successful Read read, else empty.
    pub payload: Payload,
}

impl Attendance<RemotePort> for TakeAway {
    type Told = Option<Outgoing>;

    ghost tells = { λ taking. IsTakenAway };

    fn attend(self, port: &mut RemotePort) -> Option<Outgoing> {
        port.take_away()
    }
}

impl Attendance<RemotePort> for Bring {
    type Told = Result<(), (Payload, NoMemory)>;

    ghost tells = { λ bring before after. IsBrought before after bring.cqe bring.payload };

    fn attend(self, port: &mut RemotePort) -> Result<(), (Payload, NoMemory)> {
        let Bring { cqe, payload } = self;
        port.bring(cqe, payload)
    }
}
