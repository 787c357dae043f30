//! A port of the tests' own, which answers what it was told to.

ghost use Rattle.std.specs.List.Sorted.{IsStrictlyIncreasing};
ghost use Rattle.std.specs.Prelude.{◌≡◌, ◌∷◌, ◌≤◌, [], IfOk, IfSome, length};
ghost use Rattle.driver_cas.specs.Drivers.{area_of};

use driver_cas::{Driver, Port, PortFault, Reaped};
use nvme_model::array::Range;
use nvme_model::submission::{Payload, Submissions};
use std::alloc::{AllocError as NoMemory, Global};

/// What the port did.
#[derive(Drop)]
pub enum Did {
    Sent(u16, Submissions),
    Got([u8; 16], Payload),
}

/// What a Reap is answered.
#[derive(Clone, Copy)]
pub enum Script {
    /// This completion, with the low byte of its CID as its data.
    Posted([u8; 16]),
    Busy,
    NoMemory,
}

/// A port with what it did, in order, and what it is still to answer, the next last: a Publish that is refused for a
/// fault or accepted, and a Reap. Once there is nothing, each Publish is accepted, and no Reap finds a completion.
#[derive(Drop)]
pub struct Fake {
    pub alloc: Global,
    pub did: Vec<Did>,
    pub refusals: Vec<Option<PortFault>>,
    pub reaps: Vec<Script>,
}

/// A completion with success for the command with this CID of a submission queue.
pub fn good(queue: u8, cid: u8) -> Script {
    Script::Posted([0, 0, 0, 0, 0, 0, 0, 0, 1, 0, queue, 0, cid, 0, 1, 0])
}

/// A driver of host 1 on these submission queues, with so many slots from block 0 on, over a port that is to answer
/// so, the next last; None where memory is refused.
pub fn driver_of(
    alloc: Global,
    queues: &[u16],
    slots: u32,
    refusals: &[Option<PortFault>],
    reaps: &[Script],
) -> Option<Driver<Fake>>
    requires some { 1 ≤ length queues.now }
    requires rising { IsStrictlyIncreasing queues.now }
    requires slots { slots ≤ 65536 }
    ensures { IfSome result (λ d. area_of d ≡ record { slba = 0; blocks = slots }) }
{
    let queues = queues.to_vec(alloc).ok()?;
    let refusals = refusals.to_vec(alloc).ok()?;
    let reaps = reaps.to_vec(alloc).ok()?;
    let port = Fake {
        alloc,
        did: Vec::new(alloc),
        refusals,
        reaps,
    };
    let area = Range {
        slba: 0,
        blocks: slots,
    };
    match Driver::new(alloc, port, 1, 1, area, queues) {
        Ok(driver) => Some(driver),
        Err(_) => None,
    }
}

fn one_byte(alloc: Global, byte: u8) -> Result<Payload, NoMemory>
    ensures { IfOk result (λ p. p ≡ byte ∷ []) }
{
    let mut bytes = Vec::new(alloc);
    bytes.push(byte)?;
    Ok(Payload::new(bytes))
}

impl Port for Fake {
    ghost use Rattle.std.specs.Prelude.{true};
    ghost use Rattle.std.proofs.Common.{add_comm, refl};
    ghost use Rattle.driver_testing.specs.Fakes.{log_onto};

    ghost log = { λ p. log_onto [] p.did.items };

    ghost steps = { λ p. length (log_onto [] p.did.items) };

    ghost owns = { λ p q. true };

    ghost follows = { λ a b. Unit {0} };

    ghost accepts = { λ a b q batch. Unit {0} };

    ghost refuses = { λ a b q batch fault. Unit {0} };

    ghost reaps = { λ a b r. Unit {0} };

    ghost says = { λ before start now q j o r. Unit {0} };

    #[tactic(auto, using(crate::proofs::Fakes::log_more))]
    fn publish(&mut self, queue: u16, batch: Submissions) -> Result<(), (PortFault, Submissions)> {
        if let Some(Some(fault)) = self.refusals.pop() {
            return Err((fault, batch));
        }
        if let Err(_) = self.did.reserve(1) {
            return Err((PortFault::NoMemory, batch));
        }
        self.did.push_reserved(Did::Sent(queue, batch));
        Ok(())
    }

    #[tactic(auto, using(crate::proofs::Fakes::log_more))]
    fn reap(&mut self) -> Result<Option<Reaped>, PortFault> {
        let Some(script) = self.reaps.pop() else {
            return Ok(None);
        };
        let cqe = match script {
            Script::Posted(cqe) => cqe,
            Script::Busy => return Err(PortFault::Busy),
            Script::NoMemory => return Err(PortFault::NoMemory),
        };
        let (Ok(payload), Ok(same)) = (one_byte(self.alloc, cqe[12]), one_byte(self.alloc, cqe[12]))
        else {
            return Err(PortFault::NoMemory);
        };
        if let Err(_) = self.did.reserve(1) {
            return Err(PortFault::NoMemory);
        }
        self.did.push_reserved(Did::Got(cqe, same));
        Ok(Some(Reaped { cqe, payload }))
    }

    ghost stays = { λ a. tt };

    ghost goes_on = { λ a b c x y. tt };

    ghost sole = { λ a b x. add_comm (length (log_onto [] b.did.items)) (length (log_onto [] a.did.items)) };

    ghost keeps_own = { λ a b q x. refl };

    ghost tells = { λ before start now q j first second o on own tidy number call. tt };
}
