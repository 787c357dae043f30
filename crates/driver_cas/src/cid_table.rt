//! The CIDs of several submission queues.

ghost use Rattle.std.specs.List.Sorted.{IsStrictlyIncreasing};
ghost use Rattle.std.specs.Prelude.{◌≡◌, ℕ, ◌+◌, ◌<◌, ◌≤◌, ◌*◌, ◌==◌, Contains, IfErr, IfNone, IfOk, IfSome, OnSome};
ghost use Rattle.std.specs.Prelude.{position, replicate};
ghost use Rattle.driver_cas.specs.Cids.{AtMostOneFree, ChangesOnly, NoneFreeBelow, NoneFreeBetween, answered, held};
ghost use Rattle.driver_cas.specs.Cids.{answered_payload, is_waiting, place_of, queues_of, answered_status};

use crate::held::CidUse;
use nvme_model::status::Status;
use nvme_model::submission::Payload;
use std::alloc::{AllocError as NoMemory, Global};
use std::marker::Model;
use std::mem;

// How many CIDs each submission queue has.
const CIDS: u16 = 64;

/// Two CIDs of one submission queue, the lower first.
#[derive(Clone, Copy, Debug, PartialEq, Eq)]
pub struct TwoCids {
    pub first: u16,
    pub second: u16,
}

/// The CIDs 0 to 63 of several submission queues. Once made it takes no memory.
#[derive(Drop)]
pub struct CidTable {
    queues: Vec<u16>,
    // 64 of each queue, in the order of the queues.
    cids: Vec<CidUse>,
}

impl Model for CidTable {
    ghost use Rattle.driver_cas.specs.Cids.{QueueCids, IsCidTable};

    ghost Value = { QueueCids };

    ghost view = { λ t. record { queues = t.queues.items; cids = t.cids.items } };

    ghost invariant = { λ t. IsCidTable t.queues.items t.cids.items };
}

impl CidTable {
    /// These submission queues, in rising order, with no CID in use.
    ///
    /// # Errors
    ///
    /// The queues and `NoMemory` where the room for their CIDs is refused.
    pub fn new(alloc: Global, queues: Vec<u16>) -> Result<CidTable, (Vec<u16>, NoMemory)>
        requires rising { IsStrictlyIncreasing queues.items }
        ensures queues { IfOk result (λ t. queues_of t ≡ queues.items) }
        ensures free { IfOk result (λ t. (q cid : ℕ) → held t q cid ≡ CidUse.Free) }
        ensures back { IfErr result (λ e. e.0 ≡ queues) }
    {
        match free_cids(alloc, queues.len()) {
            Ok(cids) => Ok(CidTable { queues, cids }),
            Err(why) => Err((queues, why)),
        }
    }

    /// The submission queues, in rising order.
    pub fn queues(&self) -> &[u16]
        ensures value { result.now ≡ queues_of self.now }
        ensures law { IsStrictlyIncreasing (queues_of self.now) }
    {
        self.queues.as_slice()
    }

    /// The least free CID of a submission queue; None where all are in use, and of a queue that isn't in the table.
    pub fn free_one(&self, queue: u16) -> Option<u16>
        ensures known { OnSome result (Contains (queues_of self.now) queue) }
        ensures below { IfSome result (λ cid. cid < 64) }
        ensures free { IfSome result (λ cid. held self.now queue cid ≡ CidUse.Free) }
        ensures least { IfSome result (NoneFreeBelow self.now queue) }
        ensures none { IfNone result (Contains (queues_of self.now) queue
            → NoneFreeBelow self.now queue 64) }
    {
        self.next_free(queue, 0)
    }

    /// The two least free CIDs of a submission queue; None where fewer than two are free, and of a queue that isn't in
    /// the table.
    pub fn free_two(&self, queue: u16) -> Option<TwoCids>
        ensures known { OnSome result (Contains (queues_of self.now) queue) }
        ensures unlike { IfSome result (λ two. two.first < two.second) }
        ensures below { IfSome result (λ two. two.second < 64) }

        // Both are free, and no other below the second.
        ensures first { IfSome result (λ two. held self.now queue two.first ≡ CidUse.Free) }
        ensures second { IfSome result (λ two. held self.now queue two.second ≡ CidUse.Free) }
        ensures least { IfSome result (λ two. NoneFreeBelow self.now queue two.first) }
        ensures next { IfSome result (λ two. NoneFreeBetween self.now queue (two.first + 1) two.second) }
        ensures none { IfNone result (Contains (queues_of self.now) queue
            → AtMostOneFree self.now queue) }
    {
        let first = self.next_free(queue, 0)?;
        let second = self.next_free(queue, first + 1)?;
        Some(TwoCids { first, second })
    }

    /// Makes a command use a CID, whatever it was used for.
    pub fn hold(&mut self, queue: u16, cid: u16)
        requires known { Contains (queues_of self.old) queue }
        requires below { cid < 64 }
        ensures held { ChangesOnly self.old self.new queue cid CidUse.Waiting }
        ensures queues { queues_of self.new ≡ queues_of self.old }
    {
        let place = self.place(queue, cid).unwrap();
        let _ = self.put(queue, cid, place, CidUse::Waiting);
    }

    /// Takes a completion; whether a command waited for it. Where none did it is dropped.
    #[tactic(auto, using(crate::proofs::CidsLemmas::held_nowhere))]
    pub fn answer(&mut self, queue: u16, cid: u16, status: Status, payload: Payload) -> bool
        ensures waited { result ≡ is_waiting (held self.old queue cid) }
        ensures held { ChangesOnly self.old self.new queue cid
            (answered (held self.old queue cid) status payload) }
        ensures queues { queues_of self.new ≡ queues_of self.old }
    {
        let Some(place) = self.place(queue, cid) else {
            return false;
        };
        if let CidUse::Waiting = self.at(queue, cid, place) {
            let _ = self.put(queue, cid, place, CidUse::Answered { status, payload });
            return true;
        }
        false
    }

    /// The status that was answered to a CID's command.
    #[tactic(auto, using(crate::proofs::CidsLemmas::held_nowhere))]
    pub fn status(&self, queue: u16, cid: u16) -> Option<Status>
        ensures value { result ≡ answered_status (held self.now queue cid) }
    {
        let place = self.place(queue, cid)?;
        match self.at(queue, cid, place) {
            CidUse::Answered { status, payload: _ } => Some(*status),
            CidUse::Free | CidUse::Waiting => None,
        }
    }

    /// Ends the use of a CID; gives the payload that was answered to its command.
    #[tactic(auto, using(crate::proofs::CidsLemmas::held_nowhere))]
    pub fn release(&mut self, queue: u16, cid: u16) -> Option<Payload>
        ensures value { result ≡ answered_payload (held self.old queue cid) }
        ensures held { ChangesOnly self.old self.new queue cid CidUse.Free }
        ensures queues { queues_of self.new ≡ queues_of self.old }
    {
        let place = self.place(queue, cid)?;
        match self.put(queue, cid, place, CidUse::Free) {
            CidUse::Answered { status: _, payload } => Some(payload),
            CidUse::Free | CidUse::Waiting => None,
        }
    }

    // What a CID, which is at that place, is used for. The queue and the CID are for the contract alone.
    fn at(&self, queue: u16, cid: u16, place: usize) -> &CidUse
        requires { place_of (queues_of self.now) queue cid ≡ Some place }
        ensures value { result.now ≡ held self.now queue cid }
    {
        &self.cids[place]
    }

    // Makes a CID, which is at that place, be used so; gives what it was used for before.
    fn put(&mut self, queue: u16, cid: u16, place: usize, now: CidUse) -> CidUse
        requires { place_of (queues_of self.old) queue cid ≡ Some place }
        ensures was { result ≡ held self.old queue cid }
        ensures held { ChangesOnly self.old self.new queue cid now }
        ensures queues { queues_of self.new ≡ queues_of self.old }
    {
        mem::replace(&mut self.cids[place], now)
    }

    // The least free CID of a submission queue that isn't below `from`.
    #[tactic(auto, using(crate::proofs::Places::place_beside))]
    fn next_free(&self, queue: u16, from: u16) -> Option<u16>
        ensures known { OnSome result (Contains (queues_of self.now) queue) }
        ensures from { IfSome result (λ cid. from ≤ cid) }
        ensures below { IfSome result (λ cid. cid < 64) }
        ensures free { IfSome result (λ cid. held self.now queue cid ≡ CidUse.Free) }
        ensures least { IfSome result (NoneFreeBetween self.now queue from) }
        ensures none { IfNone result (Contains (queues_of self.now) queue
            → NoneFreeBetween self.now queue from 64) }
    {
        let start = self.place(queue, 0)?;
        for cid in from..CIDS {
            if let CidUse::Free = self.at(queue, cid, start + usize::from(cid)) {
                return Some(cid);
            }
        }
        None
    }

    // Where the CID is among all.
    fn place(&self, queue: u16, cid: u16) -> Option<usize>
        ensures value { result ≡ place_of (queues_of self.now) queue cid }
    {
        if cid >= CIDS {
            return None;
        }
        let k = queue_place(self.queues.as_slice(), queue)?;
        Some(64 * k + usize::from(cid))
    }
}

// Where the submission queue is in the list.
fn queue_place(queues: &[u16], queue: u16) -> Option<usize>
    ensures value { result ≡ position (λ q. q == queue) queues.now }
{
    queues.iter().position(|one| *one == queue)
}

// The CIDs of so many submission queues, with none in use.
fn free_cids(alloc: Global, queues: usize) -> Result<Vec<CidUse>, NoMemory>
    requires { queues ≤ 65536 }
    ensures free { IfOk result (λ cids. cids.items ≡ replicate (64 * queues) CidUse.Free) }
{
    let count = 64 * queues;
    let mut cids = Vec::with_capacity(alloc, count)?;
    for _ in 0..count {
        cids.push_reserved(CidUse::Free);
    }
    Ok(cids)
}
