//! CIDs that were fetched and whose completions aren't posted yet.

ghost use Rattle.std.specs.List.Sorted.{IsPermutation};
ghost use Rattle.std.specs.Prelude.{◌≡◌, ◌<◌, ◌≤◌, ◌==◌, ◌++◌, [], ◌∷◌, IfOk, false, length, position, take, true};
ghost use Rattle.rings.specs.Used.{is_used};

use std::alloc::{AllocError as NoMemory, Global};
use std::marker::Model;

/// The CIDs in use on one submission queue, at most as many as room was made for. Once made it takes no memory.
#[derive(Drop)]
pub struct CidsInUse {
    room: usize,
    /// In no order: the last one takes the place of one that goes.
    cids: Vec<u16>,
}

impl Model for CidsInUse {
    ghost use Rattle.std.specs.Prelude.{◌≤◌, vec_capacity, vec_len};
    ghost use Rattle.rings.specs.Used.{UsedCids};

    ghost Value = { UsedCids };

    ghost view = { λ u. record { room = u.room; cids = u.cids.items } };

    ghost invariant = { λ u. (vec_len u.cids ≤ u.room) × (u.room ≤ vec_capacity u.cids) };
}

impl CidsInUse {
    /// Room for that many CIDs, none in use.
    ///
    /// # Errors
    ///
    /// `NoMemory` where the room is refused.
    pub fn new(alloc: Global, room: usize) -> Result<CidsInUse, NoMemory>
        ensures empty { IfOk result (λ used. used ≡ record { room = room; cids = [] }) }
    {
        Ok(CidsInUse {
            room,
            cids: Vec::with_capacity(alloc, room)?,
        })
    }

    /// The CIDs in use, in no order.
    pub fn as_slice(&self) -> &[u16]
        ensures value { result.now ≡ self.now.cids }
    {
        self.cids.as_slice()
    }

    /// Puts a CID in use, once more where it is already.
    pub fn add(&mut self, cid: u16)
        requires room { length self.old.cids < self.old.room }
        ensures more { self.new ≡ record self.old { cids = self.old.cids ++ cid ∷ [] } }
    {
        self.cids.push_reserved(cid);
    }

    /// Takes a CID out of use, once; where it isn't in use, this changes nothing.
    pub fn remove(&mut self, cid: u16)
        ensures one { is_used cid self.old.cids ≡ true → IsPermutation self.old.cids (cid ∷ self.new.cids) }
        ensures none { is_used cid self.old.cids ≡ false → self.new ≡ self.old }
        ensures room { self.new.room ≡ self.old.room }
    {
        if let Some(place) = place_of(&self.cids, cid) {
            self.cids.swap_remove(place);
        }
    }
}

// How many CIDs are compared at once.
const RUN: usize = 16;

// How many of the first CIDs, in whole runs, are another one.
fn others_before(cids: &[u16], cid: u16) -> usize
    ensures within { result ≤ length cids.now }
    ensures others { is_used cid (take result cids.now) ≡ false }
{
    let mut from = 0;
    while cids.len() - from >= RUN {
        if cids[from..from + RUN].contains(&cid) {
            return from;
        }
        from += RUN;
    }
    from
}

// Where a CID is first.
fn first_place(cids: &[u16], cid: u16) -> Option<usize>
    ensures value { result ≡ position (λ one. one == cid) cids.now }
{
    cids.iter().position(|one| *one == cid)
}

// The same, by runs up to the one that it is in.
fn place_of(cids: &[u16], cid: u16) -> Option<usize>
    ensures value { result ≡ position (λ one. one == cid) cids.now }
{
    let from = others_before(cids, cid);
    match first_place(&cids[from..], cid) {
        Some(place) => Some(from + place),
        None => None,
    }
}
