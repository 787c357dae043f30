//! Takeovers of slots, and those of a batch.

ghost use Rattle.std.specs.Prelude.{OnOk, map, ◌++◌, ◌+◌, ◌<◌, ◌^◌, ◌≡◌};
ghost use Rattle.std.specs.Option.{option_to_list};
ghost use Rattle.host_laws.specs.Takeovers.{giving, takeover_by, takeover_of};

use crate::batch::is_pair_on_one;
use crate::swap::Swap;
use entry_codec::decode_sqe;
use nvme_model::submission::Submission;
use nvme_model::{Name, name_of};
use std::alloc::AllocError as NoMemory;
use std::marker::Model;

/// A takeover: the name that it takes the slot from, and what gives the slot to its own name, as a claim does.
#[derive(Clone, Copy, Debug, Drop, PartialEq, Eq)]
pub struct Takeover {
    dead: Name,
    given: Swap,
}

impl Model for Takeover {
    ghost use Rattle.std.specs.Prelude.{true, ◌≡◌};
    ghost use Rattle.std.proofs.Common.{sym};
    ghost use Rattle.host_laws.specs.Takeovers as takeovers;

    ghost Value = { takeovers.Takeover };

    ghost view = { λ w. record {
      queue = w.given.queue;
      number = w.given.number;
      lba = w.given.lba;
      dead = w.dead;
      name = w.given.name;
    } };

    ghost invariant = { λ w. w.given.claims ≡ true };

    ghost inverse = { λ w. record { dead = w.dead; given = takeovers.giving w } };

    ghost inverse_ok = { λ w h i. record { dead = w.dead; given = record w.given { claims = sym h i } } };
}

impl Takeover {
    pub fn queue(&self) -> u16
        ensures value { result ≡ self.now.queue }
    {
        self.given.queue()
    }

    /// The number of its first entry.
    pub fn number(&self) -> u64
        ensures value { result ≡ self.now.number }
    {
        self.given.number()
    }

    pub fn lba(&self) -> u64
        ensures value { result ≡ self.now.lba }
    {
        self.given.lba()
    }

    /// The name that it takes the slot from.
    pub fn dead(&self) -> Name
        ensures value { result ≡ self.now.dead }
    {
        self.dead
    }

    /// It as what gives the slot to its own name.
    pub fn giving(&self) -> Swap
        ensures value { result ≡ giving self.now }
    {
        self.given
    }
}

// The takeover from the one name to the other, if both are there and their hosts are apart.
fn takeover_by(
    queue: u16,
    number: u64,
    lba: u64,
    dead: Option<Name>,
    name: Option<Name>,
) -> Option<Takeover>
    requires room { number + 1 < 2 ^ 64 }
    ensures value { option_to_list result ≡ takeover_by queue number lba dead name }
{
    let dead = dead?;
    let name = name?;
    if dead.host == name.host {
        return None;
    }
    Some(Takeover {
        dead,
        given: Swap::new(true, queue, number, lba, name),
    })
}

/// The takeover that two entries are, the first of them with this number on this queue.
pub fn takeover_of(queue: u16, number: u64, a: &Submission, b: &Submission) -> Option<Takeover>
    requires room { number + 1 < 2 ^ 64 }
    ensures value { option_to_list result ≡ takeover_of queue number a.now b.now }
{
    if !is_pair_on_one(a, b) {
        return None;
    }
    let lba = decode_sqe(&a.entry).slba();
    let dead = name_of(a.payload.as_slice());
    let name = name_of(b.payload.as_slice());
    takeover_by(queue, number, lba, dead, name)
}

/// Adds what these takeovers give.
///
/// # Errors
///
/// `NoMemory` where a growth is refused; some of them may have been added.
pub fn add_givings(moves: &mut Vec<Swap>, takeovers: &[Takeover]) -> Result<(), NoMemory>
    ensures ok { OnOk result (moves.new.items ≡ moves.old.items ++ map giving takeovers.now) }
{
    for place in 0..takeovers.len() {
        let takeover = takeovers[place];
        moves.push(takeover.giving())?;
    }
    Ok(())
}
