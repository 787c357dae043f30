//! Who believes that it holds a slot.

ghost use Rattle.std.specs.Prelude.{◌≡◌, ◌<◌, IfSome, OnOk, length};
ghost use Rattle.picture_shapes.specs.Beliefs.{belief_place, beliefs_reaped, beliefs_released, ended_at, is_of};
ghost use Rattle.picture_shapes.specs.Beliefs.{no_beliefs};

use crate::lane_entry::SlotName;
use std::alloc::{AllocError as NoMemory, Global};
use std::marker::Model;

/// That somebody believes that it holds a slot, from the Reap of its claim's success to the Publish of its release,
/// where that was.
#[derive(Clone, Copy, Debug, PartialEq, Eq)]
pub struct Belief {
    pub slot: SlotName,
    pub begun: u64,
    pub ended: Option<u64>,
}

/// Those who believe that they hold a slot, and those who believed it.
#[derive(Drop)]
pub struct Beliefs {
    lasting: Vec<Belief>,
    done: Vec<Belief>,
}

impl Model for Beliefs {
    ghost use Rattle.picture_shapes.specs.Beliefs.{BeliefsState};

    ghost Value = { BeliefsState };

    ghost view = { λ s. record { lasting = s.lasting.items; done = s.done.items } };
}

// Whether a belief is of this slot and this name.
fn is_of(slot: SlotName, belief: Belief) -> bool
    ensures value { result ≡ is_of slot belief }
{
    belief.slot.lba == slot.lba
        && belief.slot.name.host == slot.name.host
        && belief.slot.name.serial == slot.name.serial
}

// Where the belief of this slot and this name is.
fn belief_place(lasting: &[Belief], slot: SlotName) -> Option<usize>
    ensures value { result ≡ belief_place slot lasting.now }
    ensures bound { IfSome result (λ i. i < length lasting.now) }
{
    lasting.iter().position(|one| is_of(slot, *one))
}

impl Beliefs {
    /// Nobody.
    pub(crate) fn new(alloc: Global) -> Beliefs
        ensures none { result ≡ no_beliefs }
    {
        Beliefs {
            lasting: Vec::new(alloc),
            done: Vec::new(alloc),
        }
    }

    /// A Reap tells of the success of this claim.
    pub(crate) fn begin(&mut self, place: u64, claim: Option<SlotName>) -> Result<(), NoMemory>
        ensures value { OnOk result (self.new ≡ beliefs_reaped place claim self.old) }
    {
        if let Some(slot) = claim {
            self.lasting.push(Belief {
                slot,
                begun: place,
                ended: None,
            })?;
        }
        Ok(())
    }

    // The belief of this slot and this name ends.
    fn end_one(&mut self, from: u64, place: u64, slot: SlotName) -> Result<(), NoMemory>
        ensures value { OnOk result
            (self.new ≡ ended_at from place self.old (belief_place slot self.old.lasting)) }
    {
        let Some(i) = belief_place(self.lasting.as_slice(), slot) else {
            return Ok(());
        };
        let belief = self.lasting.remove(i);
        if from <= place {
            self.done.push(Belief {
                ended: Some(place),
                ..belief
            })?;
        }
        Ok(())
    }

    /// This release is published.
    pub(crate) fn end(
        &mut self,
        from: u64,
        place: u64,
        release: Option<SlotName>,
    ) -> Result<(), NoMemory>
        ensures value { OnOk result (self.new ≡ beliefs_released from place release self.old) }
    {
        match release {
            Some(slot) => self.end_one(from, place, slot),
            None => Ok(()),
        }
    }

    /// Those who believe it still.
    pub fn lasting(&self) -> &[Belief]
        ensures { result.now ≡ self.now.lasting }
    {
        self.lasting.as_slice()
    }

    /// Those who believed it, up to a step that is drawn.
    pub fn done(&self) -> &[Belief]
        ensures { result.now ≡ self.now.done }
    {
        self.done.as_slice()
    }
}
