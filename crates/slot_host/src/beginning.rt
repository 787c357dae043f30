//! Beginning a slot host's calls.

ghost use Rattle.std.specs.Prelude.{◌≡◌, ◌<◌, Some, slice_get, slice_set, vec_len};
ghost use Rattle.slot_host.specs.Begins.{BeginTold, is_held, is_hold, is_no_dead_name, is_under_way, or_bar};
ghost use Rattle.slot_host.specs.Begins.{ReleaseTold, claim_back, slot_back, slot_bar, took_over_by};
ghost use Rattle.slot_host.specs.declared.under_way.UnderWay.TheVariants as calls;

use crate::hold::Hold;
use crate::not_begun::NotBegun;
use crate::slot_host::SlotHost;
use crate::under_way::UnderWay;
use driver_cas::{Fault, Port};
use nvme_model::Name;
use slot_alloc::{Claim, Claiming, KeptClaim, Releasing};
use slot_takeover::{
    HeldSlot, KeptSlot, ReadingHolder, TakingOver, give_back, read_holder, take_over,
};
use std::mem;
use std::snapshot::Snapshot;

// Whether a call is under way.
fn is_begun<P: Port>(under_way: &UnderWay<P>) -> bool
    ensures { result ≡ is_under_way under_way.now }
{
    match under_way {
        UnderWay::Nothing => false,
        UnderWay::Claim(_) | UnderWay::Release(_) | UnderWay::Takeover(_) | UnderWay::Holder(_) =>
            true,
    }
}

// Whether the host has the slot.
fn is_had(hold: &Hold) -> bool
    ensures { result ≡ is_hold hold.now }
{
    match hold {
        Hold::Nothing => false,
        Hold::Claimed(_) | Hold::TakenOver(_) => true,
    }
}

/// Whether the host has this slot, if it is one.
pub(crate) fn is_had_at(holds: &[Hold], slot: u32) -> bool
    ensures { result ≡ is_held (slice_get holds.now slot) }
{
    if slot as usize >= holds.len() {
        return false;
    }
    is_had(&holds[slot as usize])
}

// Why no call about the slot is begun: one is under way, or there is no such slot.
fn bar<P: Port>(under_way: &UnderWay<P>, holds: &[Hold], slot: u32) -> Option<NotBegun>
    ensures { result ≡ slot_bar under_way.now holds.now slot }
{
    if is_begun(under_way) {
        return Some(NotBegun::InCall);
    }
    if (slot as usize) < holds.len() {
        return None;
    }
    Some(NotBegun::NoSlot)
}

// That, or else this.
fn or(bar: Option<NotBegun>, bars: bool, why: NotBegun) -> Option<NotBegun>
    ensures { result ≡ or_bar bar bars why }
{
    match bar {
        Some(told) => Some(told),
        None => { if bars { Some(why) } else { None } }
    }
}

// Whether a name is none of a dead host.
fn is_bad(host: u32, name: Name) -> bool
    ensures { result ≡ is_no_dead_name host name }
{
    name.host == 0 || name.serial == 0 || name.host == host
}

/// Puts a hold at a slot, and hands out the one that was there.
pub(crate) fn put_at(holds: &mut Vec<Hold>, slot: u32, hold: Hold) -> Hold
    requires { slot < vec_len holds.old }
    ensures was { slice_get holds.old.items slot ≡ Some result }
    ensures now { holds.new.items ≡ slice_set holds.old.items slot hold }
{
    mem::replace(&mut holds[slot as usize], hold)
}

fn keep_claim<P: Port>(
    under_way: &mut UnderWay<P>,
    begun: Result<Claiming<P>, Fault>,
) -> Result<(), NotBegun>
    requires { under_way.old ≡ calls.Nothing }
    ensures { BeginTold calls.Claim begun result under_way.new }
{
    match begun {
        Ok(claiming) => {
            *under_way = UnderWay::Claim(claiming);
            Ok(())
        }
        Err(fault) => Err(NotBegun::Fault(fault)),
    }
}

// A takeover that is begun is borne in mind.
fn bear_in_mind<P: Port>(took_over: &mut Snapshot<bool>, begun: &Result<TakingOver<P>, Fault>)
    ensures { took_over.new.value ≡ took_over_by took_over.old.value begun.now }
{
    match begun {
        Ok(_) => *took_over = Snapshot::of(&true),
        Err(_) => {}
    }
}

fn keep_takeover<P: Port>(
    under_way: &mut UnderWay<P>,
    begun: Result<TakingOver<P>, Fault>,
) -> Result<(), NotBegun>
    requires { under_way.old ≡ calls.Nothing }
    ensures { BeginTold calls.Takeover begun result under_way.new }
{
    match begun {
        Ok(taking) => {
            *under_way = UnderWay::Takeover(taking);
            Ok(())
        }
        Err(fault) => Err(NotBegun::Fault(fault)),
    }
}

fn keep_holder<P: Port>(
    under_way: &mut UnderWay<P>,
    begun: Result<ReadingHolder<P>, Fault>,
) -> Result<(), NotBegun>
    requires { under_way.old ≡ calls.Nothing }
    ensures { BeginTold calls.Holder begun result under_way.new }
{
    match begun {
        Ok(reading) => {
            *under_way = UnderWay::Holder(reading);
            Ok(())
        }
        Err(fault) => Err(NotBegun::Fault(fault)),
    }
}

// A release was begun, or its claim goes back to its place.
fn keep_release<P: Port>(
    under_way: &mut UnderWay<P>,
    holds: &mut Vec<Hold>,
    slot: u32,
    begun: Result<Releasing<P>, (Claim, Fault)>,
) -> Result<(), NotBegun>
    requires idle { under_way.old ≡ calls.Nothing }
    requires slot { slot < vec_len holds.old }
    ensures told { ReleaseTold calls.Release begun result under_way.new }
    ensures holds { holds.new.items ≡ claim_back holds.old.items slot begun }
{
    match begun {
        Ok(releasing) => {
            *under_way = UnderWay::Release(releasing);
            Ok(())
        }
        Err((claim, fault)) => {
            drop(put_at(holds, slot, Hold::Claimed(KeptClaim { claim })));
            Err(NotBegun::Fault(fault))
        }
    }
}

// The same of a slot that was taken over.
fn keep_give_back<P: Port>(
    under_way: &mut UnderWay<P>,
    holds: &mut Vec<Hold>,
    slot: u32,
    begun: Result<Releasing<P>, (HeldSlot, Fault)>,
) -> Result<(), NotBegun>
    requires idle { under_way.old ≡ calls.Nothing }
    requires slot { slot < vec_len holds.old }
    ensures told { ReleaseTold calls.Release begun result under_way.new }
    ensures holds { holds.new.items ≡ slot_back holds.old.items slot begun }
{
    match begun {
        Ok(releasing) => {
            *under_way = UnderWay::Release(releasing);
            Ok(())
        }
        Err((held, fault)) => {
            drop(put_at(holds, slot, Hold::TakenOver(KeptSlot { held })));
            Err(NotBegun::Fault(fault))
        }
    }
}

impl<P: Port> SlotHost<P> {
    ghost use Rattle.std.specs.Prelude.{None, true};
    ghost use Rattle.slot_host.specs.declared.hold.Hold.TheVariants as holds;
    ghost use Rattle.slot_alloc.specs.declared.claim.KeptClaim.{KeptClaim as TheKeptClaim};
    ghost use Rattle.slot_takeover.specs.declared.held.KeptSlot.{KeptSlot as TheKeptSlot};
    ghost use Rattle.slot_alloc.specs.Claims.{IsHeldBy};
    ghost use Rattle.slot_alloc.specs.Areas.{slot_of};
    ghost use Rattle.slot_takeover.specs.Takeovers.{HoldsTaken, slot_held};
    ghost use Rattle.slot_host.specs.Begins.{ClaimBegins, ClaimTells, GiveBackBegins, HolderBegins, HolderTells};
    ghost use Rattle.slot_host.specs.Begins.{ReleaseBegins, ReleaseTells, TakeoverBegins, TakeoverTells};
    ghost use Rattle.slot_host.specs.Begins.{AnyClaimBegins, AnyClaimTells, GiveBackEnds, ReleaseEnds};
    ghost use Rattle.slot_host.specs.Begins.{any_bar, claim_bar, release_bar, takeover_bar};
    ghost use Rattle.slot_host.specs.SlotHosts.{IsKept, slot_state};
    ghost use Rattle.slot_host.specs.SlotStates.{IsEmptied};

    // Why no claim of the slot is begun.
    fn claim_bar(&self, slot: u32) -> Option<NotBegun>
        ensures { result ≡ claim_bar (slot_state self.now) slot }
    {
        let bar = bar(&self.under_way, self.holds.as_slice(), slot);
        let had = is_had_at(self.holds.as_slice(), slot);
        or(bar, had, NotBegun::Held)
    }

    // Why no claim of any slot is begun.
    fn any_bar(&self) -> Option<NotBegun>
        ensures { result ≡ any_bar (slot_state self.now) }
    {
        let under_way = is_begun(&self.under_way);
        or(None, under_way, NotBegun::InCall)
    }

    // Why no release of the slot is begun.
    fn release_bar(&self, slot: u32) -> Option<NotBegun>
        ensures { result ≡ release_bar (slot_state self.now) slot }
    {
        let bar = bar(&self.under_way, self.holds.as_slice(), slot);
        let had = is_had_at(self.holds.as_slice(), slot);
        or(bar, !had, NotBegun::NotHeld)
    }

    // Why no takeover of the slot from this name is begun.
    fn takeover_bar(&self, slot: u32, dead: Name) -> Option<NotBegun>
        requires kept { IsKept self.now }
        ensures value { result ≡ takeover_bar (slot_state self.now) slot dead }
    {
        let bar = bar(&self.under_way, self.holds.as_slice(), slot);
        let had = is_had_at(self.holds.as_slice(), slot);
        let bad = is_bad(self.number, dead);
        or(or(bar, had, NotBegun::Held), bad, NotBegun::BadName)
    }

    /// Begins to claim a slot.
    ///
    /// # Errors
    ///
    /// The first that holds: `InCall`, `NoSlot`, `Held`, or the fault of `Slots::claim`; nothing was published.
    pub fn claim(&mut self, slot: u32) -> Result<(), NotBegun>
        requires kept { IsKept self.old }
        ensures kept { IsKept self.new }
        ensures tells { ClaimTells (slot_state self.old) (slot_state self.new) slot result }
    {
        match self.claim_bar(slot) {
            Some(told) => Err(told),
            None => self.begin_claim(slot),
        }
    }

    fn begin_claim(&mut self, slot: u32) -> Result<(), NotBegun>
        requires kept { IsKept self.old }
        requires open { claim_bar (slot_state self.old) slot ≡ None }
        ensures kept { IsKept self.new }
        ensures begins { ClaimBegins (slot_state self.old) (slot_state self.new) slot result }
    {
        let begun = self.slots.claim(&mut self.driver, slot);
        keep_claim(&mut self.under_way, begun)
    }

    /// Begins to claim the first slot that nobody has: slot 0, and by a poll each further one, once it is answered that
    /// the one before is somebody's.
    ///
    /// # Errors
    ///
    /// `InCall`, or the fault of `Slots::claim_any`; nothing was published.
    pub fn claim_any(&mut self) -> Result<(), NotBegun>
        requires kept { IsKept self.old }
        ensures kept { IsKept self.new }
        ensures tells { AnyClaimTells (slot_state self.old) (slot_state self.new) result }
    {
        match self.any_bar() {
            Some(told) => Err(told),
            None => self.begin_claim_any(),
        }
    }

    fn begin_claim_any(&mut self) -> Result<(), NotBegun>
        requires kept { IsKept self.old }
        requires open { any_bar (slot_state self.old) ≡ None }
        ensures kept { IsKept self.new }
        ensures begins { AnyClaimBegins (slot_state self.old) (slot_state self.new) result }
    {
        let begun = self.slots.claim_any(&mut self.driver);
        keep_claim(&mut self.under_way, begun)
    }

    /// Begins to release a slot that the host has, by a claim or by a takeover.
    ///
    /// # Errors
    ///
    /// The first that holds: `InCall`, `NoSlot`, `NotHeld`, or the fault of `Slots::release`; nothing was published,
    /// and the host has the slot.
    pub fn release(&mut self, slot: u32) -> Result<(), NotBegun>
        requires kept { IsKept self.old }
        ensures kept { IsKept self.new }
        ensures tells { ReleaseTells (slot_state self.old) (slot_state self.new) slot result }
    {
        match self.release_bar(slot) {
            Some(told) => Err(told),
            None => self.begin_release(slot),
        }
    }

    fn begin_release(&mut self, slot: u32) -> Result<(), NotBegun>
        requires kept { IsKept self.old }
        requires open { release_bar (slot_state self.old) slot ≡ None }
        ensures kept { IsKept self.new }
        ensures claimed { (k : TheKeptClaim) → slice_get (slot_state self.old).holds slot ≡ Some (holds.Claimed k) →
            ReleaseBegins (slot_state self.old) (slot_state self.new) slot k.claim result }
        ensures taken { (k : TheKeptSlot) → slice_get (slot_state self.old).holds slot ≡ Some (holds.TakenOver k) →
            GiveBackBegins (slot_state self.old) (slot_state self.new) slot k.held result }
    {
        match put_at(&mut self.holds, slot, Hold::Nothing) {
            // `release` has answered for a slot that the host hasn't.
            Hold::Nothing => unreachable!(),
            Hold::Claimed(kept) => self.release_claim(slot, kept.into_claim()),
            Hold::TakenOver(kept) => self.give_back(slot, kept.into_held()),
        }
    }

    // Releases a claim that was taken out of its place.
    fn release_claim(&mut self, slot: u32, claim: Claim) -> Result<(), NotBegun>
        requires kept { IsKept self.old }
        requires idle { IsEmptied (slot_state self.old) slot }
        requires held { (slot_of claim ≡ slot) × IsHeldBy (slot_state self.old).driver claim }
        ensures kept { IsKept self.new }
        ensures ends { ReleaseEnds (slot_state self.old) (slot_state self.new) slot claim result }
    {
        let begun = self.slots.release(&mut self.driver, claim);
        keep_release(&mut self.under_way, &mut self.holds, slot, begun)
    }

    // Gives a slot back that was taken over, and taken out of its place.
    fn give_back(&mut self, slot: u32, held: HeldSlot) -> Result<(), NotBegun>
        requires kept { IsKept self.old }
        requires idle { IsEmptied (slot_state self.old) slot }
        requires held { (slot_held held ≡ slot) × ((slot_state self.old).took_over ≡ true)
            × HoldsTaken (slot_state self.old).driver held }
        ensures kept { IsKept self.new }
        ensures ends { GiveBackEnds (slot_state self.old) (slot_state self.new) slot held result }
    {
        let begun = give_back(&self.slots, &mut self.driver, held);
        keep_give_back(&mut self.under_way, &mut self.holds, slot, begun)
    }

    /// Begins to take a slot over from the name of a dead host. That the dead host is fenced is for the caller to see.
    ///
    /// # Errors
    ///
    /// The first that holds: `InCall`, `NoSlot`, `Held`, `BadName`, or the fault of `take_over`; nothing was published.
    pub fn take_over(&mut self, slot: u32, dead: Name) -> Result<(), NotBegun>
        requires kept { IsKept self.old }
        ensures kept { IsKept self.new }
        ensures tells { TakeoverTells (slot_state self.old) (slot_state self.new) slot dead result }
    {
        match self.takeover_bar(slot, dead) {
            Some(told) => Err(told),
            None => self.begin_takeover(slot, dead),
        }
    }

    fn begin_takeover(&mut self, slot: u32, dead: Name) -> Result<(), NotBegun>
        requires kept { IsKept self.old }
        requires open { takeover_bar (slot_state self.old) slot dead ≡ None }
        ensures kept { IsKept self.new }
        ensures begins { TakeoverBegins (slot_state self.old) (slot_state self.new) slot dead result }
    {
        let begun = take_over(&self.slots, &mut self.driver, slot, dead);
        bear_in_mind(&mut self.took_over, &begun);
        keep_takeover(&mut self.under_way, begun)
    }

    /// Begins to ask who holds a slot.
    ///
    /// # Errors
    ///
    /// The first that holds: `InCall`, `NoSlot`, or the fault of `read_holder`; nothing was published.
    pub fn ask_holder(&mut self, slot: u32) -> Result<(), NotBegun>
        requires kept { IsKept self.old }
        ensures kept { IsKept self.new }
        ensures tells { HolderTells (slot_state self.old) (slot_state self.new) slot result }
    {
        match bar(&self.under_way, self.holds.as_slice(), slot) {
            Some(told) => Err(told),
            None => self.begin_holder(slot),
        }
    }

    fn begin_holder(&mut self, slot: u32) -> Result<(), NotBegun>
        requires kept { IsKept self.old }
        requires open { slot_bar (slot_state self.old).under_way (slot_state self.old).holds slot ≡ None }
        ensures kept { IsKept self.new }
        ensures begins { HolderBegins (slot_state self.old) (slot_state self.new) slot result }
    {
        let begun = read_holder(&self.slots, &mut self.driver, slot);
        keep_holder(&mut self.under_way, begun)
    }
}
