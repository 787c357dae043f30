//! Serving a host that claims slots, and reading a block.

ghost use Rattle.std.specs.Prelude.{◌<◌, IfSome};
ghost use Rattle.driver_cas.specs.Drivers.{IsCallOf};
ghost use Rattle.driver_cas.specs.Starts.{IsUntouched};
ghost use Rattle.shared_system.specs.Plain.{IsPlainCallerOf};
ghost use Rattle.driver_testing.specs.Calls.{KeepsCalls};
ghost use Rattle.slot_alloc.specs.Areas.{area};
ghost use Rattle.driver_testing.specs.Claimants.{IsClaimant, IsClaimantReady};

use crate::ask::{AnswerWords, Ask, begins, hears, polled};
use crate::claimant::{Came, Claimant, ClaimantStage, asks, begun_stays, gives_back, polls_begun};
use crate::host::TestHost;
use crate::serve::serves;
use driver_cas::{Call, Poll, Reply, SharedPort};
use shared_system::{PlainCaller, PlainSystem};
use slot_alloc::Slots;
use std::snapshot::Snapshot;
use std::sync::Wait;

/// A block.
pub type Contents = [u8; 512];

/// The host learns all notices that are there.
pub fn hears_all<R: Wait>(rt: &R, system: &PlainSystem, slots: &Slots, claimant: &mut Claimant<'_>)
    requires { IsClaimant system.now slots.now claimant.old }
    ensures claimant { IsClaimant system.now slots.now claimant.new }
    ensures calls { KeepsCalls claimant.old.host claimant.new.host }
{
    let before = Snapshot::of(&claimant.host.driver);
    listens(rt, system, slots, &mut claimant.host);
    begun_stays(&before, &claimant.host);
}

/// What is in the host's submission queue is served, and it hears of each completion; whether nothing was refused.
pub fn is_served<R: Wait>(
    rt: &R,
    system: &PlainSystem,
    server: &mut PlainCaller,
    slots: &Slots,
    claimant: &mut Claimant<'_>,
) -> bool
    requires server { IsPlainCallerOf system.now server.old }
    requires claimant { IsClaimant system.now slots.now claimant.old }
    ensures server { IsPlainCallerOf system.now server.new }
    ensures claimant { IsClaimant system.now slots.now claimant.new }
{
    let done = serves(rt, system, server, claimant.queue);
    hears_all(rt, system, slots, claimant);
    done
}

// They meet; whether no other caller had the controller.
fn met(
    _system: &PlainSystem,
    _slots: &Slots,
    one: &mut TestHost<'_>,
    two: &mut TestHost<'_>,
) -> bool
    requires one { IsClaimantReady _system.now _slots.now one.old }
    requires two { IsClaimantReady _system.now _slots.now two.old }
    ensures one { IsClaimantReady _system.now _slots.now one.new }
    ensures two { IsClaimantReady _system.now _slots.now two.new }
    ensures first { KeepsCalls one.old one.new × IsUntouched one.old.driver one.new.driver }
    ensures second { KeepsCalls two.old two.new × IsUntouched two.old.driver two.new.driver }
{
    one.driver.meet(&mut two.driver).is_ok()
}

/// Both hosts have seen the whole history so far; false where another caller had the controller.
pub fn meets(
    system: &PlainSystem,
    slots: &Slots,
    one: &mut Claimant<'_>,
    two: &mut Claimant<'_>,
) -> bool
    requires one { IsClaimant system.now slots.now one.old }
    requires two { IsClaimant system.now slots.now two.old }
    ensures one { IsClaimant system.now slots.now one.new }
    ensures two { IsClaimant system.now slots.now two.new }
{
    let first = Snapshot::of(&one.host.driver);
    let second = Snapshot::of(&two.host.driver);
    let met = met(system, slots, &mut one.host, &mut two.host);
    begun_stays(&first, &one.host);
    begun_stays(&second, &two.host);
    met
}

// The host and a server meet; whether no other caller had the controller.
fn met_server(
    _system: &PlainSystem,
    _slots: &Slots,
    host: &mut TestHost<'_>,
    server: &mut PlainCaller,
) -> bool
    requires host { IsClaimantReady _system.now _slots.now host.old }
    requires server { IsPlainCallerOf _system.now server.old }
    ensures host { IsClaimantReady _system.now _slots.now host.new }
    ensures untouched { IsUntouched host.old.driver host.new.driver }
    ensures server { IsPlainCallerOf _system.now server.new }
{
    host.driver.meet_pass(&mut server.pass).is_ok()
}

/// The host and a server have seen the whole history so far; false where another caller had the controller.
pub fn meets_server(
    system: &PlainSystem,
    slots: &Slots,
    claimant: &mut Claimant<'_>,
    server: &mut PlainCaller,
) -> bool
    requires claimant { IsClaimant system.now slots.now claimant.old }
    requires server { IsPlainCallerOf system.now server.old }
    ensures claimant { IsClaimant system.now slots.now claimant.new }
    ensures server { IsPlainCallerOf system.now server.new }
{
    let before = Snapshot::of(&claimant.host.driver);
    let met = met_server(system, slots, &mut claimant.host, server);
    begun_stays(&before, &claimant.host);
    met
}

/// What comes in the end of what is begun, each time served and polled, at most so many times.
pub fn answered<R: Wait>(
    rt: &R,
    system: &PlainSystem,
    server: &mut PlainCaller,
    slots: &Slots,
    claimant: &mut Claimant<'_>,
    most: u32,
) -> Came
    requires server { IsPlainCallerOf system.now server.old }
    requires claimant { IsClaimant system.now slots.now claimant.old }
    ensures server { IsPlainCallerOf system.now server.new }
    ensures claimant { IsClaimant system.now slots.now claimant.new }
{
    for _ in 0..most {
        is_served(rt, system, server, slots, claimant);
        let came = polls_begun(system, slots, claimant);
        if came != Came::Pending {
            return came;
        }
    }
    Came::Pending
}

/// What comes of a claim of this slot, or of any: it is begun, served and polled until it is answered.
pub fn claims<R: Wait>(
    rt: &R,
    system: &PlainSystem,
    server: &mut PlainCaller,
    slots: &Slots,
    claimant: &mut Claimant<'_>,
    slot: Option<u32>,
) -> Came
    requires server { IsPlainCallerOf system.now server.old }
    requires claimant { IsClaimant system.now slots.now claimant.old }
    requires slot { IfSome slot (λ i. i < (area slots.now).blocks) }
    ensures server { IsPlainCallerOf system.now server.new }
    ensures claimant { IsClaimant system.now slots.now claimant.new }
{
    match asks(system, slots, claimant, slot) {
        Came::Begun => answered(rt, system, server, slots, claimant, 8),
        came => came,
    }
}

/// What comes of the release of the slot that is held.
pub fn releases<R: Wait>(
    rt: &R,
    system: &PlainSystem,
    server: &mut PlainCaller,
    slots: &Slots,
    claimant: &mut Claimant<'_>,
) -> Came
    requires server { IsPlainCallerOf system.now server.old }
    requires claimant { IsClaimant system.now slots.now claimant.old }
    ensures server { IsPlainCallerOf system.now server.new }
    ensures claimant { IsClaimant system.now slots.now claimant.new }
{
    match gives_back(system, slots, claimant) {
        Came::Begun => answered(rt, system, server, slots, claimant, 8),
        came => came,
    }
}

// The bytes of a Read of one block.
fn contents_of(reply: &Reply) -> Option<Contents> {
    let Reply::Read(payload) = reply else {
        return None;
    };
    let bytes = payload.as_slice();
    if bytes.len() != 512 {
        return None;
    }
    let mut contents = [0; 512];
    contents.copy_from_slice(bytes);
    Some(contents)
}

/// Begins a call of the host's driver; None where it isn't begun.
pub fn begins_call<'a>(
    _system: &PlainSystem,
    _slots: &Slots,
    host: &mut TestHost<'a>,
    ask: Ask,
) -> Option<Call<SharedPort<'a>>>
    requires { IsClaimantReady _system.now _slots.now host.old }
    ensures ready { IsClaimantReady _system.now _slots.now host.new }
    ensures call { IfSome result (λ k. IsCallOf host.new.driver k) }
{
    begins(&mut host.driver, ask).ok()
}

/// Polls a call of the host's driver once.
pub fn polls_call<'a>(
    _system: &PlainSystem,
    _slots: &Slots,
    host: &mut TestHost<'a>,
    call: Call<SharedPort<'a>>,
) -> (AnswerWords, Option<Call<SharedPort<'a>>>)
    requires ready { IsClaimantReady _system.now _slots.now host.old }
    requires call { IsCallOf host.old.driver call }
    ensures ready { IsClaimantReady _system.now _slots.now host.new }
    ensures back { IfSome result.1 (λ k. IsCallOf host.new.driver k) }
{
    polled(&mut host.driver, call)
}

// The bytes that were read, where the first completion that is reaped is that of the Read.
fn polled_read<'a>(
    _system: &PlainSystem,
    _slots: &Slots,
    host: &mut TestHost<'a>,
    call: Call<SharedPort<'a>>,
) -> Option<Contents>
    requires ready { IsClaimantReady _system.now _slots.now host.old }
    requires call { IsCallOf host.old.driver call }
    ensures { IsClaimantReady _system.now _slots.now host.new }
{
    match host.driver.poll(call) {
        Poll::Done(reply) => contents_of(&reply),
        Poll::Pending(_) | Poll::Later(..) | Poll::Failed(_) => None,
    }
}

// Learns all notices that are there.
fn listens<'a, R: Wait>(rt: &R, system: &PlainSystem, _slots: &Slots, host: &mut TestHost<'a>)
    requires { IsClaimantReady system.now _slots.now host.old }
    ensures ready { IsClaimantReady system.now _slots.now host.new }
    ensures calls { KeepsCalls host.old host.new }
    ensures untouched { IsUntouched host.old.driver host.new.driver }
{
    hears(rt, system, host);
}

/// The bytes of a block, by a Read that is served; None where it isn't answered by success. What the host had begun is
/// dropped.
pub fn reads<R: Wait>(
    rt: &R,
    system: &PlainSystem,
    server: &mut PlainCaller,
    slots: &Slots,
    claimant: &mut Claimant<'_>,
    lba: u64,
) -> Option<Contents>
    requires server { IsPlainCallerOf system.now server.old }
    requires claimant { IsClaimant system.now slots.now claimant.old }
    ensures server { IsPlainCallerOf system.now server.new }
    ensures claimant { IsClaimant system.now slots.now claimant.new }
{
    claimant.stage = ClaimantStage::Idle;
    let call = begins_call(system, slots, &mut claimant.host, Ask::Read(lba, 1))?;
    serves(rt, system, server, claimant.queue);
    listens(rt, system, slots, &mut claimant.host);
    polled_read(system, slots, &mut claimant.host, call)
}
