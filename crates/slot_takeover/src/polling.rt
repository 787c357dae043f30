//! Polling a takeover.

ghost use Rattle.std.specs.Prelude.{◌≡◌, ◌≢◌, false, true};
ghost use Rattle.driver_calls.specs.declared.reply.Reply.{Reply};
ghost use Rattle.driver_cas.specs.Drivers.{AsksPort, IsCallOf, SharesNoCid};
ghost use Rattle.driver_cas.specs.declared.call.Call.{Call};
ghost use Rattle.slot_alloc.specs.Progresses.{IsQuiet};
ghost use Rattle.slot_takeover.specs.Polls.{IsTakeoverPolled, later_taking};
ghost use Rattle.slot_takeover.specs.Takeovers.{IsTakingOverOf};

use crate::held::HeldSlot;
use crate::taking::TakingOver;
use driver_cas::{Driver, Fault, Poll, Port, Reply};

/// What polling a takeover gives.
pub enum TakeoverProgress<P> {
    /// It isn't answered.
    Pending(TakingOver<P>),
    /// Nor was a completion reaped, for this cause: `Busy` or `NoMemory`.
    Later(Fault, TakingOver<P>),
    /// The slot is this host's.
    Held(HeldSlot),
    /// The slot's block had another name, or nobody's: it was released, or somebody else took it over first.
    Taken,
    /// The pair was answered with a status that is neither success nor a difference.
    Failed(Fault),
}

// Whether a pair's effect said yes.
fn is_swapped(reply: Reply) -> bool
    ensures yes { result ≡ true → reply ≡ Reply.Swapped }
    ensures no_other { result ≡ false → reply ≢ Reply.Swapped }
{
    match reply {
        Reply::Swapped => true,
        Reply::Read(_) | Reply::Written | Reply::Equal | Reply::Differs => false,
    }
}

/// What has come of a takeover. Reaps at most one completion.
pub fn poll_takeover<P: Port>(driver: &mut Driver<P>, taking: TakingOver<P>) -> TakeoverProgress<P>
    requires of { IsTakingOverOf driver.old taking }
    ensures is { IsTakeoverPolled driver.new taking result }
    ensures quiet { IsQuiet driver.old driver.new }
    ensures later { P.follows driver.old.port driver.new.port }
    ensures asks { AsksPort driver.old driver.new taking.call (later_taking result) }
    ensures others { (other : Call P) →
        IsCallOf driver.old other → SharesNoCid taking.call other → IsCallOf driver.new other }
{
    let TakingOver {
        slot,
        dead,
        serial,
        call,
    } = taking;
    match driver.poll(call) {
        Poll::Pending(call) => TakeoverProgress::Pending(TakingOver {
            slot,
            dead,
            serial,
            call,
        }),
        Poll::Later(fault, call) => TakeoverProgress::Later(
            fault,
            TakingOver {
                slot,
                dead,
                serial,
                call,
            },
        ),
        Poll::Done(reply) => {
            if is_swapped(reply) {
                return TakeoverProgress::Held(HeldSlot { slot, serial });
            }
            TakeoverProgress::Taken
        }
        Poll::Failed(fault) => TakeoverProgress::Failed(fault),
    }
}
