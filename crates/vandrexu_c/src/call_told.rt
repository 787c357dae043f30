//! What is told of a call by its number.

ghost use Rattle.std.specs.Prelude.{◌≡◌};
ghost use Rattle.vandrexu_c.specs.Calls.{NumberTold, number_given_up, polled_number, polled_read, polled_reply};

use crate::host_reply::{HostReply, PENDING, failed_in, kind_in, plain};
use crate::numbers::NO_CALL;
use c_handles::numbers::NO_MEMORY;
use remote_host::{Fault, NotGivenUp, Polled, Reply};

/// The number of a start call that was answered so, and where it was started the number of the call.
pub(crate) fn number_told(started: Result<u32, Fault>, call: &mut u32) -> u32
    ensures { NumberTold started result call.old call.new }
{
    match started {
        Ok(number) => {
            *call = number;
            0
        }
        Err(fault) => u32::from(fault.number()),
    }
}

// The number of a poll.
fn number_in(polled: &Option<Polled>) -> u32
    ensures { result ≡ polled_number polled.now }
{
    match polled {
        None => NO_CALL,
        Some(Polled::Pending | Polled::Done(_)) => 0,
        Some(Polled::Later(fault) | Polled::Failed(fault)) => u32::from(fault.number()),
    }
}

// What it tells.
fn reply_in(polled: &Option<Polled>) -> HostReply
    ensures { result ≡ polled_reply polled.now }
{
    match polled {
        None | Some(Polled::Pending | Polled::Later(_)) => plain(PENDING),
        Some(Polled::Done(reply)) => plain(kind_in(reply)),
        Some(Polled::Failed(fault)) => failed_in(*fault),
    }
}

// Keeps what was read, if something was.
fn keep_read(last: &mut Vec<u8>, polled: Option<Polled>)
    ensures { last.new.items ≡ polled_read polled last.old.items }
{
    if let Some(Polled::Done(Reply::Read(payload))) = polled {
        *last = payload.into_vec();
    }
}

/// The number of a poll and what it tells; what was read is kept.
pub(crate) fn polled_told(last: &mut Vec<u8>, polled: Option<Polled>) -> (u32, HostReply)
    ensures number { result.0 ≡ polled_number polled }
    ensures reply { result.1 ≡ polled_reply polled }
    ensures read { last.new.items ≡ polled_read polled last.old.items }
{
    let told = (number_in(&polled), reply_in(&polled));
    keep_read(last, polled);
    told
}

/// The number of giving a call up.
pub(crate) fn given_up_number(given_up: Result<(), NotGivenUp>) -> u32
    ensures { result ≡ number_given_up given_up }
{
    match given_up {
        Ok(()) => 0,
        Err(NotGivenUp::NoCall) => NO_CALL,
        Err(NotGivenUp::NoMemory) => NO_MEMORY,
    }
}
