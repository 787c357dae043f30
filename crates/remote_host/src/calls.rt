//! The calls of one driver that are in flight, each under its number.

ghost use Rattle.std.specs.Prelude.{◌≡◌, ◌≤◌, IfNone, IfSome, OnSome};
ghost use Rattle.slab.specs.Slab.{HasRoomFor, SameValues};
ghost use Rattle.remote_host.specs.Calls.{IsKept, IsPutBack, polled_of};

use crate::polled::Polled;
use driver_cas::{Call, Fault, Poll};
use slab::Slab;

/// The number of the next call, with room for it; None where a growth is refused, or no number of 32 bits is left.
pub(crate) fn next_number<P: Drop>(calls: &mut Slab<Call<P>>) -> Option<u32>
    ensures same { SameValues calls.old calls.new }
    ensures room { OnSome result (HasRoomFor calls.new 1) }
    ensures number { IfSome result (λ n. calls.new.vacant_key ≡ n) }
    ensures none { IfNone result (HasRoomFor calls.old 1 → 4294967296 ≤ calls.old.vacant_key) }
{
    if calls.reserve(1).is_err() {
        return None;
    }
    u32::try_from(calls.vacant_key()).ok()
}

/// Keeps a call that was started, under the next number.
///
/// # Errors
///
/// The fault for which it wasn't.
pub(crate) fn keep<P: Drop>(
    calls: &mut Slab<Call<P>>,
    number: u32,
    started: Result<Call<P>, Fault>,
) -> Result<u32, Fault>
    requires room { HasRoomFor calls.old 1 }
    requires number { calls.old.vacant_key ≡ number }
    ensures { IsKept calls.old calls.new started result }
{
    let call = started?;
    let _ = calls.insert_reserved(call);
    Ok(number)
}

/// Tells what a poll told, and puts the call back where it isn't answered, under the number that was used last.
pub(crate) fn put_back<P: Drop>(calls: &mut Slab<Call<P>>, poll: Poll<P>) -> Polled
    requires { HasRoomFor calls.old 1 }
    ensures told { result ≡ polled_of poll }
    ensures back { IsPutBack calls.old calls.new poll }
{
    match poll {
        Poll::Pending(call) => {
            let _ = calls.insert_reserved(call);
            Polled::Pending
        }
        Poll::Later(fault, call) => {
            let _ = calls.insert_reserved(call);
            Polled::Later(fault)
        }
        Poll::Done(reply) => Polled::Done(reply),
        Poll::Failed(fault) => Polled::Failed(fault),
    }
}
