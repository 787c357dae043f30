//! A host's calls.

ghost use Rattle.std.specs.Prelude.{◌≡◌, IfOk, IfSome};
ghost use Rattle.driver_cas.specs.Drivers.{SharesNoCid, IsCallOf, IsSameDriver, port_of};
ghost use Rattle.driver_cas.specs.Driving.{call_given_back};
ghost use Rattle.driver_cas.specs.Starts.{IsUntouched};
ghost use Rattle.driver_cas.specs.declared.call.Call.{Call};
ghost use Rattle.driver_testing.specs.Hosts.{IsTestHost};
ghost use Rattle.driver_testing.specs.Calls.{Begins, IsCallAsked, IsNewCall, KeepsCalls, Polls, StayCalls};
ghost use Rattle.slot_alloc.specs.SlotRules.{KeepsSlotRules};

use crate::host::TestHost;
use driver_cas::laws::{a_start_keeps_the_other_calls, an_untouched_driver_stays_so};
use driver_cas::{Call, Driver, Fault, Poll, Port, Reply, SharedPort};
use shared_system::PlainSystem;
use slot_alloc::laws::other_calls_touch_no_slot;
use std::snapshot::Snapshot;
use std::sync::Wait;

// The most bytes of a call here.
const MOST: usize = 1536;

/// So many bytes, at most `MOST`, all of which are this one.
#[derive(Clone, Copy, Debug)]
pub struct Fill(pub u8, pub usize);

/// A call, with its block and its blocks or data.
#[derive(Clone, Copy, Debug)]
pub enum Ask {
    Read(u64, u32),
    WriteZeroes(u64, u32),
    Write(u64, Fill),
    Compare(u64, Fill),
    CompareAndWrite(u64, Fill, Fill),
}

/// What a call was answered, in words.
#[derive(Clone, Copy, Debug, PartialEq, Eq)]
pub enum AnswerWords {
    /// So many bytes, all of which are this one.
    Read(usize, u8),
    /// Bytes that are not all alike.
    Mixed,
    Written,
    Equal,
    Differs,
    Swapped,
    Failed(u8, u8),
    /// Any other fault.
    Faulty,
    /// Not all of its completions were reaped.
    Pending,
    Later(Fault),
}

fn in_words(reply: &Reply) -> AnswerWords {
    match reply {
        Reply::Read(payload) => {
            let bytes = payload.as_slice();
            let first = bytes.first().copied().unwrap_or(0);
            if bytes.iter().all(|b| *b == first) {
                AnswerWords::Read(bytes.len(), first)
            } else {
                AnswerWords::Mixed
            }
        }
        Reply::Written => AnswerWords::Written,
        Reply::Equal => AnswerWords::Equal,
        Reply::Differs => AnswerWords::Differs,
        Reply::Swapped => AnswerWords::Swapped,
    }
}

fn fault_in_words(fault: Fault) -> AnswerWords {
    match fault {
        Fault::Status(status) => AnswerWords::Failed(status.sct(), status.sc()),
        Fault::Length
        | Fault::TooLong
        | Fault::RingFull
        | Fault::Busy
        | Fault::NoMemory
        | Fault::SlotArea
        | Fault::NoSerial => AnswerWords::Faulty,
    }
}

// A poll in words, and the call where it comes back.
fn poll_in_words<P>(poll: Poll<P>) -> (AnswerWords, Option<Call<P>>)
    ensures { result.1 ≡ call_given_back poll }
{
    match poll {
        Poll::Done(reply) => (in_words(&reply), None),
        Poll::Failed(fault) => (fault_in_words(fault), None),
        Poll::Pending(call) => (AnswerWords::Pending, Some(call)),
        Poll::Later(fault, call) => (AnswerWords::Later(fault), Some(call)),
    }
}

/// Begins a call of a driver: one of its start calls for data.
///
/// # Errors
///
/// What the driver answers.
pub fn asked<P: Port>(driver: &mut Driver<P>, ask: Ask) -> Result<Call<P>, Fault>
    ensures same { IsSameDriver driver.old driver.new }
    ensures later { P.follows (port_of driver.old) (port_of driver.new) }
    ensures asked { IsCallAsked driver.old driver.new result }
{
    match ask {
        Ask::Read(slba, blocks) => driver.start_read(slba, blocks),
        Ask::WriteZeroes(slba, blocks) => driver.start_write_zeroes(slba, blocks),
        Ask::Write(slba, fill) => {
            let bytes = [fill.0; MOST];
            driver.start_write(slba, &bytes[..fill.1.min(MOST)])
        }
        Ask::Compare(slba, fill) => {
            let bytes = [fill.0; MOST];
            driver.start_compare(slba, &bytes[..fill.1.min(MOST)])
        }
        Ask::CompareAndWrite(slba, fill, other) => {
            let expected = [fill.0; MOST];
            let desired = [other.0; MOST];
            driver.start_compare_and_write(
                slba,
                &expected[..fill.1.min(MOST)],
                &desired[..other.1.min(MOST)],
            )
        }
    }
}

/// Begins a call of a driver.
///
/// # Errors
///
/// What the driver answers; its calls stay.
pub fn begins<P: Port>(driver: &mut Driver<P>, ask: Ask) -> Result<Call<P>, Fault>
    ensures same { IsSameDriver driver.old driver.new }
    ensures later { P.follows (port_of driver.old) (port_of driver.new) }
    ensures keeps { StayCalls driver.old driver.new }
    ensures call { IfOk result (IsNewCall driver.old driver.new) }
    ensures slot_rules { KeepsSlotRules driver.old → KeepsSlotRules driver.new }
{
    let before = Snapshot::of(&*driver);
    let begun = asked(driver, ask);
    a_start_keeps_the_other_calls(&before, driver);
    other_calls_touch_no_slot(&before, driver);
    begun
}

/// Polls a call of a driver once.
pub fn polled<P: Port>(driver: &mut Driver<P>, call: Call<P>) -> (AnswerWords, Option<Call<P>>)
    requires { IsCallOf driver.old call }
    ensures same { IsSameDriver driver.old driver.new }
    ensures later { P.follows (port_of driver.old) (port_of driver.new) }
    ensures back { IfSome result.1 (λ k. (k ≡ call) × IsCallOf driver.new k) }
    ensures others { (j : Call P) → IsCallOf driver.old j → SharesNoCid call j → IsCallOf driver.new j }
    ensures slot_rules { KeepsSlotRules driver.old → KeepsSlotRules driver.new }
{
    let before = Snapshot::of(&*driver);
    let poll = driver.poll(call);
    other_calls_touch_no_slot(&before, driver);
    poll_in_words(poll)
}

/// Begins a call.
///
/// # Errors
///
/// What the driver answers; the calls stay.
pub fn starts<'a>(host: &mut TestHost<'a>, ask: Ask) -> Result<Call<SharedPort<'a>>, Fault>
    ensures { Begins host.old host.new result }
{
    begins(&mut host.driver, ask)
}

/// Polls a call once.
pub fn polls<'a>(
    host: &mut TestHost<'a>,
    call: Call<SharedPort<'a>>,
) -> (AnswerWords, Option<Call<SharedPort<'a>>>)
    requires { IsCallOf host.old.driver call }
    ensures polls { Polls host.old host.new call.entry }
    ensures back { IfSome result.1 (λ k. (k ≡ call.entry) × IsCallOf host.new.driver k) }
{
    polled(&mut host.driver, call)
}

/// Polls a call until it is answered, at most so many times.
pub fn answers<'a>(host: &mut TestHost<'a>, call: Call<SharedPort<'a>>, most: u32) -> AnswerWords
    requires { IsCallOf host.old.driver call }
    ensures { Polls host.old host.new call.entry }
{
    let mut next = call;
    for _ in 0..most {
        let (told, back) = polls(host, next);
        let Some(same) = back else {
            return told;
        };
        next = same;
    }
    AnswerWords::Pending
}

/// Learns all notices that are there; how many.
pub fn hears<R: Wait>(rt: &R, system: &PlainSystem, host: &mut TestHost<'_>) -> u32
    requires { IsTestHost system.now host.old }
    ensures same { IsTestHost system.now host.new }
    ensures calls { KeepsCalls host.old host.new }
    ensures untouched { IsUntouched host.old.driver host.new.driver }
{
    let before = Snapshot::of(&host.driver);
    let mut count: u32 = 0;
    for _ in rt.forever() {
        let now = Snapshot::of(&host.driver);
        let took = host.driver.listen(rt, &system.notices, &mut host.place);
        an_untouched_driver_stays_so(&before, &now, &host.driver);
        if !took {
            return count;
        }
        count = count.wrapping_add(1);
    }
    // The loop ends by its return alone.
    unreachable!()
}
