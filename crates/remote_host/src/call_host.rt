//! A host's calls over any port, each under a number.

ghost use Rattle.std.specs.Prelude.{◌≡◌, ◌*◌, ◌++◌, ◌<◌, [], length};
ghost use Rattle.std.specs.Option.{option_to_list};
ghost use Rattle.std.specs.VecDeque.{deque_capacity, deque_len};
ghost use Rattle.slab.specs.Slab.{slab_len};
ghost use Rattle.driver_calls.specs.declared.request.CallData.{CallData};
ghost use Rattle.driver_cas.specs.Driving.{call_given_back};
ghost use Rattle.driver_cas.specs.Requests.{pair_request_of, request_of};
ghost use Rattle.nvme_model.specs.declared.operation.Op.{Op};

use crate::calls::{keep, next_number, put_back};
use crate::polled::{NotGivenUp, Polled, Waiting};
use driver_cas::{Attendance, Call, Driver, Fault, Poll, Port};
use slab::Slab;
use std::alloc::Global;
use std::collections::VecDeque;

/// A driver with its calls in flight, each under a number. The number of a call that was answered, or given up, is used
/// again. A call that was given up keeps its CIDs until its completions came.
#[derive(Drop)]
pub struct CallHost<P: Port> {
    pub(crate) driver: Driver<P>,
    pub(crate) calls: Slab<Call<P>>,
    // Those that were given up, the one first that is polled next.
    pub(crate) given_up: VecDeque<Call<P>>,
}

// Puts a call that was given up behind the others, where it isn't answered.
fn keep_back<P: Drop>(given_up: &mut VecDeque<Call<P>>, poll: Poll<P>)
    requires { deque_len given_up.old < deque_capacity given_up.old }
    ensures { given_up.new.items ≡ given_up.old.items ++ option_to_list (call_given_back poll) }
{
    match poll {
        Poll::Pending(call) | Poll::Later(_, call) => given_up.push_back_reserved(call),
        Poll::Done(_) | Poll::Failed(_) => {}
    }
}

impl<P: Port> CallHost<P> {
    ghost use Rattle.driver_cas.specs.Drivers.{acwu_of, area_of};
    ghost use Rattle.driver_cas.specs.Starts.{IsUntouched};
    ghost use Rattle.remote_host.specs.HostStates.{state_of};
    ghost use Rattle.remote_host.specs.Calls.{KeepsCalls};
    ghost use Rattle.remote_host.specs.Hosts.{GiveUpTells, IsHostOver, PollTells, PollsNumber, StartTells, TakesTurn};

    /// A host over this driver, with no call.
    pub fn new(alloc: Global, driver: Driver<P>) -> CallHost<P>
        ensures over { IsHostOver driver (state_of result) }
        ensures kept { KeepsCalls (state_of result) }
    {
        CallHost {
            driver,
            calls: Slab::new(alloc),
            given_up: VecDeque::new(alloc),
        }
    }

    /// Begins to read so many blocks from block `slba` on, and tells the number of the call.
    ///
    /// # Errors
    ///
    /// The first that holds: `NoMemory` where there is no room for one call more; `Length` of no block; `TooLong` of
    /// more than 256; `RingFull` where too few CIDs are free; `NoMemory`; then what the port answers. Nothing was
    /// published.
    pub fn start_read(&mut self, slba: u64, blocks: u32) -> Result<u32, Fault>
        requires kept { KeepsCalls (state_of self.old) }
        ensures kept { KeepsCalls (state_of self.new) }
        ensures starts { StartTells (state_of self.old) (state_of self.new)
            (request_of (acwu_of self.old.driver) (area_of self.old.driver) Op.Read slba (512 * blocks))
            (CallData.One []) result }
    {
        let Some(number) = next_number(&mut self.calls) else {
            return Err(Fault::NoMemory);
        };
        let started = self.driver.start_read(slba, blocks);
        keep(&mut self.calls, number, started)
    }

    /// Begins to write zeros to so many blocks from block `slba` on, and tells the number of the call.
    ///
    /// # Errors
    ///
    /// As `start_read`, and `SlotArea` behind `TooLong`.
    pub fn start_write_zeroes(&mut self, slba: u64, blocks: u32) -> Result<u32, Fault>
        requires kept { KeepsCalls (state_of self.old) }
        ensures kept { KeepsCalls (state_of self.new) }
        ensures starts { StartTells (state_of self.old) (state_of self.new)
            (request_of (acwu_of self.old.driver) (area_of self.old.driver) Op.WriteZeroes slba (512 * blocks))
            (CallData.One []) result }
    {
        let Some(number) = next_number(&mut self.calls) else {
            return Err(Fault::NoMemory);
        };
        let started = self.driver.start_write_zeroes(slba, blocks);
        keep(&mut self.calls, number, started)
    }

    /// Begins to write this data, 512 bytes a block, from block `slba` on, and tells the number of the call.
    ///
    /// # Errors
    ///
    /// As `start_write_zeroes`; `Length` also of data that isn't whole blocks.
    pub fn start_write(&mut self, slba: u64, contents: &[u8]) -> Result<u32, Fault>
        requires kept { KeepsCalls (state_of self.old) }
        ensures kept { KeepsCalls (state_of self.new) }
        ensures starts { StartTells (state_of self.old) (state_of self.new)
            (request_of (acwu_of self.old.driver) (area_of self.old.driver) Op.Write slba (length contents.now))
            (CallData.One contents.now) result }
    {
        let Some(number) = next_number(&mut self.calls) else {
            return Err(Fault::NoMemory);
        };
        let started = self.driver.start_write(slba, contents);
        keep(&mut self.calls, number, started)
    }

    /// Begins to compare this data, 512 bytes a block, with the blocks from block `slba` on, and tells the number of
    /// the call.
    ///
    /// # Errors
    ///
    /// As `start_write`, without `SlotArea`.
    pub fn start_compare(&mut self, slba: u64, contents: &[u8]) -> Result<u32, Fault>
        requires kept { KeepsCalls (state_of self.old) }
        ensures kept { KeepsCalls (state_of self.new) }
        ensures starts { StartTells (state_of self.old) (state_of self.new)
            (request_of (acwu_of self.old.driver) (area_of self.old.driver) Op.Compare slba (length contents.now))
            (CallData.One contents.now) result }
    {
        let Some(number) = next_number(&mut self.calls) else {
            return Err(Fault::NoMemory);
        };
        let started = self.driver.start_compare(slba, contents);
        keep(&mut self.calls, number, started)
    }

    /// Begins to write the desired data to the blocks from block `slba` on where they hold the expected data, as one
    /// fused pair, and tells the number of the call.
    ///
    /// # Errors
    ///
    /// As `start_write`; `Length` also of two data of unlike lengths, `TooLong` also of more than `acwu` and one
    /// blocks.
    pub fn start_compare_and_write(
        &mut self,
        slba: u64,
        expected: &[u8],
        desired: &[u8],
    ) -> Result<u32, Fault>
        requires kept { KeepsCalls (state_of self.old) }
        ensures kept { KeepsCalls (state_of self.new) }
        ensures starts { StartTells (state_of self.old) (state_of self.new)
            (pair_request_of (acwu_of self.old.driver) (area_of self.old.driver) slba (length expected.now)
            (length desired.now)) (CallData.Two expected.now desired.now) result }
    {
        let Some(number) = next_number(&mut self.calls) else {
            return Err(Fault::NoMemory);
        };
        let started = self.driver.start_compare_and_write(slba, expected, desired);
        keep(&mut self.calls, number, started)
    }

    // Polls the first of the calls that were given up, if there is one.
    fn take_turn(&mut self)
        requires kept { KeepsCalls (state_of self.old) }
        ensures kept { KeepsCalls (state_of self.new) }
        ensures turn { TakesTurn (state_of self.old) (state_of self.new) }
    {
        let Some(call) = self.given_up.pop_front() else {
            return;
        };
        let poll = self.driver.poll(call);
        keep_back(&mut self.given_up, poll);
    }

    // Polls the call with this number.
    fn poll_number(&mut self, number: u32) -> Option<Polled>
        requires kept { KeepsCalls (state_of self.old) }
        ensures kept { KeepsCalls (state_of self.new) }
        ensures polls { PollsNumber (state_of self.old) (state_of self.new) number result }
    {
        let call = self.calls.try_remove(number as usize)?;
        let poll = self.driver.poll(call);
        Some(put_back(&mut self.calls, poll))
    }

    /// Polls the call with this number; None where no call has it. Before that one of the calls that were given up is
    /// polled, if there are any, each in its turn. Each of the two polls reaps at most one completion, of whichever
    /// call; one that no call is owed is dropped, and counted. A call that is answered has no number any more.
    pub fn poll(&mut self, number: u32) -> Option<Polled>
        requires kept { KeepsCalls (state_of self.old) }
        ensures kept { KeepsCalls (state_of self.new) }
        ensures polls { PollTells (state_of self.old) (state_of self.new) number result }
    {
        self.take_turn();
        self.poll_number(number)
    }

    /// Gives up the call with this number, which is free then. What the call does is done or not, and nobody is told.
    /// Its CIDs stay in use until its completions came, and polls took them.
    ///
    /// # Errors
    ///
    /// `NoCall` where no call has the number, else `NoMemory` where a growth is refused. Nothing has changed.
    pub fn give_up(&mut self, number: u32) -> Result<(), NotGivenUp>
        requires kept { KeepsCalls (state_of self.old) }
        ensures kept { KeepsCalls (state_of self.new) }
        ensures gives_up { GiveUpTells (state_of self.old) (state_of self.new) number result }
    {
        if !self.calls.contains(number as usize) {
            return Err(NotGivenUp::NoCall);
        }
        if self.given_up.reserve(1).is_err() {
            return Err(NotGivenUp::NoMemory);
        }
        let Some(call) = self.calls.try_remove(number as usize) else {
            return Err(NotGivenUp::NoCall);
        };
        self.given_up.push_back_reserved(call);
        Ok(())
    }

    /// How many calls the host waits for.
    pub fn waiting(&self) -> Waiting
        ensures calls { result.calls ≡ slab_len (state_of self.now).calls }
        ensures given_up { result.given_up ≡ length (state_of self.now).given_up }
    {
        Waiting {
            calls: self.calls.len(),
            given_up: self.given_up.len(),
        }
    }

    /// Does this at the driver's port. The host's calls stay as they are.
    pub fn attend<A: Attendance<P>>(&mut self, attendance: A) -> A::Told
        requires kept { KeepsCalls (state_of self.old) }
        ensures kept { KeepsCalls (state_of self.new) }
        ensures untouched { IsUntouched self.old.driver self.new.driver }
        ensures calls { (state_of self.new).calls ≡ (state_of self.old).calls }
        ensures given_up { (state_of self.new).given_up ≡ (state_of self.old).given_up }
        ensures told { A.tells attendance self.old.driver.port self.new.driver.port result }
    {
        self.driver.attend(attendance)
    }

    /// The driver, given back. Calls in flight keep their CIDs for ever.
    pub fn into_driver(self) -> Driver<P>
        ensures { result ≡ (state_of self).driver }
    {
        self.driver
    }

    /// The driver, to be looked at.
    pub fn driver(&self) -> &Driver<P>
        ensures { result.now ≡ (state_of self.now).driver }
    {
        &self.driver
    }
}
