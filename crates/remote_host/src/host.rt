//! A host of a controller that is somewhere else.

ghost use Rattle.std.specs.List.Sorted.{IsStrictlyIncreasing};
ghost use Rattle.std.specs.Prelude.{◌≡◌, ◌≤◌, ◌+◌, ◌*◌, IfOk, [], length, option_copied, slice_get};
ghost use Rattle.driver_calls.specs.declared.request.CallData.{CallData};
ghost use Rattle.driver_cas.specs.Requests.{pair_request_of, request_of};
ghost use Rattle.nvme_model.specs.declared.operation.Op.{Op};

use crate::call_host::CallHost;
use crate::carry::{Bring, TakeAway};
use crate::polled::{NotGivenUp, Polled, Waiting};
use crate::port::{Outgoing, RemotePort};
use driver_cas::{Driver, Fault};
use nvme_model::array::Range;
use nvme_model::submission::Payload;
use std::alloc::{AllocError as NoMemory, Global};
use std::marker::Model;

/// A host whose commands are carried to a controller that is somewhere else: a driver over two queues in memory, with
/// its calls in flight, each under a number.
#[derive(Drop)]
pub struct RemoteHost {
    host: CallHost<RemotePort>,
}

impl Model for RemoteHost {
    ghost use Rattle.remote_host.specs.HostStates.{state_of};
    ghost use Rattle.remote_host.specs.RemoteStates.{RemoteState};
    ghost use Rattle.remote_host.specs.Calls.{KeepsCalls};
    ghost use Rattle.remote_host.specs.contracts.port.Done as done;
    ghost use Rattle.std.specs.Coded.{codes};

    ghost Value = { RemoteState };

    ghost coded = { Prim.hlevel (codes, done.the_row.coded) };

    ghost view = { λ h. state_of h.host };

    ghost invariant = { λ h. KeepsCalls (state_of h.host) };
}

impl RemoteHost {
    ghost use Rattle.driver_cas.specs.Drivers.{acwu_of, area_of, made, port_of};
    ghost use Rattle.driver_cas.specs.Dropped.{drop_count};
    ghost use Rattle.driver_cas.specs.Starts.{IsUntouched};
    ghost use Rattle.slab.specs.Slab.{slab_len};
    ghost use Rattle.remote_host.specs.Hosts.{GiveUpTells, PollTells};
    ghost use Rattle.remote_host.specs.Remotes.{IsHandedIn, IsNewRemote, IsNotLater, RemoteStartTells};
    ghost use Rattle.remote_host.specs.Queues.{IsTakenAway, to_carry};

    /// A host with this number, from 1 on, on these submission queues in rising order. No call is in flight. A Compare
    /// and Write has at most `acwu` and one blocks (0's based). No start call writes to blocks of `slots`, which may be
    /// empty.
    ///
    /// # Errors
    ///
    /// `NoMemory` where a growth is refused.
    pub fn new(
        alloc: Global,
        host: u32,
        acwu: u16,
        slots: Range,
        queues: Vec<u16>,
    ) -> Result<RemoteHost, NoMemory>
        requires host { 1 ≤ host }
        requires slots { slots.slba + slots.blocks ≤ 65536 }
        requires some { 1 ≤ length queues.items }
        requires rising { IsStrictlyIncreasing queues.items }
        ensures { IfOk result (IsNewRemote host acwu slots queues.items) }
    {
        let port = RemotePort::new(alloc);
        match Driver::new(alloc, port, host, acwu, slots, queues) {
            Ok(driver) => Ok(RemoteHost {
                host: CallHost::new(alloc, driver),
            }),
            Err((_, _, why)) => Err(why),
        }
    }

    /// Begins to read so many blocks from block `slba` on, and tells the number of the call.
    ///
    /// # Errors
    ///
    /// The first that holds: `NoMemory` where there is no room for one call more; `Length` of no block; `TooLong` of
    /// more than 256; `RingFull` where too few CIDs are free; `NoMemory`. Nothing was published.
    pub fn start_read(&mut self, slba: u64, blocks: u32) -> Result<u32, Fault>
        ensures { RemoteStartTells self.old self.new
            (request_of (acwu_of self.old.driver) (area_of self.old.driver) Op.Read slba (512 * blocks))
            (CallData.One []) result }
    {
        self.host.start_read(slba, blocks)
    }

    /// Begins to write zeros to so many blocks from block `slba` on, and tells the number of the call.
    ///
    /// # Errors
    ///
    /// As `start_read`, and `SlotArea` behind `TooLong`.
    pub fn start_write_zeroes(&mut self, slba: u64, blocks: u32) -> Result<u32, Fault>
        ensures { RemoteStartTells self.old self.new
            (request_of (acwu_of self.old.driver) (area_of self.old.driver) Op.WriteZeroes slba (512 * blocks))
            (CallData.One []) result }
    {
        self.host.start_write_zeroes(slba, blocks)
    }

    /// Begins to write this data, 512 bytes a block, from block `slba` on, and tells the number of the call.
    ///
    /// # Errors
    ///
    /// As `start_write_zeroes`; `Length` also of data that isn't whole blocks.
    pub fn start_write(&mut self, slba: u64, contents: &[u8]) -> Result<u32, Fault>
        ensures { RemoteStartTells self.old self.new
            (request_of (acwu_of self.old.driver) (area_of self.old.driver) Op.Write slba (length contents.now))
            (CallData.One contents.now) result }
    {
        self.host.start_write(slba, contents)
    }

    /// Begins to compare this data, 512 bytes a block, with the blocks from block `slba` on, and tells the number of
    /// the call.
    ///
    /// # Errors
    ///
    /// As `start_write`, without `SlotArea`.
    pub fn start_compare(&mut self, slba: u64, contents: &[u8]) -> Result<u32, Fault>
        ensures { RemoteStartTells self.old self.new
            (request_of (acwu_of self.old.driver) (area_of self.old.driver) Op.Compare slba (length contents.now))
            (CallData.One contents.now) result }
    {
        self.host.start_compare(slba, contents)
    }

    /// Begins to write the desired data to the blocks from block `slba` on where they hold the expected data, as one
    /// fused pair, and tells the number of the call.
    ///
    /// # Errors
    ///
    /// As `start_write`; `Length` also of two data of unlike lengths, `TooLong` also of more than `acwu` and one
    /// blocks.
    pub fn start_compare_and_write(
        &mut self,
        slba: u64,
        expected: &[u8],
        desired: &[u8],
    ) -> Result<u32, Fault>
        ensures { RemoteStartTells self.old self.new
            (pair_request_of (acwu_of self.old.driver) (area_of self.old.driver) slba (length expected.now)
            (length desired.now)) (CallData.Two expected.now desired.now) result }
    {
        self.host.start_compare_and_write(slba, expected, desired)
    }

    /// Polls the call with this number; None where no call has it. Before that one of the calls that were given up is
    /// polled, if there are any, each in its turn. Each of the two polls reaps at most one of the completions that were
    /// brought, of whichever call; one that no call is owed is dropped, and counted. A call that is answered has no
    /// number any more.
    pub fn poll(&mut self, number: u32) -> Option<Polled>
        ensures polls { PollTells self.old self.new number result }
        ensures not_later { IsNotLater result }
    {
        self.host.poll(number)
    }

    /// Gives up the call with this number, which is free then. What the call does is done or not, and nobody is told.
    /// Its CIDs stay in use until its completions were brought, and polls took them.
    ///
    /// # Errors
    ///
    /// `NoCall` where no call has the number, else `NoMemory` where a growth is refused. Nothing has changed.
    pub fn give_up(&mut self, number: u32) -> Result<(), NotGivenUp>
        ensures { GiveUpTells self.old self.new number result }
    {
        self.host.give_up(number)
    }

    /// How many calls the host waits for.
    pub fn waiting(&self) -> Waiting
        ensures calls { result.calls ≡ slab_len self.now.calls }
        ensures given_up { result.given_up ≡ length self.now.given_up }
    {
        self.host.waiting()
    }

    /// How many of the completions that were reaped no command waited for.
    pub fn dropped(&self) -> u64
        ensures { result ≡ drop_count (made self.now.driver) }
    {
        self.host.driver().dropped()
    }

    /// The entry that is to be carried to the controller next, where it stays; None where there is none.
    pub fn peek(&self) -> Option<&Outgoing>
        ensures { option_copied result ≡ slice_get (to_carry (port_of self.now.driver)) 0 }
    {
        self.host.driver().port().peek()
    }

    /// Takes away the entry that was published first of those that are there, to be carried to the controller; None
    /// where there is none. The two of a fused pair stand one behind the other.
    pub fn outgoing(&mut self) -> Option<Outgoing>
        ensures untouched { IsUntouched self.old.driver self.new.driver }
        ensures calls { self.new.calls ≡ self.old.calls }
        ensures given_up { self.new.given_up ≡ self.old.given_up }
        ensures taken { IsTakenAway (port_of self.old.driver) (port_of self.new.driver) result }
    {
        self.host.attend(TakeAway)
    }

    /// Brings a completion of the controller, with what a successful Read read, else an empty payload. A poll reaps it
    /// behind those that were brought before. It counts for the call that has its CID then: bring each once, and none
    /// before its entry was taken away.
    ///
    /// # Errors
    ///
    /// The payload, where a growth is refused; nothing has changed.
    pub fn incoming(&mut self, cqe: [u8; 16], payload: Payload) -> Result<(), Payload>
        ensures untouched { IsUntouched self.old.driver self.new.driver }
        ensures calls { self.new.calls ≡ self.old.calls }
        ensures given_up { self.new.given_up ≡ self.old.given_up }
        ensures brought { IsHandedIn (port_of self.old.driver) (port_of self.new.driver) cqe payload result }
    {
        match self.host.attend(Bring { cqe, payload }) {
            Ok(()) => Ok(()),
            Err((payload, _)) => Err(payload),
        }
    }
}
