//! What the handle of a host of a disk owns.

use crate::call_told::{given_up_number, number_told, polled_told};
use crate::host_reply::HostReply;
use driver_cas::SharedPort;
use remote_host::CallHost;
use std::marker::Model;

/// A host, and what was read last.
#[derive(Drop)]
pub struct DrivenHost {
    pub(crate) host: CallHost<SharedPort<'static>>,
    pub(crate) payload: Vec<u8>,
}

impl Model for DrivenHost {
    ghost use Rattle.remote_host.specs.Calls.{KeepsCalls};
    ghost use Rattle.remote_host.specs.HostStates.{state_of};
    ghost use Rattle.vandrexu_c.specs.HostStates.{HostState};

    ghost Value = { HostState };

    ghost view = { λ h. record { host = state_of h.host; payload = h.payload.items } };

    ghost invariant = { λ h. KeepsCalls (state_of h.host) };
}

impl DrivenHost {
    ghost use Rattle.std.specs.Prelude.{◌*◌, [], length};
    ghost use Rattle.nvme_model.specs.declared.operation.Op.{Op};
    ghost use Rattle.driver_calls.specs.declared.request.CallData.{CallData};
    ghost use Rattle.driver_cas.specs.Drivers.{acwu_of, area_of};
    ghost use Rattle.driver_cas.specs.Requests.{pair_request_of, request_of};
    ghost use Rattle.vandrexu_c.specs.Calls.{CallGivenUp, CallPolls};
    ghost use Rattle.vandrexu_c.specs.Hosts.{HostStarts};

    /// Begins to read.
    pub(crate) fn start_read(&mut self, lba: u64, blocks: u32, call: &mut u32) -> u32
        ensures { HostStarts self.old self.new
            (request_of (acwu_of self.old.host.driver) (area_of self.old.host.driver) Op.Read lba (512 * blocks))
            (CallData.One []) result call.old call.new }
    {
        number_told(self.host.start_read(lba, blocks), call)
    }

    /// Begins to write zeros.
    pub(crate) fn start_write_zeroes(&mut self, lba: u64, blocks: u32, call: &mut u32) -> u32
        ensures { HostStarts self.old self.new
            (request_of (acwu_of self.old.host.driver) (area_of self.old.host.driver) Op.WriteZeroes lba
            (512 * blocks)) (CallData.One []) result call.old call.new }
    {
        number_told(self.host.start_write_zeroes(lba, blocks), call)
    }

    /// Begins to write.
    pub(crate) fn start_write(&mut self, lba: u64, contents: &[u8], call: &mut u32) -> u32
        ensures { HostStarts self.old self.new
            (request_of (acwu_of self.old.host.driver) (area_of self.old.host.driver) Op.Write lba
            (length contents.now)) (CallData.One contents.now) result call.old call.new }
    {
        number_told(self.host.start_write(lba, contents), call)
    }

    /// Begins to compare.
    pub(crate) fn start_compare(&mut self, lba: u64, contents: &[u8], call: &mut u32) -> u32
        ensures { HostStarts self.old self.new
            (request_of (acwu_of self.old.host.driver) (area_of self.old.host.driver) Op.Compare lba
            (length contents.now)) (CallData.One contents.now) result call.old call.new }
    {
        number_told(self.host.start_compare(lba, contents), call)
    }

    /// Begins to compare and write.
    pub(crate) fn start_compare_and_write(
        &mut self,
        lba: u64,
        expected: &[u8],
        desired: &[u8],
        call: &mut u32,
    ) -> u32
        ensures { HostStarts self.old self.new
            (pair_request_of (acwu_of self.old.host.driver) (area_of self.old.host.driver) lba (length expected.now)
            (length desired.now)) (CallData.Two expected.now desired.now) result call.old call.new }
    {
        number_told(
            self.host.start_compare_and_write(lba, expected, desired),
            call,
        )
    }

    /// Polls the call with this number: the number of the answer, and what it tells.
    pub(crate) fn poll(&mut self, number: u32) -> (u32, HostReply)
        ensures { CallPolls self.old self.new number result.0 result.1 }
    {
        let polled = self.host.poll(number);
        polled_told(&mut self.payload, polled)
    }

    /// Gives up the call with this number: the number of the answer.
    pub(crate) fn give_up(&mut self, number: u32) -> u32
        ensures { CallGivenUp self.old self.new number result }
    {
        given_up_number(self.host.give_up(number))
    }
}
