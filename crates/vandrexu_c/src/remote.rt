//! What the handle of a remote host owns.

ghost use Rattle.std.specs.Prelude.{◌≤◌, ◌+◌, IfErr, IfOk};
ghost use Rattle.vandrexu_c.specs.Remotes.{MayRefuseRemote};

use crate::call_told::{given_up_number, polled_told};
use crate::carrying::{OutgoingEntry, tell_entry};
use crate::host_reply::HostReply;
use crate::numbers::{BAD_AREA, TOO_SMALL};
use c_handles::numbers::{BAD_NUMBER, NO_MEMORY, NO_QUEUE, NOTHING_READY};
use nvme_model::array::Range;
use nvme_model::submission::Payload;
use remote_host::RemoteHost;
use std::alloc::Global;
use std::marker::Model;

/// A host, and what was read last.
#[derive(Drop)]
pub struct DrivenRemote {
    pub(crate) host: RemoteHost,
    pub(crate) payload: Vec<u8>,
}

impl Model for DrivenRemote {
    ghost use Rattle.vandrexu_c.specs.RemoteStates.{RemoteState};
    ghost use Rattle.remote_host.specs.contracts.host.RemoteHost as driven;
    ghost use Rattle.std.specs.Coded.{codes};

    ghost Value = { RemoteState };

    ghost coded = { Prim.hlevel (codes, driven.the_row.coded) };

    ghost view = { λ r. record { host = r.host; payload = r.payload.items } };
}

// Why there is no host with this number on this submission queue with these slots: the number of the answer.
fn refusal_of(number: u32, queue: u16, slots: Range) -> Result<(), u32>
    ensures none { IfOk result (λ _. (1 ≤ number) × (1 ≤ queue) × (slots.slba + slots.blocks ≤ 65536)) }
    ensures cause { IfErr result (MayRefuseRemote number queue slots) }
{
    if number == 0 {
        return Err(BAD_NUMBER);
    }
    if queue == 0 {
        return Err(NO_QUEUE);
    }
    if slots.slba > 65536 || slots.slba + u64::from(slots.blocks) > 65536 {
        return Err(BAD_AREA);
    }
    Ok(())
}

impl DrivenRemote {
    ghost use Rattle.vandrexu_c.specs.Calls.{CallGivenUp};
    ghost use Rattle.vandrexu_c.specs.Remotes.{AreNumbers, IsNewRemote, RemoteGives, RemotePolls, RemoteTakes};

    /// A host with this number on this submission queue.
    ///
    /// # Errors
    ///
    /// The number of the answer: 115 for the number 0, 1 for the submission queue 0, 123 where the slots lie beyond
    /// each volume, 11 where memory is refused.
    pub(crate) fn of(
        alloc: Global,
        number: u32,
        queue: u16,
        acwu: u16,
        slots: Range,
    ) -> Result<DrivenRemote, u32>
        ensures made { IfOk result (IsNewRemote number acwu queue slots) }
        ensures fits { IfOk result (λ _. AreNumbers number queue × (slots.slba + slots.blocks ≤ 65536)) }
        ensures cause { IfErr result (MayRefuseRemote number queue slots) }
    {
        refusal_of(number, queue, slots)?;
        let Ok(queues) = [queue].to_vec(alloc) else {
            return Err(NO_MEMORY);
        };
        match RemoteHost::new(alloc, number, acwu, slots, queues) {
            Ok(host) => Ok(DrivenRemote {
                host,
                payload: Vec::new(alloc),
            }),
            Err(_) => Err(NO_MEMORY),
        }
    }

    /// Polls the call with this number: the number of the answer, and what it tells.
    pub(crate) fn poll(&mut self, number: u32) -> (u32, HostReply)
        ensures { RemotePolls self.old self.new number result.0 result.1 }
    {
        let polled = self.host.poll(number);
        polled_told(&mut self.payload, polled)
    }

    /// Gives up the call with this number: the number of the answer.
    pub(crate) fn give_up(&mut self, number: u32) -> u32
        ensures { CallGivenUp self.old self.new number result }
    {
        given_up_number(self.host.give_up(number))
    }

    /// Tells the next entry that is to be carried, with its data: the number of the answer.
    pub(crate) fn next_entry(&mut self, entry: &mut OutgoingEntry, out: &mut [u8]) -> u32
        ensures { RemoteGives self.old self.new result entry.old entry.new out.old out.new }
    {
        let Some(next) = self.host.peek() else {
            return NOTHING_READY;
        };
        if !tell_entry(next, entry, out) {
            return TOO_SMALL;
        }
        drop(self.host.outgoing());
        0
    }

    /// Brings a completion with this data: the number of the answer.
    pub(crate) fn bring(&mut self, alloc: Global, cqe: &[u8; 16], bytes: &[u8]) -> u32
        ensures { RemoteTakes self.old self.new cqe.now bytes.now result }
    {
        let Ok(payload) = Payload::copy_of(alloc, bytes) else {
            return NO_MEMORY;
        };
        match self.host.incoming(*cqe, payload) {
            Ok(()) => 0,
            Err(_) => NO_MEMORY,
        }
    }
}
