//! Completions that are carried to a host, in an order of their own, and such that no call is owed.

use crate::host::RemoteHost;
use crate::polled::Polled;
use crate::port::Outgoing;
use driver_cas::{Fault, Reply};
use nvme_model::array::Range;
use nvme_model::submission::{Payload, Submission};
use std::alloc::Global;
use std::test::Fail;

/// What a poll told, in words.
#[derive(Clone, Copy, Debug, PartialEq, Eq)]
pub(crate) enum Told {
    /// No call has the number.
    Nobody,
    Pending,
    Later,
    /// So many bytes, the first of which is this one.
    Read(usize, u8),
    Written,
    Equal,
    Differs,
    Swapped,
    Failed,
}

/// An entry's opcode, the bits of its fused operation, and the low byte of its CID (Base 2.0, Command Dword 0).
#[derive(Clone, Copy, Debug, PartialEq, Eq)]
struct Head {
    opcode: u8,
    fuse: u8,
    cid: u8,
}

const READ: u8 = 0x02;

const COMPARE: u8 = 0x05;

const WRITE: u8 = 0x01;

/// An entry that was taken away: its submission queue, how it begins, and how many stand behind it in its batch.
#[derive(Clone, Copy, Debug, PartialEq, Eq)]
struct Sent {
    queue: u16,
    head: Head,
    more: usize,
}

/// A host with one submission queue, of number 1, and no slot. Its pairs have two blocks at most.
pub(crate) fn host_of(alloc: Global) -> Result<RemoteHost, Fail> {
    let none = Range { slba: 0, blocks: 0 };
    let queues = [1].to_vec(alloc)?;
    Ok(RemoteHost::new(alloc, 1, 1, none, queues)?)
}

/// The same with two submission queues, and slots at blocks 8 and 9.
fn host_of_two(alloc: Global) -> Result<RemoteHost, Fail> {
    let slots = Range { slba: 8, blocks: 2 };
    let queues = [1, 2].to_vec(alloc)?;
    Ok(RemoteHost::new(alloc, 1, 1, slots, queues)?)
}

fn head_of(one: &Submission) -> Head {
    Head {
        opcode: one.entry[0],
        fuse: one.entry[1] & 3,
        cid: one.entry[2],
    }
}

fn sent_of(outgoing: &Outgoing) -> Sent {
    Sent {
        queue: outgoing.queue,
        head: head_of(&outgoing.submission),
        more: outgoing.more,
    }
}

/// The next entry, where it was told to be the next before it was taken away.
fn taken(host: &mut RemoteHost) -> Option<Sent> {
    let told = host.peek().map(sent_of);
    let sent = sent_of(&host.outgoing()?);
    if told == Some(sent) { Some(sent) } else { None }
}

/// A completion with success for the command with this CID of submission queue 1 (Base 2.0, Completion Queue Entry).
pub(crate) fn good(cid: u8) -> [u8; 16] {
    [0, 0, 0, 0, 0, 0, 0, 0, 1, 0, 1, 0, cid, 0, 1, 0]
}

/// The same with Compare Failure, status code 85h of type 2.
fn differs(cid: u8) -> [u8; 16] {
    [0, 0, 0, 0, 0, 0, 0, 0, 1, 0, 1, 0, cid, 0, 0x0b, 0x05]
}

/// The same with success, and a bit set in Dword 1, which is reserved.
fn reserved(cid: u8) -> [u8; 16] {
    [0, 0, 0, 0, 1, 0, 0, 0, 1, 0, 1, 0, cid, 0, 1, 0]
}

/// Brings a completion with these data; whether it was.
pub(crate) fn brings(alloc: Global, host: &mut RemoteHost, cqe: [u8; 16], bytes: &[u8]) -> bool {
    match Payload::copy_of(alloc, bytes) {
        Ok(payload) => host.incoming(cqe, payload).is_ok(),
        Err(_) => false,
    }
}

fn replied(reply: Reply) -> Told {
    match reply {
        Reply::Read(payload) => {
            let bytes = payload.as_slice();
            Told::Read(bytes.len(), bytes.first().copied().unwrap_or(0))
        }
        Reply::Written => Told::Written,
        Reply::Equal => Told::Equal,
        Reply::Differs => Told::Differs,
        Reply::Swapped => Told::Swapped,
    }
}

pub(crate) fn polled(host: &mut RemoteHost, number: u32) -> Told {
    match host.poll(number) {
        None => Told::Nobody,
        Some(Polled::Pending) => Told::Pending,
        Some(Polled::Later(_)) => Told::Later,
        Some(Polled::Done(reply)) => replied(reply),
        Some(Polled::Failed(_)) => Told::Failed,
    }
}

/// Two Reads and a Compare and Write.
fn three_begin(host: &mut RemoteHost) -> [Result<u32, Fault>; 3] {
    [
        host.start_read(0, 1),
        host.start_read(4, 2),
        host.start_compare_and_write(8, &[0xc3; 512], &[0xd4; 512]),
    ]
}

fn one(opcode: u8, cid: u8) -> Head {
    Head {
        opcode,
        fuse: 0,
        cid,
    }
}

/// What three calls are numbered, and the entries that are taken away then.
fn entries(alloc: Global) -> Result<([Result<u32, Fault>; 3], [Option<Sent>; 5]), Fail> {
    let mut host = host_of(alloc)?;
    let begun = three_begin(&mut host);
    let sent = [
        taken(&mut host),
        taken(&mut host),
        taken(&mut host),
        taken(&mut host),
        taken(&mut host),
    ];
    Ok((begun, sent))
}

fn read(cid: u8) -> Option<Sent> {
    Some(Sent {
        queue: 1,
        head: one(READ, cid),
        more: 0,
    })
}

/// An entry of a fused pair.
fn half(opcode: u8, fuse: u8, cid: u8, more: usize) -> Option<Sent> {
    let head = Head { opcode, fuse, cid };
    Some(Sent {
        queue: 1,
        head,
        more,
    })
}

#[test]
fn entries_are_taken_away_in_order(rt: HostRuntime) -> Result<(), Fail> {
    let (begun, sent) = entries(rt.alloc())?;
    assert_eq!(rt; begun, [Ok(0), Ok(1), Ok(2)]);
    assert_eq!(rt;
        sent,
        [
            read(0),
            read(1),
            half(COMPARE, 1, 2, 1),
            half(WRITE, 2, 3, 0),
            None,
        ]
    );
    Ok(())
}

/// What polls of three calls tell, whose completions come in another order than they were published: that of the second
/// Read, that of the pair's Write, that of the first Read, and that of the pair's Compare.
fn out_of_order(alloc: Global) -> Result<[Told; 6], Fail> {
    let mut host = host_of(alloc)?;
    let _ = three_begin(&mut host);
    let came = brings(alloc, &mut host, good(1), &[0xb2; 1024])
        && brings(alloc, &mut host, good(3), &[])
        && brings(alloc, &mut host, good(0), &[0xa1; 512])
        && brings(alloc, &mut host, good(2), &[]);
    if !came {
        return Err(Fail::from("no memory"));
    }
    Ok([
        polled(&mut host, 0),
        polled(&mut host, 0),
        polled(&mut host, 0),
        polled(&mut host, 1),
        polled(&mut host, 2),
        polled(&mut host, 0),
    ])
}

#[test]
fn each_call_is_told_its_own(rt: HostRuntime) -> Result<(), Fail> {
    let told = out_of_order(rt.alloc())?;
    assert_eq!(rt;
        told,
        [
            Told::Pending,
            Told::Pending,
            Told::Read(512, 0xa1),
            Told::Read(1024, 0xb2),
            Told::Swapped,
            Told::Nobody,
        ]
    );
    Ok(())
}

/// What polls of the second of two Reads tell, and then of the first: behind that of the first came one that no call is
/// owed, one with a reserved bit, and that of the first again with other data. And how many are counted as dropped,
/// before the first poll and behind the last.
fn drops(alloc: Global) -> Result<([Told; 6], [u64; 2]), Fail> {
    let mut host = host_of(alloc)?;
    let _ = (host.start_read(0, 1), host.start_read(1, 1));
    let came = brings(alloc, &mut host, good(0), &[0xa1; 512])
        && brings(alloc, &mut host, good(9), &[0xee; 512])
        && brings(alloc, &mut host, reserved(1), &[0xee; 512])
        && brings(alloc, &mut host, good(0), &[0xee; 512])
        && brings(alloc, &mut host, good(1), &[0xb2; 512]);
    if !came {
        return Err(Fail::from("no memory"));
    }
    let before = host.dropped();
    let told = [
        polled(&mut host, 1),
        polled(&mut host, 1),
        polled(&mut host, 1),
        polled(&mut host, 1),
        polled(&mut host, 1),
        polled(&mut host, 0),
    ];
    Ok((told, [before, host.dropped()]))
}

#[test]
fn what_nobody_is_owed_changes_nothing(rt: HostRuntime) -> Result<(), Fail> {
    let (told, dropped) = drops(rt.alloc())?;
    assert_eq!(rt; dropped, [0, 3]);
    assert_eq!(rt;
        told,
        [
            Told::Pending,
            Told::Pending,
            Told::Pending,
            Told::Pending,
            Told::Read(512, 0xb2),
            Told::Read(512, 0xa1),
        ]
    );
    Ok(())
}

/// What a poll without a call tells, with a completion that came; then the number of a call and of another behind its
/// answer, and what they are told.
fn again(alloc: Global) -> Result<([Told; 4], [Result<u32, Fault>; 3]), Fail> {
    let mut host = host_of(alloc)?;
    let early = brings(alloc, &mut host, good(63), &[]);
    let nobody = polled(&mut host, 0);
    let first = host.start_compare(7, &[0; 512]);
    let second = host.start_write_zeroes(0, 256);
    if !(early && brings(alloc, &mut host, differs(0), &[])) {
        return Err(Fail::from("no memory"));
    }
    let told = [nobody, polled(&mut host, 0), polled(&mut host, 0)];
    let third = host.start_write(7, &[0xa1; 512]);
    if !brings(alloc, &mut host, good(0), &[]) {
        return Err(Fail::from("no memory"));
    }
    let last = polled(&mut host, 0);
    Ok(([told[0], told[1], told[2], last], [first, second, third]))
}

#[test]
fn numbers_are_used_again(rt: HostRuntime) -> Result<(), Fail> {
    let (told, begun) = again(rt.alloc())?;
    assert_eq!(rt; begun, [Ok(0), Ok(1), Ok(0)]);
    assert_eq!(rt;
        told,
        [Told::Nobody, Told::Pending, Told::Differs, Told::Written]
    );
    Ok(())
}

/// 64 Reads begin, one after another, each under the next number. Then why the next one doesn't, and what is told where
/// too little or too much is asked for.
fn fills(alloc: Global) -> Result<[Result<u32, Fault>; 4], Fail> {
    let mut host = host_of(alloc)?;
    for number in 0..64 {
        if host.start_read(0, 1) != Ok(number) {
            return Err(Fail::from("another number, or none"));
        }
    }
    Ok([
        host.start_read(0, 1),
        host.start_read(0, 0),
        host.start_write_zeroes(0, 257),
        host.start_write(0, &[0; 511]),
    ])
}

/// Why nothing begins that would write into slots 8 and 9, has data of unlike lengths, or is a pair of three blocks.
/// Then the submission queues of the 64th and the 65th of a host's commands.
fn limits(alloc: Global) -> Result<([Result<u32, Fault>; 4], [Option<u16>; 2]), Fail> {
    let mut host = host_of_two(alloc)?;
    let refused = [
        host.start_write(9, &[0xa1; 512]),
        host.start_write_zeroes(7, 2),
        host.start_compare_and_write(0, &[0xa1; 512], &[0xb2; 1024]),
        host.start_compare_and_write(0, &[0xa1; 1536], &[0xb2; 1536]),
    ];
    for _ in 0..65 {
        let _ = host.start_compare(9, &[0xa1; 512]);
    }
    for _ in 0..63 {
        let _ = host.outgoing();
    }
    let queues = [
        taken(&mut host).map(|it| it.queue),
        taken(&mut host).map(|it| it.queue),
    ];
    Ok((refused, queues))
}

#[test]
fn what_is_asked_has_limits(rt: HostRuntime) -> Result<(), Fail> {
    let (refused, queues) = limits(rt.alloc())?;
    assert_eq!(rt;
        refused,
        [
            Err(Fault::SlotArea),
            Err(Fault::SlotArea),
            Err(Fault::Length),
            Err(Fault::TooLong),
        ]
    );
    assert_eq!(rt; queues, [Some(1), Some(2)]);
    Ok(())
}

#[test]
fn a_queue_has_64_cids(rt: HostRuntime) -> Result<(), Fail> {
    let refused = fills(rt.alloc())?;
    assert_eq!(rt;
        refused,
        [
            Err(Fault::RingFull),
            Err(Fault::Length),
            Err(Fault::TooLong),
            Err(Fault::Length),
        ]
    );
    Ok(())
}
