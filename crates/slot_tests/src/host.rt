//! A slot host whose commands are carried, and whose completions are made up here.

ghost use Rattle.std.specs.Prelude.{IfOk};
ghost use Rattle.slot_host.specs.SlotHosts.{IsKept};

use driver_cas::{Driver, Fault};
use nvme_model::array::Range;
use nvme_model::submission::Payload;
use nvme_model::{Name, slot_block};
use remote_host::{Bring, RemotePort, TakeAway};
use slot_host::{NotBegun, SlotHost, SlotTold};
use slot_takeover::Holder;
use std::alloc::Global;
use std::test::Fail;

/// A host of number 1 on submission queue 1, with two slots from block 8 on. Its serials are above this one.
fn host_above(alloc: Global, last: u64) -> Result<SlotHost<RemotePort>, Fail>
    ensures { IfOk result (λ h. IsKept h) }
{
    let slots = Range { slba: 8, blocks: 2 };
    let queues = [1].to_vec(alloc)?;
    let Ok(driver) = Driver::new(alloc, RemotePort::new(alloc), 1, 0, slots, queues) else {
        return Err(Fail::from("no memory"));
    };
    let mut driver = driver;
    driver.skip_serials(last);
    match SlotHost::new(alloc, driver) {
        Ok(host) => Ok(host),
        Err(_) => Err(Fail::from("no memory")),
    }
}

/// One whose serials are above 4.
fn host_of(alloc: Global) -> Result<SlotHost<RemotePort>, Fail>
    ensures { IfOk result (λ h. IsKept h) }
{
    host_above(alloc, 4)
}

/// Brings a completion of the command with this CID, with this status (Base 2.0, Completion Queue Entry) and data.
fn brings(
    alloc: Global,
    host: &mut SlotHost<RemotePort>,
    cid: u8,
    status: [u8; 2],
    bytes: &[u8],
) -> Result<(), Fail>
    requires { IsKept host.old }
    ensures { IsKept host.new }
{
    let cqe = [
        0, 0, 0, 0, 0, 0, 0, 0, 1, 0, 1, 0, cid, 0, status[0], status[1],
    ];
    let payload = Payload::copy_of(alloc, bytes)?;
    match host.attend(Bring { cqe, payload }) {
        Ok(()) => Ok(()),
        Err(_) => Err(Fail::from("no memory")),
    }
}

/// Success, and Compare Failure with Failed Fused Command behind it.
const GOOD: [u8; 2] = [1, 0];

const DIFFERS: [u8; 2] = [0x0b, 0x05];

const FUSED: [u8; 2] = [0x13, 0x00];

/// Both halves of a pair are answered so.
fn pair(
    alloc: Global,
    host: &mut SlotHost<RemotePort>,
    first: [u8; 2],
    second: [u8; 2],
) -> Result<(), Fail>
    requires { IsKept host.old }
    ensures { IsKept host.new }
{
    brings(alloc, host, 0, first, &[])?;
    brings(alloc, host, 1, second, &[])
}

/// The low byte of the block that the next pair is on; both its entries are taken away.
fn carried(host: &mut SlotHost<RemotePort>) -> Option<u8>
    requires { IsKept host.old }
    ensures { IsKept host.new }
{
    let first = host.attend(TakeAway)?;
    let _ = host.attend(TakeAway);
    Some(first.submission.entry[40])
}

/// What is begun and what isn't, before any call, beside one, and of a slot that the host has.
fn begins(alloc: Global) -> Result<[Result<(), NotBegun>; 8], Fail> {
    let mut host = host_of(alloc)?;
    let own = Name { host: 1, serial: 1 };
    let nothing = [
        host.claim(2),
        host.release(0),
        host.take_over(0, own),
        host.ask_holder(2),
    ];
    let claim = host.claim(0);
    let beside = host.claim_any();
    pair(alloc, &mut host, GOOD, GOOD)?;
    let _ = (host.poll(), host.poll());
    Ok([
        nothing[0],
        nothing[1],
        nothing[2],
        nothing[3],
        claim,
        beside,
        host.claim(0),
        host.take_over(0, Name { host: 2, serial: 1 }),
    ])
}

#[test]
fn a_call_is_begun_or_barred(rt: HostRuntime) -> Result<(), Fail> {
    let begun = begins(rt.alloc())?;
    assert_eq!(rt;
        begun,
        [
            Err(NotBegun::NoSlot),
            Err(NotBegun::NotHeld),
            Err(NotBegun::BadName),
            Err(NotBegun::NoSlot),
            Ok(()),
            Err(NotBegun::InCall),
            Err(NotBegun::Held),
            Err(NotBegun::Held),
        ]
    );
    Ok(())
}

/// What polls tell of a claim, of its release, of a claim of any slot where the first is somebody's, of the question
/// who holds slot 0, of a takeover from that name, and without a call. Then the blocks that the pairs are on.
fn polls(alloc: Global) -> Result<([Option<SlotTold>; 9], [Option<u8>; 5]), Fail> {
    let mut host = host_of(alloc)?;
    let _ = host.claim(1);
    let claimed = carried(&mut host);
    pair(alloc, &mut host, GOOD, GOOD)?;
    let claim = [host.poll(), host.poll()];
    let _ = host.release(1);
    let released = carried(&mut host);
    pair(alloc, &mut host, GOOD, GOOD)?;
    let release = [host.poll(), host.poll()];
    let _ = host.claim_any();
    let lower = carried(&mut host);
    pair(alloc, &mut host, DIFFERS, FUSED)?;
    let _ = host.poll();
    let lost = host.poll();
    let upper = carried(&mut host);
    pair(alloc, &mut host, GOOD, GOOD)?;
    let _ = host.poll();
    let any = host.poll();
    let _ = host.ask_holder(0);
    let _ = host.attend(TakeAway);
    brings(alloc, &mut host, 0, GOOD, &slot_block(2, 7))?;
    let holder = host.poll();
    let _ = host.take_over(0, Name { host: 2, serial: 7 });
    let taken = carried(&mut host);
    pair(alloc, &mut host, GOOD, GOOD)?;
    let _ = host.poll();
    let told = [
        claim[0],
        claim[1],
        release[0],
        release[1],
        lost,
        any,
        holder,
        host.poll(),
        host.poll(),
    ];
    Ok((told, [claimed, released, lower, upper, taken]))
}

#[test]
fn a_poll_tells_what_came(rt: HostRuntime) -> Result<(), Fail> {
    let (told, blocks) = polls(rt.alloc())?;
    assert_eq!(rt; blocks, [Some(9), Some(9), Some(8), Some(9), Some(8)]);
    assert_eq!(rt;
        told,
        [
            Some(SlotTold::Pending),
            Some(SlotTold::Held(1)),
            Some(SlotTold::Pending),
            Some(SlotTold::Released),
            Some(SlotTold::Pending),
            Some(SlotTold::Held(1)),
            Some(SlotTold::Holder(Holder::Of(Name { host: 2, serial: 7 }))),
            Some(SlotTold::Held(0)),
            None,
        ]
    );
    Ok(())
}

/// The data of a first claim's Write, and how many completions were dropped: one came for nobody.
fn names(alloc: Global) -> Result<(bool, u64, bool), Fail> {
    let mut host = host_of(alloc)?;
    let _ = host.claim(0);
    let seen = host.port().peek().is_some();
    let _ = host.attend(TakeAway);
    let Some(write) = host.attend(TakeAway) else {
        return Err(Fail::from("no second entry"));
    };
    let named = write.submission.payload.as_slice() == slot_block(1, 5).as_slice();
    brings(alloc, &mut host, 9, GOOD, &[])?;
    let _ = host.poll();
    let dropped = host.dropped();
    let driver = host.into_driver();
    Ok((named, dropped, seen && driver.dropped() == dropped))
}

#[test]
fn serials_are_above_those_skipped(rt: HostRuntime) -> Result<(), Fail> {
    let (named, dropped, same) = names(rt.alloc())?;
    assert!(rt; named);
    assert_eq!(rt; dropped, 1);
    assert!(rt; same);
    Ok(())
}

/// Why no claim and no takeover is begun by a host that used the last serial.
fn used_up(alloc: Global) -> Result<[Result<(), NotBegun>; 3], Fail> {
    let mut host = host_above(alloc, u64::MAX)?;
    Ok([
        host.claim(1),
        host.claim_any(),
        host.take_over(1, Name { host: 2, serial: 1 }),
    ])
}

#[test]
fn the_last_serial_ends_claims(rt: HostRuntime) -> Result<(), Fail> {
    let begun = used_up(rt.alloc())?;
    assert_eq!(rt; begun, [Err(NotBegun::Fault(Fault::NoSerial)); 3]);
    Ok(())
}
