//! Disks whose hosts keep locks: what calls are answered, and what each host has then.

use history::Config;
use nvme_model::array::Range;
use slot_disk::{NotBegun, SlotDisk, SlotTold, Unasked, Unmade};
use std::alloc::Global;
use std::process::Abort;
use std::test::Fail;

/// What a host of a disk does, and what comes of it.
#[derive(Clone, Copy)]
enum DiskAct {
    /// Begins to claim this slot.
    Claims(u32, Result<(), Unasked>),
    /// Begins to claim any slot.
    Any(Result<(), Unasked>),
    /// Begins to release this slot.
    Releases(u32, Result<(), Unasked>),
    /// What it published is served.
    Served,
    Polls(Option<SlotTold>),
    /// Polls once, which is pending, and once more.
    Ends(SlotTold),
    /// Whether it has this slot.
    Has(u32, bool),
    /// All hosts see one history.
    Meets,
}

const NO_HOST: Result<(), Unasked> = Err(Unasked::NoHost);

const IN_CALL: Result<(), Unasked> = Err(Unasked::NotBegun(NotBegun::InCall));

const NO_SLOT: Result<(), Unasked> = Err(Unasked::NotBegun(NotBegun::NoSlot));

const HELD: Result<(), Unasked> = Err(Unasked::NotBegun(NotBegun::Held));

const NOT_HELD: Result<(), Unasked> = Err(Unasked::NotBegun(NotBegun::NotHeld));

// Eight blocks and two queue pairs.
fn small() -> Result<Config, Fail> {
    Ok(Config::new(8, 1, 1, 0, 0, 2, 4, 4, 8)?)
}

// A disk of it with these slots, or why there is none.
fn made(alloc: Global, slba: u64, blocks: u32) -> Result<Result<SlotDisk, Unmade>, Fail> {
    Ok(SlotDisk::new(alloc, small()?, Range { slba, blocks }))
}

// What is answered where there is no disk with these slots.
fn refused(alloc: Global, slba: u64, blocks: u32) -> Result<Option<Unmade>, Fail> {
    match made(alloc, slba, blocks)? {
        Ok(_) => Ok(None),
        Err(why) => Ok(Some(why)),
    }
}

// The host does so.
fn does<R: Abort>(rt: &R, disk: &mut SlotDisk, host: u16, act: DiskAct) {
    match act {
        DiskAct::Claims(slot, want) => assert!(rt; disk.claim(host, slot) == want),
        DiskAct::Any(want) => assert!(rt; disk.claim_any(host) == want),
        DiskAct::Releases(slot, want) => assert!(rt; disk.release(host, slot) == want),
        DiskAct::Served => assert!(rt; disk.serve(host)),
        DiskAct::Polls(want) => assert!(rt; disk.poll(host) == want),
        DiskAct::Ends(want) => {
            assert!(rt; disk.poll(host) == Some(SlotTold::Pending));
            assert!(rt; disk.poll(host) == Some(want));
        }
        DiskAct::Has(slot, want) => assert!(rt; disk.has(host, slot) == want),
        DiskAct::Meets => assert!(rt; disk.meet().is_ok()),
    }
}

// They do so, one after the other.
fn play<R: Abort>(rt: &R, disk: &mut SlotDisk, acts: &[(u16, DiskAct)]) {
    for (host, act) in acts {
        does(rt, disk, *host, *act);
    }
}

// Hosts of a disk with these slots do so.
fn plays<R: Abort>(
    rt: &R,
    alloc: Global,
    slba: u64,
    blocks: u32,
    acts: &[(u16, DiskAct)],
) -> Result<(), Fail> {
    let Ok(mut disk) = made(alloc, slba, blocks)? else {
        return Err(Fail::from("a disk"));
    };
    play(rt, &mut disk, acts);
    Ok(())
}

// Both begin before either is served: who is served first has the slot, and the other one once it is free.
#[test]
fn one_of_two_hosts_has_a_slot(rt: HostRuntime) -> Result<(), Fail> {
    let acts = [
        (1, DiskAct::Claims(0, Ok(()))),
        (2, DiskAct::Claims(0, Ok(()))),
        (2, DiskAct::Served),
        (1, DiskAct::Served),
        (1, DiskAct::Meets),
        (1, DiskAct::Ends(SlotTold::Taken)),
        (1, DiskAct::Has(0, false)),
        (2, DiskAct::Has(0, false)),
        (2, DiskAct::Ends(SlotTold::Held(0))),
        (2, DiskAct::Has(0, true)),
        (1, DiskAct::Meets),
        (2, DiskAct::Releases(0, Ok(()))),
        (2, DiskAct::Has(0, false)),
        (1, DiskAct::Claims(0, Ok(()))),
        (2, DiskAct::Served),
        (1, DiskAct::Served),
        (2, DiskAct::Ends(SlotTold::Released)),
        (1, DiskAct::Ends(SlotTold::Held(0))),
        (1, DiskAct::Has(0, true)),
        (2, DiskAct::Meets),
        (1, DiskAct::Has(0, true)),
    ];
    plays(&rt, rt.alloc(), 3, 1, &acts)
}

// Any slot is claimed, from slot 0 on, until all are somebody's.
#[test]
fn slots_are_claimed_in_order(rt: HostRuntime) -> Result<(), Fail> {
    let acts = [
        (1, DiskAct::Any(Ok(()))),
        (1, DiskAct::Served),
        (1, DiskAct::Ends(SlotTold::Held(0))),
        (2, DiskAct::Any(Ok(()))),
        (2, DiskAct::Served),
        (2, DiskAct::Polls(Some(SlotTold::Pending))),
        (2, DiskAct::Polls(Some(SlotTold::Pending))),
        (2, DiskAct::Served),
        (2, DiskAct::Ends(SlotTold::Held(1))),
        (2, DiskAct::Has(0, false)),
        (2, DiskAct::Has(1, true)),
        (2, DiskAct::Meets),
    ];
    plays(&rt, rt.alloc(), 6, 2, &acts)
}

// What bars a call is told, the first that holds, and nothing changes by it.
#[test]
fn calls_that_are_barred_change_nothing(rt: HostRuntime) -> Result<(), Fail> {
    let acts = [
        (0, DiskAct::Claims(0, NO_HOST)),
        (3, DiskAct::Claims(0, NO_HOST)),
        (65535, DiskAct::Any(NO_HOST)),
        (3, DiskAct::Releases(0, NO_HOST)),
        (0, DiskAct::Polls(None)),
        (3, DiskAct::Polls(None)),
        (0, DiskAct::Has(0, false)),
        (3, DiskAct::Has(0, false)),
        (3, DiskAct::Served),
        (1, DiskAct::Polls(None)),
        (1, DiskAct::Claims(2, NO_SLOT)),
        (1, DiskAct::Releases(2, NO_SLOT)),
        (1, DiskAct::Releases(1, NOT_HELD)),
        (1, DiskAct::Has(2, false)),
        (1, DiskAct::Claims(1, Ok(()))),
        (1, DiskAct::Claims(2, IN_CALL)),
        (1, DiskAct::Any(IN_CALL)),
        (1, DiskAct::Releases(1, IN_CALL)),
        (1, DiskAct::Served),
        (1, DiskAct::Ends(SlotTold::Held(1))),
        (1, DiskAct::Polls(None)),
        (1, DiskAct::Claims(1, HELD)),
        (2, DiskAct::Releases(1, NOT_HELD)),
        (1, DiskAct::Has(1, true)),
        (1, DiskAct::Meets),
    ];
    plays(&rt, rt.alloc(), 0, 2, &acts)
}

// Slots lie within the volume, up to its last block.
#[test]
fn slots_beyond_the_volume_are_refused(rt: HostRuntime) -> Result<(), Fail> {
    let rows = [
        (0, 0, Some(Unmade::BadSlots)),
        (0, 8, None),
        (0, 9, Some(Unmade::BadSlots)),
        (7, 1, None),
        (7, 2, Some(Unmade::BadSlots)),
        (8, 1, Some(Unmade::BadSlots)),
        (8, 0, Some(Unmade::BadSlots)),
        (u64::MAX, 1, Some(Unmade::BadSlots)),
        (1, u32::MAX, Some(Unmade::BadSlots)),
    ];
    for (slba, blocks, want) in rows {
        assert!(rt; refused(rt.alloc(), slba, blocks)? == want);
    }
    Ok(())
}
