//! Entries beside the discipline of slots, whose area is blocks 3 and 4.

use crate::texts::entries_of;
use history::Config;
use nvme_model::array::Range;
use slot_check::{AreaCheck, BrokenDiscipline};
use std::alloc::Global;
use std::test::Fail;

// What is said of the last of these lines.
fn said(alloc: Global, lines: &[&[u8]]) -> Result<Option<BrokenDiscipline>, Fail> {
    let config = Config::new(8, 1, 1, 0, 0, 3, 4, 4, 8)?;
    let slots = Range { slba: 3, blocks: 2 };
    let mut area = AreaCheck::new(alloc, &config, slots);
    let entries = entries_of(alloc, lines)?;
    let mut last: Option<BrokenDiscipline> = None;
    for entry in entries.as_slice() {
        last = area.take(entry)?;
    }
    Ok(last)
}

// A line with the name of host 1 and serial 1 between these texts.
fn named(alloc: Global, front: &[u8], behind: &[u8]) -> Result<Vec<u8>, Fail> {
    let mut line = Vec::new(alloc);
    line.extend_from_slice(front)?;
    line.extend_from_slice(b"01000000000000000100000000000000")?;
    for _ in 0..496 {
        line.extend_from_slice(b"00")?;
    }
    line.extend_from_slice(behind)?;
    Ok(line)
}

// A Write of A1 to block 2, 4 or 5.
const BELOW: &[u8] =
    b"publish 1 01000100010000000000000000000000000000000000000000000000000000000000000000000000020000000000000000000000000000000000000000000000 A1";

const WITHIN: &[u8] =
    b"publish 1 01000100010000000000000000000000000000000000000000000000000000000000000000000000040000000000000000000000000000000000000000000000 A1";

const ABOVE: &[u8] =
    b"publish 1 01000100010000000000000000000000000000000000000000000000000000000000000000000000050000000000000000000000000000000000000000000000 A1";

// A claim of block 3 on submission queue 1 or 2, up to its name; a release, up to the name and behind it.
const CLAIM: &[u8] =
    b"publish 1 05010700010000000000000000000000000000000000000000000000000000000000000000000000030000000000000000000000000000000000000000000000 00 + 01020800010000000000000000000000000000000000000000000000000000000000000000000000030000000000000000000000000000000000000000000000 ";

const SECOND: &[u8] =
    b"publish 2 05010700010000000000000000000000000000000000000000000000000000000000000000000000030000000000000000000000000000000000000000000000 00 + 01020800010000000000000000000000000000000000000000000000000000000000000000000000030000000000000000000000000000000000000000000000 ";

const RELEASE: &[u8] =
    b"publish 2 05010700010000000000000000000000000000000000000000000000000000000000000000000000030000000000000000000000000000000000000000000000 ";

const FREED: &[u8] =
    b" + 01020800010000000000000000000000000000000000000000000000000000000000000000000000030000000000000000000000000000000000000000000000 00";

#[test]
fn a_write_in_the_area_is_no_swap(rt: HostRuntime) -> Result<(), Fail> {
    let alloc = rt.alloc();
    assert_eq!(rt; said(alloc, &[WITHIN])?, Some(BrokenDiscipline::NoSwap(4)));
    assert_eq!(rt; said(alloc, &[BELOW, ABOVE])?, None);
    Ok(())
}

#[test]
fn a_name_is_claimed_once_and_released_by_who_believes(rt: HostRuntime) -> Result<(), Fail> {
    let alloc = rt.alloc();
    let claim = named(alloc, CLAIM, b"")?;
    let second = named(alloc, SECOND, b"")?;
    let release = named(alloc, RELEASE, FREED)?;
    assert_eq!(rt; said(alloc, &[&claim])?, None);
    let twice = Some(BrokenDiscipline::ClaimedTwice(3));
    assert_eq!(rt; said(alloc, &[&claim, &second])?, twice);
    let unbelieved = Some(BrokenDiscipline::Unbelieved(3));
    assert_eq!(rt; said(alloc, &[&claim, &release])?, unbelieved);
    Ok(())
}

// How a claim on submission queue 1 is served and reaped.
const FETCHED: &[u8] = b"fetch 1 1 2 ok";

const FIRST: &[u8] = b"post 1 00000000000000000200010007000100 -";

const POSTED: &[u8] = b"post 1 00000000000000000200010008000100 -";

const COMPARED: &[u8] = b"reap 1 00000000000000000200010007000100";

const WON: &[u8] = b"reap 1 00000000000000000200010008000100";

#[test]
fn a_release_stands_on_the_queue_of_its_claim(rt: HostRuntime) -> Result<(), Fail> {
    let alloc = rt.alloc();
    let claim = named(alloc, CLAIM, b"")?;
    let release = named(alloc, RELEASE, FREED)?;
    let lines: [&[u8]; 7] = [&claim, FETCHED, FIRST, POSTED, COMPARED, WON, &release];
    let other = Some(BrokenDiscipline::OtherQueue(3));
    assert_eq!(rt; said(alloc, &lines)?, other);
    Ok(())
}
