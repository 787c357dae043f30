//! Takeovers beside the discipline of slots: hosts 1, 2 and 3 with a queue pair each, and the slot at block 3.

use history::{Config, parse_line};
use nvme_model::array::Range;
use slot_check::{AreaCheck, BrokenDiscipline};
use std::alloc::Global;
use std::test::Fail;

// Up to its data, a Compare of block 3 with FUSE 01b, and a Write of it with FUSE 10b.
const COMPARE: &[u8] =
    b" 05010700010000000000000000000000000000000000000000000000000000000000000000000000030000000000000000000000000000000000000000000000 ";

const WRITE: &[u8] =
    b" + 01020800010000000000000000000000000000000000000000000000000000000000000000000000030000000000000000000000000000000000000000000000 ";

// Nobody's block, and what the names of hosts 1, 2 and 3 with serial 1 begin with.
const FREE: &[u8] = b"00";

const ONE: &[u8] = b"01000000000000000100000000000000";

const TWO: &[u8] = b"02000000000000000100000000000000";

const THREE: &[u8] = b"03000000000000000100000000000000";

// Adds the block of a name, or nobody's.
fn add_block(line: &mut Vec<u8>, name: &[u8]) -> Result<(), Fail> {
    line.extend_from_slice(name)?;
    if name.len() > 2 {
        for _ in 0..496 {
            line.extend_from_slice(FREE)?;
        }
    }
    Ok(())
}

// The Publish of a pair on this queue: from the one block to the other.
fn pair(alloc: Global, queue: &[u8], old: &[u8], new: &[u8]) -> Result<Vec<u8>, Fail> {
    let mut line = Vec::new(alloc);
    line.extend_from_slice(b"publish ")?;
    line.extend_from_slice(queue)?;
    line.extend_from_slice(COMPARE)?;
    add_block(&mut line, old)?;
    line.extend_from_slice(WRITE)?;
    add_block(&mut line, new)?;
    Ok(line)
}

// How the first, the second and the third ticket are served and reaped: tickets 1, 2 and 3 on queues 1, 2 and 3.
const FIRST: [&[u8]; 8] = [
    b"fetch 1 1 2 ok",
    b"grant 1 0 3 1 w",
    b"block 1 0 3 equal *",
    b"block 1 0 3 written -",
    b"post 1 00000000000000000200010007000100 -",
    b"post 1 00000000000000000200010008000100 -",
    b"reap 1 00000000000000000200010007000100",
    b"reap 1 00000000000000000200010008000100",
];

const SECOND: [&[u8]; 8] = [
    b"fetch 2 2 2 ok",
    b"grant 2 0 3 1 w",
    b"block 2 0 3 equal *",
    b"block 2 0 3 written -",
    b"post 2 00000000000000000200020007000100 -",
    b"post 2 00000000000000000200020008000100 -",
    b"reap 2 00000000000000000200020007000100",
    b"reap 2 00000000000000000200020008000100",
];

const LATE: [&[u8]; 7] = [
    b"fetch 3 3 2 ok",
    b"grant 3 0 3 1 w",
    b"block 3 0 3 differs *",
    b"post 3 00000000000000000200030007000B05 -",
    b"post 3 00000000000000000200030008001300 -",
    b"reap 3 00000000000000000200030007000B05",
    b"reap 3 00000000000000000200030008001300",
];

// Gives the entry of a line to the check, and says which rule it breaks.
fn take_line(
    alloc: Global,
    area: &mut AreaCheck,
    line: &[u8],
) -> Result<Option<BrokenDiscipline>, Fail> {
    let Ok(entry) = parse_line(alloc, line) else {
        return Err(Fail::from("not read"));
    };
    Ok(area.take(&entry)?)
}

fn take_lines(alloc: Global, area: &mut AreaCheck, lines: &[&[u8]]) -> Result<(), Fail> {
    for line in lines {
        take_line(alloc, area, *line)?;
    }
    Ok(())
}

// Host 1 claims the slot, and is served and reaped.
fn claimed(alloc: Global, area: &mut AreaCheck) -> Result<(), Fail> {
    let claim = pair(alloc, b"1", FREE, ONE)?;
    take_line(alloc, area, claim.as_slice())?;
    take_lines(alloc, area, &FIRST)
}

// Host 2 takes it over besides.
fn taken_over(alloc: Global, area: &mut AreaCheck) -> Result<(), Fail> {
    claimed(alloc, area)?;
    let takeover = pair(alloc, b"2", ONE, TWO)?;
    take_line(alloc, area, takeover.as_slice())?;
    take_lines(alloc, area, &SECOND)
}

// A check of the slot that has seen nothing.
fn new_check(alloc: Global) -> Result<AreaCheck, Fail> {
    let config = Config::new(8, 1, 1, 0, 0, 3, 4, 4, 8)?;
    Ok(AreaCheck::new(alloc, &config, Range { slba: 3, blocks: 2 }))
}

// What is said of the last Publish behind host 1's claim and these lines.
fn said_behind(
    alloc: Global,
    lines: &[&[u8]],
    last: &[u8],
) -> Result<Option<BrokenDiscipline>, Fail> {
    let mut area = new_check(alloc)?;
    claimed(alloc, &mut area)?;
    take_lines(alloc, &mut area, lines)?;
    take_line(alloc, &mut area, last)
}

// The same where host 2 took the slot over besides.
fn said_behind_takeover(
    alloc: Global,
    lines: &[&[u8]],
    last: &[u8],
) -> Result<Option<BrokenDiscipline>, Fail> {
    let mut area = new_check(alloc)?;
    taken_over(alloc, &mut area)?;
    take_lines(alloc, &mut area, lines)?;
    take_line(alloc, &mut area, last)
}

#[test]
fn a_survivor_takes_a_slot_over_and_gives_it_back(rt: HostRuntime) -> Result<(), Fail> {
    let alloc = rt.alloc();
    let takeover = pair(alloc, b"2", ONE, TWO)?;
    let back = pair(alloc, b"2", TWO, FREE)?;
    assert_eq!(rt; said_behind(alloc, &[], &takeover)?, None);
    assert_eq!(rt; said_behind_takeover(alloc, &[], &back)?, None);
    Ok(())
}

#[test]
fn a_host_that_was_only_slow_is_found(rt: HostRuntime) -> Result<(), Fail> {
    let alloc = rt.alloc();
    let takeover = pair(alloc, b"2", ONE, TWO)?;
    let release = pair(alloc, b"1", ONE, FREE)?;
    let taken = Some(BrokenDiscipline::TakenOver(3));
    assert_eq!(rt; said_behind_takeover(alloc, &[], &release)?, taken);
    let cut = Some(BrokenDiscipline::CutOff(3));
    assert_eq!(rt; said_behind(alloc, &[&takeover], &release)?, cut);
    Ok(())
}

#[test]
fn a_takeover_is_from_a_holder_of_another_queue(rt: HostRuntime) -> Result<(), Fail> {
    let alloc = rt.alloc();
    let own = pair(alloc, b"1", ONE, TWO)?;
    let owned = Some(BrokenDiscipline::OwnQueue(3));
    assert_eq!(rt; said_behind(alloc, &[], &own)?, owned);
    let nobodys = pair(alloc, b"3", TWO, THREE)?;
    let never = Some(BrokenDiscipline::NeverGiven(3));
    assert_eq!(rt; said_behind(alloc, &[], &nobodys)?, never);
    let again = pair(alloc, b"2", ONE, TWO)?;
    let twice = Some(BrokenDiscipline::ClaimedTwice(3));
    assert_eq!(rt; said_behind_takeover(alloc, &[], &again)?, twice);
    Ok(())
}

#[test]
fn of_two_survivors_one_has_the_slot(rt: HostRuntime) -> Result<(), Fail> {
    let alloc = rt.alloc();
    let late = pair(alloc, b"3", ONE, THREE)?;
    let mut lines: Vec<&[u8]> = Vec::new(alloc);
    lines.push(late.as_slice())?;
    for line in LATE {
        lines.push(line)?;
    }
    let back = pair(alloc, b"2", TWO, FREE)?;
    assert_eq!(rt; said_behind_takeover(alloc, &[], &late)?, None);
    assert_eq!(rt; said_behind_takeover(alloc, lines.as_slice(), &back)?, None);
    let unbelieved = Some(BrokenDiscipline::Unbelieved(3));
    let none = pair(alloc, b"3", THREE, FREE)?;
    assert_eq!(rt;
        said_behind_takeover(alloc, lines.as_slice(), &none)?,
        unbelieved
    );
    Ok(())
}

// A Compare with zeros makes a claim: it is no takeover, and host 1 isn't cut off.
#[test]
fn a_claim_of_a_held_slot_takes_nothing_over(rt: HostRuntime) -> Result<(), Fail> {
    let alloc = rt.alloc();
    let claim = pair(alloc, b"2", FREE, TWO)?;
    let release = pair(alloc, b"1", ONE, FREE)?;
    assert_eq!(rt; said_behind(alloc, &[&claim], &release)?, None);
    Ok(())
}
