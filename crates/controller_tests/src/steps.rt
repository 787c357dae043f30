//! A controller by calls: promised steps, many in one call, and steps behind some that it forgot. What each step does
//! is told by contracts, and shown by scripts.

use history::{Config, write_line};
use nvme_model::submission::{Payload, Submission};
use std::alloc::{AllocError, Global};
use std::process::Abort;
use std::test::Fail;
use step_core::{Core, Step, Submissions};

// The opcodes of a Write and of a Read.
const WRITE: u8 = 1;

const READ: u8 = 2;

/// The history of the steps: the Read beside the Write finds its first unit written, and its second one not yet.
const LINES: [&[u8]; 14] = [
    b"publish 1 01000100010000000000000000000000000000000000000000000000000000000000000000000000000000000000000003000000000000000000000000000000 A1.A1.A1.A1",
    b"publish 2 02000200010000000000000000000000000000000000000000000000000000000000000000000000000000000000000003000000000000000000000000000000 -",
    b"fetch 1 1 1 ok",
    b"fetch 2 2 1 ok",
    b"grant 1 0 0 2 w",
    b"block 1 0 0 written *",
    b"block 1 0 1 written -",
    b"grant 2 0 0 2 r",
    b"block 2 0 0 read -",
    b"block 2 0 1 read *",
    b"grant 2 1 2 2 r",
    b"block 2 1 2 read -",
    b"block 2 1 3 read *",
    b"post 2 00000000000000000100020002000100 A1.A1.00.00",
];

/// One command of four blocks from block 0, with its opcode, CID and data.
fn batch(alloc: Global, opcode: u8, cid: u8, data: &[u8]) -> Result<Submissions, AllocError> {
    let mut entry = [0; 64];
    entry[0] = opcode;
    entry[2] = cid;
    entry[4] = 1;
    entry[48] = 3;
    let payload = Payload::copy_of(alloc, data)?;
    let mut items = Vec::new(alloc);
    items.push(Submission { entry, payload })?;
    Ok(Submissions::new(items))
}

/// A Write of four blocks and a Read of the same ones, each fetched; then a unit of two blocks of the Write, both units
/// of the Read, and the Read's completion.
fn fourteen_steps(alloc: Global) -> Result<Vec<Step>, AllocError> {
    let mut steps = Vec::new(alloc);
    let write = batch(alloc, WRITE, 1, &[0xa1; 2048])?;
    steps.push(Step::Publish(1, write))?;
    steps.push(Step::Publish(2, batch(alloc, READ, 2, &[])?))?;
    steps.push(Step::Fetch(1))?;
    steps.push(Step::Fetch(2))?;
    for ticket in [1, 2, 2] {
        steps.push(Step::Grant(ticket))?;
        steps.push(Step::Block(ticket))?;
        steps.push(Step::Block(ticket))?;
    }
    steps.push(Step::Post(2))?;
    Ok(steps)
}

/// Promises as many steps, and makes them, each of which is accepted.
fn run(
    rt: &impl Abort,
    alloc: Global,
    core: &mut Core,
    steps: Vec<Step>,
) -> Result<(), AllocError> {
    let count = steps.len();
    core.reserve(count)?;
    let mut out = Vec::new(alloc);
    let is_run = core.run_steps(steps, &mut out).is_ok();
    assert!(rt; is_run && out.len() == count && out.iter().all(|answer| answer.is_ok()));
    Ok(())
}

/// That these are the lines of its history.
fn has_lines(rt: &impl Abort, alloc: Global, core: &Core, lines: &[&[u8]]) -> Result<(), Fail> {
    let entries = core.history().as_slice();
    assert_eq!(rt; entries.len(), lines.len());
    for (entry, line) in entries.iter().zip(lines.iter()) {
        let mut text = Vec::new(alloc);
        write_line(entry, &mut text)?;
        assert_eq!(rt; text.as_slice(), *line);
    }
    Ok(())
}

/// A controller of eight blocks, two queues, and units of at most two blocks.
fn small(alloc: Global) -> Result<Core, Fail> {
    let config = Config::new(8, 1, 1, 0, 0, 2, 4, 4, 8)?;
    Ok(Core::new(alloc, config)?)
}

// The steps on a controller, and its history.
fn makes_history(rt: &impl Abort, alloc: Global, core: &mut Core) -> Result<(), Fail> {
    run(rt, alloc, core, fourteen_steps(alloc)?)?;
    has_lines(rt, alloc, core, &LINES)
}

#[test]
fn promised_steps_in_one_call(rt: HostRuntime) -> Result<(), Fail> {
    let mut core = small(rt.alloc())?;
    makes_history(&rt, rt.alloc(), &mut core)
}

// Makes half of the steps, forgets what stands before these places, one after the other, and makes the rest.
fn forgets_between(
    rt: &impl Abort,
    alloc: Global,
    core: &mut Core,
    places: &[usize],
) -> Result<(), Fail> {
    let mut steps = fourteen_steps(alloc)?;
    let mut rest = Vec::new(alloc);
    for _place in 7..LINES.len() {
        rest.push(steps.pop().ok_or("a step")?)?;
    }
    rest.reverse();
    run(rt, alloc, core, steps)?;
    for place in places {
        core.forget(*place);
    }
    run(rt, alloc, core, rest)?;
    Ok(())
}

// That so many lines are then forgotten, and the others are as without it, each at its place.
fn keeps_from(
    rt: &impl Abort,
    alloc: Global,
    places: &[usize],
    forgotten: usize,
) -> Result<(), Fail> {
    let mut core = small(alloc)?;
    forgets_between(rt, alloc, &mut core, places)?;
    let history = core.history();
    assert_eq!(rt;
        (history.len(), history.forgotten()),
        (LINES.len(), forgotten)
    );
    assert!(rt; history.get(forgotten).is_some() && history.last().is_some());
    assert!(rt; forgotten == 0 || history.get(forgotten.saturating_sub(1)).is_none());
    assert!(rt; history.whole().is_some() == (forgotten == 0));
    has_lines(rt, alloc, &core, &LINES[forgotten.min(LINES.len())..])
}

#[test]
fn what_stands_before_a_place_is_forgotten(rt: HostRuntime) -> Result<(), Fail> {
    let alloc = rt.alloc();
    keeps_from(&rt, alloc, &[0], 0)?;
    keeps_from(&rt, alloc, &[3], 3)?;
    keeps_from(&rt, alloc, &[7], 7)?;
    keeps_from(&rt, alloc, &[usize::MAX], 7)?;
    keeps_from(&rt, alloc, &[5, 2], 5)?;
    keeps_from(&rt, alloc, &[2, 5], 5)
}
