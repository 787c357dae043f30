//! Calls that may be refused memory, each made once where there is enough; and numbers of refusals.

use block_array::Volume;
use history::{Entry, History, ReapLine};
use job_table::{JobIndex, Jobs};
use nvme_model::array::{Mode, Range};
use nvme_model::refusal::Why;
use range_reserve::Ranges;
use std::alloc::{AllocError as NoMemory, Global};
use std::test::Fail;

/// How many blocks a new volume of three has, and whether the last one is zeros.
fn of_volume(alloc: Global) -> Result<(usize, bool), NoMemory> {
    let volume = Volume::new(alloc, 3)?;
    let is_zero = volume.len() == 3 && *volume.block(2) == [0; 512];
    Ok((volume.len(), is_zero))
}

/// Whether a new table of two tickets is empty, and whether it is full.
fn of_jobs(alloc: Global) -> Result<(bool, bool), NoMemory> {
    let jobs = Jobs::new(alloc, 2)?;
    Ok((jobs.is_empty(), jobs.is_full()))
}

/// How many tickets an index has, and the key of the one that was put into it.
fn of_index(alloc: Global) -> Result<(usize, usize), NoMemory> {
    let mut index = JobIndex::new(alloc, 2)?;
    index.push(7, 40);
    Ok((index.len(), index.key(0)))
}

/// What grants of one range are answered within room for two: shared, shared, and to one alone.
fn of_ranges(alloc: Global) -> Result<[Result<(), Why>; 3], NoMemory> {
    let mut ranges = Ranges::new(alloc);
    ranges.reserve(2)?;
    let range = Range { slba: 3, blocks: 2 };
    let first = ranges.grant(1, range, Mode::Shared);
    let second = ranges.grant(2, range, Mode::Shared);
    let third = ranges.grant(3, range, Mode::Exclusive);
    Ok([first, second, third])
}

/// How many entries a history has, where room for one was made and a hundred were added.
fn of_history(alloc: Global) -> Result<usize, NoMemory> {
    let mut history = History::new(alloc);
    history.reserve(1)?;
    for queue in 0..100 {
        let cqe = [0; 16];
        if history.push(Entry::Reap(ReapLine { queue, cqe })).is_err() {
            return Ok(0);
        }
    }
    Ok(history.len())
}

#[test]
fn calls_with_ample_memory(rt: HostRuntime) -> Result<(), Fail> {
    let alloc = rt.alloc();
    assert_eq!(rt; of_volume(alloc)?, (3, true));
    assert_eq!(rt; of_jobs(alloc)?, (true, false));
    assert_eq!(rt; of_index(alloc)?, (1, 40));
    assert_eq!(rt; of_ranges(alloc)?, [Ok(()), Ok(()), Err(Why::Conflict)]);
    assert_eq!(rt; of_history(alloc)?, 100);
    Ok(())
}

// The others stand behind `refused` in what scripts print.
#[test]
fn refusals_that_no_script_meets_have_numbers(rt: HostRuntime) {
    for (why, number) in [(Why::BadBatch, 10), (Why::NoMemory, 11), (Why::Busy, 12)] {
        assert_eq!(rt; why.number(), number);
    }
}
