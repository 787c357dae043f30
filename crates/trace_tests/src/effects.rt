//! What a trace tells of two Writes of submission queue 1, the first of block 3, which ended, and the second behind it.

use crate::reading::{config, read_trace};
use nvme_model::array::Range;
use refutation_check::{TraceAnswers, is_sure, told_units};
use std::test::Fail;

const FIRST: &[u8] =
    b"publish 1 01000500010000000000000000000000000000000000000000000000000000000000000000000000030000000000000000000000000000000000000000000000 A1";

const ENDED: &[u8] = b"reap 1 00000000000000000100010005000100 -";

// It writes block 8, which the volume doesn't have.
const SECOND: &[u8] =
    b"publish 1 01000600010000000000000000000000000000000000000000000000000000000000000000000000080000000000000000000000000000000000000000000000 A2";

#[test]
fn units_of_the_volume_alone(rt: HostRuntime) -> Result<(), Fail> {
    let alloc = rt.alloc();
    let config = config()?;
    let trace = read_trace(alloc, &[FIRST, ENDED, SECOND])?;
    let tables = TraceAnswers::of_trace(alloc, trace.as_slice())?;
    let first = told_units(alloc, &config, &tables, trace.as_slice(), 1, 0)?;
    assert_eq!(rt; first.len(), 1);
    assert_eq!(rt; first[0], Range { slba: 3, blocks: 1 });
    assert!(rt; told_units(alloc, &config, &tables, trace.as_slice(), 1, 1)?.is_empty());
    assert!(rt; told_units(alloc, &config, &tables, trace.as_slice(), 1, 2)?.is_empty());
    Ok(())
}

#[test]
fn what_ended_is_sure(rt: HostRuntime) -> Result<(), Fail> {
    let alloc = rt.alloc();
    let config = config()?;
    let trace = read_trace(alloc, &[FIRST, ENDED, SECOND])?;
    let tables = TraceAnswers::of_trace(alloc, trace.as_slice())?;
    assert!(rt; is_sure(alloc, &config, &tables, trace.as_slice(), 1, 0, 0)?);
    assert!(rt; !is_sure(alloc, &config, &tables, trace.as_slice(), 1, 0, 1)?);
    assert!(rt; !is_sure(alloc, &config, &tables, trace.as_slice(), 1, 1, 0)?);
    Ok(())
}
