//! A Write on one queue and a Read of its block on another one.

use crate::texts::explains;
use history::Config;
use std::test::Fail;

/// A Write of A1 to block 3, its completion; a Read of block 3, its completion.
pub(crate) const HISTORY: [&[u8]; 12] = [
    b"publish 1 01000100010000000000000000000000000000000000000000000000000000000000000000000000030000000000000000000000000000000000000000000000 A1",
    b"fetch 1 1 1 ok",
    b"grant 1 0 3 1 w",
    b"block 1 0 3 written *",
    b"post 1 00000000000000000100010001000100 -",
    b"reap 1 00000000000000000100010001000100",
    b"publish 2 02000200010000000000000000000000000000000000000000000000000000000000000000000000030000000000000000000000000000000000000000000000 -",
    b"fetch 2 2 1 ok",
    b"grant 2 0 3 1 r",
    b"block 2 0 3 read *",
    b"post 2 00000000000000000100020002000100 A1",
    b"reap 2 00000000000000000100020002000100",
];

/// What hosts saw of it.
const TRACE: [&[u8]; 4] = [
    b"publish 1 01000100010000000000000000000000000000000000000000000000000000000000000000000000030000000000000000000000000000000000000000000000 A1",
    b"reap 1 00000000000000000100010001000100 -",
    b"publish 2 02000200010000000000000000000000000000000000000000000000000000000000000000000000030000000000000000000000000000000000000000000000 -",
    b"reap 2 00000000000000000100020002000100 A1",
];

/// The same, but that the Read found what was there before the Write.
const STALE: &[u8] = b"reap 2 00000000000000000100020002000100 -";

fn config() -> Result<Config, Fail> {
    Ok(Config::new(8, 1, 1, 0, 0, 2, 4, 4, 8)?)
}

#[test]
fn a_history_explains_what_was_seen_of_it(rt: HostRuntime) -> Result<(), Fail> {
    assert!(rt; explains(rt.alloc(), &config()?, &HISTORY, &TRACE)?);
    Ok(())
}

#[test]
fn no_entry_explains_an_empty_trace(rt: HostRuntime) -> Result<(), Fail> {
    assert!(rt; explains(rt.alloc(), &config()?, &HISTORY[..0], &TRACE[..0])?);
    Ok(())
}

#[test]
fn a_history_explains_no_beginning_and_no_longer_trace(rt: HostRuntime) -> Result<(), Fail> {
    let config = config()?;
    assert!(rt; !explains(rt.alloc(), &config, &HISTORY, &TRACE[..3])?);
    assert!(rt; !explains(rt.alloc(), &config, &HISTORY[..11], &TRACE)?);
    Ok(())
}

#[test]
fn a_history_that_is_not_legal_explains_nothing(rt: HostRuntime) -> Result<(), Fail> {
    let config = config()?;
    assert!(rt; !explains(rt.alloc(), &config, &HISTORY[1..], &TRACE[1..])?);
    assert!(rt; explains(rt.alloc(), &config, &HISTORY[..5], &TRACE[..1])?);
    Ok(())
}

#[test]
fn the_data_of_a_read_is_compared(rt: HostRuntime) -> Result<(), Fail> {
    let stale = [TRACE[0], TRACE[1], TRACE[2], STALE];
    assert!(rt; !explains(rt.alloc(), &config()?, &HISTORY, &stale)?);
    Ok(())
}

#[test]
fn lines_of_two_queues_are_in_one_order(rt: HostRuntime) -> Result<(), Fail> {
    let swapped = [TRACE[0], TRACE[2], TRACE[1], TRACE[3]];
    assert!(rt; !explains(rt.alloc(), &config()?, &HISTORY, &swapped)?);
    Ok(())
}
