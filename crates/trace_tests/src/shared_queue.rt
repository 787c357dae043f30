//! Two submission queues that share one completion queue of two slots, which holds one completion.

use crate::texts::explains;
use history::Config;
use std::test::Fail;

/// A Write of B2 to block 4; two Reads in one Publish, of which the second is answered first.
const HISTORY: [&[u8]; 17] = [
    b"publish 1 01000300010000000000000000000000000000000000000000000000000000000000000000000000040000000000000000000000000000000000000000000000 B2",
    b"fetch 1 1 1 ok",
    b"grant 1 0 4 1 w",
    b"block 1 0 4 written *",
    b"post 1 00000000000000000100010003000100 -",
    b"publish 2 02000100010000000000000000000000000000000000000000000000000000000000000000000000030000000000000000000000000000000000000000000000 - + 02000200010000000000000000000000000000000000000000000000000000000000000000000000040000000000000000000000000000000000000000000000 -",
    b"fetch 2 2 1 ok",
    b"fetch 2 3 1 ok",
    b"grant 2 0 3 1 r",
    b"block 2 0 3 read *",
    b"grant 3 0 4 1 r",
    b"block 3 0 4 read *",
    b"reap 1 00000000000000000100010003000100",
    b"post 3 00000000000000000200020002000100 B2",
    b"reap 1 00000000000000000200020002000100",
    b"post 2 00000000000000000200020001000000 00",
    b"reap 1 00000000000000000200020001000000",
];

/// What hosts saw of it.
const TRACE: [&[u8]; 5] = [
    b"publish 1 01000300010000000000000000000000000000000000000000000000000000000000000000000000040000000000000000000000000000000000000000000000 B2",
    b"publish 2 02000100010000000000000000000000000000000000000000000000000000000000000000000000030000000000000000000000000000000000000000000000 - + 02000200010000000000000000000000000000000000000000000000000000000000000000000000040000000000000000000000000000000000000000000000 -",
    b"reap 1 00000000000000000100010003000100 -",
    b"reap 1 00000000000000000200020002000100 B2",
    b"reap 1 00000000000000000200020001000000 00",
];

/// The entries of the second Publish, one by one.
const APART: [&[u8]; 2] = [
    b"publish 2 02000100010000000000000000000000000000000000000000000000000000000000000000000000030000000000000000000000000000000000000000000000 -",
    b"publish 2 02000200010000000000000000000000000000000000000000000000000000000000000000000000040000000000000000000000000000000000000000000000 -",
];

/// The completion of the first Read with the data of the second one, which was posted before it.
const OTHER_DATA: &[u8] = b"reap 1 00000000000000000200020001000000 B2";

fn config() -> Result<Config, Fail> {
    Ok(Config::with_cqs(8, 1, 1, 0, 0, 2, 4, 2, 8, 1)?)
}

#[test]
fn each_reap_has_the_data_of_its_own_post(rt: HostRuntime) -> Result<(), Fail> {
    assert!(rt; explains(rt.alloc(), &config()?, &HISTORY, &TRACE)?);
    Ok(())
}

#[test]
fn no_reap_has_the_data_of_another_post(rt: HostRuntime) -> Result<(), Fail> {
    let other = [TRACE[0], TRACE[1], TRACE[2], TRACE[3], OTHER_DATA];
    assert!(rt; !explains(rt.alloc(), &config()?, &HISTORY, &other)?);
    Ok(())
}

#[test]
fn a_batch_is_one_line(rt: HostRuntime) -> Result<(), Fail> {
    let apart = [TRACE[0], APART[0], APART[1], TRACE[2], TRACE[3], TRACE[4]];
    assert!(rt; !explains(rt.alloc(), &config()?, &HISTORY, &apart)?);
    Ok(())
}
