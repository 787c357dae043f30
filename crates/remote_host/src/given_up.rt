//! Calls that are given up: their CIDs stay in use until their completions came.

use crate::carried::{Told, brings, good, host_of, polled};
use crate::host::RemoteHost;
use crate::polled::{NotGivenUp, Waiting};
use driver_cas::Fault;
use std::alloc::Global;
use std::test::Fail;

/// A host whose 64 CIDs are in use by 62 Reads and a Compare and Write, with the numbers 0 to 62. That of CID 5 and the
/// pair, of CIDs 62 and 63, are given up.
fn host_that_gave_up(alloc: Global) -> Result<RemoteHost, Fail> {
    let mut host = host_of(alloc)?;
    for number in 0..62 {
        if host.start_read(0, 1) != Ok(number) {
            return Err(Fail::from("another number, or none"));
        }
    }
    if host.start_compare_and_write(8, &[0xc3; 512], &[0xd4; 512]) != Ok(62) {
        return Err(Fail::from("another number, or none"));
    }
    if host.give_up(5) != Ok(()) || host.give_up(62) != Ok(()) {
        return Err(Fail::from("not given up"));
    }
    Ok(host)
}

/// What comes of a number that was given up, and of one that no call had; and of the next call.
fn asked_again(
    alloc: Global,
) -> Result<([Result<(), NotGivenUp>; 2], Told, Result<u32, Fault>), Fail> {
    let mut host = host_that_gave_up(alloc)?;
    let again = [host.give_up(5), host.give_up(99)];
    let told = polled(&mut host, 5);
    Ok((again, told, host.start_read(0, 1)))
}

#[test]
fn a_call_given_up_keeps_its_cids(rt: HostRuntime) -> Result<(), Fail> {
    let (again, told, begun) = asked_again(rt.alloc())?;
    assert_eq!(rt; again, [Err(NotGivenUp::NoCall), Err(NotGivenUp::NoCall)]);
    assert_eq!(rt; told, Told::Nobody);
    assert_eq!(rt; begun, Err(Fault::RingFull));
    Ok(())
}

/// Whether one more Read begins.
fn begins(host: &mut RemoteHost) -> bool {
    host.start_read(0, 1).is_ok()
}

/// How many calls a host waits for at first, behind the polls that took the pair's two completions, and behind the one
/// that took the Read's. And of four Reads then, whether each begins.
fn until_it_came(alloc: Global) -> Result<([Waiting; 3], [bool; 4]), Fail> {
    let mut host = host_that_gave_up(alloc)?;
    let first = host.waiting();
    if !(brings(alloc, &mut host, good(63), &[]) && brings(alloc, &mut host, good(62), &[])) {
        return Err(Fail::from("no memory"));
    }
    // The Read has its turn, and then the pair; each reaps one.
    let _ = (polled(&mut host, 62), polled(&mut host, 62));
    let second = host.waiting();
    if !brings(alloc, &mut host, good(5), &[0xa1; 512]) {
        return Err(Fail::from("no memory"));
    }
    let _ = polled(&mut host, 62);
    let third = host.waiting();
    let begun = [
        begins(&mut host),
        begins(&mut host),
        begins(&mut host),
        begins(&mut host),
    ];
    Ok(([first, second, third], begun))
}

fn waiting(given_up: usize) -> Waiting {
    Waiting {
        calls: 61,
        given_up,
    }
}

#[test]
fn a_completion_frees_the_cids_of_a_call_given_up(rt: HostRuntime) -> Result<(), Fail> {
    let (waited, begun) = until_it_came(rt.alloc())?;
    assert_eq!(rt; waited, [waiting(2), waiting(1), waiting(0)]);
    assert_eq!(rt; begun, [true, true, true, false]);
    Ok(())
}
