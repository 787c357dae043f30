//! Texts of refutations: what is read of them, and which line is bad.

use refutation::{Refutation, RefutationFault, read_refutation, write_refutation};
use std::alloc::Global;
use std::test::Fail;

/// The first bad line of a text; 0 where each line is good, or memory ran out.
fn bad_line(alloc: Global, text: &[u8]) -> u64 {
    match read_refutation(alloc, text) {
        Err(RefutationFault::BadLine(number)) => number,
        Ok(_) | Err(RefutationFault::NoMemory) => 0,
    }
}

/// Whether a text is read, and written as it was.
fn is_written_back(alloc: Global, text: &[u8]) -> Result<bool, Fail> {
    let Ok(refutation) = read_refutation(alloc, text) else {
        return Ok(false);
    };
    let mut again: Vec<u8> = Vec::new(alloc);
    write_refutation(&refutation, &mut again)?;
    Ok(again.as_slice() == text)
}

#[test]
fn texts_are_written_back(rt: HostRuntime) -> Result<(), Fail> {
    let alloc = rt.alloc();
    for text in [
        b"refutation\nlines 1\n".as_slice(),
        b"refutation\nlines 412\nblock 3\ncommand 1 40\ncommand 2 17\n".as_slice(),
        b"refutation\nlines 0\nblock 0\nblock 18446744073709551615\n".as_slice(),
        b"refutation\nlines 9\ncommand 0 0\ncommand 0 18446744073709551615\ncommand 65535 0\n".as_slice(),
    ] {
        assert!(rt; is_written_back(alloc, text)?);
    }
    Ok(())
}

#[test]
fn first_lines_that_are_bad(rt: HostRuntime) {
    let alloc = rt.alloc();
    assert_eq!(rt; bad_line(alloc, b""), 1);
    assert_eq!(rt; bad_line(alloc, b"refutation"), 1);
    assert_eq!(rt; bad_line(alloc, b"Refutation\nlines 1\n"), 1);
    assert_eq!(rt; bad_line(alloc, b"refutation\n"), 2);
    assert_eq!(rt; bad_line(alloc, b"refutation\nlines 1"), 2);
    assert_eq!(rt; bad_line(alloc, b"refutation\nlines 01\n"), 2);
    assert_eq!(rt;
        bad_line(alloc, b"refutation\nlines 18446744073709551616\n"),
        2
    );
    assert_eq!(rt; bad_line(alloc, b"refutation\nblock 1\n"), 2);
}

#[test]
fn later_lines_that_are_bad(rt: HostRuntime) {
    let alloc = rt.alloc();
    assert_eq!(rt; bad_line(alloc, b"refutation\nlines 4\n\n"), 3);
    assert_eq!(rt; bad_line(alloc, b"refutation\nlines 4\nlines 4\n"), 3);
    assert_eq!(rt; bad_line(alloc, b"refutation\nlines 4\nblock  1\n"), 3);
    assert_eq!(rt; bad_line(alloc, b"refutation\nlines 4\nblock 1"), 3);
    assert_eq!(rt;
        bad_line(alloc, b"refutation\nlines 4\nblock 1\nblock 1\n"),
        4
    );
    assert_eq!(rt;
        bad_line(alloc, b"refutation\nlines 4\nblock 2\nblock 1\n"),
        4
    );
    assert_eq!(rt;
        bad_line(alloc, b"refutation\nlines 4\ncommand 1 1\nblock 1\n"),
        4
    );
    assert_eq!(rt;
        bad_line(alloc, b"refutation\nlines 4\ncommand 1 1\ncommand 1 1\n"),
        4
    );
    assert_eq!(rt;
        bad_line(alloc, b"refutation\nlines 4\ncommand 2 1\ncommand 1 2\n"),
        4
    );
    assert_eq!(rt;
        bad_line(alloc, b"refutation\nlines 4\ncommand 65536 1\n"),
        3
    );
    assert_eq!(rt; bad_line(alloc, b"refutation\nlines 4\ncommand 1 1 \n"), 3);
}

#[test]
fn what_may_not_stand_there_is_not_added(rt: HostRuntime) -> Result<(), Fail> {
    let alloc = rt.alloc();
    let mut refutation = Refutation::of_lines(alloc, 7);
    assert!(rt; refutation.add_block(5)?);
    assert!(rt; !refutation.add_block(5)?);
    assert!(rt; refutation.add_command(2, 9)?);
    assert!(rt; !refutation.add_command(2, 9)?);
    assert!(rt; !refutation.add_block(6)?);
    assert_eq!(rt; refutation.lines(), 7);
    assert_eq!(rt; refutation.blocks(), [5].as_slice());
    assert_eq!(rt; refutation.commands(), [(2, 9)].as_slice());
    Ok(())
}
