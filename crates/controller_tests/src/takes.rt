//! A checker by calls, one entry after the other.

use history::{Config, parse_line};
use history_check::Checker;
use std::alloc::Global;
use std::test::Fail;

/// The lines of a Write of A1 to block 3, the third before the second; then what would be due.
const LINES: [&[u8]; 5] = [
    b"publish 1 01000100010000000000000000000000000000000000000000000000000000000000000000000000030000000000000000000000000000000000000000000000 A1",
    b"fetch 1 1 1 ok",
    b"block 1 0 3 written *",
    b"grant 1 0 3 1 w",
    b"block 1 0 3 written *",
];

/// What a checker answers of each of these lines.
fn answers_to(alloc: Global, lines: &[&[u8]]) -> Result<Vec<bool>, Fail> {
    let config = Config::new(8, 1, 1, 0, 0, 2, 4, 4, 8)?;
    let mut checker = Checker::new(alloc, &config)?;
    let mut answers = Vec::new(alloc);
    for line in lines {
        let Ok(entry) = parse_line(alloc, line) else {
            return Err(Fail::from("not read"));
        };
        answers.push(checker.take(&entry)?)?;
    }
    Ok(answers)
}

#[test]
fn behind_a_bad_entry_all_are_bad(rt: HostRuntime) -> Result<(), Fail> {
    let answers = answers_to(rt.alloc(), &LINES)?;
    let wanted = [true, true, false, false, false];
    assert_eq!(rt; answers.as_slice(), wanted.as_slice());
    Ok(())
}

#[test]
fn a_bad_step_before_is_told_in_words(rt: HostRuntime) -> Result<(), Fail> {
    let config = Config::new(8, 1, 1, 0, 0, 2, 4, 4, 8)?;
    let mut checker = Checker::new(rt.alloc(), &config)?;
    // A Block of no ticket.
    let Ok(entry) = parse_line(rt.alloc(), b"block 1 0 3 written *") else {
        return Err(Fail::from("not read"));
    };
    assert!(rt; !checker.take(&entry)?);
    let Some(broken) = checker.why(&entry)? else {
        return Err(Fail::from("nothing is broken"));
    };
    let text = broken.to_string(rt.alloc())?;
    assert_eq!(rt; text.as_str(), "an earlier step is bad");
    Ok(())
}
