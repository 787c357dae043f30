//! The rules that an entry may break, by a name and by numbers.

ghost use Rattle.std.specs.Prelude.{◌++◌, ◌≡◌, IfOk, OnOk};
ghost use Rattle.casdisk_texts.specs.RuleNames.{rule_name, rule_numbers, unlike_name, unlike_numbers};
ghost use Rattle.casdisk_texts.specs.RuleNames.{verdict_numbers};

use broken_rules::{Broken, Unlike};
use nvme_model::status::Verdict;
use std::alloc::{AllocError as NoMemory, Global};

// What of a completion differs.
fn unlike_name(unlike: Unlike) -> &'static str
    ensures value { result.now ≡ unlike_name unlike }
{
    match unlike {
        Unlike::Sqid { .. } => "SQID",
        Unlike::Cid { .. } => "CID",
        Unlike::Status { .. } => "status",
        Unlike::Sqhd { .. } => "SQHD",
        Unlike::Phase { .. } => "phase tag",
        Unlike::Byte { .. } => "byte",
    }
}

/// The name of a rule.
pub(crate) fn rule_name(broken: Broken) -> &'static str
    ensures value { result.now ≡ rule_name broken }
{
    match broken {
        Broken::Earlier => "earlier",
        Broken::Refused(_) => "refused",
        Broken::Ticket { .. } => "ticket",
        Broken::Verdict { .. } => "verdict",
        Broken::Unit { .. } => "unit",
        Broken::Range { .. } => "range",
        Broken::Mode { .. } => "mode",
        Broken::Block { .. } => "block",
        Broken::Word { .. } => "word",
        Broken::SecondMark { .. } => "second mark",
        Broken::EarlyMark { .. } => "early mark",
        Broken::Mark { .. } => "mark",
        Broken::Answer { .. } => "answer",
        Broken::NothingOwed { .. } => "nothing owed",
        Broken::Completion(unlike) => unlike_name(unlike),
        Broken::Length { .. } => "length",
        Broken::Data { .. } => "data",
        Broken::Reaped(_) => "another completion",
    }
}

// What differs of a completion: what stands there and what is due, of a status each its type and its code; of a byte
// its place before both.
fn unlike_numbers(alloc: Global, unlike: Unlike) -> Result<Vec<u64>, NoMemory>
    ensures value { IfOk result (λ list. list.items ≡ unlike_numbers unlike) }
{
    match unlike {
        Unlike::Sqid { found, due } | Unlike::Cid { found, due } | Unlike::Sqhd { found, due } => {
            Vec::from_slice(alloc, &[u64::from(found), u64::from(due)])
        }
        Unlike::Status { found, due } => Vec::from_slice(
            alloc,
            &[
                u64::from(found / 256),
                u64::from(found % 256),
                u64::from(due / 256),
                u64::from(due % 256),
            ],
        ),
        Unlike::Phase { found, due } => {
            Vec::from_slice(alloc, &[u64::from(found), u64::from(due)])
        }
        Unlike::Byte { place, found, due } => Vec::from_slice(
            alloc,
            &[u64::from(place), u64::from(found), u64::from(due)],
        ),
    }
}

// Adds what a Fetch says of its commands: how many there are, and of a status its type and its code.
fn add_verdict(numbers: &mut Vec<u64>, verdict: Verdict) -> Result<(), NoMemory>
    ensures value { OnOk result (numbers.new.items ≡ numbers.old.items ++ verdict_numbers verdict) }
{
    match verdict {
        Verdict::Single => numbers.extend_from_slice(&[1]),
        Verdict::Pair => numbers.extend_from_slice(&[2]),
        Verdict::SingleFailed(status) => {
            numbers.extend_from_slice(&[1, u64::from(status.sct()), u64::from(status.sc())])
        }
        Verdict::PairFailed(first, second) => numbers.extend_from_slice(&[
            2,
            u64::from(first.sct()),
            u64::from(first.sc()),
            u64::from(second.sct()),
            u64::from(second.sc()),
        ]),
    }
}

// What stands there and what is due of a Fetch's commands.
fn two_verdicts(alloc: Global, found: Verdict, due: Verdict) -> Result<Vec<u64>, NoMemory>
    ensures value { IfOk result (λ list. list.items ≡ verdict_numbers found ++ verdict_numbers due) }
{
    let mut numbers = Vec::new(alloc);
    add_verdict(&mut numbers, found)?;
    add_verdict(&mut numbers, due)?;
    Ok(numbers)
}

/// The numbers of a rule that is broken, in the order of its words: what stands there, and then what is due.
pub(crate) fn rule_numbers(alloc: Global, broken: Broken) -> Result<Vec<u64>, NoMemory>
    ensures value { IfOk result (λ list. list.items ≡ rule_numbers broken) }
{
    match broken {
        Broken::Refused(why) => Vec::from_slice(alloc, &[u64::from(why.number())]),
        Broken::Ticket { found, last } => Vec::from_slice(alloc, &[found, last]),
        Broken::Unit { found, due }
        | Broken::Block { found, due }
        | Broken::Length { found, due } => Vec::from_slice(alloc, &[found, due]),
        Broken::Range { found, due } => Vec::from_slice(
            alloc,
            &[
                u64::from(found.blocks),
                found.slba,
                u64::from(due.blocks),
                due.slba,
            ],
        ),
        Broken::SecondMark { unit } | Broken::EarlyMark { unit } | Broken::Mark { unit } => {
            Vec::from_slice(alloc, &[unit])
        }
        Broken::Answer { lba, .. } => Vec::from_slice(alloc, &[lba]),
        Broken::NothingOwed { ticket } => Vec::from_slice(alloc, &[ticket]),
        Broken::Data { place, found, due } => {
            Vec::from_slice(alloc, &[place, u64::from(found), u64::from(due)])
        }
        Broken::Completion(unlike) | Broken::Reaped(unlike) => unlike_numbers(alloc, unlike),
        Broken::Verdict { found, due } => two_verdicts(alloc, found, due),
        Broken::Earlier | Broken::Mode { .. } | Broken::Word { .. } => Ok(Vec::new(alloc)),
    }
}
