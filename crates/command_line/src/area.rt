//! The area of slots that a command looks at.

ghost use Rattle.std.specs.Prelude.{◌≡◌, IfErr, IfOk, IfSome, Some, map};
ghost use Rattle.clap.specs.Words.{found_of, rows_of};
ghost use Rattle.command_line.specs.Asking.{IsAreaOf, IsNoArea, HasCause, SaysArea};
ghost use Rattle.command_line.specs.declared.request.SlotArea.{SlotArea};

use crate::options::{text_of, words_asked};
use crate::request::{SlotArea, UsageFault};
use clap::ArgMatches;
use std::alloc::Global;

const NO_AREA: &str =
    "error: '--slots' is the number of a block, and then how many blocks, below 4294967296";

// Why these words say no area, with the one that is too large.
fn no_area(alloc: Global, words: &[&str]) -> UsageFault {
    let [_first, count] = words else {
        return text_of(alloc, NO_AREA);
    };
    match format!(in alloc; "{NO_AREA}: COUNT is {count}") {
        Ok(text) => UsageFault::Text(text),
        Err(_) => UsageFault::NoMemory,
    }
}

// The area that these words say.
fn area_of(words: &[&str]) -> Option<SlotArea>
    ensures says { IfSome result (IsAreaOf (map (λ v. v.now) words.now)) }
    ensures only { (a : SlotArea) → IsAreaOf (map (λ v. v.now) words.now) a → result ≡ Some a }
{
    let [first, count] = words else {
        return None;
    };
    let Ok(first) = first.parse::<u64>() else {
        return None;
    };

    // `clap` reads both numbers with 64 bits; that COUNT is below 2^32 is asked behind it.
    let Ok(count) = count.parse::<u32>() else {
        return None;
    };
    Some(SlotArea { first, count })
}

/// The area of slots that the options say; none where they name none.
pub(crate) fn area_asked(
    alloc: Global,
    matches: &ArgMatches<'_>,
) -> Result<Option<SlotArea>, UsageFault>
    ensures says { IfOk result (SaysArea (rows_of (found_of matches.now))) }
    ensures refuses { IfErr result (HasCause (IsNoArea (rows_of (found_of matches.now)))) }
{
    let Some(words) = words_asked(matches, "slots") else {
        return Ok(None);
    };
    match area_of(words) {
        Some(area) => Ok(Some(area)),
        None => Err(no_area(alloc, words)),
    }
}
