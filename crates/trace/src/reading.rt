//! What was seen, of a line.

ghost use Rattle.std.specs.Prelude.{◌≡◌, ◌==◌, Some, IfOk, map};
ghost use Rattle.std.specs.List.{slice_split};
ghost use Rattle.history.specs.Gives.{GivesRead};
ghost use Rattle.trace.specs.declared.seen.Seen.{Seen};
ghost use Rattle.trace.specs.SeenLines.{HasSeenLine, reaped_in, seen_in, seen_line};

use crate::seen::{ReapedLine, Seen};
use history::{Entry, LineFault, parse_line};
use line_text::{read_data, read_fixed, read_u16, split_words};
use nvme_model::submission::Payload;
use std::alloc::Global;

#[tactic(auto, unfolding(crate::specs::SeenLines::reaped_in))]
fn reaped_of(alloc: Global, words: &[&[u8]]) -> Result<Seen, LineFault>
    ensures { GivesRead result (reaped_in (map (λ w. w.now) words.now)) }
{
    let [kind, queue, cqe, payload] = words else {
        return Err(LineFault::Malformed);
    };
    if *kind != b"reap".as_slice() {
        return Err(LineFault::Malformed);
    }
    let Some(queue) = read_u16(queue) else {
        return Err(LineFault::Malformed);
    };
    let Some(cqe) = read_fixed::<16>(cqe) else {
        return Err(LineFault::Malformed);
    };
    let Some(payload) = read_data(alloc, payload)? else {
        return Err(LineFault::Malformed);
    };
    Ok(Seen::Reaped(ReapedLine {
        queue,
        cqe,
        payload: Payload::new(payload),
    }))
}

fn read_reaped(alloc: Global, line: &[u8]) -> Result<Seen, LineFault>
    ensures { GivesRead result (reaped_in (slice_split (λ b. b == 32) line.now)) }
{
    let words = split_words(alloc, line, b' ')?;
    reaped_of(alloc, words.as_slice())
}

#[tactic(auto, unfolding(crate::specs::SeenLines::seen_in))]
fn read_seen(alloc: Global, line: &[u8]) -> Result<Seen, LineFault>
    ensures { GivesRead result (seen_in line.now) }
{
    match parse_line(alloc, line) {
        Err(LineFault::NoMemory) => Err(LineFault::NoMemory),
        Err(LineFault::Malformed) => read_reaped(alloc, line),
        Ok(entry) => match entry {
            Entry::Publish(publish) => Ok(Seen::Published(publish)),
            Entry::Fetch(_) | Entry::Grant(_) | Entry::Block(_) => read_reaped(alloc, line),
            Entry::Post(_) | Entry::Reap(_) => read_reaped(alloc, line),
        },
    }
}

/// Reads the thing seen whose line this is, without its line feed.
///
/// # Errors
///
/// `Malformed` for whatever isn't a line of a trace; `NoMemory` where a growth was refused.
pub fn parse_seen(alloc: Global, line: &[u8]) -> Result<Seen, LineFault>
    ensures value { GivesRead result (seen_in line.now) }

    // What is read has this line.
    ensures found { IfOk result (λ s. line.now ≡ seen_line s) }

    // What has this line is read, unless memory runs out: so nothing else is malformed.
    ensures only { (s : Seen) → HasSeenLine s → line.now ≡ seen_line s → GivesRead result (Some s) }
{
    read_seen(alloc, line)
}
