//! The entry of a line.

ghost use Rattle.std.specs.Prelude.{◌≡◌, Some, IfOk, map};
ghost use Rattle.nvme_model.specs.declared.entry.Entry.{Entry};
ghost use Rattle.history.specs.Gives.{GivesRead};
ghost use Rattle.history.specs.Lines.{HasLine, block_in, entry_in, entry_line, entry_words_in, fetch_in, grant_in};
ghost use Rattle.history.specs.Lines.{post_in, publish_in, reap_in};

use crate::batch::batch_of;
use crate::line_fault::LineFault;
use crate::marks::{found_of, mark_of, mode_of};
use crate::status_word::verdict_of;
use line_text::{read_data, read_fixed, read_u16, read_u64, split_words};
use nvme_model::entry::{
    BlockLine, Entry, FetchLine, GrantLine, PostLine, PublishLine, ReapLine, UnitRange,
};
use nvme_model::submission::Payload;
use std::alloc::Global;

#[tactic(auto, unfolding(crate::specs::Lines::publish_in))]
fn publish_of(alloc: Global, words: &[&[u8]]) -> Result<Entry, LineFault>
    ensures { GivesRead result (publish_in (map (λ w. w.now) words.now)) }
{
    let Some((queue, others)) = words.split_first() else {
        return Err(LineFault::Malformed);
    };
    let Some(queue) = read_u16(queue) else {
        return Err(LineFault::Malformed);
    };
    let batch = batch_of(alloc, others)?;
    Ok(Entry::Publish(PublishLine { queue, batch }))
}

#[tactic(auto, unfolding(crate::specs::Lines::fetch_in))]
fn fetch_of(words: &[&[u8]]) -> Option<Entry>
    ensures { result ≡ fetch_in (map (λ w. w.now) words.now) }
{
    let [queue, ticket, verdict @ ..] = words else {
        return None;
    };
    let queue = read_u16(queue)?;
    let ticket = read_u64(ticket)?;
    let verdict = verdict_of(verdict)?;
    Some(Entry::Fetch(FetchLine {
        queue,
        ticket,
        verdict,
    }))
}

#[tactic(auto, unfolding(crate::specs::Lines::grant_in))]
fn grant_of(words: &[&[u8]]) -> Option<Entry>
    ensures { result ≡ grant_in (map (λ w. w.now) words.now) }
{
    let [ticket, unit, slba, blocks, mode] = words else {
        return None;
    };
    let ticket = read_u64(ticket)?;
    let unit = read_u64(unit)?;
    let slba = read_u64(slba)?;
    let blocks = read_u16(blocks)?;
    let mode = mode_of(mode)?;
    Some(Entry::Grant(GrantLine {
        ticket,
        unit,
        range: UnitRange::new(slba, blocks),
        mode,
    }))
}

#[tactic(auto, unfolding(crate::specs::Lines::block_in))]
fn block_of(words: &[&[u8]]) -> Option<Entry>
    ensures { result ≡ block_in (map (λ w. w.now) words.now) }
{
    let [ticket, unit, lba, found, mark] = words else {
        return None;
    };
    let ticket = read_u64(ticket)?;
    let unit = read_u64(unit)?;
    let lba = read_u64(lba)?;
    let found = found_of(found)?;
    let effect = mark_of(mark)?;
    Some(Entry::Block(BlockLine {
        ticket,
        unit,
        lba,
        found,
        effect,
    }))
}

#[tactic(auto, unfolding(crate::specs::Lines::post_in))]
fn post_of(alloc: Global, words: &[&[u8]]) -> Result<Entry, LineFault>
    ensures { GivesRead result (post_in (map (λ w. w.now) words.now)) }
{
    let [ticket, cqe, payload] = words else {
        return Err(LineFault::Malformed);
    };
    let Some(ticket) = read_u64(ticket) else {
        return Err(LineFault::Malformed);
    };
    let Some(cqe) = read_fixed::<16>(cqe) else {
        return Err(LineFault::Malformed);
    };
    let Some(payload) = read_data(alloc, payload)? else {
        return Err(LineFault::Malformed);
    };
    Ok(Entry::Post(PostLine {
        ticket,
        cqe,
        payload: Payload::new(payload),
    }))
}

#[tactic(auto, unfolding(crate::specs::Lines::reap_in))]
fn reap_of(words: &[&[u8]]) -> Option<Entry>
    ensures { result ≡ reap_in (map (λ w. w.now) words.now) }
{
    let [queue, cqe] = words else {
        return None;
    };
    let queue = read_u16(queue)?;
    let cqe = read_fixed::<16>(cqe)?;
    Some(Entry::Reap(ReapLine { queue, cqe }))
}

// The entry, where there is one.
fn or_malformed(entry: Option<Entry>) -> Result<Entry, LineFault>
    ensures { GivesRead result entry }
{
    match entry {
        Some(entry) => Ok(entry),
        None => Err(LineFault::Malformed),
    }
}

#[tactic(auto, unfolding(crate::specs::Lines::entry_words_in))]
fn entry_of(alloc: Global, words: &[&[u8]]) -> Result<Entry, LineFault>
    ensures { GivesRead result (entry_words_in (map (λ w. w.now) words.now)) }
{
    let Some((kind, others)) = words.split_first() else {
        return Err(LineFault::Malformed);
    };
    if *kind == b"publish".as_slice() {
        return publish_of(alloc, others);
    }
    if *kind == b"fetch".as_slice() {
        return or_malformed(fetch_of(others));
    }
    if *kind == b"grant".as_slice() {
        return or_malformed(grant_of(others));
    }
    if *kind == b"block".as_slice() {
        return or_malformed(block_of(others));
    }
    if *kind == b"post".as_slice() {
        return post_of(alloc, others);
    }
    if *kind == b"reap".as_slice() {
        return or_malformed(reap_of(others));
    }
    Err(LineFault::Malformed)
}

#[tactic(auto, unfolding(crate::specs::Lines::entry_in))]
fn read_line(alloc: Global, line: &[u8]) -> Result<Entry, LineFault>
    ensures { GivesRead result (entry_in line.now) }
{
    let words = split_words(alloc, line, b' ')?;
    entry_of(alloc, words.as_slice())
}

/// Reads the entry whose line this is, without its line feed.
///
/// # Errors
///
/// `Malformed` for whatever isn't the line of an entry; `NoMemory` where a growth was refused.
pub fn parse_line(alloc: Global, line: &[u8]) -> Result<Entry, LineFault>
    ensures value { GivesRead result (entry_in line.now) }

    // What is read has this line.
    ensures found { IfOk result (λ e. line.now ≡ entry_line e) }

    // What has this line is read, unless memory runs out: so nothing else is malformed.
    ensures only { (e : Entry) → HasLine e → line.now ≡ entry_line e → GivesRead result (Some e) }
{
    read_line(alloc, line)
}
