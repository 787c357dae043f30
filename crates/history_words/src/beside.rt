//! The lines that aren't entries of a history, in words: refusals and blocks, which a run prints beside them, and what
//! was reaped, in a trace.

ghost use Rattle.std.specs.Prelude.{◌≡◌, ◌≤◌, IfOk, length, map, option_map, string_bytes};
ghost use Rattle.line_text.specs.Data.{data_in};
ghost use Rattle.line_text.specs.Digits.{bytes_in, fixed_in};
ghost use Rattle.line_text.specs.Number.{number_in};
ghost use Rattle.history_words.specs.BesideLines.{beside_color, beside_in, beside_painted, block_told, bytes_told};
ghost use Rattle.history_words.specs.BesideLines.{medium_told, reap_told_in, reap_told_of, reaped_told, refusal_in};
ghost use Rattle.history_words.specs.BesideLines.{refusal_told, refusal_words, refused_told, seen_told, volume_in};
ghost use Rattle.history_words.specs.BesideLines.{volume_told};

use crate::completions::completion_words;
use crate::entries::read_text;
use crate::paint::{Paint, painted};
use crate::texts::joined;
use itoa::Buffer;
use line_text::{BLOCK, read_data, read_fixed, read_u16, read_u64, split_words};
use std::alloc::{AllocError as NoMemory, Global};

// Why a step is refused, by the number of the refusal.
fn refusal_words(number: u64) -> Option<&'static str>
    ensures value { option_map (λ words. words.now) result ≡ refusal_words number }
{
    match number {
        1 => Some("no such queue"),
        2 => Some("no room in the submission queue"),
        3 => Some("no entry to fetch"),
        4 => Some("as many tickets in flight as may be"),
        5 => Some("no such ticket in flight"),
        6 => Some("conflict with an open unit"),
        7 => Some("not the ticket's turn"),
        8 => Some("completion queue full"),
        9 => Some("no completion to reap"),
        10 => Some("no entry to publish"),
        _ => None,
    }
}

fn refused_text(alloc: Global, number: u64) -> Result<Option<String>, NoMemory>
    ensures value { IfOk result (λ told. option_map string_bytes told ≡ refused_told number) }
{
    let Some(why) = refusal_words(number) else {
        return Ok(None);
    };
    let mut digits = Buffer::new();
    let text = joined(alloc, &["refused ", digits.format(number), ": ", why])?;
    Ok(Some(text))
}

fn refusal_text(alloc: Global, number: Option<u64>) -> Result<Option<String>, NoMemory>
    ensures value { IfOk result (λ told. option_map string_bytes told ≡ refusal_told number) }
{
    match number {
        Some(number) => refused_text(alloc, number),
        None => Ok(None),
    }
}

// A block by its bytes.
fn bytes_text(alloc: Global, bytes: &[u8]) -> Result<String, NoMemory>
    requires long { 16 ≤ length bytes.now }
    ensures value { IfOk result (λ text. string_bytes text ≡ bytes_told bytes.now) }
{
    let digits = hex::encode_upper(alloc, &bytes[..16])?;
    joined(alloc, &["bytes ", digits.as_str(), " and so on"])
}

fn medium_text(alloc: Global, lba: u64, words: &str) -> Result<String, NoMemory>
    ensures value { IfOk result (λ text. string_bytes text ≡ medium_told lba words.now) }
{
    let mut digits = Buffer::new();
    joined(alloc, &["medium ", digits.format(lba), ": ", words])
}

// One block, where the word spells that.
fn block_text(alloc: Global, lba: u64, word: &[u8]) -> Result<Option<String>, NoMemory>
    ensures value { IfOk result (λ told. option_map string_bytes told ≡ block_told lba (data_in 512 word.now)) }
{
    let Some(bytes) = read_data(alloc, word)? else {
        return Ok(None);
    };
    if bytes.len() != BLOCK {
        return Ok(None);
    }
    let words = bytes_text(alloc, bytes.as_slice())?;
    let text = medium_text(alloc, lba, words.as_str())?;
    Ok(Some(text))
}

fn volume_text(alloc: Global, lba: Option<u64>, block: &[u8]) -> Result<Option<String>, NoMemory>
    ensures value { IfOk result (λ told. option_map string_bytes told ≡ volume_told lba block.now) }
{
    let Some(lba) = lba else {
        return Ok(None);
    };
    if block == b"none".as_slice() {
        let text = medium_text(alloc, lba, "past the end of the volume")?;
        return Ok(Some(text));
    }
    block_text(alloc, lba, block)
}

// A completion that was reaped, with what was read.
#[tactic(auto, unfolding(crate::specs::BesideLines::reaped_told))]
fn reaped_text(
    alloc: Global,
    queue: u16,
    cqe: &[u8; 16],
    payload: &[u8],
) -> Result<String, NoMemory>
    ensures value { IfOk result (λ text. string_bytes text ≡ reaped_told queue cqe.now payload.now) }
{
    let mut digits = Buffer::new();
    let completion = completion_words(alloc, cqe)?;
    let read = read_text(alloc, payload)?;
    joined(
        alloc,
        &[
            "reap ",
            digits.format(queue),
            ": ",
            completion.as_str(),
            read.as_str(),
        ],
    )
}

// What was reaped, where the words spell that.
fn seen_text(
    alloc: Global,
    queue: &[u8],
    cqe: &[u8],
    payload: &[u8],
) -> Result<Option<String>, NoMemory>
    ensures value { IfOk result (λ told. option_map string_bytes told
        ≡ seen_told (number_in 16 queue.now) (fixed_in 16 (bytes_in cqe.now)) (data_in 512 payload.now)) }
{
    let Some(queue) = read_u16(queue) else {
        return Ok(None);
    };
    let Some(cqe) = read_fixed::<16>(cqe) else {
        return Ok(None);
    };
    let Some(payload) = read_data(alloc, payload)? else {
        return Ok(None);
    };
    let text = reaped_text(alloc, queue, &cqe, payload.as_slice())?;
    Ok(Some(text))
}

// A refusal, where one word says its number.
#[tactic(auto, unfolding(crate::specs::BesideLines::refusal_in))]
fn refusal_of(alloc: Global, words: &[&[u8]]) -> Result<Option<String>, NoMemory>
    ensures value { IfOk result (λ told. option_map string_bytes told ≡ refusal_in (map (λ w. w.now) words.now)) }
{
    let [number] = words else {
        return Ok(None);
    };
    refusal_text(alloc, read_u64(number))
}

// A block, where two words say its number and what lies there.
#[tactic(auto, unfolding(crate::specs::BesideLines::volume_in))]
fn volume_of(alloc: Global, words: &[&[u8]]) -> Result<Option<String>, NoMemory>
    ensures value { IfOk result (λ told. option_map string_bytes told ≡ volume_in (map (λ w. w.now) words.now)) }
{
    let [lba, block] = words else {
        return Ok(None);
    };
    volume_text(alloc, read_u64(lba), block)
}

// What was reaped of this queue, where two words say that.
#[tactic(auto, unfolding(crate::specs::BesideLines::reap_told_of))]
fn reap_told_of(alloc: Global, queue: &[u8], words: &[&[u8]]) -> Result<Option<String>, NoMemory>
    ensures value { IfOk result
        (λ told. option_map string_bytes told ≡ reap_told_of queue.now (map (λ w. w.now) words.now)) }
{
    let [cqe, payload] = words else {
        return Ok(None);
    };
    seen_text(alloc, queue, cqe, payload)
}

// What was reaped, where three words say that.
#[tactic(auto, unfolding(crate::specs::BesideLines::reap_told_in))]
fn reaped_of(alloc: Global, words: &[&[u8]]) -> Result<Option<String>, NoMemory>
    ensures value { IfOk result (λ told. option_map string_bytes told ≡ reap_told_in (map (λ w. w.now) words.now)) }
{
    let Some((queue, others)) = words.split_first() else {
        return Ok(None);
    };
    reap_told_of(alloc, queue, others)
}

#[tactic(auto, unfolding(crate::specs::BesideLines::beside_in))]
fn beside_of(alloc: Global, words: &[&[u8]]) -> Result<Option<String>, NoMemory>
    ensures value { IfOk result (λ told. option_map string_bytes told ≡ beside_in (map (λ w. w.now) words.now)) }
{
    let Some((kind, others)) = words.split_first() else {
        return Ok(None);
    };
    if *kind == b"refused".as_slice() {
        return refusal_of(alloc, others);
    }
    if *kind == b"medium".as_slice() {
        return volume_of(alloc, others);
    }
    if *kind == b"reap".as_slice() {
        return reaped_of(alloc, others);
    }
    Ok(None)
}

// The number of the colour of such a line: that of a Reap of a history, where it is one.
fn color_of(words: &[&[u8]]) -> &'static str
    ensures value { result.now ≡ beside_color (map (λ w. w.now) words.now) }
{
    match words.first() {
        Some(kind) if *kind == b"reap".as_slice() => "31",
        _ => "37",
    }
}

/// A line that isn't an entry of a history, a refusal, a block or what was reaped, in words; None where it is none of
/// them.
///
/// # Errors
///
/// `NoMemory` alone.
pub fn beside_words(alloc: Global, line: &[u8], paint: Paint) -> Result<Option<String>, NoMemory>
    ensures value { IfOk result (λ told. option_map string_bytes told ≡ beside_painted paint line.now) }
{
    let words = split_words(alloc, line, b' ')?;
    let Some(text) = beside_of(alloc, words.as_slice())? else {
        return Ok(None);
    };
    let whole = painted(alloc, paint, color_of(words.as_slice()), text.as_str())?;
    Ok(Some(whole))
}
