//! What a line of a script says.

ghost use Rattle.std.specs.Prelude.{◌≡◌, Ok, codes, map, take, true};
ghost use Rattle.std.specs.Str.{bytes_eq};
ghost use Rattle.history.specs.Gives.{GivesRead};
ghost use Rattle.script_lines.specs.ScriptLines.{one_number_in, script_publish_in, script_line_in, script_words_in};
ghost use Rattle.script_lines.specs.ScriptLines.{settle_in};
ghost use Rattle.script_lines.specs.ScriptLines.{short_in};

use crate::batch::batch_of;
use crate::line::ScriptLine;
use history::LineFault;
use line_text::{read_u16, read_u64, split_words};
use nvme_model::step::Step;
use std::alloc::Global;

#[tactic(auto, unfolding(crate::specs::ScriptLines::script_publish_in))]
fn publish_of(alloc: Global, words: &[&[u8]]) -> Result<ScriptLine, LineFault>
    ensures { GivesRead result (script_publish_in (map (λ w. w.now) words.now)) }
{
    let Some((queue, others)) = words.split_first() else {
        return Err(LineFault::Malformed);
    };
    let Some(queue) = read_u16(queue) else {
        return Err(LineFault::Malformed);
    };
    let items = batch_of(alloc, others)?;
    Ok(ScriptLine::Step(Step::Publish(queue, items)))
}

#[tactic(auto, unfolding(crate::specs::ScriptLines::one_number_in))]
fn one_u16(words: &[&[u8]]) -> Option<u16>
    ensures { result ≡ one_number_in 16 (map (λ w. w.now) words.now) }
{
    let [word] = words else {
        return None;
    };
    read_u16(word)
}

#[tactic(auto, unfolding(crate::specs::ScriptLines::one_number_in))]
fn one_u64(words: &[&[u8]]) -> Option<u64>
    ensures { result ≡ one_number_in 64 (map (λ w. w.now) words.now) }
{
    let [word] = words else {
        return None;
    };
    read_u64(word)
}

// `settle`, which has no word behind it.
fn settle_of(words: &[&[u8]]) -> Option<ScriptLine>
    ensures { result ≡ settle_in (map (λ w. w.now) words.now) }
{
    if !words.is_empty() {
        return None;
    }
    Some(ScriptLine::Settle)
}

// What the words behind any kind but `publish` spell.
#[tactic(auto, unfolding(crate::specs::ScriptLines::short_in))]
fn short_of(kind: &[u8], words: &[&[u8]]) -> Option<ScriptLine>
    ensures { result ≡ short_in kind.now (map (λ w. w.now) words.now) }
{
    if kind == b"fetch".as_slice() {
        let queue = one_u16(words)?;
        return Some(ScriptLine::Step(Step::Fetch(queue)));
    }
    if kind == b"grant".as_slice() {
        let ticket = one_u64(words)?;
        return Some(ScriptLine::Step(Step::Grant(ticket)));
    }
    if kind == b"block".as_slice() {
        let ticket = one_u64(words)?;
        return Some(ScriptLine::Step(Step::Block(ticket)));
    }
    if kind == b"post".as_slice() {
        let ticket = one_u64(words)?;
        return Some(ScriptLine::Step(Step::Post(ticket)));
    }
    if kind == b"reap".as_slice() {
        let queue = one_u16(words)?;
        return Some(ScriptLine::Step(Step::Reap(queue)));
    }
    if kind == b"medium".as_slice() {
        let block = one_u64(words)?;
        return Some(ScriptLine::Medium(block));
    }
    if kind == b"settle".as_slice() {
        return settle_of(words);
    }
    None
}

#[tactic(auto, unfolding(crate::specs::ScriptLines::script_words_in))]
fn line_of(alloc: Global, words: &[&[u8]]) -> Result<ScriptLine, LineFault>
    ensures { GivesRead result (script_words_in (map (λ w. w.now) words.now)) }
{
    let Some((kind, others)) = words.split_first() else {
        return Err(LineFault::Malformed);
    };
    if *kind == b"publish".as_slice() {
        return publish_of(alloc, others);
    }
    match short_of(kind, others) {
        Some(line) => Ok(line),
        None => Err(LineFault::Malformed),
    }
}

/// Reads a line of a script behind its first, without its line feed.
///
/// Words are parted by exactly one space, and a number is decimal, without sign and without leading
/// zeros, within its type:
///
/// | Line | What it asks for |
/// |---|---|
/// | `publish Q E` or `publish Q E + E + ..` | to publish these entries in order |
/// | `fetch Q`, `grant T`, `block T`, `post T`, `reap Q` | that step |
/// | `settle` | each step that can be done, until none can |
/// | `medium L` | to show block L of the volume |
/// | any that begins with `#` | nothing, whatever bytes follow |
///
/// Q is a queue, from 1 on, and T a ticket; whether there are such isn't asked here.
///
/// An entry is `NAME F C S N DATA` or `raw HEX DATA`. NAME is `flush`, `write`, `read`, `compare` or
/// `zeroes`, F is FUSE from 0 to 3, C the CID, S the SLBA and N the NLB as stored, 0's based. The
/// namespace is 1, and the other fields are zero. HEX is all 64 bytes in order, as 128 upper-case
/// digits, and DATA as for `line_text::read_data`.
///
/// # Errors
///
/// `Malformed` for whatever isn't such a line; `NoMemory` where a growth was refused, which no
/// comment needs.
#[tactic(auto, unfolding(crate::specs::ScriptLines::script_line_in))]
pub fn read_script_line(alloc: Global, line: &[u8]) -> Result<ScriptLine, LineFault>
    ensures value { GivesRead result (script_line_in line.now) }
    ensures comment { bytes_eq (codes "#") (take 1 line.now) ≡ true → result ≡ Ok ScriptLine.Comment }
{
    if line.starts_with(b"#") {
        return Ok(ScriptLine::Comment);
    }
    let words = split_words(alloc, line, b' ')?;
    line_of(alloc, words.as_slice())
}
