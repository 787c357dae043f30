//! Entries of a history in words.

ghost use Rattle.std.specs.Prelude.{◌≡◌, IfOk, string_bytes};
ghost use Rattle.nvme_model.specs.declared.entry.Entry.{Entry};
ghost use Rattle.history.specs.Marks.{found_word};
ghost use Rattle.history_words.specs.Told.{entry_color, entry_painted, entry_told, mode_told, read_told, verdict_told};

use crate::commands::batch_text;
use crate::completions::completion_words;
use crate::names::status_text;
use crate::paint::{Paint, painted};
use crate::texts::{blocks_text, joined};
use itoa::Buffer;
use nvme_model::array::Mode;
use nvme_model::entry::{BlockLine, Entry, FetchLine, GrantLine, PostLine, PublishLine, ReapLine};
use nvme_model::operation::Found;
use nvme_model::status::Verdict;
use std::alloc::{AllocError as NoMemory, Global};

fn publish_text(alloc: Global, line: &PublishLine) -> Result<String, NoMemory>
    ensures value { IfOk result (λ text. string_bytes text ≡ entry_told (Entry.Publish line.now)) }
{
    let mut queue = Buffer::new();
    let commands = batch_text(alloc, line.batch.as_slice())?;
    joined(
        alloc,
        &[
            "publish ",
            queue.format(line.queue),
            ": ",
            commands.as_str(),
        ],
    )
}

// What a Fetch took, and the statuses where the checks failed.
fn verdict_text(alloc: Global, verdict: Verdict) -> Result<String, NoMemory>
    ensures value { IfOk result (λ text. string_bytes text ≡ verdict_told verdict) }
{
    match verdict {
        Verdict::Single => joined(alloc, &["one command"]),
        Verdict::SingleFailed(status) => {
            let status = status_text(alloc, status)?;
            joined(alloc, &["one command, ", status.as_str()])
        }
        Verdict::Pair => joined(alloc, &["a pair"]),
        Verdict::PairFailed(first, second) => {
            let first = status_text(alloc, first)?;
            let second = status_text(alloc, second)?;
            joined(
                alloc,
                &["a pair, ", first.as_str(), " and ", second.as_str()],
            )
        }
    }
}

fn fetch_text(alloc: Global, line: &FetchLine) -> Result<String, NoMemory>
    ensures value { IfOk result (λ text. string_bytes text ≡ entry_told (Entry.Fetch line.now)) }
{
    let mut queue = Buffer::new();
    let mut ticket = Buffer::new();
    let verdict = verdict_text(alloc, line.verdict)?;
    joined(
        alloc,
        &[
            "fetch ",
            queue.format(line.queue),
            ": ticket ",
            ticket.format(line.ticket),
            ", ",
            verdict.as_str(),
        ],
    )
}

// How a unit holds its blocks.
fn mode_text(mode: Mode) -> &'static str
    ensures value { result.now ≡ mode_told mode }
{
    match mode {
        Mode::Shared => "shared",
        Mode::Exclusive => "exclusive",
    }
}

fn grant_text(alloc: Global, line: &GrantLine) -> Result<String, NoMemory>
    ensures value { IfOk result (λ text. string_bytes text ≡ entry_told (Entry.Grant line.now)) }
{
    let range = line.range.get();
    let blocks = blocks_text(alloc, range.slba, range.blocks)?;
    let mut ticket = Buffer::new();
    let mut unit = Buffer::new();
    joined(
        alloc,
        &[
            "grant ",
            ticket.format(line.ticket),
            ": unit ",
            unit.format(line.unit),
            ", ",
            blocks.as_str(),
            ", ",
            mode_text(line.mode),
        ],
    )
}

// What a Block found.
fn found_text(found: Found) -> &'static str
    ensures value { result.now ≡ found_word found }
{
    match found {
        Found::Read => "read",
        Found::Equal => "equal",
        Found::Differs => "differs",
        Found::Written => "written",
    }
}

fn block_text(alloc: Global, line: &BlockLine) -> Result<String, NoMemory>
    ensures value { IfOk result (λ text. string_bytes text ≡ entry_told (Entry.Block line.now)) }
{
    let mut ticket = Buffer::new();
    let mut unit = Buffer::new();
    let mut lba = Buffer::new();
    let effect = if line.effect { ", takes effect" } else { "" };
    joined(
        alloc,
        &[
            "block ",
            ticket.format(line.ticket),
            ": unit ",
            unit.format(line.unit),
            ", block ",
            lba.format(line.lba),
            ", ",
            found_text(line.found),
            effect,
        ],
    )
}

// How many bytes were read, where some were.
pub(crate) fn read_text(alloc: Global, payload: &[u8]) -> Result<String, NoMemory>
    ensures value { IfOk result (λ text. string_bytes text ≡ read_told payload.now) }
{
    if payload.is_empty() {
        return Ok(String::new(alloc));
    }
    let mut count = Buffer::new();
    joined(alloc, &[", ", count.format(payload.len()), " bytes read"])
}

fn post_text(alloc: Global, line: &PostLine) -> Result<String, NoMemory>
    ensures value { IfOk result (λ text. string_bytes text ≡ entry_told (Entry.Post line.now)) }
{
    let mut ticket = Buffer::new();
    let completion = completion_words(alloc, &line.cqe)?;
    let read = read_text(alloc, line.payload.as_slice())?;
    joined(
        alloc,
        &[
            "post ",
            ticket.format(line.ticket),
            ": ",
            completion.as_str(),
            read.as_str(),
        ],
    )
}

fn reap_text(alloc: Global, line: &ReapLine) -> Result<String, NoMemory>
    ensures value { IfOk result (λ text. string_bytes text ≡ entry_told (Entry.Reap line.now)) }
{
    let mut queue = Buffer::new();
    let completion = completion_words(alloc, &line.cqe)?;
    joined(
        alloc,
        &["reap ", queue.format(line.queue), ": ", completion.as_str()],
    )
}

// The number of the colour of an entry's kind.
fn color_of(entry: &Entry) -> &'static str
    ensures value { result.now ≡ entry_color entry.now }
{
    match entry {
        Entry::Publish(_) => "36",
        Entry::Fetch(_) => "34",
        Entry::Grant(_) => "33",
        Entry::Block(_) => "32",
        Entry::Post(_) => "35",
        Entry::Reap(_) => "31",
    }
}

// An entry in words.
fn plain_text(alloc: Global, entry: &Entry) -> Result<String, NoMemory>
    ensures value { IfOk result (λ text. string_bytes text ≡ entry_told entry.now) }
{
    match entry {
        Entry::Publish(line) => publish_text(alloc, line),
        Entry::Fetch(line) => fetch_text(alloc, line),
        Entry::Grant(line) => grant_text(alloc, line),
        Entry::Block(line) => block_text(alloc, line),
        Entry::Post(line) => post_text(alloc, line),
        Entry::Reap(line) => reap_text(alloc, line),
    }
}

/// An entry of a history in words, without a line feed.
///
/// # Errors
///
/// `NoMemory` alone.
pub fn entry_words(alloc: Global, entry: &Entry, paint: Paint) -> Result<String, NoMemory>
    ensures value { IfOk result (λ text. string_bytes text ≡ entry_painted paint entry.now) }
{
    let text = plain_text(alloc, entry)?;
    painted(alloc, paint, color_of(entry), text.as_str())
}
