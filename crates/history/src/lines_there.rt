//! That an entry has a line, and a configuration: what their types keep.

ghost use Rattle.std.specs.Prelude.{ℕ, ◌<◌, ◌^◌, All, slice_index};
ghost use Rattle.history.specs.ConfigLine.{HasConfigLine};
ghost use Rattle.history.specs.Lines.{HasItem, HasLine, HasStatus, HasVerdictWord};
ghost use Rattle.nvme_model.specs.declared.entry.Entry.{Entry};

use nvme_model::config::ConfigNumbers;
use nvme_model::entry::{BlockLine, Entry, FetchLine, GrantLine, PostLine, PublishLine, ReapLine};
use nvme_model::status::{Status, Verdict};
use nvme_model::submission::Submission;

// A number of 16 bits.
fn short_fits(number: u16)
    ensures { number < 2 ^ 16 }
{
    let _ = number;
}

// A number of 32 bits.
fn word_fits(number: u32)
    ensures { number < 2 ^ 32 }
{
    let _ = number;
}

// A number of 64 bits.
fn long_fits(number: u64)
    ensures { number < 2 ^ 64 }
{
    let _ = number;
}

// Bytes are below 256.
fn bytes_fit(bytes: &[u8])
    ensures { (i : ℕ) → slice_index bytes.now i < 256 }
{
    let _ = bytes;
}

fn item_fits(item: &Submission)
    ensures { HasItem item.now }
{
    bytes_fit(&item.entry);
    bytes_fit(item.payload.as_slice());
}

fn items_fit(items: &[Submission])
    ensures { All HasItem items.now }
{
    for k in 0..items.len() {
        item_fits(&items[k]);
    }
}

fn status_fits(status: Status)
    ensures { HasStatus status }
{
    let _ = (status.sct(), status.sc());
}

fn verdict_fits(verdict: Verdict)
    ensures { HasVerdictWord verdict }
{
    match verdict {
        Verdict::Single | Verdict::Pair => {}
        Verdict::SingleFailed(status) => status_fits(status),
        Verdict::PairFailed(first, second) => {
            status_fits(first);
            status_fits(second);
        }
    }
}

/// A Publish has a line: that is what its types keep. Does nothing.
pub fn publish_fits(line: &PublishLine)
    ensures { HasLine (Entry.Publish line.now) }
{
    short_fits(line.queue);
    items_fit(line.batch.as_slice());
}

fn fetch_fits(line: &FetchLine)
    ensures { HasLine (Entry.Fetch line.now) }
{
    short_fits(line.queue);
    long_fits(line.ticket);
    verdict_fits(line.verdict);
}

fn grant_fits(line: &GrantLine)
    ensures { HasLine (Entry.Grant line.now) }
{
    let range = line.range.get();
    long_fits(line.ticket);
    long_fits(line.unit);
    long_fits(range.slba);
}

fn block_fits(line: &BlockLine)
    ensures { HasLine (Entry.Block line.now) }
{
    long_fits(line.ticket);
    long_fits(line.unit);
    long_fits(line.lba);
}

fn post_fits(line: &PostLine)
    ensures { HasLine (Entry.Post line.now) }
{
    long_fits(line.ticket);
    bytes_fit(&line.cqe);
    bytes_fit(line.payload.as_slice());
}

fn reap_fits(line: &ReapLine)
    ensures { HasLine (Entry.Reap line.now) }
{
    short_fits(line.queue);
    bytes_fit(&line.cqe);
}

/// An entry has a line: that is what its types keep. Does nothing.
pub(crate) fn fits(entry: &Entry)
    ensures { HasLine entry.now }
{
    match entry {
        Entry::Publish(line) => publish_fits(line),
        Entry::Fetch(line) => fetch_fits(line),
        Entry::Grant(line) => grant_fits(line),
        Entry::Block(line) => block_fits(line),
        Entry::Post(line) => post_fits(line),
        Entry::Reap(line) => reap_fits(line),
    }
}

/// Numbers of a configuration have a line: that is what their types keep. Does nothing.
pub(crate) fn config_fits(numbers: &ConfigNumbers)
    ensures { HasConfigLine numbers.now }
{
    let atomic = &numbers.atomic;
    word_fits(numbers.blocks);
    short_fits(atomic.awun);
    short_fits(atomic.acwu);
    short_fits(atomic.nabsn);
    short_fits(atomic.nabo);
    short_fits(numbers.pairs);
    short_fits(numbers.sq_size);
    short_fits(numbers.cq_size);
    short_fits(numbers.jobs);
    short_fits(numbers.cqs);
}
