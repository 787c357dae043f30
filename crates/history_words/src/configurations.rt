//! Configurations in words.

ghost use Rattle.std.specs.Prelude.{◌≡◌, IfOk, string_bytes};
ghost use Rattle.history_words.specs.Told.{config_painted, config_told, cut_told, queues_told};

use crate::paint::{Paint, painted};
use crate::texts::joined;
use itoa::Buffer;
use nvme_model::config::ConfigNumbers;
use std::alloc::{AllocError as NoMemory, Global};

// The numbers by which commands are cut into units.
fn cut_text(alloc: Global, c: &ConfigNumbers) -> Result<String, NoMemory>
    ensures value { IfOk result (λ text. string_bytes text ≡ cut_told c.now) }
{
    let mut awun = Buffer::new();
    let mut acwu = Buffer::new();
    let mut nabsn = Buffer::new();
    let mut nabo = Buffer::new();
    joined(
        alloc,
        &[
            "AWUN ",
            awun.format(c.atomic.awun),
            ", ACWU ",
            acwu.format(c.atomic.acwu),
            ", NABSN ",
            nabsn.format(c.atomic.nabsn),
            ", NABO ",
            nabo.format(c.atomic.nabo),
        ],
    )
}

// The queues.
fn queues_text(alloc: Global, c: &ConfigNumbers) -> Result<String, NoMemory>
    ensures value { IfOk result (λ text. string_bytes text ≡ queues_told c.now) }
{
    let mut pairs = Buffer::new();
    let mut sq = Buffer::new();
    let mut cqs = Buffer::new();
    let mut cq = Buffer::new();
    joined(
        alloc,
        &[
            "submission queues ",
            pairs.format(c.pairs),
            " of ",
            sq.format(c.sq_size),
            " slots, completion queues ",
            cqs.format(c.cqs),
            " of ",
            cq.format(c.cq_size),
            " slots",
        ],
    )
}

// All the numbers.
fn config_text(alloc: Global, c: &ConfigNumbers) -> Result<String, NoMemory>
    ensures value { IfOk result (λ text. string_bytes text ≡ config_told c.now) }
{
    let mut blocks = Buffer::new();
    let mut jobs = Buffer::new();
    let cut = cut_text(alloc, c)?;
    let queues = queues_text(alloc, c)?;
    joined(
        alloc,
        &[
            "config: blocks ",
            blocks.format(c.blocks),
            ", ",
            cut.as_str(),
            ", ",
            queues.as_str(),
            ", tickets in flight at most ",
            jobs.format(c.jobs),
        ],
    )
}

/// A configuration in words: each of its numbers beside its name, without a line feed.
///
/// # Errors
///
/// `NoMemory` alone.
pub fn config_words(alloc: Global, c: &ConfigNumbers, paint: Paint) -> Result<String, NoMemory>
    ensures value { IfOk result (λ text. string_bytes text ≡ config_painted paint c.now) }
{
    let text = config_text(alloc, c)?;
    painted(alloc, paint, "37", text.as_str())
}
