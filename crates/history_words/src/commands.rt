//! Submission queue entries in words.

ghost use Rattle.std.specs.Prelude.{◌≡◌, ◌<◌, ◌++◌, IfOk, OnOk, length, string_bytes};
ghost use Rattle.nvme_model.specs.EntryBytes.{sqe_fields};
ghost use Rattle.history_words.specs.Commands.{batch_told, command_name, command_told, fuse_told, range_told};
ghost use Rattle.history_words.specs.Commands.{namespace_told, next_told};

use crate::texts::{blocks_text, joined};
use entry_codec::{Sqe, decode_sqe};
use itoa::Buffer;
use nvme_model::submission::Submission;
use std::alloc::{AllocError as NoMemory, Global};

// The name of a command, by its opcode.
fn command_name(alloc: Global, sqe: &Sqe) -> Result<String, NoMemory>
    ensures value { IfOk result (λ text. string_bytes text ≡ command_name sqe.now) }
{
    if sqe.is_flush() {
        return joined(alloc, &["Flush"]);
    }
    if sqe.is_write() {
        return joined(alloc, &["Write"]);
    }
    if sqe.is_read() {
        return joined(alloc, &["Read"]);
    }
    if sqe.is_compare() {
        return joined(alloc, &["Compare"]);
    }
    if sqe.is_write_zeroes() {
        return joined(alloc, &["Write Zeroes"]);
    }
    let code = hex::encode_upper(alloc, &[sqe.opcode][..])?;
    joined(alloc, &["opcode ", code.as_str(), "h"])
}

// The blocks of a command that has some.
fn range_text(alloc: Global, sqe: &Sqe) -> Result<String, NoMemory>
    ensures value { IfOk result (λ text. string_bytes text ≡ range_told sqe.now) }
{
    if sqe.operation().is_none() {
        return Ok(String::new(alloc));
    }
    let blocks = blocks_text(alloc, sqe.slba(), sqe.blocks())?;
    joined(alloc, &[" of ", blocks.as_str()])
}

// How a command is fused, where it is.
fn fuse_text(sqe: &Sqe) -> &'static str
    ensures value { result.now ≡ fuse_told sqe.now.fuse }
{
    let fuse = sqe.fuse();
    if fuse == 0 {
        ""
    } else if fuse == 1 {
        ", first of a pair"
    } else if fuse == 2 {
        ", second"
    } else {
        ", FUSE 3"
    }
}

// The namespace of a command, where it isn't the one that there is.
fn namespace_text(alloc: Global, sqe: &Sqe) -> Result<String, NoMemory>
    ensures value { IfOk result (λ text. string_bytes text ≡ namespace_told sqe.now.nsid) }
{
    if sqe.nsid == 1 {
        return Ok(String::new(alloc));
    }
    let mut number = Buffer::new();
    joined(alloc, &[", namespace ", number.format(sqe.nsid)])
}

// A command in words, by its fields.
fn fields_text(alloc: Global, sqe: &Sqe) -> Result<String, NoMemory>
    ensures value { IfOk result (λ text. string_bytes text ≡ command_told sqe.now) }
{
    let name = command_name(alloc, sqe)?;
    let range = range_text(alloc, sqe)?;
    let namespace = namespace_text(alloc, sqe)?;
    let mut cid = Buffer::new();
    joined(
        alloc,
        &[
            name.as_str(),
            range.as_str(),
            ", CID ",
            cid.format(sqe.cid),
            fuse_text(sqe),
            namespace.as_str(),
        ],
    )
}

/// A submission queue entry in words: its command, its blocks, its CID, and how it is fused.
///
/// # Errors
///
/// `NoMemory` alone.
pub fn command_words(alloc: Global, entry: &[u8; 64]) -> Result<String, NoMemory>
    ensures value { IfOk result (λ text. string_bytes text ≡ command_told (sqe_fields entry.now)) }
{
    let sqe = decode_sqe(entry);
    fields_text(alloc, &sqe)
}

// Adds a command to those before it.
fn push_next(alloc: Global, text: &mut String, item: &Submission) -> Result<(), NoMemory>
    ensures value { OnOk result (string_bytes text.new ≡ string_bytes text.old ++ next_told item.now) }
{
    let command = command_words(alloc, &item.entry)?;
    let next = joined(alloc, &["; ", command.as_str()])?;
    text.push_str(next.as_str())
}

// The commands of a Publish in words, at least one.
pub(crate) fn batch_text(alloc: Global, items: &[Submission]) -> Result<String, NoMemory>
    requires some { 0 < length items.now }
    ensures value { IfOk result (λ text. string_bytes text ≡ batch_told items.now) }
{
    let Some((first, others)) = items.split_first() else {
        return Ok(String::new(alloc));
    };
    let mut text = command_words(alloc, &first.entry)?;
    for item in others {
        push_next(alloc, &mut text, item)?;
    }
    Ok(text)
}
