//! The commands of a refutation, in words.

use crate::slice_facts::{entry_placed, send_fact};
use crate::words::send_named;
use line_text::send;
use nvme_model::operation::Op;
use refutation::Refutation;
use refutation_check::{cid_of, op_of};
use std::io::{Result as IoResult, Write};
use trace::Seen;
use trace_search::Unexplained;

fn op_text(op: Option<Op>) -> &'static [u8] {
    match op {
        Some(Op::Read) => b"the Read",
        Some(Op::Write) => b"the Write",
        Some(Op::Compare) => b"the Compare",
        Some(Op::WriteZeroes) => b"the Write Zeroes",
        Some(Op::Pair) => b"the Compare and Write",
        None => b"the command",
    }
}

// Whether it is the command that a reason is about, where there is one.
fn is_told(reason: Option<&Unexplained>, queue: u16, cid: u16, line: usize) -> bool {
    match reason {
        Some(reason) => reason.queue == queue && reason.cid == cid && reason.published == line,
        None => false,
    }
}

// Writes one of these commands, or nothing where it isn't first and should be, or the other way round: first is the one
// that a reason is about, which isn't named again. Whether it was written.
fn send_one<W: Write>(
    refutation: &Refutation,
    told: &Told<'_>,
    command: (u16, u64),
    is_first: bool,
    front: &[u8],
    writer: &mut W,
) -> IoResult<bool> {
    let (queue, number) = command;
    let Some(placed) = entry_placed(told.things, queue, number) else {
        return Ok(false);
    };
    let line = told.head.saturating_add(placed.place).saturating_add(1);
    let cid = cid_of(placed.entry);
    if is_told(told.reason, queue, cid, line) != is_first {
        return Ok(false);
    }
    send(writer, front)?;
    if is_first {
        send(writer, b"it")?;
    } else {
        send_named(op_text(op_of(placed.entry)), cid, queue, line, writer)?;
    }
    send(writer, b" ")?;
    send_fact(refutation, told.things, &placed, queue, told.head, writer)?;
    Ok(true)
}

/// Of which things a refutation is told, how many lines of the file stand before them, and the reason before it.
#[derive(Clone, Copy)]
pub(crate) struct Told<'a> {
    pub(crate) things: &'a [Seen],
    pub(crate) head: usize,
    pub(crate) reason: Option<&'a Unexplained>,
}

/// Writes the commands of a refutation, each with the line of the file that publishes it, and what it did; that of the
/// reason first.
pub(crate) fn send_slice<W: Write>(
    refutation: &Refutation,
    told: &Told<'_>,
    writer: &mut W,
) -> IoResult<()> {
    if told.reason.is_none() {
        if refutation.commands().is_empty() {
            return send(writer, b"that line breaks a rule by itself");
        }
        send(writer, b"no order of effects gives what was answered")?;
    }
    let mut front: &[u8] = b": ";
    for is_first in [true, false] {
        for command in refutation.commands() {
            if send_one(refutation, told, *command, is_first, front, writer)? {
                front = b"; ";
            }
        }
    }
    Ok(())
}
