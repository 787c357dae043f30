//! The step that a line asks for.

ghost use Rattle.std.specs.Prelude.{◌≡◌, IfOk};
ghost use Rattle.script_lines.specs.Asked.{form_bytes, name_opcode, second_asked, submission_asked};
ghost use Rattle.script_lines.specs.Asked.{step_asked as the_step_asked};
ghost use Rattle.std.specs.Prelude.{◌∷◌};

use crate::written::{CommandWord, EntryForm, PublishWords, WrittenEntry, WrittenLine};
use entry_codec::{Sqe, encode_sqe, opcode};
use nvme_model::step::Step;
use nvme_model::submission::{Payload, Submission, Submissions};
use std::alloc::{AllocError as NoMemory, Global};

fn opcode_of(name: CommandWord) -> u8
    ensures value { result ≡ name_opcode name }
{
    match name {
        CommandWord::Flush => opcode::FLUSH,
        CommandWord::Write => opcode::WRITE,
        CommandWord::Read => opcode::READ,
        CommandWord::Compare => opcode::COMPARE,
        CommandWord::WriteZeroes => opcode::WRITE_ZEROES,
    }
}

fn bytes_of(form: &EntryForm) -> [u8; 64]
    ensures value { result ≡ form_bytes form.now }
{
    match form {
        EntryForm::Named(c) => {
            encode_sqe(&Sqe::command(opcode_of(c.name), c.fuse, c.cid, c.slba, c.nlb))
        }
        EntryForm::Raw(bytes) => *bytes,
    }
}

/// The entry as its 64 bytes, with its data in memory of its own.
///
/// # Errors
///
/// `NoMemory` alone.
pub fn submission_of(alloc: Global, entry: &WrittenEntry) -> Result<Submission, NoMemory>
    ensures value { IfOk result (λ one. one ≡ submission_asked entry.now) }
{
    Ok(Submission {
        entry: bytes_of(&entry.form),
        payload: Payload::copy_of(alloc, entry.payload.as_slice())?,
    })
}

// The entries of a Publish.
fn batch_asked(alloc: Global, words: &PublishWords) -> Result<Submissions, NoMemory>
    ensures value { IfOk result (λ batch. batch ≡ submission_asked words.now.first ∷ second_asked words.now.second) }
{
    let mut items = Vec::new(alloc);
    items.push(submission_of(alloc, &words.first)?)?;
    if let Some(second) = &words.second {
        items.push(submission_of(alloc, second)?)?;
    }
    Ok(Submissions::new(items))
}

/// The step that a line asks for; None where it asks for none, as `settle` and `medium` do.
///
/// # Errors
///
/// `NoMemory` alone.
pub fn step_asked(alloc: Global, line: &WrittenLine) -> Result<Option<Step>, NoMemory>
    ensures value { IfOk result (λ step. step ≡ the_step_asked line.now) }
{
    match line {
        WrittenLine::Publish(words) => {
            let batch = batch_asked(alloc, words)?;
            Ok(Some(Step::Publish(words.queue, batch)))
        }
        WrittenLine::Fetch(queue) => Ok(Some(Step::Fetch(*queue))),
        WrittenLine::Grant(ticket) => Ok(Some(Step::Grant(*ticket))),
        WrittenLine::Block(ticket) => Ok(Some(Step::Block(*ticket))),
        WrittenLine::Post(ticket) => Ok(Some(Step::Post(*ticket))),
        WrittenLine::Reap(queue) => Ok(Some(Step::Reap(*queue))),
        WrittenLine::Settle | WrittenLine::Medium(_) => Ok(None),
    }
}
