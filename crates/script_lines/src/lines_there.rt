//! That a line has numbers within their types: what its types keep.

ghost use Rattle.std.specs.Prelude.{ℕ, ◌<◌, ◌^◌, slice_index};
ghost use Rattle.script_lines.specs.Written.{HasEntry, HasForm, HasSecond, IsWritten};

use crate::written::{EntryForm, WrittenEntry, WrittenLine};

// A number of 16 bits.
fn short_fits(number: u16)
    ensures { number < 2 ^ 16 }
{
    let _ = number;
}

// A number of 64 bits.
fn long_fits(number: u64)
    ensures { number < 2 ^ 64 }
{
    let _ = number;
}

// Bytes are below 256.
fn bytes_fit(bytes: &[u8])
    ensures { (i : ℕ) → slice_index bytes.now i < 256 }
{
    let _ = bytes;
}

fn form_fits(form: &EntryForm)
    ensures { HasForm form.now }
{
    match form {
        EntryForm::Named(command) => {
            short_fits(command.cid);
            long_fits(command.slba);
            short_fits(command.nlb);
        }
        EntryForm::Raw(bytes) => bytes_fit(bytes),
    }
}

fn entry_fits(entry: &WrittenEntry)
    ensures { HasEntry entry.now }
{
    form_fits(&entry.form);
    bytes_fit(entry.payload.as_slice());
}

fn second_fits(second: &Option<WrittenEntry>)
    ensures { HasSecond second.now }
{
    match second {
        None => {}
        Some(entry) => entry_fits(entry),
    }
}

/// The numbers of a line are within their types. Does nothing.
pub(crate) fn fits(line: &WrittenLine)
    ensures { IsWritten line.now }
{
    match line {
        WrittenLine::Publish(words) => {
            short_fits(words.queue);
            entry_fits(&words.first);
            second_fits(&words.second);
        }
        WrittenLine::Fetch(number) | WrittenLine::Reap(number) => short_fits(*number),
        WrittenLine::Grant(number) | WrittenLine::Block(number) => long_fits(*number),
        WrittenLine::Post(number) | WrittenLine::Medium(number) => long_fits(*number),
        WrittenLine::Settle => {}
    }
}
