//! A history as a text.

ghost use Rattle.std.specs.Prelude.{◌++◌, ◌∷◌, [], All, OnErr, OnOk};
ghost use Rattle.std.specs.Io.KnownBytes.{Appends};
ghost use Rattle.line_text.specs.Known.{AppendsFront};
ghost use Rattle.history.specs.ConfigLine.{config_line};
ghost use Rattle.history.specs.Lines.{HasLine, entry_line};
ghost use Rattle.history.specs.Texts.{history_text};

use crate::config::Config;
use crate::config_line::write_config_line;
use crate::writing::write_line;
use line_text::send_line;
use nvme_model::entry::Entry;
use std::alloc::Global;
use std::io::Write;
use thiserror::Error;

/// Why a history wasn't printed whole.
#[derive(Clone, Copy, Debug, Drop, Error, PartialEq, Eq)]
pub enum PrintFault {
    /// Writing failed.
    #[error("output failed")]
    Output,
    /// A growth was refused.
    #[error("no memory")]
    NoMemory,
}

/// Writes bytes as a line at once: the bytes, and a line feed.
///
/// # Errors
///
/// `Output` after a beginning of the line.
pub fn print_bytes<W: Write>(line: &[u8], writer: &mut W) -> Result<(), PrintFault>
    ensures whole { OnOk result (Appends (W.contents writer.old) (W.contents writer.new) (line.now ++ 10 ∷ [])) }
    ensures front { OnErr result
        (AppendsFront (W.contents writer.old) (W.contents writer.new) (line.now ++ 10 ∷ [])) }
{
    match send_line(writer, line) {
        Ok(()) => Ok(()),
        Err(_) => Err(PrintFault::Output),
    }
}

/// Writes the configuration line, made in `line` in place of what that held.
///
/// # Errors
///
/// `Output` after a beginning of the line; `NoMemory`, before anything is written, where it couldn't be made.
pub fn print_config<W: Write>(
    config: &Config,
    line: &mut Vec<u8>,
    writer: &mut W,
) -> Result<(), PrintFault>
    ensures whole { OnOk result
        (Appends (W.contents writer.old) (W.contents writer.new) (config_line config.now ++ 10 ∷ [])) }
    ensures front { OnErr result
        (AppendsFront (W.contents writer.old) (W.contents writer.new) (config_line config.now ++ 10 ∷ [])) }
{
    line.clear();
    if write_config_line(&config.numbers(), line).is_err() {
        return Err(PrintFault::NoMemory);
    }
    print_bytes(line.as_slice(), writer)
}

// Writes the line of an entry, made in `line`.
fn print_entry<W: Write>(
    entry: &Entry,
    line: &mut Vec<u8>,
    writer: &mut W,
) -> Result<(), PrintFault>
    ensures whole { OnOk result
        (Appends (W.contents writer.old) (W.contents writer.new) (entry_line entry.now ++ 10 ∷ [])) }
    ensures front { OnErr result
        (AppendsFront (W.contents writer.old) (W.contents writer.new) (entry_line entry.now ++ 10 ∷ [])) }
    ensures line { HasLine entry.now }
{
    line.clear();
    if write_line(entry, line).is_err() {
        return Err(PrintFault::NoMemory);
    }
    print_bytes(line.as_slice(), writer)
}

/// Writes a configuration line and the line of each entry, the oldest first.
///
/// # Errors
///
/// `Output` where writing failed, and `NoMemory` where a line couldn't be made, both after a beginning of the text.
pub fn print_history<W: Write>(
    alloc: Global,
    config: &Config,
    entries: &[Entry],
    writer: &mut W,
) -> Result<(), PrintFault>
    ensures whole { OnOk result
        (Appends (W.contents writer.old) (W.contents writer.new) (history_text config.now entries.now)) }
    ensures front { OnErr result
        (AppendsFront (W.contents writer.old) (W.contents writer.new) (history_text config.now entries.now)) }
    ensures lines { OnOk result (All HasLine entries.now) }
{
    let mut line = Vec::new(alloc);
    print_config(config, &mut line, writer)?;
    for k in 0..entries.len() {
        print_entry(&entries[k], &mut line, writer)?;
    }
    Ok(())
}
