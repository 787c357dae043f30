//! What hosts saw of a history as a text.

ghost use Rattle.std.specs.Prelude.{◌∷◌, OnErr, OnOk, reverse};
ghost use Rattle.std.specs.Io.KnownBytes.{Appends};
ghost use Rattle.line_text.specs.Known.{AppendsFront};
ghost use Rattle.nvme_model.specs.History.{Past};
ghost use Rattle.nvme_model.specs.Legal.{IsLegal, IsLegalFile};
ghost use Rattle.trace.specs.Observed.{shown};
ghost use Rattle.witness_check.specs.TraceText.{seen_text, trace_text};
ghost use Rattle.witness_check.specs.Seeing.{AreWaitingPayloads, seen_of};

use crate::observer::Observer;
use crate::sight::Sight;
use history::{Config, Entry, PrintFault, print_bytes, print_config, write_publish};
use std::alloc::Global;
use std::io::Write;
use trace::{Seen, write_seen};

/// Writes the line of what hosts see of an entry, made in `line`; nothing where they see nothing.
///
/// # Errors
///
/// `Output` where writing failed, and `NoMemory` where the line couldn't be made, both after a beginning of the line.
#[tactic(auto, using(crate::proofs::Growing::published_line))]
pub fn print_sight<W: Write>(
    sight: Sight<'_>,
    line: &mut Vec<u8>,
    writer: &mut W,
) -> Result<(), PrintFault>
    ensures whole { OnOk result
        (Appends (W.contents writer.old) (W.contents writer.new) (seen_text (seen_of sight.entry))) }
    ensures front { OnErr result
        (AppendsFront (W.contents writer.old) (W.contents writer.new) (seen_text (seen_of sight.entry))) }
{
    line.clear();
    let written = match sight {
        Sight::Hidden => return Ok(()),
        Sight::Published(publish) => write_publish(publish, line),
        Sight::Reaped(reaped) => write_seen(&Seen::Reaped(reaped), line),
    };
    if written.is_err() {
        return Err(PrintFault::NoMemory);
    }
    print_bytes(line.as_slice(), writer)
}

// Writes the line of what hosts see of the next entry of a legal history.
fn print_next<W: Write>(
    observer: &mut Observer,
    config: &Config,
    entry: &Entry,
    line: &mut Vec<u8>,
    writer: &mut W,
) -> Result<(), PrintFault>
    ensures whole { (past : Past) → IsLegal config.now (entry.now ∷ past) →
        AreWaitingPayloads config.now past observer.old → OnOk result
        (Appends (W.contents writer.old) (W.contents writer.new) (seen_text (shown config.now past entry.now))) }
    ensures waits { (past : Past) → IsLegal config.now (entry.now ∷ past) →
        AreWaitingPayloads config.now past observer.old →
        OnOk result (AreWaitingPayloads config.now (entry.now ∷ past) observer.new) }
    ensures front { (past : Past) → IsLegal config.now (entry.now ∷ past) →
        AreWaitingPayloads config.now past observer.old → OnErr result
        (AppendsFront (W.contents writer.old) (W.contents writer.new) (seen_text (shown config.now past entry.now))) }
{
    // (that it is accepted is known where its numbers are asked for)
    let _accepted = config.numbers();
    match observer.take(entry) {
        Ok(sight) => print_sight(sight, line, writer),
        Err(_) => Err(PrintFault::NoMemory),
    }
}

/// Writes a configuration line and the line of each thing that hosts saw of a legal history, the oldest first.
///
/// # Errors
///
/// `Output` where writing failed, and `NoMemory` where a growth was refused, both after a beginning of the text.
pub fn print_trace<W: Write>(
    alloc: Global,
    config: &Config,
    entries: &[Entry],
    writer: &mut W,
) -> Result<(), PrintFault>
    requires legal { IsLegalFile config.now entries.now }
    ensures whole { OnOk result
        (Appends (W.contents writer.old) (W.contents writer.new) (trace_text config.now (reverse entries.now))) }
    ensures front { OnErr result
        (AppendsFront (W.contents writer.old) (W.contents writer.new) (trace_text config.now (reverse entries.now))) }
{
    let mut line = Vec::new(alloc);
    print_config(config, &mut line, writer)?;
    let Ok(mut observer) = Observer::new(alloc, config) else {
        return Err(PrintFault::NoMemory);
    };
    for k in 0..entries.len() {
        print_next(&mut observer, config, &entries[k], &mut line, writer)?;
    }
    Ok(())
}
