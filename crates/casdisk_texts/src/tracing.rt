//! The trace of a history that is read.

ghost use Rattle.std.specs.Prelude.{reverse};
ghost use Rattle.casdisk_texts.specs.Tracing.{TracesText, WritesTrace};

use crate::fault::RunFault;
use crate::history_reading::{ReadHistory, read_history};
use history::PrintFault;
use history_check::{CheckFault, check};
use std::alloc::Global;
use std::io::{Read, Write};
use witness_check::print_trace;

// Writes the trace of a history, where it is legal, and says whether it is.
fn write_trace<W: Write>(
    alloc: Global,
    told: &ReadHistory,
    writer: &mut W,
) -> Result<bool, RunFault>
    ensures writes { WritesTrace told.now.config (reverse told.now.entries.items) result (W.contents writer.old)
        (W.contents writer.new) }
{
    match check(alloc, &told.config, told.entries.as_slice()) {
        Ok(()) => {}
        Err(CheckFault::BadAt(_)) => return Ok(false),
        Err(CheckFault::NoMemory) => return Err(RunFault::NoMemory),
    }
    match print_trace(alloc, &told.config, told.entries.as_slice(), writer) {
        Ok(()) => Ok(true),
        Err(PrintFault::Output) => Err(RunFault::Output),
        Err(PrintFault::NoMemory) => Err(RunFault::NoMemory),
    }
}

/// Reads a configuration line and the lines of a history to the reader's end and, where the history is legal, writes
/// its trace: the configuration line, and a line for each thing that hosts saw. Answers whether it is legal; of one
/// that isn't nothing is written.
///
/// # Errors
///
/// `BadLine` with the number of the first line that may not stand there, `BadConfig` with the number of the fault, and
/// `Input`, where no line that was read is bad, all after nothing was written; `Output` and `NoMemory` after a
/// beginning of the trace.
pub fn trace_text<R: Read, W: Write>(
    alloc: Global,
    reader: &mut R,
    writer: &mut W,
) -> Result<bool, RunFault>
    ensures traces { TracesText result (R.remaining reader.old) (R.remaining reader.new) (W.contents writer.old)
        (W.contents writer.new) }
{
    let told = read_history(alloc, reader)?;
    write_trace(alloc, &told, writer)
}
