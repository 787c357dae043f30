//! The lines of a script, one after the other.

ghost use Rattle.std.specs.Prelude.{◌≡◌, ◌≢◌};
ghost use Rattle.nvme_model.specs.History.{Past};
ghost use Rattle.nvme_model.specs.declared.config.ConfigNumbers.{ConfigNumbers};
ghost use Rattle.casdisk_texts.specs.Fault.{fault_of_read, fault_of_write};
ghost use Rattle.casdisk_texts.specs.Running.{Makes, RunsScript, lines_from};

use crate::fault::RunFault;
use crate::meaning::{LineMeaning, Taken, WriteFault};
use line_text::{Lines, NextLine, ReadFault};
use std::io::{Read, Write};

// Why the run ends where no line was read.
pub(crate) fn read_fault(fault: ReadFault) -> RunFault
    ensures cause { result ≡ fault_of_read fault }
    ensures read { result ≢ RunFault.Output }
{
    match fault {
        ReadFault::Input => RunFault::Input,
        ReadFault::NoMemory => RunFault::NoMemory,
    }
}

// Why the run ends where a line wasn't done to its end.
pub(crate) fn write_fault(fault: WriteFault) -> RunFault
    ensures cause { result ≡ fault_of_write fault }
{
    match fault {
        WriteFault::Output => RunFault::Output,
        WriteFault::NoMemory => RunFault::NoMemory,
    }
}

/// Does the lines behind the first, whose number is 2, to the reader's end or to the first bad one; `line` holds one at
/// a time.
///
/// # Errors
///
/// `BadLine` with the number of the first line that may not stand there, after the text of the lines before it;
/// `Input`, where no line that was read is bad, after their whole text; `Output` and `NoMemory` after a beginning of
/// it. A line whose number doesn't fit 64 bits is `NoMemory` too.
pub fn run_lines<M: LineMeaning, R: Read, W: Write>(
    actor: &mut M,
    lines: &mut Lines,
    line: &mut Vec<u8>,
    reader: &mut R,
    writer: &mut W,
) -> Result<(), RunFault>
    ensures runs { (c : ConfigNumbers) (past : Past) →
        M.stands actor.old c past → RunsScript (lines_from (M.meaning actor.old) past 2 lines.old) result
        (R.remaining reader.old) (R.remaining reader.new) (W.contents writer.old) (W.contents writer.new) }
    ensures makes { (c : ConfigNumbers) (past : Past) → M.stands actor.old c past → Makes
        (lines_from (M.meaning actor.old) past 2 lines.old) result (R.remaining reader.old) (M.stands actor.new c) }
    ensures fixed { M.fixed actor.new ≡ M.fixed actor.old }
{
    for number in 2..u64::MAX {
        match lines.next_line(reader, line) {
            Err(fault) => return Err(read_fault(fault)),
            Ok(NextLine::Rest) => {
                if line.is_empty() {
                    return Ok(());
                }
                return Err(RunFault::BadLine(number));
            }
            Ok(NextLine::Whole) => match actor.take_line(line, writer) {
                Err(fault) => return Err(write_fault(fault)),
                Ok(Taken::Bad) => return Err(RunFault::BadLine(number)),
                Ok(Taken::Done) => {}
            },
        }
    }

    // The number of a line can't grow any more.
    Err(RunFault::NoMemory)
}
