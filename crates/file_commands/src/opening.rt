//! The first line of a history that is told.

ghost use Rattle.std.specs.Prelude.{◌≡◌, [], Err, IfErr, IfOk, List, Option, ℕ};
ghost use Rattle.std.specs.Io.KnownBytes.{Appends};
ghost use Rattle.line_text.specs.Known.{AppendsFront};
ghost use Rattle.casdisk_texts.specs.Running.{PrintsFront, Reached, RunsScript};
ghost use Rattle.casdisk_texts.specs.Fault.{fault_of_read};
ghost use Rattle.file_commands.specs.ToldText.{config_as, told_text, told_line};
ghost use Rattle.file_commands.specs.declared.telling.Telling.{Telling};

use casdisk_texts::RunFault;
use history::{Config, LineFault, read_config_line};
use line_text::{Lines, NextLine, ReadFault};
use nvme_model::config::ConfigNumbers;
use std::alloc::Global;
use std::io::Read;

// Why nothing is told where no line was read.
fn read_fault(fault: ReadFault) -> RunFault
    ensures cause { result ≡ fault_of_read fault }
{
    match fault {
        ReadFault::Input => RunFault::Input,
        ReadFault::NoMemory => RunFault::NoMemory,
    }
}

// Reads the first line, and gives the numbers of its configuration, which is accepted.
pub(crate) fn read_opening<R: Read>(
    alloc: Global,
    lines: &mut Lines,
    line: &mut Vec<u8>,
    reader: &mut R,
) -> Result<ConfigNumbers, RunFault>
    requires fresh { lines.old ≡ [] }
    ensures stopped { (telling : Telling) (w : Option (List ℕ)) → IfErr result
        (λ f. RunsScript (told_text telling) (Err f) (R.remaining reader.old) (R.remaining reader.new) w w) }
    ensures front { (telling : Telling) (w u : Option (List ℕ)) → IfOk result
        (λ c. AppendsFront w u (config_as telling c) →
        PrintsFront (told_text telling) (R.remaining reader.old) (R.remaining reader.new) w u) }
    ensures begun { (telling : Telling) (w u : Option (List ℕ)) → IfOk result
        (λ c. Appends w u (config_as telling c) → Reached (told_text telling) (told_line telling) [] 2
        (R.remaining reader.old) (R.remaining reader.new) w u lines.new) }
{
    match lines.next_line(reader, line) {
        Err(fault) => return Err(read_fault(fault)),
        Ok(NextLine::Rest) => return Err(RunFault::BadLine(1)),
        Ok(NextLine::Whole) => {}
    }
    let numbers = match read_config_line(alloc, line.as_slice()) {
        Ok(numbers) => numbers,
        Err(LineFault::Malformed) => return Err(RunFault::BadLine(1)),
        Err(LineFault::NoMemory) => return Err(RunFault::NoMemory),
    };
    match Config::from_numbers(&numbers) {
        Ok(_) => Ok(numbers),
        Err(fault) => Err(RunFault::BadConfig(fault.number())),
    }
}
