//! The first line of a script or of a history.

ghost use Rattle.std.specs.Prelude.{◌≡◌, ◌≢◌, ◌++◌, ◌∷◌, [], Err, IfErr, IfOk, IfSome, List, Option, Some, ℕ};
ghost use Rattle.std.specs.Io.KnownBytes.{Appends};
ghost use Rattle.line_text.specs.Known.{AppendsFront};
ghost use Rattle.line_text.specs.Lines.{whole_lines};
ghost use Rattle.nvme_model.specs.declared.config.ConfigNumbers.{ConfigNumbers};
ghost use Rattle.casdisk_texts.specs.Followed.{StopsFirst};
ghost use Rattle.casdisk_texts.specs.Meaning.{Meaning};
ghost use Rattle.casdisk_texts.specs.Remade.{IsFirstLine, LacksFirstLine};
ghost use Rattle.casdisk_texts.specs.Running.{PrintsFront, Reached, RunsScript};
ghost use Rattle.casdisk_texts.specs.Script.{first_config, script_outcome};

use crate::fault::RunFault;
use crate::running::read_fault;
use history::{Config, LineFault, read_config_line};
use line_text::{Lines, NextLine};
use std::alloc::Global;
use std::io::Read;

/// Reads the first line, which stays in `line`, and its configuration.
///
/// # Errors
///
/// `BadLine(1)` where it is no configuration line, `BadConfig` with the number of the fault, `Input` and `NoMemory`.
pub fn read_first<R: Read>(
    alloc: Global,
    lines: &mut Lines,
    line: &mut Vec<u8>,
    reader: &mut R,
) -> Result<Config, RunFault>
    requires fresh { lines.old ≡ [] }
    ensures stopped { (meaning : ConfigNumbers → Meaning) (w : Option (List ℕ)) → IfErr result
        (λ f. RunsScript (script_outcome meaning) (Err f) (R.remaining reader.old) (R.remaining reader.new) w w) }
    ensures front { (meaning : ConfigNumbers → Meaning) (w u : Option (List ℕ)) → IfOk result
        (λ c. AppendsFront w u (line.new.items ++ 10 ∷ []) →
        PrintsFront (script_outcome meaning) (R.remaining reader.old) (R.remaining reader.new) w u) }
    ensures begun { (meaning : ConfigNumbers → Meaning) (w u : Option (List ℕ)) → IfOk result
        (λ c. Appends w u (line.new.items ++ 10 ∷ []) →
        Reached (script_outcome meaning) (meaning c) [] 2 (R.remaining reader.old)
        (R.remaining reader.new) w u lines.new) }
    ensures config { IfOk result
        (λ c. IfSome (R.remaining reader.old) (λ bytes. first_config (whole_lines bytes) ≡ Some c)) }
    ensures read { IfErr result (λ f. f ≢ RunFault.Output) }
    ensures first { IfErr result (λ f. StopsFirst f (R.remaining reader.old) (R.remaining reader.new)) }
    ensures line { IfOk result
        (λ c. IsFirstLine c line.new.items (R.remaining reader.old) (R.remaining reader.new) lines.new) }
    ensures none { IfErr result (λ f. LacksFirstLine f (R.remaining reader.old) (R.remaining reader.new)) }
{
    match lines.next_line(reader, line) {
        Err(fault) => return Err(read_fault(fault)),
        Ok(NextLine::Rest) => return Err(RunFault::BadLine(1)),
        Ok(NextLine::Whole) => {}
    }
    let numbers = match read_config_line(alloc, line.as_slice()) {
        Ok(numbers) => numbers,
        Err(LineFault::Malformed) => return Err(RunFault::BadLine(1)),
        Err(LineFault::NoMemory) => return Err(RunFault::NoMemory),
    };
    match Config::from_numbers(&numbers) {
        Ok(config) => Ok(config),
        Err(fault) => Err(RunFault::BadConfig(fault.number())),
    }
}
