//! A script from its first line on.

ghost use Rattle.std.specs.Prelude.{◌≡◌, [], Err, IfErr, IfOk, IfSome, Some};
ghost use Rattle.line_text.specs.Lines.{whole_lines};
ghost use Rattle.nvme_model.specs.declared.config.ConfigNumbers.{ConfigNumbers};
ghost use Rattle.casdisk_texts.specs.Checked.{RunsChecked};
ghost use Rattle.casdisk_texts.specs.Meaning.{Meaning};
ghost use Rattle.casdisk_texts.specs.Running.{Reached, RunsScript};
ghost use Rattle.casdisk_texts.specs.Said.{script_line};
ghost use Rattle.casdisk_texts.specs.Script.{first_config, script_outcome};

use crate::fault::RunFault;
use crate::first_line::read_first;
use crate::judging::Judge;
use crate::performing::Performer;
use crate::running::run_lines;
use crate::watching::Unwatched;
use history::Kinds;
use line_text::{Lines, send_line};
use std::alloc::Global;
use std::io::{Read, Write};
use step_core::Core;

// Reads the first line, writes it, and makes the controller that it says.
pub(crate) fn begin_script<R: Read, W: Write>(
    alloc: Global,
    lines: &mut Lines,
    line: &mut Vec<u8>,
    reader: &mut R,
    writer: &mut W,
) -> Result<Core, RunFault>
    requires fresh { lines.old ≡ [] }
    ensures stopped { (meaning : ConfigNumbers → Meaning) → IfErr result
        (λ f. RunsScript (script_outcome meaning) (Err f) (R.remaining reader.old) (R.remaining reader.new)
        (W.contents writer.old) (W.contents writer.new)) }
    ensures begun { (meaning : ConfigNumbers → Meaning) → IfOk result
        (λ core. Reached (script_outcome meaning) (meaning core.config) [] 2 (R.remaining reader.old)
        (R.remaining reader.new) (W.contents writer.old) (W.contents writer.new) lines.new) }
    ensures empty { IfOk result (λ core. core.past ≡ []) }
    ensures config { IfOk result (λ core. IfSome (R.remaining reader.old)
        (λ bytes. first_config (whole_lines bytes) ≡ Some core.config)) }
{
    let config = read_first(alloc, lines, line, reader)?;
    let Ok(core) = Core::new(alloc, config) else {
        return Err(RunFault::NoMemory);
    };
    match send_line(writer, line.as_slice()) {
        Ok(()) => Ok(core),
        Err(_) => Err(RunFault::Output),
    }
}

/// Runs a script: writes its configuration line, and then what its lines say, less the kinds that aren't shown.
///
/// # Errors
///
/// `BadLine` with the number of the first line that may not stand there, after the text of the lines before it;
/// `BadConfig` with the number of the fault, after nothing; `Input`, where no line that was read is bad, after their
/// whole text; `Output` and `NoMemory` after a beginning of it.
pub fn run_script<R: Read, W: Write>(
    alloc: Global,
    reader: &mut R,
    writer: &mut W,
    kinds: Kinds,
) -> Result<(), RunFault>
    ensures runs { RunsScript (script_outcome (λ c. script_line c kinds.0)) result (R.remaining reader.old)
        (R.remaining reader.new)
        (W.contents writer.old) (W.contents writer.new) }
{
    let Ok(mut lines) = Lines::new(alloc) else {
        return Err(RunFault::NoMemory);
    };
    let mut line = Vec::new(alloc);
    let core = begin_script(alloc, &mut lines, &mut line, reader, writer)?;
    let mut performer = Performer {
        alloc,
        core,
        kinds,
        watch: Unwatched,
        text: Vec::new(alloc),
    };
    run_lines(&mut performer, &mut lines, &mut line, reader, writer)
}

/// Runs a script in the same way, and judges each step as it is made, also one whose line isn't shown. Answers the
/// first place, from 1, at which what was made isn't legal: what a check of its history says.
///
/// # Errors
///
/// Those of `run_script`.
pub fn run_checked<R: Read, W: Write>(
    alloc: Global,
    reader: &mut R,
    writer: &mut W,
    kinds: Kinds,
) -> Result<Option<u64>, RunFault>
    ensures runs { RunsChecked (λ c. script_line c kinds.0) result (R.remaining reader.old) (R.remaining reader.new)
        (W.contents writer.old) (W.contents writer.new) }
{
    let Ok(mut lines) = Lines::new(alloc) else {
        return Err(RunFault::NoMemory);
    };
    let mut line = Vec::new(alloc);
    let core = begin_script(alloc, &mut lines, &mut line, reader, writer)?;
    let Ok(watch) = Judge::<false>::new(alloc, &core.config()) else {
        return Err(RunFault::NoMemory);
    };
    let mut performer = Performer {
        alloc,
        core,
        kinds,
        watch,
        text: Vec::new(alloc),
    };
    match run_lines(&mut performer, &mut lines, &mut line, reader, writer) {
        Ok(()) => Ok(performer.watch.bad.place),
        Err(fault) => Err(fault),
    }
}
