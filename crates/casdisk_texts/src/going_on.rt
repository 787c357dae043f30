//! A script that goes on from a history.

ghost use Rattle.std.specs.Prelude.{◌≡◌, Err, IfErr, IfOk, IfSome, List, None, OnOk, Option, ℕ};
ghost use Rattle.nvme_model.specs.Legal.{IsLegal};
ghost use Rattle.casdisk_texts.specs.Checked.{HasMade};
ghost use Rattle.casdisk_texts.specs.Remade.{Continues, RunsFrom, WasRemade, first_other, remade_line};

use crate::certifying::same_config;
use crate::fault::RunFault;
use crate::first_line::read_first;
use crate::from_fault::FromFault;
use crate::performing::Performer;
use crate::remaking::Remaker;
use crate::running::run_lines;
use crate::script::begin_script;
use crate::watching::Unwatched;
use history::Kinds;
use line_text::Lines;
use std::alloc::Global;
use std::io::{Read, Write};
use step_core::Core;

// Reads a history to its end, and gives the controller that has made it once more.
fn remake_history<H: Read, W: Write>(
    alloc: Global,
    history: &mut H,
    writer: &mut W,
    kinds: Kinds,
) -> Result<Core, FromFault>
    ensures stopped { (s : Option (List ℕ)) → IfErr result (λ f. RunsFrom kinds.0 (Err f) (H.remaining history.old)
        (H.remaining history.new) s s (W.contents writer.old) (W.contents writer.new)) }
    ensures made { IfOk result (λ core. WasRemade (λ c past. (core.config ≡ c) × (core.past ≡ past)
        × (first_other c past ≡ None)) kinds.0 (H.remaining history.old) (H.remaining history.new)
        (W.contents writer.old) (W.contents writer.new)) }
    ensures legal { IfOk result (λ core. IsLegal core.config core.past) }
{
    let Ok(mut lines) = Lines::new(alloc) else {
        return Err(FromFault::History(RunFault::NoMemory));
    };
    let mut line = Vec::new(alloc);
    let core = match begin_script(alloc, &mut lines, &mut line, history, writer) {
        Ok(core) => core,
        Err(fault) => return Err(FromFault::History(fault)),
    };
    let mut remaker = Remaker {
        alloc,
        core,
        kinds,
        text: Vec::new(alloc),
        other: None,
    };
    match run_lines(&mut remaker, &mut lines, &mut line, history, writer) {
        Ok(()) => {}
        Err(fault) => return Err(FromFault::History(fault)),
    }
    if let Some(place) = remaker.other {
        return Err(FromFault::Differs(place));
    }
    // A read tells the proof that what was made is legal.
    let _ = remaker.core.history();
    Ok(remaker.core)
}

// Does a script of the same configuration by this controller.
fn go_on<R: Read, W: Write>(
    alloc: Global,
    core: Core,
    script: &mut R,
    writer: &mut W,
    kinds: Kinds,
) -> Result<(), FromFault>
    ensures goes_on { Continues core.config kinds.0 core.past result (R.remaining script.old)
        (R.remaining script.new) (W.contents writer.old) (W.contents writer.new) }
{
    let Ok(mut lines) = Lines::new(alloc) else {
        return Err(FromFault::Script(RunFault::NoMemory));
    };
    let mut line = Vec::new(alloc);
    let config = match read_first(alloc, &mut lines, &mut line, script) {
        Ok(config) => config,
        Err(fault) => return Err(FromFault::Script(fault)),
    };
    if !same_config(&config, &core.config()) {
        return Err(FromFault::OtherConfig);
    }
    let mut performer = Performer {
        alloc,
        core,
        kinds,
        watch: Unwatched,
        text: Vec::new(alloc),
    };
    match run_lines(&mut performer, &mut lines, &mut line, script, writer) {
        Ok(()) => Ok(()),
        Err(fault) => Err(FromFault::Script(fault)),
    }
}

/// Goes on from a history: makes its steps once more, and then does what the lines of a script say, which has to have
/// the configuration of the history. Writes the lines of both, less the kinds that aren't shown: the history, and then
/// what the script makes.
///
/// # Errors
///
/// `History` with why the history wasn't read to its end, as `run_script` says it of a script; `Differs` with the first
/// place, from 1, at which a controller of this kind would have done something else, after the lines before it: so a
/// history that isn't legal differs, and also one that is and that another controller made; `OtherConfig` where the
/// script has another configuration; and `Script` with why the run of the script ended, as `run_script` says it. Of the
/// script nothing is read before the history is made.
pub fn run_from<H: Read, R: Read, W: Write>(
    alloc: Global,
    history: &mut H,
    script: &mut R,
    writer: &mut W,
    kinds: Kinds,
) -> Result<(), FromFault>
    ensures runs { RunsFrom kinds.0 result (H.remaining history.old) (H.remaining history.new)
        (R.remaining script.old) (R.remaining script.new) (W.contents writer.old) (W.contents writer.new) }
    ensures legal { OnOk result (IfSome (H.remaining history.old) (HasMade (λ c. remade_line c kinds.0) IsLegal)) }
{
    let core = remake_history(alloc, history, writer, kinds)?;
    go_on(alloc, core, script, writer, kinds)
}
