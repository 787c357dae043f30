//! A tracer: made, freed, and given the lines of a legal history, one at a time; it gives the lines of its trace.

ghost use Rattle.std.specs.Prelude.{◌≡◌, ◌≤◌, ◌<◌, [], IfOk, None, OnErr, OnOk, Some, length};
ghost use Rattle.c_handles.specs.Owned.{Keeps};
ghost use Rattle.c_handles.specs.Configurations.{given_numbers};
ghost use Rattle.vandrexu_c.specs.Checkers.{MayRefuseChecker};
ghost use Rattle.vandrexu_c.specs.Tracers.{FollowsTrace, IsNewTracer, TellsSeen, TellsTraced, TracerRun};
ghost use Rattle.witness_check.specs.TraceText.{seen_text};

use crate::copying::fits;
use crate::lending::{fill, lend};
use crate::numbers::{BAD_LINE, TOO_SMALL};
use crate::owned_tracer::{OwnedTracer, TracerHandle};
use c_handles::GivenConfig;
use c_handles::numbers::NO_MEMORY;
use history::{Config, LineFault, parse_line};
use std::alloc::{AllocError as NoMemory, Global};
use trace::{Seen, write_seen};
use witness_check::Observer;

// A tracer in a box.
fn own_tracer(alloc: Global, config: &Config) -> Result<Box<OwnedTracer>, NoMemory>
    ensures { IfOk result (λ b. FollowsTrace config.now [] b.value × (b.value.last ≡ None)) }
{
    // (that it is accepted is known where its numbers are asked for)
    let _accepted = config.numbers();
    let owned = OwnedTracer {
        observer: Observer::new(alloc, config)?,
        last: None,
    };
    Ok(Box::new(alloc, owned)?)
}

/// Makes a tracer of histories of this configuration that has taken no line, and puts it into the handle: 0; or the
/// first fault of the configuration, 21 to 30; or 11 where memory is refused; or 102 where the handle owns one. The
/// handle is then as before.
#[unsafe(no_mangle)]
#[tactic(auto, using(c_handles::proofs::Marks::none_of))]
pub extern "C" fn vandrexu_tracer_new(
    alloc: Global,
    config: &GivenConfig,
    tracer: &mut TracerHandle,
) -> u32
    ensures done { result ≡ 0 → IsNewTracer (given_numbers config.now) tracer.new.held.run }
    ensures failed { (result ≡ 0 → ⊥) → tracer.new.held.run ≡ tracer.old.held.run }
    ensures cause { (result ≡ 0 → ⊥) → MayRefuseChecker (given_numbers config.now) tracer.old.held.run result }
{
    fill!(tracer.live != 0, tracer, config, accepted => own_tracer(alloc, &accepted))
}

/// Frees what the handle owns. Nothing is done where it owns nothing.
#[unsafe(no_mangle)]
pub extern "C" fn vandrexu_tracer_free(alloc: Global, tracer: &mut TracerHandle)
    ensures { tracer.new.held.run ≡ None }
{
    drop(tracer.take(alloc));
}

// Takes the entry of a line, by the number that it is answered.
fn taken(alloc: Global, tracer: &mut OwnedTracer, line: &[u8]) -> u32
    ensures { TellsTraced tracer.old line.now result tracer.new }
{
    let entry = match parse_line(alloc, line) {
        Ok(entry) => entry,
        Err(LineFault::Malformed) => return BAD_LINE,
        Err(LineFault::NoMemory) => return NO_MEMORY,
    };
    match tracer.take(entry) {
        Ok(()) => 0,
        Err(_) => NO_MEMORY,
    }
}

/// Takes the next line of a legal history, without its line feed: 0; or 107 where it is no line of a history, and 11
/// where memory is refused, and it isn't taken; or 101 where the handle owns nothing.
#[unsafe(no_mangle)]
pub extern "C" fn vandrexu_tracer_take_line(
    alloc: Global,
    tracer: &mut TracerHandle,
    line: &[u8],
) -> u32
    ensures no_handle { tracer.old.held.run ≡ None → (result ≡ 101) × (tracer.new.held.run ≡ None) }
    ensures takes { (r : TracerRun) → tracer.old.held.run ≡ Some r →
        Keeps tracer.new.held.run (TellsTraced r line.now result) }
{
    lend!(alloc, tracer, mut owned => taken(alloc, owned.as_mut(), line))
}

// The line of what was seen, with its line feed.
fn line_of(alloc: Global, seen: &Seen) -> Result<Vec<u8>, NoMemory>
    ensures { IfOk result (λ text. text.items ≡ seen_text (Some seen.now)) }
{
    let mut text = Vec::new(alloc);
    if write_seen(seen, &mut text).is_err() {
        return Err(NoMemory);
    }
    text.push(b'\n')?;
    Ok(text)
}

// Gives the line of what hosts see of the entry that was taken last; where they see nothing, no byte.
fn give_seen(alloc: Global, tracer: &OwnedTracer, out: &mut [u8], needed: &mut usize) -> u32
    ensures tells { TellsSeen tracer.now out.old out.new result needed.new }
    ensures done { result ≡ 0 → needed.new ≤ length out.old }
    ensures too_small { result ≡ 103 → length out.old < needed.new }
{
    let text = match &tracer.last {
        Some(seen) => line_of(alloc, seen),
        None => Ok(Vec::new(alloc)),
    };
    let Ok(text) = text else {
        return NO_MEMORY;
    };
    if fits(text.as_slice(), out, needed) {
        return 0;
    }
    TOO_SMALL
}

/// Copies the line of the trace that the line taken last adds, with its line feed: 0, and the beginning of `out` has
/// it, or nothing where hosts see nothing of that line; or 103 where `out` is too short, and nothing is written there;
/// or 11 where memory is refused; or 101 where the handle owns nothing. At 0 and 103 `needed` is its length.
#[unsafe(no_mangle)]
pub extern "C" fn vandrexu_tracer_seen(
    alloc: Global,
    tracer: &mut TracerHandle,
    out: &mut [u8],
    needed: &mut usize,
) -> u32
    ensures no_handle { tracer.old.held.run ≡ None → (result ≡ 101) × (out.new ≡ out.old) }
    ensures same { tracer.new.held.run ≡ tracer.old.held.run }
    ensures tells { (r : TracerRun) → tracer.old.held.run ≡ Some r →
        TellsSeen r out.old out.new result needed.new }
    ensures done { result ≡ 0 → needed.new ≤ length out.old }
    ensures too_small { result ≡ 103 → length out.old < needed.new }
{
    lend!(alloc, tracer, owned => give_seen(alloc, owned.as_ref(), out, needed))
}
