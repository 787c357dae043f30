//! `publish` lines of each kind.

ghost use Rattle.std.specs.Prelude.{◌≡◌, IfOk};
ghost use Rattle.random_script.specs.Kinds.{IsPublishOf};
ghost use Rattle.random_script.specs.declared.script_kind.ScriptKind.{ScriptKind as TheKind};

use crate::commands::{Extent, drawn_alone, drawn_extent, drawn_long, drawn_pair};
use crate::hostile::drawn_hostile;
use crate::numbers::RandomNumbers;
use crate::script_kind::ScriptKind;
use crate::swaps::drawn_swap;
use script_lines::PublishWords;
use std::alloc::{AllocError as NoMemory, Global};
use step_core::Core;

// A submission queue.
fn drawn_queue(core: &Core, random: &mut RandomNumbers) -> u16 {
    1 + random
        .below(u32::from(core.config().numbers().pairs).max(1))
        .min(15) as u16
}

fn single(alloc: Global, core: &Core, random: &mut RandomNumbers) -> Result<PublishWords, NoMemory>
    ensures kind { IfOk result (λ p. IsPublishOf TheKind.Single p.first p.second) }
{
    let extent = drawn_extent(core, random, 4);
    Ok(PublishWords {
        queue: drawn_queue(core, random),
        first: drawn_alone(alloc, core, random, extent)?,
        second: None,
    })
}

fn pair(alloc: Global, core: &Core, random: &mut RandomNumbers) -> Result<PublishWords, NoMemory>
    ensures kind { IfOk result (λ p. IsPublishOf TheKind.Pairs p.first p.second) }
{
    let two = drawn_pair(alloc, core, random)?;
    Ok(PublishWords {
        queue: drawn_queue(core, random),
        first: two.first,
        second: Some(two.second),
    })
}

fn long(alloc: Global, core: &Core, random: &mut RandomNumbers) -> Result<PublishWords, NoMemory>
    ensures kind { IfOk result (λ p. IsPublishOf TheKind.Units p.first p.second) }
{
    Ok(PublishWords {
        queue: drawn_queue(core, random),
        first: drawn_long(alloc, core, random)?,
        second: None,
    })
}

fn short(alloc: Global, core: &Core, random: &mut RandomNumbers) -> Result<PublishWords, NoMemory>
    ensures kind { IfOk result (λ p. IsPublishOf TheKind.Queues p.first p.second) }
{
    let slba = drawn_extent(core, random, 1).slba;
    let first = drawn_alone(alloc, core, random, Extent { slba, nlb: 0 })?;
    let second = if random.one_in(3) {
        Some(drawn_alone(alloc, core, random, Extent { slba, nlb: 0 })?)
    } else {
        None
    };
    Ok(PublishWords {
        queue: drawn_queue(core, random),
        first,
        second,
    })
}

fn hostile(alloc: Global, core: &Core, random: &mut RandomNumbers) -> Result<PublishWords, NoMemory>
    ensures kind { IfOk result (λ p. IsPublishOf TheKind.Hostile p.first p.second) }
{
    let first = drawn_hostile(alloc, core, random)?;
    let second = if random.one_in(3) {
        Some(drawn_hostile(alloc, core, random)?)
    } else {
        None
    };
    Ok(PublishWords {
        queue: drawn_queue(core, random),
        first,
        second,
    })
}

fn swap(alloc: Global, core: &Core, random: &mut RandomNumbers) -> Result<PublishWords, NoMemory>
    ensures kind { IfOk result (λ p. IsPublishOf TheKind.Slots p.first p.second) }
{
    let swap = drawn_swap(alloc, core, random)?;
    Ok(PublishWords {
        queue: swap.queue,
        first: swap.two.first,
        second: Some(swap.two.second),
    })
}

// Entries of any kind.
fn any(alloc: Global, core: &Core, random: &mut RandomNumbers) -> Result<PublishWords, NoMemory> {
    match random.below(8) {
        0..=1 => single(alloc, core, random),
        2..=3 => pair(alloc, core, random),
        4 => long(alloc, core, random),
        5 => short(alloc, core, random),
        6 => hostile(alloc, core, random),
        _ => swap(alloc, core, random),
    }
}

/// The entries of a `publish` line of this kind, on a queue of the controller.
pub(crate) fn drawn_publish(
    alloc: Global,
    core: &Core,
    random: &mut RandomNumbers,
    kind: ScriptKind,
) -> Result<PublishWords, NoMemory>
    ensures kind { IfOk result (λ p. IsPublishOf kind p.first p.second) }
{
    match kind {
        ScriptKind::Single => single(alloc, core, random),
        ScriptKind::Pairs => pair(alloc, core, random),
        ScriptKind::Units => long(alloc, core, random),
        ScriptKind::Queues => short(alloc, core, random),
        ScriptKind::Hostile => hostile(alloc, core, random),
        ScriptKind::Slots => swap(alloc, core, random),
        ScriptKind::Mixed => any(alloc, core, random),
    }
}
