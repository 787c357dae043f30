//! Lines, one after the other.

ghost use Rattle.std.specs.Prelude.{IfOk, IfSome};
ghost use Rattle.random_script.specs.Kinds.{IsOfKind};

use crate::numbers::RandomNumbers;
use crate::publishing::drawn_publish;
use crate::scene::Scene;
use crate::script_kind::ScriptKind;
use script_lines::WrittenLine;
use std::alloc::AllocError as NoMemory;

/// What a line does, but for lines that only look.
#[derive(Clone, Copy)]
enum Act {
    Publish,
    Fetch,
    // a Block, a Post or a Grant
    Serve,
    Reap,
}

// What comes next. On rings that fill and wrap a dozen lines fill them, and a dozen drain them.
fn drawn_act(random: &mut RandomNumbers, kind: ScriptKind, turn: u32) -> Act {
    let fills = match kind {
        ScriptKind::Queues => Some(turn / 12 % 2 == 0),
        ScriptKind::Single
        | ScriptKind::Pairs
        | ScriptKind::Units
        | ScriptKind::Hostile
        | ScriptKind::Slots
        | ScriptKind::Mixed => None,
    };
    match (fills, random.below(16)) {
        (Some(true), 0..=7) => Act::Publish,
        (Some(true), 8..=11) => Act::Fetch,
        (Some(true), _) => Act::Serve,
        (Some(false), 0..=2) => Act::Fetch,
        (Some(false), 3..=9) => Act::Serve,
        (Some(false), _) => Act::Reap,
        (None, 0..=2) => Act::Publish,
        (None, 3..=5) => Act::Fetch,
        (None, 6..=12) => Act::Serve,
        (None, _) => Act::Reap,
    }
}

// What is tried where that can't be done.
fn next_act(act: Act) -> Act {
    match act {
        Act::Reap => Act::Serve,
        Act::Serve => Act::Fetch,
        Act::Fetch => Act::Publish,
        Act::Publish => Act::Reap,
    }
}

// A line that is accepted, if this is.
fn if_made(scene: &mut Scene, line: WrittenLine) -> Result<Option<WrittenLine>, NoMemory>
    ensures kept { (kind : _) → IsOfKind kind line → IfOk result (λ o. IfSome o (IsOfKind kind)) }
{
    if scene.makes(&line)? {
        Ok(Some(line))
    } else {
        Ok(None)
    }
}

// A `publish` line that is accepted, if the drawn one is.
fn publish(
    scene: &mut Scene,
    random: &mut RandomNumbers,
    kind: ScriptKind,
) -> Result<Option<WrittenLine>, NoMemory>
    ensures kind { IfOk result (λ o. IfSome o (IsOfKind kind)) }
{
    let words = drawn_publish(scene.alloc, &scene.core, random, kind)?;
    if_made(scene, WrittenLine::Publish(words))
}

// A Fetch that is accepted, if one is.
fn fetch(
    scene: &mut Scene,
    random: &mut RandomNumbers,
    kind: ScriptKind,
) -> Result<Option<WrittenLine>, NoMemory>
    ensures kind { IfOk result (λ o. IfSome o (IsOfKind kind)) }
{
    let _ = kind;
    let pairs = scene.core.config().numbers().pairs.max(1);
    let first = random.below(u32::from(pairs));
    for k in 0..u32::from(pairs) {
        let queue = 1 + ((first + k) % u32::from(pairs)).min(1000) as u16;
        let line = WrittenLine::Fetch(queue);
        if scene.makes(&line)? {
            return Ok(Some(line));
        }
    }
    Ok(None)
}

// A Reap that is accepted, if one is.
fn reap(
    scene: &mut Scene,
    random: &mut RandomNumbers,
    kind: ScriptKind,
) -> Result<Option<WrittenLine>, NoMemory>
    ensures kind { IfOk result (λ o. IfSome o (IsOfKind kind)) }
{
    let _ = kind;
    let cqs = scene.core.config().numbers().cqs.max(1);
    let first = random.below(u32::from(cqs));
    for k in 0..u32::from(cqs) {
        let queue = 1 + ((first + k) % u32::from(cqs)).min(1000) as u16;
        let line = WrittenLine::Reap(queue);
        if scene.makes(&line)? {
            return Ok(Some(line));
        }
    }
    Ok(None)
}

// A step of this ticket that is accepted, if one is.
fn serve_one(
    scene: &mut Scene,
    ticket: u64,
    kind: ScriptKind,
) -> Result<Option<WrittenLine>, NoMemory>
    ensures kind { IfOk result (λ o. IfSome o (IsOfKind kind)) }
{
    let _ = kind;
    let block = WrittenLine::Block(ticket);
    if scene.makes(&block)? {
        return Ok(Some(block));
    }
    let grant = WrittenLine::Grant(ticket);
    if scene.makes(&grant)? {
        return Ok(Some(grant));
    }
    let post = WrittenLine::Post(ticket);
    if scene.makes(&post)? {
        return Ok(Some(post));
    }
    Ok(None)
}

// A Block, a Grant or a Post that is accepted, if one is.
fn serve(
    scene: &mut Scene,
    random: &mut RandomNumbers,
    kind: ScriptKind,
) -> Result<Option<WrittenLine>, NoMemory>
    ensures kind { IfOk result (λ o. IfSome o (IsOfKind kind)) }
{
    let count = scene.in_flight().min(1000);
    let first = random.below(1000) as usize;
    for k in 0..count {
        let ticket = scene.ticket_at(first + k);
        if let Some(line) = serve_one(scene, ticket, kind)? {
            return Ok(Some(line));
        }
    }
    Ok(None)
}

// A line of this act that is accepted, if one is.
fn acted(
    scene: &mut Scene,
    random: &mut RandomNumbers,
    kind: ScriptKind,
    act: Act,
) -> Result<Option<WrittenLine>, NoMemory>
    ensures kind { IfOk result (λ o. IfSome o (IsOfKind kind)) }
{
    match act {
        Act::Publish => publish(scene, random, kind),
        Act::Fetch => fetch(scene, random, kind),
        Act::Serve => serve(scene, random, kind),
        Act::Reap => reap(scene, random, kind),
    }
}

// A line that shows a block.
fn look(scene: &Scene, random: &mut RandomNumbers) -> WrittenLine
    ensures kind { (kind : _) → IsOfKind kind result }
{
    let blocks = scene.core.config().numbers().blocks.min(65_536);
    WrittenLine::Medium(u64::from(random.below(blocks + 1)))
}

// A line that is accepted: of the act that is drawn, or of those behind it, or else one that looks.
fn careful(
    scene: &mut Scene,
    random: &mut RandomNumbers,
    kind: ScriptKind,
    turn: u32,
) -> Result<WrittenLine, NoMemory>
    ensures kind { IfOk result (IsOfKind kind) }
{
    let mut act = drawn_act(random, kind, turn);
    for _ in 0..4 {
        if let Some(line) = acted(scene, random, kind, act)? {
            return Ok(line);
        }
        act = next_act(act);
    }
    Ok(look(scene, random))
}

// A line of a ticket, in flight or not, or of a queue, there or not.
fn careless_line(scene: &Scene, random: &mut RandomNumbers) -> WrittenLine
    ensures kind { (kind : _) → IsOfKind kind result }
{
    let ticket = u64::from(random.below(scene.tickets().min(1_000_000) + 3));
    let queue = random.below(20) as u16;
    match random.below(9) {
        0..=1 => WrittenLine::Grant(ticket),
        2..=3 => WrittenLine::Block(ticket),
        4..=5 => WrittenLine::Post(ticket),
        6..=7 => WrittenLine::Fetch(queue),
        _ => WrittenLine::Reap(queue),
    }
}

// A line that is mostly refused.
fn careless(scene: &mut Scene, random: &mut RandomNumbers) -> Result<WrittenLine, NoMemory>
    ensures kind { (kind : _) → IfOk result (IsOfKind kind) }
{
    let line = careless_line(scene, random);
    let _ = scene.makes(&line)?;
    Ok(line)
}

// A `publish` line, whether its queue has room for it or not.
fn careless_publish(
    scene: &mut Scene,
    random: &mut RandomNumbers,
    kind: ScriptKind,
) -> Result<WrittenLine, NoMemory>
    ensures kind { IfOk result (IsOfKind kind) }
{
    let words = drawn_publish(scene.alloc, &scene.core, random, kind)?;
    let line = WrittenLine::Publish(words);
    let _ = scene.makes(&line)?;
    Ok(line)
}

/// The next line.
pub(crate) fn drawn_line(
    scene: &mut Scene,
    random: &mut RandomNumbers,
    kind: ScriptKind,
    turn: u32,
) -> Result<WrittenLine, NoMemory>
    ensures kind { IfOk result (IsOfKind kind) }
{
    match random.below(80) {
        0 => {
            scene.settle()?;
            Ok(WrittenLine::Settle)
        }
        1..=3 => Ok(look(scene, random)),
        4..=6 => careless_publish(scene, random, kind),
        7..=12 => careless(scene, random),
        _ => careful(scene, random, kind, turn),
    }
}
