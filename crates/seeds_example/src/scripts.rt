//! Random scripts of one seed, one of each kind, which are the same on every machine.

use history::PrintFault;
use random_script::{RandomNumbers, ScriptKind, draw_config, write_random};
use std::io::Write;

const SEED: u64 = 47;

const LINES: u32 = 12;

const KINDS: [ScriptKind; 7] = [
    ScriptKind::Single,
    ScriptKind::Pairs,
    ScriptKind::Units,
    ScriptKind::Queues,
    ScriptKind::Hostile,
    ScriptKind::Slots,
    ScriptKind::Mixed,
];

// Writes the script of a kind.
fn write_kind<R: AllocGlobal, W: Write>(
    rt: &R,
    kind: ScriptKind,
    writer: &mut W,
) -> Result<(), PrintFault> {
    let mut random = RandomNumbers::from_seed(SEED);
    let config = draw_config(&mut random, kind);
    write_random(rt.alloc(), &mut random, config, kind, LINES, writer)
}

/// Writes the script of each kind.
pub(crate) fn show<R: AllocGlobal, W: Write>(rt: &R, writer: &mut W) -> Result<(), PrintFault> {
    for kind in KINDS {
        write_kind(rt, kind, writer)?;
    }
    Ok(())
}
