//! A script of a kind.

ghost use Rattle.std.specs.Prelude.{IfOk};
ghost use Rattle.random_script.specs.Scripts.{AreOfKind, WritesScript};

use crate::numbers::RandomNumbers;
use crate::scene::Scene;
use crate::script_kind::ScriptKind;
use crate::steps::drawn_line;
use history::{Config, PrintFault};
use script_lines::{WrittenLine, print_script};
use std::alloc::{AllocError as NoMemory, Global};
use std::io::Write;

/// Draws the lines of a script behind its first: so many, of this kind. A controller of this configuration accepts
/// about nine in ten of their steps, which is tested and in no clause.
///
/// # Errors
///
/// `NoMemory` alone.
pub fn draw_script(
    alloc: Global,
    random: &mut RandomNumbers,
    config: Config,
    kind: ScriptKind,
    count: u32,
) -> Result<Vec<WrittenLine>, NoMemory>
    ensures lines { IfOk result (λ v. AreOfKind kind count v.items) }
{
    let mut scene = Scene::new(alloc, config)?;
    let mut lines = Vec::new(alloc);
    for turn in 0..count {
        let line = drawn_line(&mut scene, random, kind, turn)?;
        lines.push(line)?;
    }
    Ok(lines)
}

/// Draws a script and writes it: the configuration line, and so many lines of this kind. Each is a line of a script,
/// and asks for what its words say.
///
/// # Errors
///
/// `Output` where writing failed, and `NoMemory` where a growth was refused, both after a beginning of such a script or
/// after nothing.
pub fn write_random<W: Write>(
    alloc: Global,
    random: &mut RandomNumbers,
    config: Config,
    kind: ScriptKind,
    count: u32,
    writer: &mut W,
) -> Result<(), PrintFault>
    ensures writes { WritesScript kind config count result (W.contents writer.old) (W.contents writer.new) }
{
    let Ok(lines) = draw_script(alloc, random, config, kind, count) else {
        return Err(PrintFault::NoMemory);
    };
    print_script(alloc, &config, lines.as_slice(), writer)
}
