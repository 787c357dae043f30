//! The text of a script.

ghost use Rattle.std.specs.Prelude.{◌++◌, ◌∷◌, [], All, OnErr, OnOk};
ghost use Rattle.std.specs.Io.KnownBytes.{Appends};
ghost use Rattle.line_text.specs.Known.{AppendsFront};
ghost use Rattle.script_lines.specs.Texts.{IsScriptLine, script_text};
ghost use Rattle.script_lines.specs.Written.{line_text};

use crate::writing::write_script_line;
use crate::written::WrittenLine;
use history::{Config, PrintFault, print_bytes, print_config};
use std::alloc::Global;
use std::io::Write;

// Writes a line, made in `text`.
fn print_line<W: Write>(
    line: &WrittenLine,
    text: &mut Vec<u8>,
    writer: &mut W,
) -> Result<(), PrintFault>
    ensures whole { OnOk result
        (Appends (W.contents writer.old) (W.contents writer.new) (line_text line.now ++ 10 ∷ [])) }
    ensures front { OnErr result
        (AppendsFront (W.contents writer.old) (W.contents writer.new) (line_text line.now ++ 10 ∷ [])) }
    ensures read { IsScriptLine line.now }
{
    text.clear();
    if write_script_line(line, text).is_err() {
        return Err(PrintFault::NoMemory);
    }
    print_bytes(text.as_slice(), writer)
}

/// Writes a script: its configuration line, and each line. Each is a line of a script, and asks for what its words say.
///
/// # Errors
///
/// `Output` where writing failed, and `NoMemory` where a line couldn't be made, both after a beginning of the text.
pub fn print_script<W: Write>(
    alloc: Global,
    config: &Config,
    lines: &[WrittenLine],
    writer: &mut W,
) -> Result<(), PrintFault>
    ensures whole { OnOk result
        (Appends (W.contents writer.old) (W.contents writer.new) (script_text config.now lines.now)) }
    ensures front { OnErr result
        (AppendsFront (W.contents writer.old) (W.contents writer.new) (script_text config.now lines.now)) }
    ensures read { OnOk result (All IsScriptLine lines.now) }
{
    let mut text = Vec::new(alloc);
    print_config(config, &mut text, writer)?;
    for k in 0..lines.len() {
        print_line(&lines[k], &mut text, writer)?;
    }
    Ok(())
}
