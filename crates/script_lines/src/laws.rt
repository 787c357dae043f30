//! The law of the lines that are written: it is the contract of a function that does nothing.

ghost use Rattle.script_lines.specs.Texts.{IsScriptLine};
ghost use Rattle.script_lines.specs.Written.{IsWritten};
ghost use Rattle.script_lines.specs.declared.written.WrittenLine.{WrittenLine};

/// A line that is written reads as what it asks for.
pub fn written_lines_are_read()
    ensures read { (line : WrittenLine) → IsWritten line → IsScriptLine line }
{}
