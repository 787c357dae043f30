//! A history that is told, line by line.

ghost use Rattle.std.specs.Prelude.{◌≡◌, IfOk, OnErr, OnOk, option_map, string_bytes};
ghost use Rattle.std.specs.Io.KnownBytes.{Appends};
ghost use Rattle.history.specs.Lines.{entry_in};
ghost use Rattle.casdisk_texts.specs.Running.{RunsScript};
ghost use Rattle.line_text.specs.Known.{AppendsFront};
ghost use Rattle.file_commands.specs.ToldText.{line_told, paint_of, told_as, told_line, told_text};
ghost use Rattle.file_commands.specs.declared.telling.Telling.{Telling};

use crate::opening::read_opening;
use casdisk_texts::{Fields, LineMeaning, RunFault, Taken, WriteFault, object_line, run_lines};
use history::{LineFault, parse_line};
use history_words::{Paint, beside_words, config_words, entry_words};
use line_text::{Lines, send, send_line};
use std::alloc::{AllocError as NoMemory, Global};
use std::io::{Read, Write};

// How a history is told.
#[derive(Clone, Copy)]
pub(crate) enum Telling {
    // By lines, which may be coloured.
    Lines(Paint),
    // By JSON objects.
    Objects,
}

// Whether words are coloured; an object's never are.
fn paint_of(telling: Telling) -> Paint
    ensures value { result ≡ paint_of telling }
{
    match telling {
        Telling::Lines(paint) => paint,
        Telling::Objects => Paint::Plain,
    }
}

// Tells the entries of lines, one at a time, and keeps none of them.
#[derive(Drop)]
struct Teller {
    alloc: Global,
    telling: Telling,
}

// What is told of a line; None where it is no line of a history or of a run.
fn words_of(alloc: Global, line: &[u8], paint: Paint) -> Result<Option<String>, NoMemory>
    ensures value { IfOk result
        (λ told. option_map string_bytes told ≡ line_told paint line.now (entry_in line.now)) }
{
    match parse_line(alloc, line) {
        Ok(entry) => {
            let words = entry_words(alloc, &entry, paint)?;
            Ok(Some(words))
        }
        Err(LineFault::Malformed) => beside_words(alloc, line, paint),
        Err(LineFault::NoMemory) => Err(NoMemory),
    }
}

// Writes words as an object.
fn send_object<W: Write>(alloc: Global, text: &[u8], writer: &mut W) -> Result<(), WriteFault>
    ensures whole { OnOk result
        (Appends (W.contents writer.old) (W.contents writer.new) (told_as Telling.Objects text.now)) }
    ensures front { OnErr result
        (AppendsFront (W.contents writer.old) (W.contents writer.new) (told_as Telling.Objects text.now)) }
{
    let Ok(object) = object_line(alloc, &Fields::plain("told"), text) else {
        return Err(WriteFault::NoMemory);
    };
    match send(writer, object.as_slice()) {
        Ok(()) => Ok(()),
        Err(_) => Err(WriteFault::Output),
    }
}

// Writes words, as a line or as an object.
fn send_told<W: Write>(
    alloc: Global,
    telling: Telling,
    text: &[u8],
    writer: &mut W,
) -> Result<(), WriteFault>
    ensures whole { OnOk result
        (Appends (W.contents writer.old) (W.contents writer.new) (told_as telling text.now)) }
    ensures front { OnErr result
        (AppendsFront (W.contents writer.old) (W.contents writer.new) (told_as telling text.now)) }
{
    match telling {
        Telling::Lines(_) => match send_line(writer, text) {
            Ok(()) => Ok(()),
            Err(_) => Err(WriteFault::Output),
        },
        Telling::Objects => send_object(alloc, text, writer),
    }
}

impl LineMeaning for Teller {
    ghost stands = { λ _ _ _. Unit {0} };

    ghost meaning = { λ m. told_line m.telling };

    fn take_line<W: Write>(&mut self, line: &[u8], writer: &mut W) -> Result<Taken, WriteFault> {
        let Ok(told) = words_of(self.alloc, line, paint_of(self.telling)) else {
            return Err(WriteFault::NoMemory);
        };
        let Some(text) = told else {
            return Ok(Taken::Bad);
        };
        match send_told(self.alloc, self.telling, text.as_bytes(), writer) {
            Ok(()) => Ok(Taken::Done),
            Err(fault) => Err(fault),
        }
    }
}

// Does what `tell_text` does, by lines or by objects.
fn tell_as<R: Read, W: Write>(
    alloc: Global,
    reader: &mut R,
    writer: &mut W,
    telling: Telling,
) -> Result<(), RunFault>
    ensures tells { RunsScript (told_text telling) result (R.remaining reader.old) (R.remaining reader.new)
        (W.contents writer.old) (W.contents writer.new) }
{
    let Ok(mut lines) = Lines::new(alloc) else {
        return Err(RunFault::NoMemory);
    };
    let mut line = Vec::new(alloc);
    let numbers = read_opening(alloc, &mut lines, &mut line, reader)?;
    let Ok(text) = config_words(alloc, &numbers, paint_of(telling)) else {
        return Err(RunFault::NoMemory);
    };
    match send_told(alloc, telling, text.as_bytes(), writer) {
        Ok(()) => {}
        Err(WriteFault::Output) => return Err(RunFault::Output),
        Err(WriteFault::NoMemory) => return Err(RunFault::NoMemory),
    }
    let mut teller = Teller { alloc, telling };
    run_lines(&mut teller, &mut lines, &mut line, reader, writer)
}

/// Reads a configuration line and the lines of a history, or of all that a run prints, to the reader's end or to the
/// first bad line, and writes each in words, a line for a line, as soon as it is read. Whether the history is legal
/// isn't asked.
///
/// # Errors
///
/// `BadLine` with the number of the first line that may not stand there, after the words of the lines before it;
/// `BadConfig` with the number of the fault, after nothing; `Input`, where no line that was read is bad, after their
/// whole text; `Output` and `NoMemory` after a beginning of it.
pub fn tell_text<R: Read, W: Write>(
    alloc: Global,
    reader: &mut R,
    writer: &mut W,
    paint: Paint,
) -> Result<(), RunFault>
    ensures tells { RunsScript (told_text (Telling.Lines paint)) result (R.remaining reader.old)
        (R.remaining reader.new) (W.contents writer.old) (W.contents writer.new) }
{
    tell_as(alloc, reader, writer, Telling::Lines(paint))
}

/// Does the same, and writes in place of each line its object, whose words aren't coloured.
///
/// # Errors
///
/// Those of `tell_text`.
pub fn tell_objects<R: Read, W: Write>(
    alloc: Global,
    reader: &mut R,
    writer: &mut W,
) -> Result<(), RunFault>
    ensures tells { RunsScript (told_text Telling.Objects) result (R.remaining reader.old)
        (R.remaining reader.new) (W.contents writer.old) (W.contents writer.new) }
{
    tell_as(alloc, reader, writer, Telling::Objects)
}
