//! The text of a history, as the data of a web page.

ghost use Rattle.std.specs.Prelude.{◌≡◌, ◌++◌, ◌∷◌, [], Err, IfErr, IfOk, IfSome, None, Ok, OnErr, OnOk, Some};
ghost use Rattle.std.specs.Prelude.{true};
ghost use Rattle.std.specs.Io.KnownBytes.{Appends};
ghost use Rattle.line_text.specs.Known.{AppendsFront};
ghost use Rattle.line_text.specs.Lines.{whole_lines};
ghost use Rattle.casdisk_texts.specs.Explained.{explained_of};
ghost use Rattle.casdisk_texts.specs.Judged.{HasFirstBad, HasJudged};
ghost use Rattle.casdisk_texts.specs.Running.{Makes, Reached, RunsScript, lines_from};
ghost use Rattle.casdisk_texts.specs.Script.{first_config};
ghost use Rattle.picture_svg.specs.WebPage.{PrintsPage, line_shown, page_line, page_outcome, step_shown};

use crate::pieces::{Piece, push_all};
use casdisk_texts::{
    BadStep, Explained, FirstBad, Judge, LineMeaning, RunFault, Taken, WriteFault, read_first,
    run_lines,
};
use history::{Config, Entry, LineFault, parse_line};
use history_words::{Paint, entry_words};
use line_text::{Lines, send, send_line};
use std::alloc::{AllocError as NoMemory, Global};
use std::io::{Read, Result as IoResult, Write};

// Judges the entries of lines, writes each line with its words up to and with the first bad one, and keeps none.
#[derive(Drop)]
struct Pager {
    alloc: Global,
    config: Config,
    judge: Judge<true>,
    // what is written of a line, until it is sent
    text: Vec<u8>,
}

/// What the first entry that breaks a rule, if there is one, says of the history.
pub(crate) fn explained_by(bad: FirstBad) -> Explained
    ensures value { result ≡ explained_of bad.place bad.broken }
{
    match (bad.place, bad.broken) {
        (Some(place), Some(broken)) => Explained::BadAt(BadStep { place, broken }),
        (Some(_), None) | (None, _) => Explained::Legal,
    }
}

// Adds a line of the page.
fn push_line(text: &mut Vec<u8>, words: &[u8]) -> Result<(), NoMemory>
    ensures value { OnOk result (text.new.items ≡ text.old.items ++ line_shown words.now) }
{
    push_all(text, &[Piece::Words(words), Piece::Raw(b"\n")])
}

// Adds what the page has of an entry and its line, where no step before it is bad.
fn push_good(alloc: Global, text: &mut Vec<u8>, line: &[u8], entry: &Entry) -> Result<(), NoMemory>
    ensures value { OnOk result (text.new.items ≡ text.old.items ++ step_shown None line.now entry.now) }
{
    let words = entry_words(alloc, entry, Paint::Plain)?;
    push_line(text, line)?;
    push_line(text, words.as_bytes())
}

// Makes what the page has of an entry and its line, by the first bad place before it.
fn put_step(
    alloc: Global,
    text: &mut Vec<u8>,
    bad: Option<u64>,
    line: &[u8],
    entry: &Entry,
) -> Result<(), NoMemory>
    ensures value { OnOk result (text.new.items ≡ step_shown bad line.now entry.now) }
{
    text.clear();
    match bad {
        None => push_good(alloc, text, line, entry),
        Some(_) => Ok(()),
    }
}

impl LineMeaning for Pager {
    ghost stands = { λ m c past. (m.config ≡ c) × HasJudged true c past m.judge.checker m.judge.count m.judge.bad };

    ghost meaning = { λ m. page_line m.config };

    fn take_line<W: Write>(&mut self, line: &[u8], writer: &mut W) -> Result<Taken, WriteFault> {
        let entry = match parse_line(self.alloc, line) {
            Ok(entry) => entry,
            Err(LineFault::Malformed) => return Ok(Taken::Bad),
            Err(LineFault::NoMemory) => return Err(WriteFault::NoMemory),
        };
        let bad = self.judge.bad.place;
        let Ok(()) = self.judge.judge(&entry) else {
            return Err(WriteFault::NoMemory);
        };
        let Ok(()) = put_step(self.alloc, &mut self.text, bad, line, &entry) else {
            return Err(WriteFault::NoMemory);
        };
        match send(writer, self.text.as_slice()) {
            Ok(()) => Ok(Taken::Done),
            Err(_) => Err(WriteFault::Output),
        }
    }
}

// Writes the head and the configuration line.
fn send_opening<W: Write>(head: &[u8], line: &[u8], writer: &mut W) -> IoResult<()>
    ensures whole { OnOk result
        (Appends (W.contents writer.old) (W.contents writer.new) (head.now ++ (line.now ++ 10 ∷ []))) }
    ensures front { OnErr result
        (AppendsFront (W.contents writer.old) (W.contents writer.new) (head.now ++ (line.now ++ 10 ∷ []))) }
{
    send(writer, head)?;
    send_line(writer, line)
}

// Reads the first line, and writes the head and this line where its configuration is accepted.
fn begin_page<R: Read, W: Write>(
    alloc: Global,
    head: &[u8],
    lines: &mut Lines,
    line: &mut Vec<u8>,
    reader: &mut R,
    writer: &mut W,
) -> Result<Config, RunFault>
    requires fresh { lines.old ≡ [] }
    ensures stopped { IfErr result
        (λ f. RunsScript (page_outcome head.now) (Err f) (R.remaining reader.old) (R.remaining reader.new)
        (W.contents writer.old) (W.contents writer.new)) }
    ensures begun { IfOk result
        (λ c. Reached (page_outcome head.now) (page_line c) [] 2 (R.remaining reader.old)
        (R.remaining reader.new) (W.contents writer.old) (W.contents writer.new) lines.new) }
    ensures config { IfOk result (λ c. IfSome (R.remaining reader.old)
        (λ bytes. first_config (whole_lines bytes) ≡ Some c)) }
{
    let config = match read_first(alloc, lines, line, reader) {
        Ok(config) => config,
        Err(fault) => return Err(fault),
    };
    match send_opening(head, line.as_slice(), writer) {
        Ok(()) => Ok(config),
        Err(_) => Err(RunFault::Output),
    }
}

// Writes the lines behind the first, and gives the first bad entry.
fn page_lines<R: Read, W: Write>(
    pager: &mut Pager,
    lines: &mut Lines,
    line: &mut Vec<u8>,
    reader: &mut R,
    writer: &mut W,
) -> Result<FirstBad, RunFault>
    ensures stopped { HasJudged true pager.old.config [] pager.old.judge.checker pager.old.judge.count
        pager.old.judge.bad → IfErr result
        (λ f. RunsScript (lines_from (page_line pager.old.config) [] 2 lines.old) (Err f) (R.remaining reader.old)
        (R.remaining reader.new) (W.contents writer.old) (W.contents writer.new)) }
    ensures done { HasJudged true pager.old.config [] pager.old.judge.checker pager.old.judge.count
        pager.old.judge.bad → IfOk result
        (λ bad. RunsScript (lines_from (page_line pager.old.config) [] 2 lines.old) (Ok tt) (R.remaining reader.old)
        (R.remaining reader.new) (W.contents writer.old) (W.contents writer.new)
        × Makes (lines_from (page_line pager.old.config) [] 2 lines.old) (Ok tt) (R.remaining reader.old)
        (λ past. HasFirstBad true pager.old.config past bad)) }
{
    match run_lines(pager, lines, line, reader, writer) {
        Ok(()) => Ok(pager.judge.bad),
        Err(fault) => Err(fault),
    }
}

/// Reads a configuration line and the lines of a history to the reader's end or to the first bad line, and writes a
/// head, the configuration line, and then each line with its words behind it, as soon as it is read: up to and with the
/// first bad step. What has a meaning in HTML is replaced, so that the head may end within an element that holds text.
/// Answers whether the history is legal, or its first bad step with the rule that it breaks.
///
/// # Errors
///
/// `BadLine` with the number of the first line that may not stand there, after the text of the lines before it;
/// `BadConfig` with the number of the fault, after nothing; `Input`, where no line that was read is bad, after their
/// whole text; `Output` and `NoMemory` after a beginning of it.
pub fn page_text<R: Read, W: Write>(
    alloc: Global,
    head: &[u8],
    reader: &mut R,
    writer: &mut W,
) -> Result<Explained, RunFault>
    ensures prints { PrintsPage head.now result (R.remaining reader.old) (R.remaining reader.new)
        (W.contents writer.old) (W.contents writer.new) }
{
    let Ok(mut lines) = Lines::new(alloc) else {
        return Err(RunFault::NoMemory);
    };
    let mut line = Vec::new(alloc);
    let config = begin_page(alloc, head, &mut lines, &mut line, reader, writer)?;
    let Ok(judge) = Judge::<true>::new(alloc, &config) else {
        return Err(RunFault::NoMemory);
    };
    let mut pager = Pager {
        alloc,
        config,
        judge,
        text: Vec::new(alloc),
    };
    match page_lines(&mut pager, &mut lines, &mut line, reader, writer) {
        Ok(bad) => Ok(explained_by(bad)),
        Err(fault) => Err(fault),
    }
}
