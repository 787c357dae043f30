//! The command `draw --page`.

use crate::checking::explained_text;
use crate::culprit::Culprit;
use crate::failure::{Failure, failure_of};
use crate::input::opened;
use crate::output_buffer::BUFFER;
use crate::watched::Watched;
use casdisk_texts::{Explained, RunFault};
use file_commands::Grammar;
use picture_svg::{Piece, page_text, push_all};
use std::alloc::{AllocError as NoMemory, Global};
use std::io;
use std::io::{BufWriter, Read, Write};
use std::rt::Files;

// The head of a page, from its parts.
fn head_of(alloc: Global, parts: &[&str]) -> Result<Vec<u8>, NoMemory> {
    let mut head = Vec::new(alloc);
    for part in parts {
        head.extend_from_slice(part.as_bytes())?;
    }
    Ok(head)
}

// What is said of a history, as the last line of a page.
fn verdict_of(
    alloc: Global,
    explained: Explained,
    culprit: Option<Culprit>,
) -> Result<Vec<u8>, NoMemory> {
    let words = explained_text(alloc, explained, culprit)?;
    let mut line = Vec::new(alloc);
    push_all(
        &mut line,
        &[Piece::Words(words.as_bytes()), Piece::Raw(b"\n")],
    )?;
    Ok(line)
}

// Writes the page of a history, and behind its lines what `explain` says of it.
fn write_page<I: Read + Drop, W: Write>(
    alloc: Global,
    head: &[u8],
    input: &mut Watched<I>,
    output: &mut W,
) -> Result<Explained, RunFault> {
    let explained = page_text(alloc, head, input, output)?;
    let told = explained;
    let asked = explained;
    let culprit = input.culprit_of(asked);
    let Ok(line) = verdict_of(alloc, told, culprit) else {
        return Err(RunFault::NoMemory);
    };
    match output.write_all(line.as_slice()) {
        Ok(()) => Ok(explained),
        Err(_) => Err(RunFault::Output),
    }
}

// Writes the page on standard output; what was written is sent even where it isn't whole.
fn print_page<R: Print + AllocGlobal, I: Read + Drop>(
    rt: &R,
    parts: &[&str],
    input: &mut Watched<I>,
) -> Result<Explained, RunFault> {
    let Ok(head) = head_of(rt.alloc(), parts) else {
        return Err(RunFault::NoMemory);
    };
    let Ok(mut output) = BufWriter::with_capacity(rt.alloc(), BUFFER, io::writer(rt)) else {
        return Err(RunFault::NoMemory);
    };
    let written = write_page(rt.alloc(), head.as_slice(), input, &mut output);
    if output.flush().is_err() {
        return Err(RunFault::Output);
    }
    written
}

/// Writes a history as a web page, whose head has these parts, and gives the status 0 where it is legal, else 1.
pub(crate) fn page_file<R: Files + Input + Print + AllocGlobal>(
    rt: &R,
    parts: &[&str],
    why: bool,
    file: &str,
) -> Result<u8, Failure> {
    let mut input = Watched::new(rt.alloc(), opened(rt, file, why)?);
    match print_page(rt, parts, &mut input) {
        Ok(Explained::Legal) => Ok(0),
        Ok(Explained::BadAt(_)) => Ok(1),
        Err(fault) => {
            let read = &input.source;
            Err(failure_of(rt.alloc(), file, read, Grammar::History, fault))
        }
    }
}
