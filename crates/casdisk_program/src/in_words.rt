//! The command that tells a history in words.

use crate::failure::{Failure, failure_of};
use crate::input::{Source, opened};
use crate::kept::Kept;
use crate::output_buffer::BUFFER;
use casdisk_texts::RunFault;
use file_commands::{Grammar, tell_objects, tell_text};
use history_words::Paint;
use std::io;
use std::io::{BufWriter, Read, Write};
use std::rt::Files;

// Tells what is read by lines, which may be coloured, or where there is no paint by objects.
fn tell_into<R: AllocGlobal, I: Read, W: Write>(
    rt: &R,
    paint: Option<Paint>,
    input: &mut I,
    output: &mut W,
) -> Result<(), RunFault> {
    match paint {
        Some(paint) => tell_text(rt.alloc(), input, output, paint),
        None => tell_objects(rt.alloc(), input, output),
    }
}

// Tells what is read: of standard input line by line, of a file in pieces.
fn told<R: Files + Input + Print + AllocGlobal>(
    rt: &R,
    paint: Option<Paint>,
    file: &str,
    input: &mut Kept<Source<R::File, R::Reader>>,
) -> Result<(), RunFault> {
    if file == "-" {
        return tell_into(rt, paint, input, &mut io::writer(rt));
    }
    let Ok(mut output) = BufWriter::with_capacity(rt.alloc(), BUFFER, io::writer(rt)) else {
        return Err(RunFault::NoMemory);
    };
    let done = tell_into(rt, paint, input, &mut output);
    if output.flush().is_err() {
        return Err(RunFault::Output);
    }
    done
}

/// Tells a history, by objects where there is no paint, and then gives the status 0.
pub(crate) fn tell_file<R: Files + Input + Print + AllocGlobal>(
    rt: &R,
    paint: Option<Paint>,
    why: bool,
    file: &str,
) -> Result<u8, Failure> {
    let mut input = opened(rt, file, why)?;
    match told(rt, paint, file, &mut input) {
        Ok(()) => Ok(0),
        Err(fault) => Err(failure_of(rt.alloc(), file, &input, Grammar::Told, fault)),
    }
}
