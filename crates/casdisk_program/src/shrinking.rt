//! The command `shrink`.

use crate::failure::{end_failure, end_fault, failure_of};
use crate::input::opened;
use crate::output_buffer::BUFFER;
use file_commands::Grammar;
use shrink::{Conversation, ShrinkFault, Shrunk, shrink_text, shrunk_status};
use std::io;
use std::io::{BufWriter, Read, Write};
use std::rt::Files;

// Makes a script small by questions on standard output, which standard input answers.
fn shrunk<R: Input + Print + AllocGlobal, I: Read>(
    rt: &R,
    script: &mut I,
) -> Result<Shrunk, ShrinkFault> {
    let Ok(output) = BufWriter::with_capacity(rt.alloc(), BUFFER, io::writer(rt)) else {
        return Err(ShrinkFault::NoMemory);
    };
    let Ok(mut talk) = Conversation::new(rt.alloc(), rt.reader(), output) else {
        return Err(ShrinkFault::NoMemory);
    };
    let answer = shrink_text(rt.alloc(), script, &mut talk);
    if talk.writer.flush().is_err() {
        return Err(ShrinkFault::Output);
    }
    answer
}

/// Makes a script small, and gives the status 0 where it is done, 1 where the script itself passes, else that of the
/// fault, whose words go to standard error.
pub(crate) fn shrink_file<R: Files + Input + Print + Eprint + AllocGlobal>(
    rt: &R,
    why: bool,
    file: &str,
) -> u8 {
    let mut script = match opened(rt, file, why) {
        Ok(script) => script,
        Err(failure) => return end_failure(rt, failure),
    };
    match shrunk(rt, &mut script) {
        Ok(shrunk) => shrunk_status(shrunk),
        Err(ShrinkFault::Script(fault)) => {
            end_failure(
                rt,
                failure_of(rt.alloc(), file, &script, Grammar::Script, fault),
            )
        }
        Err(fault) => end_fault(rt, fault, fault.status(), None),
    }
}
