//! The command `observe`.

ghost use Rattle.std.specs.Prelude.{IfErr};
ghost use Rattle.casdisk_program.specs.Kept.{FailsKept};

use crate::failure::{Failure, failure_of, unwritten};
use crate::input::opened;
use casdisk_texts::RunFault;
use file_commands::{Grammar, TraceAnswer, observe_text, trace_object};
use std::fs;
use std::io::{Print, Read, Write, sink, writer};
use std::rt::Files;

/// The files into which the history goes that explains a trace, or what refutes it, where they are asked for.
#[derive(Clone, Copy)]
pub(crate) struct ProofFiles<'a> {
    pub(crate) witness: Option<&'a str>,
    pub(crate) refutation: Option<&'a str>,
}

// The file into which what was found goes.
fn file_for<'a>(files: ProofFiles<'a>, answer: TraceAnswer) -> Option<&'a str> {
    match answer {
        TraceAnswer::Explained => files.witness,
        TraceAnswer::Refuted => files.refutation,
        TraceAnswer::NotFound | TraceAnswer::GaveUp => None,
    }
}

// Looks for a history that explains a trace, with what is written of it kept in memory.
fn observed<T: Read, V: Write, R: AllocGlobal>(
    rt: &R,
    trace: &mut T,
    witness: &mut V,
    said: &mut Vec<u8>,
    steps: u64,
) -> Result<TraceAnswer, RunFault>
    ensures memory { IfErr result FailsKept }
{
    match observe_text(rt.alloc(), trace, witness, said, steps) {
        Ok(answer) => Ok(answer),
        Err(RunFault::Output) => Err(RunFault::NoMemory),
        Err(fault) => Err(fault),
    }
}

// Writes the text of what was found into its file, made anew, and after that what is said.
fn written<R: Files + Print + AllocGlobal>(
    rt: &R,
    found: Option<(&str, &[u8])>,
    said: &[u8],
) -> Result<(), Failure> {
    if let Some((file, text)) = found {
        if let Err(error) = fs::write(rt, file, text) {
            return Err(unwritten(rt.alloc(), file, error.kind()));
        }
    }
    if writer(rt).write_all(said).is_err() {
        return Err(Failure::from(RunFault::Output));
    }
    Ok(())
}

// Looks for a history that explains a trace, and gives the status 0 where one was found, 1 where there is none, 5 where
// the steps were used up, 6 where neither was found. What was found goes into the file that is asked for it.
pub(crate) fn observe_file<R: Files + Input + Print + AllocGlobal>(
    rt: &R,
    files: ProofFiles<'_>,
    steps: u64,
    json: bool,
    why: bool,
    trace: &str,
) -> Result<u8, Failure> {
    let mut input = opened(rt, trace, why)?;
    let mut said = Vec::new(rt.alloc());
    let mut text = Vec::new(rt.alloc());
    let answer = if files.witness.is_some() || files.refutation.is_some() {
        observed(rt, &mut input, &mut text, &mut said, steps)
    } else {
        observed(rt, &mut input, &mut sink(), &mut said, steps)
    };
    match answer {
        Ok(answer) => {
            let found = file_for(files, answer).map(|file| (file, text.as_slice()));
            if json {
                let Ok(object) = trace_object(rt.alloc(), answer, said.as_slice()) else {
                    return Err(Failure::from(RunFault::NoMemory));
                };
                written(rt, found, object.as_slice())?;
            } else {
                written(rt, found, said.as_slice())?;
            }
            Ok(answer.status())
        }
        Err(fault) => Err(failure_of(rt.alloc(), trace, &input, Grammar::Trace, fault)),
    }
}
