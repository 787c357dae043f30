//! The command `draw`.

ghost use Rattle.std.specs.Prelude.{IfErr};
ghost use Rattle.casdisk_program.specs.Kept.{ComparesKept};

use crate::certify::{CertifyFailure, compared, end_certify, of_history, of_trace};
use crate::failure::{end_failure, end_fault, failure_of};
use crate::input::opened;
use crate::kept::Kept;
use crate::output_buffer::BUFFER;
use casdisk_texts::{CertifyFault, Logged, RunFault};
use command_line::SlotArea;
use file_commands::Grammar;
use nvme_model::array::Range;
use picture_shapes::{Aspect, LanesShown, Subject};
use picture_svg::{DrawFault, DrawOptions, draw_text};
use std::alloc::Global;
use std::io;
use std::io::{BufWriter, ErrorKind, Read, Write};
use std::rt::Files;

/// The lanes that are shown besides.
pub(crate) fn lanes_of(blocks: bool, area: Option<SlotArea>) -> LanesShown {
    let slots = match area {
        Some(area) => Some(Range {
            slba: area.first,
            blocks: area.count,
        }),
        None => None,
    };
    LanesShown { blocks, slots }
}

// What is drawn: from the first step or to the last where none is named.
fn options_of(from: Option<u64>, to: Option<u64>, aspect: Aspect) -> DrawOptions {
    DrawOptions {
        from: from.unwrap_or(1),
        to: to.unwrap_or(u64::MAX),
        aspect,
    }
}

// Draws a history on standard output.
fn drawn<R: Print + AllocGlobal, I: Read>(
    rt: &R,
    options: &DrawOptions,
    input: &mut I,
) -> Result<bool, DrawFault> {
    let Ok(mut output) = BufWriter::with_capacity(rt.alloc(), BUFFER, io::writer(rt)) else {
        return Err(DrawFault::Run(RunFault::NoMemory));
    };
    let answer = draw_text(rt.alloc(), options, input, &mut output);
    if output.flush().is_err() {
        return Err(DrawFault::Run(RunFault::Output));
    }
    answer
}

// Draws a history that was opened, and gives the status 0 where it is legal, 1 where it isn't, else that of the fault.
fn draw_input<R: Print + Eprint + AllocGlobal, I: Read + Drop>(
    rt: &R,
    options: &DrawOptions,
    file: &str,
    input: &mut Kept<I>,
) -> u8 {
    match drawn(rt, options, input) {
        Ok(true) => 0,
        Ok(false) => 1,
        Err(DrawFault::Run(fault)) => {
            end_failure(
                rt,
                failure_of(rt.alloc(), file, input, Grammar::History, fault),
            )
        }
        Err(fault) => end_fault(rt, fault, fault.status(), None),
    }
}

// Why a text wasn't read whole: a refused growth is no fault of its file.
fn read_fault(kind: ErrorKind) -> RunFault {
    if kind == ErrorKind::OutOfMemory {
        RunFault::NoMemory
    } else {
        RunFault::Input
    }
}

// The whole text of a history.
fn text_of<R: Files + Input + AllocGlobal>(
    rt: &R,
    why: bool,
    file: &str,
) -> Result<Vec<u8>, CertifyFailure> {
    let mut input = opened(rt, file, why).map_err(of_history)?;
    let mut text: Vec<u8> = Vec::new(rt.alloc());
    match input.read_to_end(&mut text) {
        Ok(_) => Ok(text),
        Err(error) => Err(of_history(failure_of(
            rt.alloc(),
            file,
            &input,
            Grammar::History,
            read_fault(error.kind()),
        ))),
    }
}

// Compares a history with a trace, and keeps what is said of that.
fn kept_answer<T: Read + Drop>(
    alloc: Global,
    trace_file: &str,
    trace: &mut Kept<T>,
    file: &str,
    history: &mut Kept<&[u8]>,
    said: &mut Vec<u8>,
) -> Result<bool, CertifyFailure>
    ensures memory { IfErr result (λ f. ComparesKept f.fault) }
{
    let plain = Logged::AsSeen;
    match compared(alloc, plain, trace_file, trace, file, history, said) {
        Ok(answer) => Ok(answer),
        Err(CertifyFailure { fault, why }) => Err(CertifyFailure {
            fault: in_memory(fault),
            why,
        }),
    }
}

// The same fault of a comparison whose answer is kept in memory: that it wasn't written says that there was none.
fn in_memory(fault: CertifyFault) -> CertifyFault
    ensures value { ComparesKept result }
{
    match fault {
        CertifyFault::Output => CertifyFault::History(RunFault::NoMemory),
        CertifyFault::Trace(_) | CertifyFault::History(_) | CertifyFault::OtherConfig => fault,
    }
}

// Whether a history explains a trace; where it doesn't, prints what is said of that.
fn explains<R: Files + Input + Print + AllocGlobal>(
    rt: &R,
    why: bool,
    trace_file: &str,
    file: &str,
    history: &[u8],
) -> Result<bool, CertifyFailure> {
    let alloc = rt.alloc();
    let mut trace = opened(rt, trace_file, why).map_err(of_trace)?;
    let mut text = Kept::new(alloc, history, why);
    let mut said: Vec<u8> = Vec::new(alloc);
    let explained = kept_answer(alloc, trace_file, &mut trace, file, &mut text, &mut said)?;
    if !explained && io::writer(rt).write_all(said.as_slice()).is_err() {
        return Err(CertifyFailure {
            fault: CertifyFault::Output,
            why: None,
        });
    }
    Ok(explained)
}

// Draws a history as the witness of a trace, where it explains it; else says what `certify` says, and gives its status.
fn draw_witness<R: Files + Input + Print + Eprint + AllocGlobal>(
    rt: &R,
    options: DrawOptions,
    trace: &str,
    why: bool,
    file: &str,
) -> u8 {
    let text = match text_of(rt, why, file) {
        Ok(text) => text,
        Err(failure) => return end_certify(rt, failure),
    };
    match explains(rt, why, trace, file, text.as_slice()) {
        Ok(true) => {
            let mut history = Kept::new(rt.alloc(), text.as_slice(), why);
            draw_input(rt, &options, file, &mut history)
        }
        Ok(false) => 1,
        Err(failure) => end_certify(rt, failure),
    }
}

/// Draws a history, and gives the status 0 where it is legal, 1 where it isn't, else that of the fault, whose words go
/// to standard error. As the witness of a trace it is drawn only where it explains that.
pub(crate) fn draw_file<R: Files + Input + Print + Eprint + AllocGlobal>(
    rt: &R,
    from: Option<u64>,
    to: Option<u64>,
    lanes: LanesShown,
    trace: Option<&str>,
    why: bool,
    file: &str,
) -> u8 {
    if let Some(trace) = trace {
        let subject = Subject::Witness;
        let options = options_of(from, to, Aspect { subject, lanes });
        return draw_witness(rt, options, trace, why, file);
    }
    let subject = Subject::History;
    let options = options_of(from, to, Aspect { subject, lanes });
    match opened(rt, file, why) {
        Ok(mut input) => draw_input(rt, &options, file, &mut input),
        Err(failure) => end_failure(rt, failure),
    }
}
