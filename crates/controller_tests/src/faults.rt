//! Readers and writers that fail at one of their calls, of scripts that are run and of histories that are checked.

use crate::failing::{FailingReader, FailingWriter};
use crate::files::file_of;
use casdisk_texts::{
    FromFault, RunFault, check_text, follow_text, run_checked, run_from, run_script,
};
use history::all_kinds;
use std::alloc::Global;
use std::io::ErrorKind;
use std::process::Abort;
use std::test::Fail;

/// What is done with a text, and so the most bytes that its writer takes at a call.
#[derive(Clone, Copy, PartialEq, Eq)]
enum TextWork {
    Run,
    RunChecked,
    RunFrom,
    Check,
    Follow,
}

/// Whether it prints as it reads.
fn is_run(work: TextWork) -> bool {
    work == TextWork::Run || work == TextWork::RunChecked || work == TextWork::RunFrom
}

/// A pair that wins, and a Read of what it wrote.
const SCRIPT: &str =
    "publish 1 compare 1 7 3 0 00 + write 2 8 3 0 A1 / fetch 1 / settle / reap 1 / reap 1 / publish 1 read 0 9 3 0 - / fetch 1 / settle / reap 1";

/// The history of a Write of A1 to block 3.
const WRITE: &str =
    "publish 1 01000100010000000000000000000000000000000000000000000000000000000000000000000000030000000000000000000000000000000000000000000000 A1 / fetch 1 1 1 ok / grant 1 0 3 1 w / block 1 0 3 written * / post 1 00000000000000000100010001000100 - / reap 1 00000000000000000100010001000100";

/// A script that goes on from it.
const BEHIND: &[u8] = b"config 8 1 1 0 0 2 4 4 8\nmedium 3\n";

/// That history without its mark, so that nothing is owed.
const UNMARKED: &str =
    "publish 1 01000100010000000000000000000000000000000000000000000000000000000000000000000000030000000000000000000000000000000000000000000000 A1 / fetch 1 1 1 ok / grant 1 0 3 1 w / block 1 0 3 written - / post 1 00000000000000000100010001000100 - / reap 1 00000000000000000100010001000100";

/// Texts whose reading or writing fails at each call in turn.
const ENDED: &[(TextWork, &str)] = &[
    (TextWork::Run, SCRIPT),
    (TextWork::RunChecked, SCRIPT),
    (TextWork::RunFrom, WRITE),
    (TextWork::Check, WRITE),
    (TextWork::Check, UNMARKED),
    (TextWork::Follow, WRITE),
];

/// Texts of which some end well, whose reading and writing fail at any two calls.
const NAMED: &[(TextWork, &str)] = &[
    (TextWork::Run, SCRIPT),
    (
        TextWork::Run,
        "# a comment that is longer than what one read gives / medium 0 / reap 1 / medium 9",
    ),
    (
        TextWork::Run,
        "medium 3 / publish 1 write 0 1 3 0 A1 / settle 1 / medium 3",
    ),
    (TextWork::Run, "reap 1 / fetch 1 / / fetch 1"),
    (TextWork::Run, "config 8 3 1 2 0 2 4 4 8 / reap 1"),
    (TextWork::Run, "config 8 3 1 2 0 2 4 4 / reap 1"),
    (TextWork::Check, WRITE),
    (TextWork::Check, UNMARKED),
    (
        TextWork::Check,
        "fetch 1 1 1 ok / grant 1 0 3 1 w / block 1 0 3 written / reap 1 00000000000000000100010001000100",
    ),
    (TextWork::Check, "config 8 3 1 2 0 2 4 4 8 / reap 1"),
    (TextWork::Follow, WRITE),
    (TextWork::Follow, UNMARKED),
];

/// Which call of a reader and which of a writer fail, from 1, and how many bytes each takes at a call.
#[derive(Clone, Copy)]
struct FailingCalls {
    read: u64,
    write: u64,
    read_width: u64,
    write_width: u64,
}

/// What failed, how it ended, and what was written.
#[derive(Drop)]
struct MadeText {
    reader: bool,
    writer: bool,
    answer: Result<bool, RunFault>,
    output: Vec<u8>,
}

/// Goes on from a history; whether it is made once more.
fn go_on_from(
    alloc: Global,
    history: &mut FailingReader<'_>,
    writer: &mut FailingWriter,
) -> Result<bool, RunFault> {
    let mut script: &[u8] = BEHIND;
    match run_from(alloc, history, &mut script, writer, all_kinds()) {
        Ok(()) => Ok(true),
        Err(FromFault::Differs(_) | FromFault::OtherConfig) => Ok(false),
        Err(FromFault::History(fault) | FromFault::Script(fault)) => Err(fault),
    }
}

/// Runs a script, or checks a history; whether all is well.
fn answer_of(
    alloc: Global,
    work: TextWork,
    reader: &mut FailingReader<'_>,
    writer: &mut FailingWriter,
) -> Result<bool, RunFault> {
    match work {
        TextWork::Run => match run_script(alloc, reader, writer, all_kinds()) {
            Ok(()) => Ok(true),
            Err(fault) => Err(fault),
        },
        TextWork::RunChecked => match run_checked(alloc, reader, writer, all_kinds()) {
            Ok(bad) => Ok(bad.is_none()),
            Err(fault) => Err(fault),
        },
        TextWork::RunFrom => go_on_from(alloc, reader, writer),
        TextWork::Check => check_text(alloc, reader, writer),
        TextWork::Follow => follow_text(alloc, reader, writer),
    }
}

/// What comes of a text with these failures.
fn made_with(
    alloc: Global,
    work: TextWork,
    text: &[u8],
    calls: FailingCalls,
    kind: ErrorKind,
) -> MadeText {
    let mut reader = FailingReader::new(text, calls.read_width, calls.read, kind);
    let mut writer = FailingWriter::new(alloc, calls.write_width, calls.write, kind);
    let answer = answer_of(alloc, work, &mut reader, &mut writer);
    let FailingWriter { taken, failed, .. } = writer;
    MadeText {
        reader: reader.failed,
        writer: failed,
        answer,
        output: taken,
    }
}

/// What comes of it without any.
fn whole(alloc: Global, work: TextWork, text: &[u8]) -> MadeText {
    let calls = FailingCalls {
        read: 0,
        write: 0,
        read_width: 100_000,
        write_width: 100_000,
    };
    made_with(alloc, work, text, calls, ErrorKind::Other)
}

/// That it names what failed, and wrote a beginning of the whole, or all of it. A check that can't read writes nothing.
fn name_the_cause(
    rt: &impl Abort,
    work: TextWork,
    made: &MadeText,
    whole: &MadeText,
    calls: FailingCalls,
) {
    let want = if made.reader {
        Err(RunFault::Input)
    } else if made.writer {
        Err(RunFault::Output)
    } else {
        whole.answer
    };
    assert_eq!(rt; made.answer, want, "{} {}", calls.read, calls.write);
    assert!(rt; !(made.reader && made.writer));
    let (taken, all) = (made.output.as_slice(), whole.output.as_slice());
    assert!(rt; all.starts_with(taken));
    assert!(rt; made.reader || made.writer || taken.len() == all.len());
    assert!(rt; !made.reader || is_run(work) || taken.is_empty());
}

/// Makes it with these failures, and looks at what comes of it; whether nothing failed.
fn is_made(
    rt: &impl Abort,
    alloc: Global,
    work: TextWork,
    text: &[u8],
    whole: &MadeText,
    calls: FailingCalls,
    kind: ErrorKind,
) -> bool {
    let made = made_with(alloc, work, text, calls, kind);
    name_the_cause(rt, work, &made, whole, calls);
    !made.reader && !made.writer
}

/// The first call that it does without, of a reader or of a writer that takes so many bytes at a call.
fn calls_made(
    rt: &impl Abort,
    alloc: Global,
    work: TextWork,
    text: &[u8],
    whole: &MadeText,
    is_reader: bool,
    width: u64,
) -> u64 {
    for at in 1..10_000u64 {
        let (read, write) = if is_reader { (at, 0) } else { (0, at) };
        let calls = FailingCalls {
            read,
            write,
            read_width: width,
            write_width: width,
        };
        if is_made(rt, alloc, work, text, whole, calls, ErrorKind::Other) {
            return at;
        }
    }
    panic!(rt; "no end")
}

/// That each call of a reader and each of a writer ends it.
fn fail_each(rt: &impl Abort, alloc: Global, work: TextWork, text: &[u8], width: u64) {
    let whole = whole(alloc, work, text);
    let reads = calls_made(rt, alloc, work, text, &whole, true, width);
    assert!(rt; reads > 1 && reads.saturating_mul(width) > text.len() as u64);
    let writes = calls_made(rt, alloc, work, text, &whole, false, width);
    assert!(rt; writes > 1 && writes.saturating_mul(width) > whole.output.len() as u64);
}

#[test]
fn a_failed_call_ends_the_work(rt: HostRuntime) -> Result<(), Fail> {
    for (work, text) in ENDED {
        let file = file_of(rt.alloc(), text)?;
        for width in [1, 7, 100_000u64] {
            fail_each(&rt, rt.alloc(), *work, file.as_bytes(), width);
        }
    }
    Ok(())
}

/// That each failure of both, by this kind of error, is named.
fn name_causes(rt: &impl Abort, alloc: Global, work: TextWork, text: &[u8], kind: ErrorKind) {
    let whole = whole(alloc, work, text);
    let write_width = if is_run(work) { 40 } else { 2 };
    for read in 0..14u64 {
        for write in 0..20u64 {
            let calls = FailingCalls {
                read,
                write,
                read_width: 40,
                write_width,
            };
            is_made(rt, alloc, work, text, &whole, calls, kind);
        }
    }
}

#[test]
fn a_fault_names_what_failed(rt: HostRuntime) -> Result<(), Fail> {
    for (work, text) in NAMED {
        let file = file_of(rt.alloc(), text)?;
        name_causes(&rt, rt.alloc(), *work, file.as_bytes(), ErrorKind::Other);
        name_causes(
            &rt,
            rt.alloc(),
            *work,
            file.as_bytes(),
            ErrorKind::OutOfMemory,
        );
    }
    Ok(())
}

/// That a call that is interrupted is made again, each of a reader and each of a writer.
fn go_on(rt: &impl Abort, alloc: Global, work: TextWork, text: &[u8], width: u64) {
    let whole = whole(alloc, work, text);
    for at in 1..10_000u64 {
        let calls = FailingCalls {
            read: at,
            write: at,
            read_width: width,
            write_width: width,
        };
        let made = made_with(alloc, work, text, calls, ErrorKind::Interrupted);
        assert_eq!(rt; made.answer, whole.answer, "{at}");
        assert_eq!(rt; made.output.as_slice(), whole.output.as_slice(), "{at}");
        if !made.reader && !made.writer {
            assert!(rt; at > 1 && at.saturating_mul(width) > whole.output.len() as u64);
            return;
        }
    }
    panic!(rt; "no end")
}

#[test]
fn an_interrupted_call_is_made_again(rt: HostRuntime) -> Result<(), Fail> {
    for (work, text) in ENDED {
        let file = file_of(rt.alloc(), text)?;
        for width in [1, 7, 100_000u64] {
            go_on(&rt, rt.alloc(), *work, file.as_bytes(), width);
        }
    }
    Ok(())
}

#[test]
fn a_check_that_follows_reads_no_further(rt: HostRuntime) -> Result<(), Fail> {
    let file = file_of(rt.alloc(), "fetch 1 1 1 ok / no line")?;
    let front = file_of(rt.alloc(), "fetch 1 1 1 ok")?;
    let calls = FailingCalls {
        read: (front.len() as u64).saturating_add(1),
        write: 0,
        read_width: 1,
        write_width: 100,
    };
    let made = made_with(
        rt.alloc(),
        TextWork::Follow,
        file.as_bytes(),
        calls,
        ErrorKind::Other,
    );
    assert_eq!(rt; made.answer, Ok(false));
    assert!(rt; !made.reader);
    assert_eq!(rt; made.output.as_slice(), b"bad at 1\n".as_slice());
    Ok(())
}

#[test]
fn a_writer_that_takes_nothing_fails(rt: HostRuntime) -> Result<(), Fail> {
    let calls = FailingCalls {
        read: 0,
        write: 0,
        read_width: 7,
        write_width: 0,
    };
    for (work, text) in ENDED {
        let file = file_of(rt.alloc(), text)?;
        let made = made_with(rt.alloc(), *work, file.as_bytes(), calls, ErrorKind::Other);
        assert_eq!(rt; made.answer, Err(RunFault::Output));
        assert_eq!(rt; made.output.len(), 0);
    }
    Ok(())
}
