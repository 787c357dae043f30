//! The lines of a script, whatever they are.

ghost use Rattle.std.specs.Prelude.{◌++◌, ◌∷◌, ◌≡◌, [], IfErr, IfOk, IfSome, OnOk};
ghost use Rattle.std.specs.Io.KnownBytes.{IsAtEnd};
ghost use Rattle.line_text.specs.Lines.{with_feeds};
ghost use Rattle.shrink.specs.Reading.{IsUnreadScript};

use crate::text_line::TextLine;
use casdisk_texts::RunFault;
use line_text::{Lines, NextLine, ReadFault};
use std::alloc::{AllocError, Global};
use std::io::Read;

// Puts a copy of a line at the end.
fn add_line(alloc: Global, lines: &mut Vec<TextLine>, line: &[u8]) -> Result<(), AllocError>
    ensures added { OnOk result (lines.new.items ≡ lines.old.items ++ line.now ∷ []) }
{
    let copy = TextLine::copy_of(alloc, line)?;
    lines.push(copy)?;
    Ok(())
}

/// Reads lines to the reader's end, each with its line feed.
///
/// # Errors
///
/// `BadLine` with the number of the last line, where it has no line feed; `Input` and `NoMemory`, behind what was read.
pub(crate) fn read_lines<T: Read>(alloc: Global, reader: &mut T) -> Result<Vec<TextLine>, RunFault>
    ensures lines { IfOk result (λ v. IsAtEnd (T.remaining reader.new)
        × IfSome (T.remaining reader.old) (λ bytes. bytes ≡ with_feeds v.items)) }
    ensures unread { IfErr result (λ fault. IsUnreadScript fault (T.remaining reader.old) (T.remaining reader.new)) }
{
    let Ok(mut lines) = Lines::new(alloc) else {
        return Err(RunFault::NoMemory);
    };
    let mut line = Vec::new(alloc);
    let mut all = Vec::new(alloc);
    for number in 1..u64::MAX {
        match lines.next_line(reader, &mut line) {
            Err(ReadFault::Input) => return Err(RunFault::Input),
            Err(ReadFault::NoMemory) => return Err(RunFault::NoMemory),
            Ok(NextLine::Whole) => {
                let Ok(()) = add_line(alloc, &mut all, line.as_slice()) else {
                    return Err(RunFault::NoMemory);
                };
            }
            Ok(NextLine::Rest) => {
                if line.is_empty() {
                    return Ok(all);
                }
                return Err(RunFault::BadLine(number));
            }
        }
    }
    Err(RunFault::NoMemory)
}
