//! Why a line is none.

ghost use Rattle.std.specs.Prelude.{◌+◌, ◌∷◌, ◌≡◌, ◌≤◌, [], IfOk, IfSome, is_none, is_some, length, map};
ghost use Rattle.refutation.specs.Refutations.{of_lines};
ghost use Rattle.refutation.specs.Texts.{and_words};
ghost use Rattle.file_commands.specs.Reasons.{is_line};
ghost use Rattle.file_commands.specs.declared.grammar.Grammar.{Grammar};

use crate::cause::Cause;
use crate::grammar::Grammar;
use crate::walk::first_wrong;
use history::{LineFault, parse_line, read_config_line};
use history_words::{Paint, beside_words};
use line_text::{read_u16, read_u64, split_words};
use script_lines::read_script_line;
use std::alloc::{AllocError as NoMemory, Global};
use trace::{parse_option, parse_seen};

/// Why a line is none: what stands at a column, counted in bytes from 1; behind its last byte where it ends too early.
#[derive(Clone, Copy, Debug, PartialEq, Eq)]
pub struct Reason {
    pub column: usize,
    pub cause: Cause,
}

// Whether a text is a line that is told.
fn is_told(alloc: Global, line: &[u8]) -> Result<bool, NoMemory>
    ensures { IfOk result (λ there. there ≡ is_line Grammar.Told line.now) }
{
    match parse_line(alloc, line) {
        Ok(_) => return Ok(true),
        Err(LineFault::Malformed) => {}
        Err(LineFault::NoMemory) => return Err(NoMemory),
    }
    match beside_words(alloc, line, Paint::Plain)? {
        Some(_) => Ok(true),
        None => Ok(false),
    }
}

// Whether a text says how many lines are refuted.
fn is_count(alloc: Global, line: &[u8]) -> Result<bool, NoMemory>
    ensures { IfOk result (λ there. there ≡ is_line Grammar.RefutedLines line.now) }
{
    let words = split_words(alloc, line, b' ')?;
    let [kind, number] = words.as_slice() else {
        return Ok(false);
    };
    if *kind != b"lines".as_slice() {
        return Ok(false);
    }
    Ok(read_u64(number).is_some())
}

// Whether these words are the line of a block.
fn is_block(kind: &[u8], number: &[u8]) -> bool
    ensures { result ≡ is_some (and_words (of_lines 0) (kind.now ∷ number.now ∷ [])) }
{
    if kind != b"block".as_slice() {
        return false;
    }
    match read_u64(number) {
        Some(_) => true,
        None => false,
    }
}

// Whether these words are the line of a command.
fn is_command(kind: &[u8], queue: &[u8], number: &[u8]) -> bool
    ensures { result ≡ is_some (and_words (of_lines 0) (kind.now ∷ queue.now ∷ number.now ∷ [])) }
{
    if kind != b"command".as_slice() {
        return false;
    }
    let Some(_) = read_u16(queue) else {
        return false;
    };
    match read_u64(number) {
        Some(_) => true,
        None => false,
    }
}

// Whether words are a line of a refutation's slice.
fn is_part(words: &[&[u8]]) -> bool
    ensures { result ≡ is_some (and_words (of_lines 0) (map (λ w. w.now) words.now)) }
{
    match words {
        [kind, number] => is_block(kind, number),
        [kind, queue, number] => is_command(kind, queue, number),
        _ => false,
    }
}

// Whether a text is a line of a refutation's slice.
fn is_slice(alloc: Global, line: &[u8]) -> Result<bool, NoMemory>
    ensures { IfOk result (λ there. there ≡ is_line Grammar.Slice line.now) }
{
    let words = split_words(alloc, line, b' ')?;
    Ok(is_part(words.as_slice()))
}

// Whether a text is such a line.
fn is_line(alloc: Global, grammar: Grammar, line: &[u8]) -> Result<bool, NoMemory>
    ensures { IfOk result (λ there. there ≡ is_line grammar line.now) }
{
    let fault = match grammar {
        Grammar::Configuration => read_config_line(alloc, line).err(),
        Grammar::Script => read_script_line(alloc, line).err(),
        Grammar::History => parse_line(alloc, line).err(),
        Grammar::Trace => {
            if parse_option(line).is_some() {
                return Ok(true);
            }
            parse_seen(alloc, line).err()
        }
        Grammar::Told => return is_told(alloc, line),
        Grammar::RefutationHead => return Ok(line == b"refutation".as_slice()),
        Grammar::RefutedLines => return is_count(alloc, line),
        Grammar::Slice => return is_slice(alloc, line),
    };
    match fault {
        None => Ok(true),
        Some(LineFault::Malformed) => Ok(false),
        Some(LineFault::NoMemory) => Err(NoMemory),
    }
}

// The reason for what the walk over the words found, which knows nothing of numbers that depend on each other.
fn reason_of(grammar: Grammar, line: &[u8]) -> Reason
    ensures { (1 ≤ result.column) × (result.column ≤ length line.now + 1) }
{
    let wrong = first_wrong(grammar, line);
    let cause = if wrong.cause == Cause::Unknown && grammar == Grammar::Configuration {
        Cause::SameQueues
    } else {
        wrong.cause
    };
    Reason {
        column: wrong.at + 1,
        cause,
    }
}

/// Why a text, without its line feed, is no such line; None exactly where it is one.
///
/// # Errors
///
/// `NoMemory` where a growth is refused.
pub fn why_bad(alloc: Global, grammar: Grammar, line: &[u8]) -> Result<Option<Reason>, NoMemory>
    ensures none { IfOk result (λ reason. is_none reason ≡ is_line grammar line.now) }
    ensures column { IfOk result
        (λ reason. IfSome reason (λ r. (1 ≤ r.column) × (r.column ≤ length line.now + 1))) }
{
    if is_line(alloc, grammar, line)? {
        return Ok(None);
    }
    Ok(Some(reason_of(grammar, line)))
}
