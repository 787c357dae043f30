//! The refutation of a text.

ghost use Rattle.std.specs.Prelude.{◌≡◌, ◌∷◌, [], IfOk, Ok, map};
ghost use Rattle.refutation.specs.Reads.{GivesRefutation, TakesLine};
ghost use Rattle.refutation.specs.Refutations.{IsRefutation, Refutation, of_lines};
ghost use Rattle.refutation.specs.Texts.{and_line, and_words, count_of, read_all, read_pieces, refutation_in};
ghost use Rattle.refutation.specs.Texts.{refutation_text, words_of};

use crate::fault::RefutationFault;
use crate::refutation::Refutation;
use line_text::{read_u16, read_u64, split_words};
use std::alloc::{AllocError as NoMemory, Global};

fn count_of(words: &[&[u8]]) -> Option<u64>
    ensures { result ≡ count_of (map (λ w. w.now) words.now) }
{
    let [kind, number] = words else {
        return None;
    };
    if *kind != b"lines".as_slice() {
        return None;
    }
    read_u64(number)
}

// How many lines this line says.
fn count_said(alloc: Global, line: &[u8]) -> Result<Option<u64>, NoMemory>
    ensures { IfOk result (λ count. count ≡ count_of (words_of line.now)) }
{
    let words = split_words(alloc, line, b' ')?;
    Ok(count_of(words.as_slice()))
}

fn take_block(refutation: &mut Refutation, kind: &[u8], number: &[u8]) -> Result<bool, NoMemory>
    ensures { IfOk result (λ taken. TakesLine taken refutation.old refutation.new
        (and_words refutation.old (kind.now ∷ number.now ∷ []))) }
{
    if kind != b"block".as_slice() {
        return Ok(false);
    }
    match read_u64(number) {
        Some(block) => refutation.add_block(block),
        None => Ok(false),
    }
}

fn take_command(
    refutation: &mut Refutation,
    kind: &[u8],
    queue: &[u8],
    number: &[u8],
) -> Result<bool, NoMemory>
    ensures { IfOk result (λ taken. TakesLine taken refutation.old refutation.new
        (and_words refutation.old (kind.now ∷ queue.now ∷ number.now ∷ []))) }
{
    if kind != b"command".as_slice() {
        return Ok(false);
    }
    let Some(queue) = read_u16(queue) else {
        return Ok(false);
    };
    match read_u64(number) {
        Some(number) => refutation.add_command(queue, number),
        None => Ok(false),
    }
}

fn take_words(refutation: &mut Refutation, words: &[&[u8]]) -> Result<bool, NoMemory>
    ensures { IfOk result (λ taken. TakesLine taken refutation.old refutation.new
        (and_words refutation.old (map (λ w. w.now) words.now))) }
{
    match words {
        [kind, number] => take_block(refutation, kind, number),
        [kind, queue, number] => take_command(refutation, kind, queue, number),
        _ => Ok(false),
    }
}

fn take_line(alloc: Global, refutation: &mut Refutation, line: &[u8]) -> Result<bool, NoMemory>
    ensures { IfOk result (λ taken. TakesLine taken refutation.old refutation.new
        (and_line refutation.old line.now)) }
{
    let words = split_words(alloc, line, b' ')?;
    take_words(refutation, words.as_slice())
}

// The refutation of these pieces, the first of them line 3.
fn read_pieces(
    alloc: Global,
    refutation: Refutation,
    pieces: &[&[u8]],
) -> Result<Refutation, RefutationFault>
    ensures { GivesRefutation result (read_pieces 3 refutation (map (λ w. w.now) pieces.now)) }
{
    let mut refutation = refutation;
    let mut number = 3;
    let mut rest = pieces;
    while let [line, after @ ..] = rest {
        if after.is_empty() && line.is_empty() {
            return Ok(refutation);
        }
        if after.is_empty() || !take_line(alloc, &mut refutation, line)? {
            return Err(RefutationFault::BadLine(number));
        }
        number += 1;
        rest = after;
    }
    Err(RefutationFault::BadLine(number))
}

fn read_all(alloc: Global, pieces: &[&[u8]]) -> Result<Refutation, RefutationFault>
    ensures { GivesRefutation result (read_all (map (λ w. w.now) pieces.now)) }
{
    let [head, count, rest @ ..] = pieces else {
        return Err(RefutationFault::BadLine(1));
    };
    if *head != b"refutation".as_slice() {
        return Err(RefutationFault::BadLine(1));
    }
    if rest.is_empty() {
        return Err(RefutationFault::BadLine(2));
    }
    match count_said(alloc, count)? {
        Some(lines) => read_pieces(alloc, Refutation::of_lines(alloc, lines), rest),
        None => Err(RefutationFault::BadLine(2)),
    }
}

fn read_text(alloc: Global, text: &[u8]) -> Result<Refutation, RefutationFault>
    ensures { GivesRefutation result (refutation_in text.now) }
{
    let pieces = split_words(alloc, text, b'\n')?;
    read_all(alloc, pieces.as_slice())
}

/// Reads the refutation whose text this is.
///
/// # Errors
///
/// `BadLine` with the number of the first line that is none, also where the text ends too early or its last line has no
/// line feed; `NoMemory` where a growth was refused.
pub fn read_refutation(alloc: Global, text: &[u8]) -> Result<Refutation, RefutationFault>
    ensures value { GivesRefutation result (refutation_in text.now) }

    // What is read has this text.
    ensures found { IfOk result (λ r. text.now ≡ refutation_text r) }

    // What has this text is read, unless memory runs out.
    ensures only { (r : Refutation) → IsRefutation r → text.now ≡ refutation_text r → GivesRefutation result (Ok r) }
{
    read_text(alloc, text)
}
