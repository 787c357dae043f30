//! The first word of a line that isn't as it should be.

ghost use Rattle.std.specs.Prelude.{◌+◌, ◌^◌, ◌<◌, ◌≡◌, ◌≤◌, IfSome, length};

use crate::cause::Cause;
use crate::form::Form;
use crate::grammar::{Grammar, behind_first, behind_word, first_form};
use crate::spelling::{Wrong, wrong_of};

// The first word of a text, and what stands behind the space after it.
#[derive(Clone, Copy)]
struct Split<'a> {
    word: &'a [u8],
    behind: Option<&'a [u8]>,
}

fn split_first_word(text: &[u8]) -> Split<'_>
    ensures word { length result.word.now ≤ length text.entry.now }
    ensures behind { IfSome result.behind
        (λ b. length result.word.now + 1 + length b.now ≡ length text.entry.now) }
{
    for at in 0..text.len() {
        if text[at] == b' ' {
            return Split {
                word: &text[..at],
                behind: Some(&text[at + 1..]),
            };
        }
    }
    Split {
        word: text,
        behind: None,
    }
}

// What the end of a line lacks.
fn wrong_end(due: &[Form], at: usize) -> Wrong
    ensures { result.at ≡ at }
{
    let cause = match due.first() {
        None | Some(Form::More) | Some(Form::MoreFields) | Some(Form::MoreData) => Cause::Unknown,
        Some(form) => Cause::Ends(*form),
    };
    Wrong { at, cause }
}

// What is wrong with the first word of a line.
fn wrong_first(grammar: Grammar, word: &[u8]) -> Option<Wrong>
    ensures { IfSome result (λ w. w.at ≤ length word.now) }
{
    let due = match first_form(grammar).first() {
        Some(form) => *form,
        None => Form::Kind,
    };
    if let Some(wrong) = wrong_of(due, word) {
        return Some(wrong);
    }
    if behind_first(grammar, word).is_some() {
        return None;
    }
    let cause = if due == Form::Kind {
        Cause::NoKind
    } else {
        Cause::NoWord(due)
    };
    Some(Wrong { at: 0, cause })
}

// What is wrong behind the first word of a line, in `rest`, which begins at this byte.
fn wrong_behind(grammar: Grammar, forms: &'static [Form], from: usize, text: &[u8]) -> Wrong
    requires { from + length text.now < 2 ^ 63 }
    ensures { result.at ≤ from + length text.now }
{
    let mut at = from;
    let mut rest = text;
    let mut due = forms;
    for _turn in 0..u64::MAX {
        let Split { word, behind } = split_first_word(rest);
        let Some((form, others)) = due.split_first() else {
            return Wrong {
                at,
                cause: Cause::TooMany,
            };
        };
        if let Some(wrong) = wrong_of(*form, word) {
            return Wrong {
                at: at + wrong.at,
                cause: wrong.cause,
            };
        }
        due = behind_word(grammar, *form, word, others);
        let Some(after) = behind else {
            return wrong_end(due, at + rest.len());
        };
        at = at + word.len() + 1;
        rest = after;
    }
    Wrong {
        at,
        cause: Cause::Unknown,
    }
}

/// The first word of a line that isn't as it should be, and what is wrong with it; or its end, where it ends too early.
pub(crate) fn first_wrong(grammar: Grammar, line: &[u8]) -> Wrong
    ensures { result.at ≤ length line.now }
{
    if line.starts_with(&[0xef, 0xbb, 0xbf]) {
        return Wrong {
            at: 0,
            cause: Cause::ByteOrderMark,
        };
    }
    if line.is_empty() {
        return Wrong {
            at: 0,
            cause: Cause::EmptyLine,
        };
    }
    let Split { word, behind } = split_first_word(line);
    if let Some(wrong) = wrong_first(grammar, word) {
        return wrong;
    }
    let forms = behind_first(grammar, word).unwrap_or(&[]);
    let Some(rest) = behind else {
        return wrong_end(forms, line.len());
    };
    wrong_behind(grammar, forms, word.len() + 1, rest)
}
