//! The smallest script, by a conversation.

ghost use Rattle.std.specs.Prelude.{[], ◌∷◌, ◌≡◌, Err, IfSome, List, None, Ok, OnOk, ℕ};
ghost use Rattle.shrink.specs.Shrinking.{ShrinksLines};
ghost use Rattle.shrink.specs.TextShrinking.{Converses, ShrinksText, TellsSmallest};
ghost use Rattle.shrink.specs.Talk.{SaysTry, StopsTalk};
ghost use Rattle.shrink.specs.declared.conversation.Conversation.{Conversation as TheTalk};

use crate::conversation::Conversation;
use crate::fault::ShrinkFault;
use crate::printing::send_smallest;
use crate::question::Unanswered;
use crate::reading::read_lines;
use crate::shrinking::{Shrunk, shrink_lines};
use crate::text_line::TextLine;
use casdisk_texts::RunFault;
use std::alloc::Global;
use std::io::{Read, Result as IoResult, Write};

/// How many candidates are tried at most, beside those that leave out single lines at the end.
pub const TRIES: u32 = 4000;

// Writes the smallest script so far.
fn tell_smallest<R: Read, W: Write>(
    talk: &mut Conversation<R, W>,
    lines: &[TextLine],
) -> IoResult<()>
    ensures told { OnOk result (TellsSmallest W.contents talk.old talk.new lines.now) }
{
    send_smallest(talk.failing, talk.first.as_slice(), lines, &mut talk.writer)
}

// Ends a conversation that came to its end.
fn end<R: Read, W: Write>(
    talk: &mut Conversation<R, W>,
    lines: &[TextLine],
    shrunk: Shrunk,
) -> Result<Shrunk, ShrinkFault>
    ensures converses { (begun : TheTalk R W) (whole : List (List ℕ)) →
        ShrinksLines (SaysTry W.contents R.remaining) (StopsTalk W.contents R.remaining) begun talk.old whole lines.now
        4000 (Ok shrunk) →
        Converses W.contents R.remaining begun whole result talk.new }
{
    match shrunk {
        Shrunk::Passes => Ok(Shrunk::Passes),
        Shrunk::Smallest => match tell_smallest(talk, lines) {
            Ok(()) => Ok(Shrunk::Smallest),
            Err(_) => Err(ShrinkFault::Output),
        },
    }
}

// Ends a conversation that had no answer.
fn give_up<R: Read, W: Write>(
    talk: &mut Conversation<R, W>,
    lines: &[TextLine],
    why: Unanswered,
) -> Result<Shrunk, ShrinkFault>
    ensures converses { (begun : TheTalk R W) (whole : List (List ℕ)) →
        ShrinksLines (SaysTry W.contents R.remaining) (StopsTalk W.contents R.remaining) begun talk.old whole lines.now
        4000 (Err why) →
        Converses W.contents R.remaining begun whole result talk.new }
{
    match why {
        Unanswered::Ended => match tell_smallest(talk, lines) {
            Ok(()) => Err(ShrinkFault::Ended),
            Err(_) => Err(ShrinkFault::Output),
        },
        Unanswered::BadAnswer => Err(ShrinkFault::BadAnswer(talk.tries)),
        Unanswered::Input => Err(ShrinkFault::Input),
        Unanswered::Output => Err(ShrinkFault::Output),
        Unanswered::NoMemory => Err(ShrinkFault::NoMemory),
    }
}

// The conversation about lines behind the first.
fn converse<R: Read, W: Write>(
    alloc: Global,
    talk: &mut Conversation<R, W>,
    lines: &mut Vec<TextLine>,
) -> Result<Shrunk, ShrinkFault>
    ensures converses { Converses W.contents R.remaining talk.old lines.old.items result talk.new }
{
    match shrink_lines(alloc, lines, talk, TRIES) {
        Ok(shrunk) => end(talk, lines.as_slice(), shrunk),
        Err(why) => give_up(talk, lines.as_slice(), why),
    }
}

// The first line of a script.
fn take_first(lines: &mut Vec<TextLine>) -> Option<TextLine>
    ensures first { IfSome result (λ first. lines.old.items ≡ first ∷ lines.new.items) }
    ensures none { result ≡ None → lines.old.items ≡ [] }
{
    if lines.is_empty() {
        return None;
    }
    Some(lines.remove(0))
}

/// Makes a script small that fails, whatever fails, by a conversation. Its first line stays as it is. Each candidate is
/// written between the lines `try N` and `end`, and the next line of the answers, `fails` or `passes`, says what became
/// of it; the first candidate is the whole script. At the end `smallest N` is written, and the script: candidate N,
/// which failed, and without any line of which behind the first it passed. Where the whole script passes, nothing more
/// is written.
///
/// # Errors
///
/// `Script` where the script wasn't read, before anything is written: `BadLine` with the number of its last line where
/// that has no line feed, and 1 where there is no line; `Input` and `NoMemory`. `BadAnswer` with the number of the
/// first line of the answers that is none; `Ended` where the answers end before, after `smallest N` and the smallest
/// script so far; `Input`, `Output` and `NoMemory`.
pub fn shrink_text<T: Read, R: Read, W: Write>(
    alloc: Global,
    script: &mut T,
    talk: &mut Conversation<R, W>,
) -> Result<Shrunk, ShrinkFault>
    ensures shrinks { ShrinksText W.contents R.remaining (T.remaining script.old) (T.remaining script.new) talk.old
        result talk.new }
{
    let mut lines = match read_lines(alloc, script) {
        Ok(lines) => lines,
        Err(fault) => return Err(ShrinkFault::Script(fault)),
    };
    let Some(first) = take_first(&mut lines) else {
        return Err(ShrinkFault::Script(RunFault::BadLine(1)));
    };
    talk.first = first.into_vec();
    converse(alloc, talk, &mut lines)
}
