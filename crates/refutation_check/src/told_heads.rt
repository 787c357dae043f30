//! What SQHD tells of the order of effects.

ghost use Rattle.std.specs.Prelude.{◌≡◌, ◌∷◌, IfOk, OnOk, reverse};
ghost use Rattle.refutation_check.specs.Answers.{KnowsAnswers, answers_in};
ghost use Rattle.refutation_check.specs.Commands.{name_of};
ghost use Rattle.refutation_check.specs.Posts.{KnowsPosts, posts_in};
ghost use Rattle.refutation_check.specs.ToldHeads.{heads_in, place_of, place_with};

use crate::order::Effect;
use crate::post_tables::PostTables;
use crate::tables::TraceAnswers;
use history::Config;
use std::alloc::{AllocError as NoMemory, Global};
use trace::Seen;

/// What a completion tells of its submission queue, as it was when the completion was posted.
#[derive(Clone, Copy, Debug, PartialEq, Eq)]
pub struct ToldHead {
    pub queue: u16,
    /// How many entries were fetched, at most.
    pub most: u64,
    /// The completion queue.
    pub reaped_from: u16,
    /// How many lines there are up to the one that reaps it.
    pub through: usize,
    /// How many lines surely stood before it was posted.
    pub before: usize,
}

// Takes the next line behind these, and notes what its completion tells.
fn add_head(
    config: &Config,
    tables: &TraceAnswers,
    posts: &mut PostTables,
    heads: &mut Vec<ToldHead>,
    trace: &[Seen],
    line: &Seen,
) -> Result<(), NoMemory>
    ensures knows { KnowsAnswers (reverse trace.now) (answers_in tables.now) →
        KnowsPosts config.now (reverse trace.now) (posts_in posts.old) →
        OnOk result (KnowsPosts config.now (line.now ∷ reverse trace.now) (posts_in posts.new)) }
    ensures heads { KnowsAnswers (reverse trace.now) (answers_in tables.now) →
        KnowsPosts config.now (reverse trace.now) (posts_in posts.old) →
        heads.old.items ≡ heads_in config.now (reverse trace.now) →
        OnOk result (heads.new.items ≡ heads_in config.now (line.now ∷ reverse trace.now)) }
{
    match line {
        Seen::Published(_) => Ok(()),
        Seen::Reaped(line) => {
            let head = posts.take(config, tables, trace, line)?;
            heads.push(head)?;
            Ok(())
        }
    }
}

/// What each completion of a trace tells, the oldest first: one pass over its lines.
///
/// # Errors
///
/// `NoMemory` alone.
pub(crate) fn heads_in(
    alloc: Global,
    config: &Config,
    trace: &[Seen],
) -> Result<Vec<ToldHead>, NoMemory>
    ensures value { IfOk result (λ heads. heads.items ≡ heads_in config.now (reverse trace.now)) }
{
    let mut tables = TraceAnswers::new(alloc);
    let mut posts = PostTables::new(alloc);
    let mut heads = Vec::new(alloc);
    for (place, line) in trace.iter().enumerate() {
        add_head(
            config,
            &tables,
            &mut posts,
            &mut heads,
            &trace[..place],
            line,
        )?;
        tables.take(line, place)?;
    }
    Ok(heads)
}

// How many lines one of these tells to be before an effect's command was fetched; or so many, where that isn't more.
fn place_with(head: &ToldHead, queue: u16, effect: &Effect, lines: usize) -> usize
    ensures value { result ≡ place_with head.now queue (name_of effect.now) lines }
{
    if head.queue != effect.queue || head.most > effect.number {
        return lines;
    }
    let before = head.before.max(lines);
    if queue == head.reaped_from {
        before.max(head.through)
    } else {
        before
    }
}

/// How many lines these tell to be before an effect's command was fetched, of answers on this completion queue; or so
/// many, where that isn't more.
pub(crate) fn place_of(heads: &[ToldHead], queue: u16, effect: &Effect, lines: usize) -> usize
    ensures value { result ≡ place_of heads.now queue (name_of effect.now) lines }
{
    let mut place = lines;
    for head in heads {
        place = place_with(head, queue, effect, place);
    }
    place
}
