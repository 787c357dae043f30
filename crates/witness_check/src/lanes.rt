//! The places of a trace's lines, by what they are and their queue.

ghost use Rattle.std.specs.Prelude.{◌≡◌, ◌*◌, ◌+◌, ◌++◌, ◌∷◌, ◌<◌, ℕ, [], IfOk, List, None, OnErr, OnOk, drop};
ghost use Rattle.std.specs.Prelude.{get_or, replicate, set};
ghost use Rattle.std.specs.Prelude.{length, slice_get};
ghost use Rattle.trace.specs.declared.seen.Seen.{Seen};
ghost use Rattle.witness_check.specs.Delayed.{lane as the_lane};
ghost use Rattle.witness_check.specs.Lanes.{AreLanes, IsFirstLeft, IsSought, earlier_of, slot as the_slot};

use std::alloc::{AllocError as NoMemory, Global};
use std::collections::VecDeque;
use std::marker::Model;
use trace::Seen;

// Places that wait, the first one first.
#[derive(Drop)]
struct Places {
    waiting: VecDeque<usize>,
}

impl Model for Places {
    ghost use Rattle.std.specs.Prelude.{List, ℕ};

    ghost Value = { List ℕ };

    ghost view = { λ p. p.waiting.items };
}

impl Places {
    fn push(&mut self, place: usize) -> Result<(), NoMemory>
        ensures ok { OnOk result (self.new ≡ self.old ++ place ∷ []) }
        ensures err { OnErr result (self.new ≡ self.old) }
    {
        if self.waiting.push_back(place).is_err() {
            return Err(NoMemory);
        }
        Ok(())
    }

    fn pop(&mut self) -> Option<usize>
        ensures first { result ≡ slice_get self.old 0 }
        ensures rest { self.new ≡ drop 1 self.old }
    {
        self.waiting.pop_front()
    }

    fn first(&self) -> Option<usize>
        ensures first { result ≡ slice_get self.now 0 }
    {
        self.waiting.front().copied()
    }
}

// None, for each of so many.
fn no_places(alloc: Global, count: usize) -> Result<Vec<Places>, NoMemory>
    ensures value { IfOk result (λ table. table.items ≡ replicate count []) }
{
    let mut table = Vec::with_capacity(alloc, count)?;
    for _ in 0..count {
        table.push_reserved(Places {
            waiting: VecDeque::new(alloc),
        });
    }
    Ok(table)
}

// Takes out the place that waits first there.
fn pop_at(table: &mut Vec<Places>, at: usize) -> Option<usize>
    ensures first { result ≡ slice_get (get_or table.old.items at []) 0 }
    ensures rest { table.new.items ≡ set table.old.items at (drop 1 (get_or table.old.items at [])) }
{
    if at >= table.len() {
        return None;
    }
    table[at].pop()
}

/// The lane of the Publishes of a submission queue.
pub(crate) fn publish_lane(queue: u16) -> usize
    ensures value { result ≡ 2 * queue }
{
    2 * usize::from(queue)
}

/// The lane of the Reaps of a completion queue.
pub(crate) fn reap_lane(queue: u16) -> usize
    ensures value { result ≡ 2 * queue + 1 }
{
    2 * usize::from(queue) + 1
}

fn lane_of(seen: &Seen) -> usize
    ensures value { result ≡ the_lane seen.now }
{
    match seen {
        Seen::Published(line) => publish_lane(line.queue),
        Seen::Reaped(line) => reap_lane(line.queue),
    }
}

// The earlier of two places, where there is one.
fn earlier(one: Option<usize>, other: Option<usize>) -> Option<usize>
    ensures value { result ≡ earlier_of one other }
{
    let Some(a) = one else {
        return other;
    };
    match other {
        None => Some(a),
        Some(b) => Some(if b < a { b } else { a }),
    }
}

// Where a lane stands in a table of so many.
fn slot(size: usize, lane: usize) -> usize
    ensures value { result ≡ the_slot size lane }
{
    if lane < size { lane } else { 0 }
}

/// The places of a trace's lines by lane. It keeps those that were read and haven't come, and nothing of the trace,
/// which is lent at each call: always the same one.
#[derive(Drop)]
pub(crate) struct Lanes {
    // those of the lanes that have no place in it wait at its first
    waiting: Vec<Places>,
    // how many lines of the trace were read
    read: usize,
}

impl Model for Lanes {
    ghost use Rattle.witness_check.specs.Lanes.{LanesRun};

    ghost Value = { LanesRun };

    ghost view = { λ x. record { waiting = x.waiting.items; read = x.read } };
}

impl Lanes {
    /// Of a trace of which no line came, in a table of so many.
    ///
    /// # Errors
    ///
    /// `NoMemory` where a growth is refused.
    pub(crate) fn new(alloc: Global, size: usize) -> Result<Lanes, NoMemory>
        ensures ok { (trace : List Seen) → IfOk result (λ x. AreLanes size trace [] x) }
    {
        Ok(Lanes {
            waiting: no_places(alloc, size)?,
            read: 0,
        })
    }

    // Reads one more line, where there is one.
    fn read_on(&mut self, trace: &[Seen]) -> Result<(), NoMemory>
        ensures ok { (size : ℕ) (came : List Seen) → 0 < size → AreLanes size trace.now came self.old →
            self.old.read < length trace.now → OnOk result
            (AreLanes size trace.now came self.new × (self.new.read ≡ self.old.read + 1)) }
    {
        if self.read >= trace.len() {
            return Ok(());
        }
        let at = slot(self.waiting.len(), lane_of(&trace[self.read]));
        if at < self.waiting.len() {
            self.waiting[at].push(self.read)?;
        }
        self.read += 1;
        Ok(())
    }

    // The place that waits first there.
    fn first_at(&self, at: usize) -> Option<usize>
        ensures value { result ≡ slice_get (get_or self.now.waiting at []) 0 }
    {
        if at >= self.waiting.len() {
            return None;
        }
        self.waiting[at].first()
    }

    // Reads lines until one waits there.
    fn seek(&mut self, trace: &[Seen], at: usize) -> Result<(), NoMemory>
        ensures ok { (size : ℕ) (came : List Seen) → 0 < size → AreLanes size trace.now came self.old → OnOk result
            (AreLanes size trace.now came self.new
            × (slice_get (get_or self.new.waiting at []) 0 ≡ None → self.new.read ≡ length trace.now)) }
    {
        for _ in self.read..trace.len() {
            if self.first_at(at).is_some() {
                return Ok(());
            }
            self.read_on(trace)?;
        }
        Ok(())
    }

    /// The place of the line of this lane, if it is one, that comes next, which then has come; none where the trace has
    /// no such line.
    ///
    /// # Errors
    ///
    /// `NoMemory` where a growth is refused.
    pub(crate) fn next(
        &mut self,
        trace: &[Seen],
        lane: Option<usize>,
    ) -> Result<Option<usize>, NoMemory>
        ensures ok { (size : ℕ) (came : List Seen) → 0 < size → AreLanes size trace.now came self.old → IfOk result
            (λ place. IsSought size trace.now came lane place self.new) }
    {
        let Some(lane) = lane else {
            return Ok(None);
        };
        let at = slot(self.waiting.len(), lane);
        self.seek(trace, at)?;
        Ok(pop_at(&mut self.waiting, at))
    }

    /// The first line of the trace that didn't come, if there is one.
    pub(crate) fn first_left(&self, trace: &[Seen]) -> Option<usize>
        ensures value { (size : ℕ) (came : List Seen) → 0 < size → AreLanes size trace.now came self.now →
            IsFirstLeft size trace.now came result }
    {
        let mut first = if self.read < trace.len() {
            Some(self.read)
        } else {
            None
        };
        for at in 0..self.waiting.len() {
            first = earlier(first, self.first_at(at));
        }
        first
    }
}
