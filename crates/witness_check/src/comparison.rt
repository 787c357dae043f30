//! A history that is compared with a trace up to where they differ.

ghost use Rattle.std.specs.Option.{option_copied};
ghost use Rattle.std.specs.Prelude.{◌≡◌, ◌∷◌, ◌-◌, [], IfOk, List, None, OnErr, OnOk, slice_get};
ghost use Rattle.nvme_model.specs.History.{Past};
ghost use Rattle.nvme_model.specs.declared.config.ConfigNumbers.{ConfigNumbers};
ghost use Rattle.trace.specs.declared.options.TraceOptions.{TraceOptions};
ghost use Rattle.trace.specs.declared.seen.Seen.{Seen};
ghost use Rattle.witness_check.specs.Compared.{IsComparedTo, IsVerdict, SaysNext};
ghost use Rattle.witness_check.specs.Compared.{bad_after as the_bad_after, next_after as the_next_after};
ghost use Rattle.witness_check.specs.Compared.{out_after as the_out_after, unlike_after as the_unlike_after};
ghost use Rattle.witness_check.specs.Turns.{differs_at as the_differs_at};

use crate::difference::Difference;
use crate::turn::{Turn, aside_pair, is_aside_entry, out_with, turn_of};
use crate::witness::{Told, Witness};
use history::{Config, Entry};
use std::alloc::{AllocError as NoMemory, Global};
use std::marker::Model;
use trace::{Seen, TraceOptions};

/// What is said of a history and a trace.
#[derive(Clone, Copy, Debug, PartialEq, Eq)]
pub enum TraceVerdict {
    /// The history explains the trace.
    Explained,
    /// The history isn't legal: the place of its first bad entry, from 1.
    Bad(u64),
    /// The history is legal, and hosts saw something else of it: the number, from 1, of the first thing seen that
    /// differs, and what differs.
    Unlike(u64, Difference),
}

/// Compares a history, entry by entry, with a trace. It keeps no entry, and nothing of the trace, which is lent at each
/// call: always the same one.
#[derive(Drop)]
pub struct Comparison {
    options: TraceOptions,
    // the queue pair that the trace doesn't have
    aside: Option<u16>,
    witness: Witness,
    // how many entries were taken
    count: u64,
    // the place of the first bad one
    bad: Option<u64>,
    // the number, from 1, of what the trace says next
    next: usize,
    // how many commands of that queue pair are out
    out: u64,
    // what differs there
    unlike: Option<Difference>,
}

impl Model for Comparison {
    ghost use Rattle.witness_check.specs.Compared.{Compared};

    ghost Value = { Compared };

    ghost view = { λ x. record {
      options = x.options;
      aside = x.aside;
      followed = x.witness;
      count = x.count;
      bad = x.bad;
      next = x.next;
      out = x.out;
      unlike = x.unlike;
    } };
}

// The thing of a trace with this number, from 1.
fn thing_of(trace: &[Seen], number: usize) -> Option<&Seen>
    ensures value { option_copied result ≡ slice_get trace.now (number - 1) }
{
    trace.get(number.saturating_sub(1))
}

// The place of the first bad entry after what is told of this one, where none before was bad.
fn bad_after(told: Told, count: u64) -> Option<u64>
    ensures value { result ≡ the_bad_after told count }
{
    match told {
        Told::Bad => Some(count),
        Told::Hidden | Told::Same => None,
        Told::Unlike(_) => None,
    }
}

// The number of what the trace says next after what is told of one more entry, where `after` is one more.
fn next_after(
    told: Told,
    turn: Turn,
    unlike: Option<Difference>,
    next: usize,
    after: usize,
) -> usize
    ensures value { result ≡ the_next_after told turn unlike next after }
{
    match (told, turn, unlike) {
        (Told::Same, Turn::Own, None) => after,
        (Told::Same, Turn::Own, Some(_)) => next,
        (Told::Same, Turn::Aside | Turn::Late, _) => next,
        (Told::Bad | Told::Hidden | Told::Unlike(_), _, _) => next,
    }
}

// How many commands of the queue pair that the trace doesn't have are out then, where with this entry there are `more`.
fn out_after(told: Told, turn: Turn, unlike: Option<Difference>, out: u64, more: u64) -> u64
    ensures value { result ≡ the_out_after told turn unlike out more }
{
    match (told, turn, unlike) {
        (Told::Same | Told::Unlike(_), Turn::Aside, None) => more,
        (Told::Same | Told::Unlike(_), Turn::Aside, Some(_)) => out,
        (Told::Same | Told::Unlike(_), Turn::Own | Turn::Late, _) => out,
        (Told::Bad | Told::Hidden, _, _) => out,
    }
}

// What differs at something whose turn this is, where this differs from what the trace says next.
fn differs_at(turn: Turn, this: Option<Difference>) -> Option<Difference>
    ensures value { result ≡ the_differs_at turn this }
{
    match turn {
        Turn::Own => this,
        Turn::Aside => None,
        Turn::Late => Some(Difference::Contents),
    }
}

// What differs there then.
fn unlike_after(told: Told, turn: Turn, unlike: Option<Difference>) -> Option<Difference>
    ensures value { result ≡ the_unlike_after told turn unlike }
{
    if let Some(difference) = unlike {
        return Some(difference);
    }
    match told {
        Told::Bad | Told::Hidden => None,
        Told::Same => differs_at(turn, None),
        Told::Unlike(difference) => differs_at(turn, Some(difference)),
    }
}

impl Comparison {
    /// One that has taken no entry, of a history of this configuration and a trace that these options read.
    ///
    /// # Errors
    ///
    /// `NoMemory` where a growth is refused.
    pub fn new(
        alloc: Global,
        options: &TraceOptions,
        config: &Config,
    ) -> Result<Comparison, NoMemory>
        ensures begun { (trace : List Seen) → IfOk result
            (λ x. IsComparedTo options.now config.now trace [] x) }
        ensures alike { IfOk result (λ x. (x.unlike ≡ None) × (x.next ≡ 1)) }
    {
        Ok(Comparison {
            options: *options,
            aside: aside_pair(options, config),
            witness: Witness::new(alloc, config)?,
            count: 0,
            bad: None,
            next: 1,
            out: 0,
            unlike: None,
        })
    }

    /// Takes the next entry.
    ///
    /// # Errors
    ///
    /// `NoMemory` where a growth is refused; the entry isn't taken, and nothing has changed.
    pub fn take(&mut self, trace: &[Seen], entry: &Entry) -> Result<(), NoMemory>
        ensures ok { (o : TraceOptions) (c : ConfigNumbers) (past : Past) → IsComparedTo o c trace.now past self.old →
            OnOk result (IsComparedTo o c trace.now (entry.now ∷ past) self.new) }
        ensures err { OnErr result (self.new ≡ self.old) }
    {
        let thing = thing_of(trace, self.next);
        self.take_beside(entry, thing)
    }

    /// Takes the next entry, where the trace says this next.
    ///
    /// # Errors
    ///
    /// `NoMemory` where a growth is refused; the entry isn't taken, and nothing has changed.
    pub(crate) fn take_beside(
        &mut self,
        entry: &Entry,
        thing: Option<&Seen>,
    ) -> Result<(), NoMemory>
        ensures ok { (o : TraceOptions) (c : ConfigNumbers) (past : Past) (trace : List Seen) →
            IsComparedTo o c trace past self.old → SaysNext trace self.old (option_copied thing.entry) →
            OnOk result (IsComparedTo o c trace (entry.now ∷ past) self.new) }
        ensures err { OnErr result (self.new ≡ self.old) }
    {
        let Some(count) = self.count.checked_add(1) else {
            return Err(NoMemory);
        };
        let Some(after) = self.next.checked_add(1) else {
            return Err(NoMemory);
        };
        if self.bad.is_some() {
            self.count = count;
            return Ok(());
        }
        let Some(more) = out_with(entry, self.out) else {
            return Err(NoMemory);
        };
        let turn = turn_of(is_aside_entry(self.aside, entry), self.out, self.next);
        let told = self.witness.take(&self.options, entry, thing)?;
        self.count = count;
        self.bad = bad_after(told, count);
        self.next = next_after(told, turn, self.unlike, self.next, after);
        self.out = out_after(told, turn, self.unlike, self.out, more);
        self.unlike = unlike_after(told, turn, self.unlike);
        Ok(())
    }

    /// The place, from 1, of the first bad entry.
    pub(crate) fn first_bad(&self) -> Option<u64>
        ensures value { result ≡ self.now.bad }
    {
        self.bad
    }

    /// What differs where hosts first see something of the entries that the trace doesn't say next.
    pub(crate) fn difference(&self) -> Option<Difference>
        ensures value { result ≡ self.now.unlike }
    {
        self.unlike
    }

    /// What is said of the entries that were taken.
    pub fn verdict(&self, trace: &[Seen]) -> TraceVerdict
        ensures value { (o : TraceOptions) (c : ConfigNumbers) (past : Past) → IsComparedTo o c trace.now past
            self.now →
            IsVerdict o c past trace.now result }
    {
        if let Some(place) = self.bad {
            return TraceVerdict::Bad(place);
        }
        if let Some(difference) = self.unlike {
            return TraceVerdict::Unlike(self.next as u64, difference);
        }
        if self.next <= trace.len() {
            return TraceVerdict::Unlike(self.next as u64, Difference::HistoryEnds);
        }
        TraceVerdict::Explained
    }
}
