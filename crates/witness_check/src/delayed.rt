//! Whether entries explain a trace that was logged with delays.

ghost use Rattle.std.specs.Option.{option_copied};
ghost use Rattle.std.specs.Prelude.{◌≡◌, ◌↔◌, ◌∷◌, [], IfOk, IfSome, List, OnOk, reverse, true};
ghost use Rattle.nvme_model.specs.History.{Past};
ghost use Rattle.nvme_model.specs.declared.config.ConfigNumbers.{ConfigNumbers};
ghost use Rattle.trace.specs.declared.options.TraceOptions.{TraceOptions};
ghost use Rattle.trace.specs.declared.seen.Seen.{Seen};
ghost use Rattle.witness_check.specs.Delayed.{ExplainsDelayed};
ghost use Rattle.witness_check.specs.Delays.{IsDelayedTo, IsDelayedVerdict, lanes_of as the_lanes_of};
ghost use Rattle.witness_check.specs.Delays.{is_reap_entry as the_is_reap_entry, is_turned as the_is_turned};
ghost use Rattle.witness_check.specs.Delays.{lane_sought as the_lane_sought, reach_after as the_reach_after};
ghost use Rattle.witness_check.specs.Delays.{thing_there, turned_or as the_turned_or};

use crate::comparison::{Comparison, TraceVerdict};
use crate::difference::Difference;
use crate::lanes::{Lanes, publish_lane, reap_lane};
use crate::turn::{aside_pair, is_aside_entry};
use history::{Config, Entry};
use std::alloc::{AllocError as NoMemory, Global};
use std::marker::Model;
use trace::{Seen, TraceOptions};

/// Compares a history, entry by entry, with a trace whose Publishes may be logged before they came, and its Reaps after
/// they came. It keeps places of the trace's lines that were read and haven't come, and nothing of the trace, which is
/// lent at each call: always the same one.
#[derive(Drop)]
pub(crate) struct DelayedComparison {
    comparison: Comparison,
    // the queue pair that the trace doesn't have
    aside: Option<u16>,
    lanes: Lanes,
    // how many lines of the trace, the first ones, have all Publishes that came
    reach: usize,
    // at the line with which number, from 1, what differs
    number: usize,
    unlike: Option<Difference>,
}

impl Model for DelayedComparison {
    ghost use Rattle.witness_check.specs.Delays.{DelaysRun};

    ghost Value = { DelaysRun };

    ghost view = { λ x. record {
      compared = x.comparison;
      aside = x.aside;
      lanes = x.lanes;
      reach = x.reach;
      number = x.number;
      unlike = x.unlike;
    } };
}

// How many lanes the queues of a configuration have.
fn lanes_of(config: &Config) -> usize
    ensures value { result ≡ the_lanes_of config.now }
{
    let numbers = config.numbers();
    if numbers.pairs < numbers.cqs {
        return publish_lane(numbers.cqs) + 2;
    }
    publish_lane(numbers.pairs) + 2
}

// The lane in which the trace has an entry.
fn lane_sought(aside: Option<u16>, entry: &Entry) -> Option<usize>
    ensures value { result ≡ the_lane_sought aside entry.now }
{
    if is_aside_entry(aside, entry) {
        return None;
    }
    match entry {
        Entry::Publish(line) => Some(publish_lane(line.queue)),
        Entry::Reap(line) => Some(reap_lane(line.queue)),
        Entry::Fetch(_) | Entry::Grant(_) => None,
        Entry::Block(_) | Entry::Post(_) => None,
    }
}

fn is_reap_entry(entry: &Entry) -> bool
    ensures value { result ≡ the_is_reap_entry entry.now }
{
    match entry {
        Entry::Reap(_) => true,
        Entry::Publish(_) | Entry::Fetch(_) | Entry::Grant(_) => false,
        Entry::Block(_) | Entry::Post(_) => false,
    }
}

// Whether an entry is a Reap that the trace has before a Publish that came.
fn is_turned(entry: &Entry, place: Option<usize>, reach: usize) -> bool
    ensures value { result ≡ the_is_turned entry.now place reach }
{
    match place {
        None => false,
        Some(place) => is_reap_entry(entry) && place < reach,
    }
}

// The line at a place, unless it is turned.
fn thing_at(trace: &[Seen], place: Option<usize>, turned: bool) -> Option<&Seen>
    ensures value { option_copied result ≡ thing_there trace.now place turned }
{
    if turned {
        return None;
    }
    match place {
        None => None,
        Some(place) => trace.get(place),
    }
}

// What differs: a turned Reap was compared with nothing.
fn turned_or(turned: bool, unlike: Option<Difference>) -> Option<Difference>
    ensures value { result ≡ the_turned_or turned unlike }
{
    match unlike {
        Some(Difference::TraceEnds) if turned => Some(Difference::Order),
        other => other,
    }
}

// How many of the first lines have all Publishes that came, with this entry.
fn reach_after(entry: &Entry, place: Option<usize>, reach: usize) -> Option<usize>
    ensures value { IfSome result (λ n. n ≡ the_reach_after entry.now place reach) }
{
    match place {
        None => Some(reach),
        Some(_) if is_reap_entry(entry) => Some(reach),
        Some(place) if place < reach => Some(reach),
        Some(place) => place.checked_add(1),
    }
}

impl DelayedComparison {
    /// One that has taken no entry, of a history of this configuration and a trace that these options read.
    ///
    /// # Errors
    ///
    /// `NoMemory` where a growth is refused.
    pub(crate) fn new(
        alloc: Global,
        options: &TraceOptions,
        config: &Config,
    ) -> Result<DelayedComparison, NoMemory>
        ensures begun { (trace : List Seen) → IfOk result
            (λ x. IsDelayedTo options.now config.now trace [] x) }
    {
        Ok(DelayedComparison {
            comparison: Comparison::new(alloc, options, config)?,
            aside: aside_pair(options, config),
            lanes: Lanes::new(alloc, lanes_of(config))?,
            reach: 0,
            number: 0,
            unlike: None,
        })
    }

    /// Takes the next entry.
    ///
    /// # Errors
    ///
    /// `NoMemory` where a growth is refused; what it keeps then is of no use.
    pub(crate) fn take(&mut self, trace: &[Seen], entry: &Entry) -> Result<(), NoMemory>
        ensures ok { (o : TraceOptions) (c : ConfigNumbers) (past : Past) → IsDelayedTo o c trace.now past self.old →
            OnOk result (IsDelayedTo o c trace.now (entry.now ∷ past) self.new) }
    {
        let lane = lane_sought(self.aside, entry);
        let place = self.lanes.next(trace, lane)?;
        let turned = is_turned(entry, place, self.reach);
        let thing = thing_at(trace, place, turned);
        self.comparison.take_beside(entry, thing)?;
        let Some(reach) = reach_after(entry, place, self.reach) else {
            return Err(NoMemory);
        };
        let Some(number) = place.unwrap_or(trace.len()).checked_add(1) else {
            return Err(NoMemory);
        };
        if self.unlike.is_none() {
            self.reach = reach;
            self.number = number;
            self.unlike = turned_or(turned, self.comparison.difference());
        }
        Ok(())
    }

    /// What is said of the entries that were taken.
    pub(crate) fn verdict(&self, trace: &[Seen]) -> TraceVerdict
        ensures value { (o : TraceOptions) (c : ConfigNumbers) (past : Past) → IsDelayedTo o c trace.now past self.now →
            IsDelayedVerdict o c past trace.now result }
    {
        if let Some(place) = self.comparison.first_bad() {
            return TraceVerdict::Bad(place);
        }
        if let Some(difference) = self.unlike {
            return TraceVerdict::Unlike(self.number as u64, difference);
        }
        let Some(place) = self.lanes.first_left(trace) else {
            return TraceVerdict::Explained;
        };
        // (it stands in the trace, so its number is at most how many lines there are)
        let count = trace.len();
        let number = if place < count { place + 1 } else { count };
        TraceVerdict::Unlike(number as u64, Difference::HistoryEnds)
    }
}

/// What is said of these entries and this trace, each the oldest first, where hosts wrote a Publish down before it
/// came, and a Reap after it came: that they explain it but for such delays; or else the first bad entry; or else,
/// where they are a legal history, the first line at which they differ, as these options read it. It takes any entries
/// and any trace, whoever made them.
///
/// The configuration is the history's: where contents are unknown, its last queue pair is one that the trace lacks.
///
/// # Errors
///
/// `NoMemory` where a growth is refused; nothing is said.
pub fn judge_delayed(
    alloc: Global,
    options: &TraceOptions,
    config: &Config,
    trace: &[Seen],
    entries: &[Entry],
) -> Result<TraceVerdict, NoMemory>
    ensures value { IfOk result (IsDelayedVerdict options.now config.now (reverse entries.now) trace.now) }
{
    let mut comparison = DelayedComparison::new(alloc, options, config)?;
    for place in 0..entries.len() {
        comparison.take(trace, &entries[place])?;
    }
    Ok(comparison.verdict(trace))
}

/// Whether these entries, the oldest first, are a legal history of this configuration, and hosts saw it as this trace,
/// the oldest first, as these options read it, but that they wrote each Publish down before it came, and each Reap
/// after it came. It takes any entries and any trace, whoever made them.
///
/// The configuration is the history's: where contents are unknown, its last queue pair is one that the trace lacks.
///
/// # Errors
///
/// `NoMemory` where a growth is refused; nothing is said.
pub fn certify_delayed(
    alloc: Global,
    options: &TraceOptions,
    config: &Config,
    trace: &[Seen],
    entries: &[Entry],
) -> Result<bool, NoMemory>
    ensures value { IfOk result
        (λ b. (b ≡ true) ↔ ExplainsDelayed options.now config.now (reverse entries.now) (reverse trace.now)) }
{
    match judge_delayed(alloc, options, config, trace, entries)? {
        TraceVerdict::Explained => Ok(true),
        TraceVerdict::Bad(_) => Ok(false),
        TraceVerdict::Unlike(_, _) => Ok(false),
    }
}
