//! What differs between what was seen and what a trace says.

ghost use Rattle.std.specs.Prelude.{◌≡◌, ◌↔◌, true};
ghost use Rattle.trace.specs.Options.{Pointwise, ReadsEntry, read_completion as the_reading};
ghost use Rattle.trace.specs.declared.seen.Seen.{Seen};
ghost use Rattle.witness_check.specs.Differing.{Distinguishes};

use crate::difference::Difference;
use nvme_model::entry::{PublishLine, ReapLine};
use nvme_model::submission::Submission;
use trace::{ReapedLine, Seen, TraceOptions, read_completion, refused};

// Whether an entry of a history stands for this one of a trace.
fn reads_item(options: &TraceOptions, one: &Submission, told: &Submission) -> bool
    ensures value { (result ≡ true) ↔ ReadsEntry options.now one.now told.now }
{
    if one.payload.as_slice() != told.payload.as_slice() {
        return false;
    }
    one.entry == told.entry || options.statuses_any && one.entry == refused(&told.entry)
}

// Whether two batches have as many entries, and each of a history stands for the one of the trace at its place.
fn reads_items(options: &TraceOptions, some: &[Submission], told: &[Submission]) -> bool
    ensures value { (result ≡ true) ↔ Pointwise (ReadsEntry options.now) some.now told.now }
{
    if some.len() != told.len() {
        return false;
    }
    for place in 0..some.len() {
        if !reads_item(options, &some[place], &told[place]) {
            return false;
        }
    }
    true
}

// What differs between two Publishes.
fn publishes_differ(
    options: &TraceOptions,
    line: &PublishLine,
    told: &PublishLine,
) -> Option<Difference>
    ensures value { Distinguishes options.now (Seen.Published line.now) (Seen.Published told.now) result }
{
    if line.queue != told.queue {
        return Some(Difference::Queue);
    }
    if !reads_items(options, line.batch.as_slice(), told.batch.as_slice()) {
        return Some(Difference::Batch);
    }
    None
}

// Whether two completions are read as the same bytes.
fn reads_completion(options: &TraceOptions, one: &[u8; 16], told: &[u8; 16]) -> bool
    ensures value { (result ≡ true) ↔ (the_reading options.now one.now ≡ the_reading options.now told.now) }
{
    read_completion(options, one) == read_completion(options, told)
}

// What differs between a Reap with this data and another one.
fn reaps_differ(
    options: &TraceOptions,
    line: &ReapLine,
    payload: &[u8],
    told: &ReapedLine,
) -> Option<Difference>
    ensures value { Distinguishes options.now
        (Seen.Reaped (record { queue = line.now.queue; cqe = line.now.cqe; payload = payload.now }))
        (Seen.Reaped told.now) result }
{
    if line.queue != told.queue {
        return Some(Difference::Queue);
    }
    if !reads_completion(options, &line.cqe, &told.cqe) {
        return Some(Difference::Completion);
    }
    if payload != told.payload.as_slice() {
        return Some(Difference::Data);
    }
    None
}

/// What differs between this Publish and what a trace says, as these options read it.
pub fn publish_differs(
    options: &TraceOptions,
    line: &PublishLine,
    told: &Seen,
) -> Option<Difference>
    ensures value { Distinguishes options.now (Seen.Published line.now) told.now result }
{
    match told {
        Seen::Published(told) => publishes_differ(options, line, told),
        Seen::Reaped(_) => Some(Difference::Kind),
    }
}

/// What differs between this Reap, with this data, and what a trace says, as these options read it.
pub fn reap_differs(
    options: &TraceOptions,
    line: &ReapLine,
    payload: &[u8],
    told: &Seen,
) -> Option<Difference>
    ensures value { Distinguishes options.now
        (Seen.Reaped (record { queue = line.now.queue; cqe = line.now.cqe; payload = payload.now })) told.now result }
{
    match told {
        Seen::Published(_) => Some(Difference::Kind),
        Seen::Reaped(told) => reaps_differ(options, line, payload, told),
    }
}
