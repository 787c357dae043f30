//! What may differ between a history and a trace.

/// What differs where hosts first see something of a history that a trace doesn't say.
#[derive(Clone, Copy, Debug, PartialEq, Eq)]
pub enum Difference {
    /// The history shows one thing more than the trace has.
    TraceEnds,
    /// The trace has one thing more than the history shows.
    HistoryEnds,
    /// One is a Publish, the other a Reap.
    Kind,
    /// The queue.
    Queue,
    /// The entries of a Publish, or their data.
    Batch,
    /// The completion of a Reap.
    Completion,
    /// The data of a Reap.
    Data,
    /// What was there at the beginning wasn't written before it, or not to its end.
    Contents,
    /// A Reap is logged before a Publish that came before it.
    Order,
}
