//! A call that was started, and what polling it gives.

use crate::fault::Fault;
use driver_calls::Reply;
use nvme_model::operation::Op;
use std::snapshot::Snapshot;

/// A call that was started. It can't be copied, and one that is dropped keeps its CIDs.
#[derive(Drop)]
pub struct Call<P> {
    pub(crate) op: Op,
    pub(crate) queue: u16,
    pub(crate) first: u16,
    // Of a pair alone.
    pub(crate) second: u16,
    // The port just before the call's Publish.
    // For contracts alone, and why `Call` and `Poll` name the port's type.
    pub(crate) start: Snapshot<P>,
}

/// What polling a call gives.
#[derive(Drop)]
pub enum Poll<P> {
    /// Not all its completions were reaped.
    Pending(Call<P>),
    /// Nor was one now, for this cause: `Busy` or `NoMemory`.
    Later(Fault, Call<P>),
    Done(Reply),
    /// Its status is another than those that a reply tells.
    Failed(Fault),
}
