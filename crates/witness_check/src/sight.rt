//! What hosts see of an entry.

use nvme_model::entry::PublishLine;
use trace::ReapedLine;

/// What hosts see of one more entry of a history.
#[derive(Drop)]
pub enum Sight<'a> {
    /// Nothing.
    Hidden,
    /// A Publish.
    Published(&'a PublishLine),
    /// A Reap, with what its Read read.
    Reaped(ReapedLine),
}
