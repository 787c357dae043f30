//! What a driver published.

use driver_cas::Driver;
use driver_testing::{Did, Fake};
use history::Entry;
use nvme_model::submission::Submission;
use std::alloc::{AllocError as NoMemory, Global};

/// What one Publish sent: to which submission queue, with the CIDs of its entries.
#[derive(Clone, Copy, Debug, PartialEq, Eq)]
pub(crate) struct Sent {
    pub(crate) queue: u16,
    pub(crate) first: u16,
    // Of a pair.
    pub(crate) second: Option<u16>,
}

/// One command.
pub(crate) fn one(queue: u16, first: u16) -> Sent {
    Sent {
        queue,
        first,
        second: None,
    }
}

/// A fused pair.
pub(crate) fn two(queue: u16, first: u16, second: u16) -> Sent {
    Sent {
        queue,
        first,
        second: Some(second),
    }
}

// The CID of an entry, in bytes 2 and 3.
fn cid_of(item: &Submission) -> u16 {
    u16::from_le_bytes([item.entry[2], item.entry[3]])
}

// A Publish of these entries.
fn sent_of(queue: u16, items: &[Submission]) -> Option<Sent> {
    Some(Sent {
        queue,
        first: cid_of(items.first()?),
        second: items.get(1).map(cid_of),
    })
}

/// What the driver published, in order.
pub(crate) fn published(alloc: Global, driver: Driver<Fake>) -> Result<Vec<Sent>, NoMemory> {
    let mut all = Vec::new(alloc);
    let port = driver.into_port();
    for did in port.did.as_slice() {
        if let Did::Sent(queue, batch) = did
            && let Some(sent) = sent_of(*queue, batch.as_slice())
        {
            all.push(sent)?;
        }
    }
    Ok(all)
}

/// What was published in a history, in order.
pub(crate) fn published_in(alloc: Global, entries: &[Entry]) -> Result<Vec<Sent>, NoMemory> {
    let mut all = Vec::new(alloc);
    for entry in entries {
        if let Entry::Publish(line) = entry
            && let Some(sent) = sent_of(line.queue, line.batch.as_slice())
        {
            all.push(sent)?;
        }
    }
    Ok(all)
}
