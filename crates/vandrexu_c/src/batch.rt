//! The entries of a Publish.

ghost use Rattle.std.specs.Prelude.{◌≡◌, ◌⊎◌, IfErr, IfOk, None, Some};
ghost use Rattle.c_handles.specs.Owned.{Keeps};
ghost use Rattle.vandrexu_c.specs.Batches.{TellsPublish, submissions_of};
ghost use Rattle.vandrexu_c.specs.OwnedStates.{OwnedState};

use crate::held::Handle;
use c_handles::numbers::{NO_HANDLE, NO_MEMORY};
use nvme_model::submission::{Payload, Submission, Submissions};
use std::alloc::Global;

const BAD_ENTRY: u32 = 106;

/// A submission queue entry, and how many bytes of data belong to it.
#[repr(C)]
#[derive(Clone, Copy)]
pub struct EntryBytes {
    pub bytes: [u8; 64],
    pub count: usize,
}

// An entry with its data, in memory of its own.
fn submission_of(alloc: Global, entry: &EntryBytes, bytes: &[u8]) -> Result<Submission, u32>
    ensures value { IfOk result (λ s. s ≡ record { entry = entry.now.bytes; payload = bytes.now }) }
    ensures fault { IfErr result (λ n. n ≡ 11) }
{
    match Payload::copy_of(alloc, bytes) {
        Ok(payload) => Ok(Submission {
            entry: entry.bytes,
            payload,
        }),
        Err(_) => Err(NO_MEMORY),
    }
}

// The entries with their data; a fault by its number.
#[tactic(auto, using(crate::proofs::Batches::start_of))]
fn batch_of(alloc: Global, entries: &[EntryBytes], bytes: &[u8]) -> Result<Submissions, u32>
    ensures all { IfOk result (λ xs. submissions_of entries.now bytes.now ≡ Some xs) }
    ensures fault { IfErr result (λ n. (n ≡ 11) ⊎ ((n ≡ 106) × (submissions_of entries.now bytes.now ≡ None))) }
{
    let mut items = Vec::new(alloc);
    let mut left = entries;
    let mut data = bytes;
    while let Some((first, others)) = left.split_first() {
        if first.count > data.len() {
            return Err(BAD_ENTRY);
        }
        let (own, behind) = data.split_at(first.count);
        let item = submission_of(alloc, first, own)?;
        if items.push(item).is_err() {
            return Err(NO_MEMORY);
        }
        left = others;
        data = behind;
    }
    if !data.is_empty() {
        return Err(BAD_ENTRY);
    }
    Ok(Submissions::new(items))
}

/// Publishes all entries, or none: 0; or the number of the refusal; or 106 where `bytes` isn't just the data of the
/// entries, one behind the other; or 101 where the handle owns nothing.
#[unsafe(no_mangle)]
#[tactic(auto, using(crate::proofs::Marks::told_ok, crate::proofs::Marks::told_err))]
pub extern "C" fn vandrexu_controller_publish(
    alloc: Global,
    controller: &mut Handle,
    queue: u16,
    entries: &[EntryBytes],
    bytes: &[u8],
) -> u32
    ensures no_handle { controller.old.held.core ≡ None → (result ≡ 101) × (controller.new.held.core ≡ None) }
    ensures publishes { (m : OwnedState) → controller.old.held.core ≡ Some m →
        Keeps controller.new.held.core (TellsPublish m queue entries.now bytes.now result) }
{
    let Some(mut owned) = controller.take(alloc) else {
        return NO_HANDLE;
    };
    let batch = match batch_of(alloc, entries, bytes) {
        Ok(batch) => batch,
        Err(number) => {
            controller.put(owned);
            return number;
        }
    };
    let done = owned.as_mut().publish(queue, batch);
    controller.put(owned);
    match done {
        Ok(()) => 0,
        Err(number) => number,
    }
}
