//! The CIDs in use on all submission queues.

ghost use Rattle.std.specs.Prelude.{◌≡◌, [], IfOk, replicate};

use crate::in_use::CidsInUse;
use std::alloc::{AllocError as NoMemory, Global};

/// Room for that many CIDs on each of so many submission queues, none in use.
///
/// # Errors
///
/// `NoMemory` where the room is refused.
pub fn none_in_use(alloc: Global, count: u16, room: usize) -> Result<Vec<CidsInUse>, NoMemory>
    ensures value { IfOk result (λ used. used.items ≡ replicate count (record { room = room; cids = [] })) }
{
    let mut used = Vec::with_capacity(alloc, count as usize)?;
    for _ in 0..count {
        used.push_reserved(CidsInUse::new(alloc, room)?);
    }
    Ok(used)
}
