//! The rings of all queues of a kind.

ghost use Rattle.std.specs.Prelude.{◌≡◌, [], IfOk, replicate, true};
ghost use Rattle.rings.specs.Slots.{IsSize};

use crate::completion_ring::CqRing;
use crate::submission_ring::SqRing;
use std::alloc::{AllocError as NoMemory, Global};

/// A ring of that many slots for each of so many submission queues, in which no entry waits.
///
/// # Errors
///
/// `NoMemory` where a growth is refused.
pub fn sq_rings(alloc: Global, count: u16, size: u16) -> Result<Vec<SqRing>, NoMemory>
    requires size { IsSize size }
    ensures value { IfOk result
        (λ rings. rings.items ≡ replicate count (record { size = size; head = 0; waiting = [] })) }
{
    let mut rings = Vec::with_capacity(alloc, count as usize)?;
    for _ in 0..count {
        rings.push_reserved(SqRing::new(alloc, size)?);
    }
    Ok(rings)
}

/// A ring of that many slots for each of so many completion queues, in which no completion waits; the first has the
/// phase tag 1.
///
/// # Errors
///
/// `NoMemory` where a growth is refused.
pub fn cq_rings(alloc: Global, count: u16, size: u16) -> Result<Vec<CqRing>, NoMemory>
    requires size { IsSize size }
    ensures value { IfOk result
        (λ rings. rings.items ≡ replicate count (record { size = size; tail = 0; phase = true; waiting = [] })) }
{
    let mut rings = Vec::with_capacity(alloc, count as usize)?;
    for _ in 0..count {
        rings.push_reserved(CqRing::new(alloc, size)?);
    }
    Ok(rings)
}
