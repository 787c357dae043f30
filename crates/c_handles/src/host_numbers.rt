//! Which hosts were made of a disk.

ghost use Rattle.std.specs.Prelude.{List, length, replicate, set, ℕ, ◌-◌, ◌≡◌, ◌≤◌, false};
ghost use Rattle.std.specs.List.{position};
ghost use Rattle.std.specs.Prelude.{◌<◌, ◌==◌, IfOk, IfSome};
ghost use Rattle.c_handles.specs.HostNumbers.{AreApart, has_host, has_number};

use std::alloc::{AllocError as NoMemory, Global};
use std::marker::Model;

/// By completion queue, from 1: the number of the host that was made on it, or 0. No number stands there twice.
#[derive(Drop)]
pub struct HostNumbers {
    numbers: Vec<u32>,
}

impl Model for HostNumbers {
    ghost Value = { List ℕ };

    ghost view = { λ h. h.numbers.items };

    ghost invariant = { λ h. AreApart h.numbers.items };
}

// So many zeros.
#[tactic(auto, using(std::proofs::lemmas::List::replicate_more))]
fn zeros(alloc: Global, count: u16) -> Result<Vec<u32>, NoMemory>
    ensures { IfOk result (λ v. v.items ≡ replicate count 0) }
{
    let mut numbers = Vec::with_capacity(alloc, usize::from(count))?;
    for _ in 0..count {
        let Ok(()) = numbers.push(0) else {
            return Err(NoMemory);
        };
    }
    Ok(numbers)
}

impl HostNumbers {
    /// Of so many completion queues, and no host.
    pub(crate) fn none(alloc: Global, queues: u16) -> Result<HostNumbers, NoMemory>
        ensures value { IfOk result (λ n. n ≡ replicate queues 0) }
        ensures count { IfOk result (λ n. length n ≡ queues) }
    {
        let numbers = zeros(alloc, queues)?;
        Ok(HostNumbers { numbers })
    }

    /// Whether a host of this number was made.
    pub(crate) fn has(&self, number: u32) -> bool
        ensures { result ≡ has_number self.now number }
    {
        self.numbers.contains(&number)
    }

    /// Where this number stands, from 0.
    pub(crate) fn place(&self, number: u32) -> Option<usize>
        ensures value { result ≡ position (λ m. m == number) self.now }
        ensures bound { IfSome result (λ i. i < length self.now) }
    {
        self.numbers.iter().position(|it| *it == number)
    }

    /// Whether a host was made on this completion queue.
    pub(crate) fn has_host(&self, queue: u16) -> bool
        requires { (1 ≤ queue) × (queue ≤ length self.now) }
        ensures { result ≡ has_host self.now queue }
    {
        self.numbers[usize::from(queue - 1)] != 0
    }

    /// Notes that the host of this number was made on this completion queue.
    pub(crate) fn note(&mut self, queue: u16, number: u32)
        requires there { (1 ≤ queue) × (queue ≤ length self.old) }
        requires number { has_number self.old number ≡ false }
        requires queue { has_host self.old queue ≡ false }
        ensures { self.new ≡ set self.old (queue - 1) number }
    {
        self.numbers[usize::from(queue - 1)] = number;
    }
}
