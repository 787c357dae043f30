//! The data of completions that wait in a completion queue.

ghost use Rattle.std.specs.Prelude.{◌≡◌, ◌++◌, ◌∷◌, [], IfOk, OnErr, OnOk, drop, get_or, replicate, set, slice_get};

use nvme_model::submission::Payload;
use std::alloc::{AllocError as NoMemory, Global};
use std::collections::VecDeque;
use std::marker::Model;

/// The data of each completion that waits, that of the one that is reaped next first.
#[derive(Drop)]
pub struct Payloads {
    waiting: VecDeque<Payload>,
}

impl Model for Payloads {
    ghost use Rattle.std.specs.Prelude.{List, ℕ};

    ghost Value = { List (List ℕ) };

    ghost view = { λ p. p.waiting.items };
}

impl Payloads {
    /// None.
    pub fn new(alloc: Global) -> Payloads
        ensures empty { result ≡ [] }
    {
        Payloads {
            waiting: VecDeque::new(alloc),
        }
    }

    /// Puts a copy of these bytes behind those that wait.
    ///
    /// # Errors
    ///
    /// `NoMemory` where a growth is refused; nothing has changed.
    pub fn push(&mut self, alloc: Global, bytes: &[u8]) -> Result<(), NoMemory>
        ensures ok { OnOk result (self.new ≡ self.old ++ bytes.now ∷ []) }
        ensures err { OnErr result (self.new ≡ self.old) }
    {
        let copy = Payload::copy_of(alloc, bytes)?;
        if self.waiting.push_back(copy).is_err() {
            return Err(NoMemory);
        }
        Ok(())
    }

    /// Takes the first out.
    pub fn pop(&mut self) -> Option<Payload>
        ensures first { result ≡ slice_get self.old 0 }
        ensures rest { self.new ≡ drop 1 self.old }
    {
        self.waiting.pop_front()
    }
}

/// None, for each of so many completion queues.
///
/// # Errors
///
/// `NoMemory` where a growth is refused.
pub fn no_payloads(alloc: Global, count: u16) -> Result<Vec<Payloads>, NoMemory>
    ensures value { IfOk result (λ queues. queues.items ≡ replicate count []) }
{
    let mut queues = Vec::with_capacity(alloc, usize::from(count))?;
    for _ in 0..count {
        queues.push_reserved(Payloads::new(alloc));
    }
    Ok(queues)
}

/// Puts a copy of these bytes behind the data that waits at a place, where there is such a place.
///
/// # Errors
///
/// `NoMemory` where a growth is refused; nothing has changed.
pub fn push_at(
    alloc: Global,
    queues: &mut Vec<Payloads>,
    place: usize,
    bytes: &[u8],
) -> Result<(), NoMemory>
    ensures ok { OnOk result
        (queues.new.items ≡ set queues.old.items place (get_or queues.old.items place [] ++ bytes.now ∷ [])) }
    ensures err { OnErr result (queues.new.items ≡ queues.old.items) }
{
    if place < queues.len() {
        queues[place].push(alloc, bytes)?;
    }
    Ok(())
}

/// Takes out the data that waits first at a place.
pub fn pop_at(queues: &mut Vec<Payloads>, place: usize) -> Option<Payload>
    ensures first { result ≡ slice_get (get_or queues.old.items place []) 0 }
    ensures rest { queues.new.items ≡ set queues.old.items place (drop 1 (get_or queues.old.items place [])) }
{
    if place >= queues.len() {
        return None;
    }
    queues[place].pop()
}
