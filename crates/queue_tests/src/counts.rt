//! What pushers and poppers of one queue have begun and done.

use std::sync::atomic::{AtomicU16, AtomicU64, Ordering};

/// Calls of one kind by all threads. One that came back or found nothing is no longer counted as begun.
#[derive(Drop)]
pub(crate) struct CallCount {
    begun: AtomicU64,
    done: AtomicU64,
}

impl CallCount {
    fn new() -> CallCount {
        CallCount {
            begun: AtomicU64::new(0),
            done: AtomicU64::new(0),
        }
    }

    /// A call begins; how many of the other kind are done by now.
    pub(crate) fn begins(&self, other: &CallCount) -> u64 {
        let done = other.done.load(Ordering::SeqCst);
        self.begun.fetch_add(1, Ordering::SeqCst);
        done
    }

    pub(crate) fn ends(&self) {
        self.done.fetch_add(1, Ordering::SeqCst);
    }

    /// The call got nothing done; whether that can have been, where so many of the other kind were done when it began.
    /// A push comes back from a queue that is full: as many other pushes had begun as had been popped and there is room
    /// for. A pop finds nothing in one that is empty: as many other pops had begun as had been pushed.
    pub(crate) fn fails(&self, done: u64, room: u64) -> bool {
        self.begun.fetch_sub(1, Ordering::SeqCst) > done.saturating_add(room)
    }
}

/// So many Works in all, through a queue of so many places.
#[derive(Drop)]
pub(crate) struct Counts {
    pub total: u64,
    pub capacity: u64,
    pub pushes: CallCount,
    pub pops: CallCount,
    come: AtomicU16,
}

impl Counts {
    pub(crate) fn new(total: u64, capacity: u64) -> Counts {
        Counts {
            total,
            capacity,
            pushes: CallCount::new(),
            pops: CallCount::new(),
            come: AtomicU16::new(0),
        }
    }

    /// How many threads came before this one.
    pub(crate) fn comes(&self) -> u16 {
        self.come.fetch_add(1, Ordering::SeqCst)
    }

    /// Whether all are popped.
    pub(crate) fn is_done(&self) -> bool {
        self.pops.done.load(Ordering::SeqCst) == self.total
    }
}
