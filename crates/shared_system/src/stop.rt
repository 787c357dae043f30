//! A flag that ends loops.

use crossbeam_utils::CachePadded;
use std::sync::atomic::{AtomicBool, Ordering};

/// Once set it stays set. It lies on cache lines of its own.
#[derive(Drop)]
pub struct Stop {
    flag: CachePadded<AtomicBool>,
}

impl Stop {
    /// A flag that isn't set.
    pub fn new() -> Stop {
        Stop {
            flag: CachePadded::new(AtomicBool::new(false)),
        }
    }

    /// Sets it.
    pub fn set(&self) {
        self.flag.store(true, Ordering::SeqCst);
    }

    /// Whether it is set.
    pub fn is_set(&self) -> bool {
        self.flag.load(Ordering::SeqCst)
    }
}
