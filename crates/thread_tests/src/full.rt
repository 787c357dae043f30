//! A fetcher beside a full queue.

use crate::calls::WriteCall;
use crate::played::{Numbers, played};
use history::Config;
use hosts::{Gate, Point};
use std::sync::atomic::{AtomicBool, AtomicU64, Ordering};
use std::test::Fail;
use std::thread::yield_now;

/// The Fetch whose Work finds the queue full, while the worker has the first one.
const ONE_TOO_MANY: u64 = 18;

/// How long a worker waits for it.
const TURNS: u32 = 1_000_000;

/// Counts Fetches, and holds the worker after its first Grant until a Work has found the queue full, or so many turns
/// have passed.
#[derive(Drop)]
struct Fetches {
    made: AtomicU64,
    /// The worker was held no longer than until enough were made.
    enough: AtomicBool,
}

impl Gate for Fetches {
    fn pass(&self, point: Point, ticket: u64) {
        if point == Point::Fetched {
            self.made.fetch_add(1, Ordering::SeqCst);
        } else if point == Point::Granted && ticket == 1 {
            self.hold();
        }
    }
}

impl Fetches {
    fn hold(&self) {
        for _ in 0..TURNS {
            if self.made.load(Ordering::SeqCst) >= ONE_TOO_MANY {
                self.enough.store(true, Ordering::SeqCst);
                break;
            }
            yield_now();
        }
        for _ in 0..1000 {
            yield_now();
        }
    }
}

// Each of twenty Works is served, more than the queue holds, those too that found it full.
#[test]
fn a_full_queue_keeps_each_work(rt: HostRuntime) -> Result<(), Fail> {
    let config = Config::new(8, 1, 1, 0, 0, 1, 32, 32, 32)?;
    let mut writes: [WriteCall; 20] = [(0, 0, 1); 20];
    for cid in 0..20u8 {
        writes[usize::from(cid)] = (cid, 0, 1);
    }
    let gate = Fetches {
        made: AtomicU64::new(0),
        enough: AtomicBool::new(false),
    };
    let numbers = Numbers {
        queues: 1,
        workers: 1,
        count: 20,
    };
    let (good, length, gate) = played(&rt, rt.alloc(), &config, gate, numbers, &writes)?;
    assert!(rt; gate.enough.load(Ordering::SeqCst));
    assert_eq!(rt; (good, length), (20, 101));
    Ok(())
}
