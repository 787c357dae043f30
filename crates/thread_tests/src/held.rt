//! Workers whose tasks come between each other.

use crate::played::{Numbers, played};
use history::Config;
use hosts::{Gate, Point};
use std::alloc::Global;
use std::sync::Wait;
use std::sync::atomic::{AtomicBool, AtomicU64, Ordering};
use std::test::Fail;
use std::thread::{Threads, yield_now};

/// The ticket of the Write of two blocks.
const FIRST: u64 = 1;

/// How long a worker is held beside another, which needs a few of these.
const TURNS: u32 = 1_000_000;

/// How long a worker is held that is alone.
const FEW_TURNS: u32 = 1_000;

/// How many workers are held at once.
const FOUR: u64 = 4;

/// Holds the worker that has the first ticket, after its first Block, until a Block of another ticket was made or so
/// many turns have passed; and counts how often a worker was about to make a Post.
#[derive(Drop)]
struct HoldsWorker {
    turns: u32,
    another: AtomicBool,
    late: AtomicBool,
    posting: AtomicU64,
}

impl Gate for HoldsWorker {
    fn pass(&self, point: Point, ticket: u64) {
        if point == Point::Posting {
            self.posting.fetch_add(1, Ordering::SeqCst);
        } else if point == Point::Blocked {
            if ticket == FIRST {
                self.hold();
            } else {
                self.another.store(true, Ordering::SeqCst);
            }
        }
    }
}

impl HoldsWorker {
    fn hold(&self) {
        for _ in 0..self.turns {
            if self.another.load(Ordering::SeqCst) || self.late.load(Ordering::SeqCst) {
                return;
            }
            yield_now();
        }
        self.late.store(true, Ordering::SeqCst);
    }
}

// A Write of two blocks and one of another block, by so many workers: whether the gate was late, how often a worker
// went through it before a Post, how many completions say success, and how many entries the history has, which is
// legal.
fn held<R: Threads + Wait + Sync>(
    rt: &R,
    alloc: Global,
    workers: u16,
    turns: u32,
) -> Result<(bool, u64, u16, usize), Fail> {
    let config = Config::with_cqs(8, 1, 1, 0, 0, 2, 4, 4, 8, 1)?;
    let gate = HoldsWorker {
        turns,
        another: AtomicBool::new(false),
        late: AtomicBool::new(false),
        posting: AtomicU64::new(0),
    };
    let numbers = Numbers {
        queues: 1,
        workers,
        count: 2,
    };
    let (good, length, gate) = played(rt, alloc, &config, gate, numbers, &[(1, 0, 2), (2, 3, 1)])?;
    let posting = gate.posting.load(Ordering::SeqCst);
    Ok((gate.late.load(Ordering::SeqCst), posting, good, length))
}

#[test]
fn a_held_worker_does_not_hold_another(rt: HostRuntime) -> Result<(), Fail> {
    assert_eq!(rt; held(&rt, rt.alloc(), 2, TURNS)?, (false, 2, 2, 12));
    Ok(())
}

// What the test above would say of workers that take turns.
#[test]
fn a_worker_alone_is_late_at_the_gate(rt: HostRuntime) -> Result<(), Fail> {
    assert_eq!(rt; held(&rt, rt.alloc(), 1, FEW_TURNS)?, (true, 2, 2, 12));
    Ok(())
}

/// Holds each worker after its Block until four are held, or so many turns have passed.
#[derive(Drop)]
struct Meets {
    held: AtomicU64,
    late: AtomicBool,
}

impl Gate for Meets {
    fn pass(&self, point: Point, _ticket: u64) {
        if point != Point::Blocked {
            return;
        }
        self.held.fetch_add(1, Ordering::SeqCst);
        for _ in 0..TURNS {
            if self.held.load(Ordering::SeqCst) >= FOUR || self.late.load(Ordering::SeqCst) {
                return;
            }
            yield_now();
        }
        self.late.store(true, Ordering::SeqCst);
    }
}

// Four Writes of a block each: as many workers as were asked for are in the middle of one at once.
#[test]
fn four_workers_are_held_at_once(rt: HostRuntime) -> Result<(), Fail> {
    let config = Config::new(8, 1, 1, 0, 0, 1, 8, 8, 8)?;
    let gate = Meets {
        held: AtomicU64::new(0),
        late: AtomicBool::new(false),
    };
    let numbers = Numbers {
        queues: 1,
        workers: 4,
        count: 4,
    };
    let writes = [(0, 0, 1), (1, 1, 1), (2, 2, 1), (3, 3, 1)];
    let (good, length, gate) = played(&rt, rt.alloc(), &config, gate, numbers, &writes)?;
    assert_eq!(rt; (good, length), (4, 21));
    assert!(rt; !gate.late.load(Ordering::SeqCst));
    Ok(())
}
