//! Hosts whose Writes workers serve, with nothing to wait for.

use crate::played::{Numbers, played};
use history::Config;
use hosts::OpenGate;
use std::test::Fail;

/// Completion queues, workers, and how many completions each host reaps.
const ROWS: [(u16, u16, u16); 3] = [
    // Two workers serve two hosts.
    (2, 2, 3),
    // Four workers share a completion queue, which is full while three completions wait.
    (1, 4, 6),
    // A worker alone does all, and so a thread for each of many is no premise.
    (2, 1, 3),
];

// Two entries of Publishes, and of each of six Writes a Fetch, a Grant, two Blocks, a Post and a Reap.
#[test]
fn workers_serve_hosts(rt: HostRuntime) -> Result<(), Fail> {
    for (cqs, workers, count) in ROWS {
        let config = Config::with_cqs(8, 1, 1, 0, 0, 2, 4, 4, 8, cqs)?;
        let numbers = Numbers {
            queues: 2,
            workers,
            count,
        };
        let writes = [(0, 0, 2), (1, 1, 2), (2, 2, 2)];
        let (good, length, _) = played(&rt, rt.alloc(), &config, OpenGate, numbers, &writes)?;
        assert_eq!(rt; (good, length), (6, 38), "{workers} workers");
    }
    Ok(())
}
