//! Worked runs made of steps, as scripts.

/// The configuration of most rows.
pub const CONFIG: &str = "config 8 1 1 0 0 2 4 4 8";

/// One queue pair, and 32 tickets in flight.
pub const ONE_QUEUE: &str = "config 8 1 1 0 0 1 4 4 32";

/// Worked runs: the configuration, and the lines, parted by ` / `.
pub const ROWS: [(&str, &str); 22] = [
    // Nothing is there to reap.
    (CONFIG, "reap 1"),
    // One block is written.
    (
        CONFIG,
        "publish 1 write 0 1 3 0 A1 / fetch 1 / grant 1 / block 1 / post 1 / reap 1",
    ),
    // A pair wins, and a Read finds what it wrote.
    (
        CONFIG,
        "publish 1 compare 1 7 3 0 00 + write 2 8 3 0 A1 / fetch 1 / settle / reap 1 / reap 1 / publish 1 read 0 9 3 0 - / fetch 1 / settle / reap 1",
    ),
    // A second pair from the same old data loses.
    (
        CONFIG,
        "publish 1 compare 1 7 3 0 00 + write 2 8 3 0 A1 / fetch 1 / settle / reap 1 / reap 1 / publish 1 read 0 9 3 0 - / fetch 1 / settle / reap 1 / publish 2 compare 1 9 3 0 00 + write 2 10 3 0 B2 / fetch 2 / settle / reap 2 / reap 2",
    ),
    // A pair stands in the last slot and the first one.
    (
        CONFIG,
        "publish 1 write 0 1 0 0 A1 + write 0 2 1 0 A1 + write 0 3 2 0 A1 / fetch 1 / fetch 1 / fetch 1 / settle / reap 1 / reap 1 / reap 1 / publish 1 compare 1 7 3 0 00 + write 2 8 3 0 A1 / fetch 1 / settle / reap 1 / reap 1",
    ),
    // A first and a second that are fetched one by one end alone.
    (
        CONFIG,
        "publish 1 compare 1 7 3 0 00 / fetch 1 / post 1 / publish 1 write 2 8 3 0 A1 / fetch 1 / post 2 / reap 1 / reap 1",
    ),
    // Two publishes make a pair where both came before the fetch.
    (
        CONFIG,
        "publish 1 compare 1 7 3 0 00 / publish 1 write 2 8 3 0 A1 / fetch 1 / settle / reap 1 / reap 1",
    ),
    // The two of a pair name other blocks.
    (
        CONFIG,
        "publish 1 compare 1 7 3 0 00 + write 2 8 4 0 A1 / fetch 1 / settle / reap 1 / reap 1",
    ),
    // A pair of three blocks is too long.
    (
        CONFIG,
        "publish 1 compare 1 7 0 2 00.00.00 + write 2 8 0 2 A1.A1.A1 / fetch 1 / settle / reap 1 / reap 1",
    ),
    // A pair of two blocks isn't.
    (
        CONFIG,
        "publish 1 compare 1 7 0 1 00.00 + write 2 8 0 1 A1.A1 / fetch 1 / settle / reap 1 / reap 1",
    ),
    // A Write is cut at a boundary.
    (
        "config 12 3 3 3 2 2 4 4 8",
        "publish 1 write 0 1 4 3 A1.A1.A1.A1 / fetch 1 / settle / reap 1",
    ),
    // A pair across a boundary fails.
    (
        "config 12 3 3 3 2 2 4 4 8",
        "publish 1 compare 1 7 5 1 00.00 + write 2 8 5 1 A1.A1 / fetch 1 / settle / reap 1 / reap 1",
    ),
    // A pair between two boundaries wins.
    (
        "config 12 3 3 3 2 2 4 4 8",
        "publish 1 compare 1 7 2 3 00.00.00.00 + write 2 8 2 3 A1.A1.A1.A1 / fetch 1 / settle / reap 1 / reap 1",
    ),
    // Of two pairs that are fetched together, the one that may begin wins.
    (
        CONFIG,
        "publish 1 compare 1 7 3 0 00 + write 2 8 3 0 A1 / publish 2 compare 1 9 3 0 00 + write 2 10 3 0 B2 / fetch 1 / fetch 2 / grant 1 / grant 2 / block 1 / block 1 / grant 2 / block 2 / settle / reap 1 / reap 1 / reap 2 / reap 2",
    ),
    // A Read between two units of a Write sees the first alone.
    (
        CONFIG,
        "publish 1 write 0 1 0 3 A1.A1.A1.A1 / publish 2 read 0 2 0 3 - / fetch 1 / fetch 2 / grant 1 / block 1 / block 1 / grant 2 / block 2 / block 2 / grant 2 / block 2 / block 2 / post 2",
    ),
    // A Read waits for a unit that writes its blocks.
    (
        CONFIG,
        "publish 1 write 0 1 0 1 A1.A1 / publish 2 read 0 2 0 1 - / fetch 1 / fetch 2 / grant 1 / block 1 / grant 2",
    ),
    // A completion queue of one place.
    (
        "config 8 1 1 0 0 2 4 2 8",
        "publish 1 write 0 1 0 0 A1 + write 0 2 1 0 A1 + write 0 3 2 0 A1 / fetch 1 / fetch 1 / fetch 1 / grant 1 / grant 2 / grant 3 / block 1 / block 2 / block 3 / post 1 / post 2 / reap 1 / post 2 / reap 1 / post 3 / reap 1",
    ),
    // The last block number there is.
    (
        CONFIG,
        "publish 1 write 0 1 18446744073709551615 0 A1 / fetch 1 / settle / reap 1",
    ),
    // Too many blocks.
    (
        CONFIG,
        "publish 1 write 0 1 18446744073709551615 65535 - / fetch 1 / settle / reap 1",
    ),
    // A CID in use.
    (
        CONFIG,
        "publish 1 write 0 5 0 0 A1 + write 0 5 1 0 B2 / fetch 1 / fetch 1 / settle / reap 1 / reap 1",
    ),
    // A Compare of a pair without its data.
    (
        CONFIG,
        "publish 1 compare 1 7 3 0 - + write 2 8 3 0 A1 / fetch 1 / settle / reap 1 / reap 1",
    ),
    // A pair posts one by one.
    (
        "config 8 1 1 0 0 2 4 2 8",
        "publish 1 compare 1 7 3 0 00 + write 2 8 3 0 A1 / fetch 1 / settle / post 1 / reap 1 / post 1 / reap 1",
    ),
];

/// The largest volume, one queue of two slots, and one ticket in flight.
pub const LARGE: &str = "config 65536 255 255 0 0 1 2 2 1";

/// A pair, which a queue of two slots has no room for.
pub const LARGE_PAIR: &str = "publish 1 compare 1 7 3 0 00 + write 2 8 3 0 A1";
