//! How many hosts, workers, slots, rounds and submission queues a race has.

ghost use Rattle.std.specs.Prelude.{◌*◌, ◌≡◌, ◌≤◌, IfErr, IfOk, None, OnOk, Some};

use history::Config;
use thiserror::Error;

/// Why numbers are those of no race. Its words are what the program says on standard error.
#[derive(Clone, Copy, Debug, Drop, Error, PartialEq, Eq)]
pub enum RaceUsage {
    #[error("error: '--hosts' is a number from 1 to 16")]
    Hosts,
    #[error("error: '--workers' is a number from 1 to 16")]
    Workers,
    #[error("error: '--slots' is a number from 1 to 64")]
    Slots,
    #[error("error: '--rounds' is a number from 1 to 1000")]
    Rounds,
    #[error("error: '--queues' is a number from 1 to 16")]
    Queues,
    /// The hosts would have more than 16 submission queues in all.
    #[error("too many queues")]
    TooManyQueues,
    #[error("error: '--bias' has weights from 1 to 100")]
    Bias,
}

/// The numbers of a race, which are in their ranges.
#[derive(Clone, Copy)]
pub struct Race {
    /// 1 to 16.
    pub hosts: u16,
    /// 1 to 16.
    pub workers: u16,
    /// 1 to 64.
    pub slots: u32,
    /// 1 to 1,000, of each host.
    pub rounds: u32,
    /// Submission queues of each host, 1 to 16, and with all hosts at most 16.
    pub queues: u16,
    ghost hosts_fit: { (1 ≤ hosts) × (hosts ≤ 16) },
    ghost workers_fit: { (1 ≤ workers) × (workers ≤ 16) },
    ghost slots_fit: { (1 ≤ slots) × (slots ≤ 64) },
    ghost rounds_fit: { (1 ≤ rounds) × (rounds ≤ 1000) },
    ghost queues_fit: { (1 ≤ queues) × (hosts * queues ≤ 16) },
}

impl Race {
    ghost use Rattle.race_numbers.specs.Races.{race_config, numbers_of, usage_of};

    /// A race of these numbers.
    ///
    /// # Errors
    ///
    /// The first number that is out of its range; or else `TooManyQueues`.
    pub fn new(
        hosts: u64,
        workers: u64,
        slots: u64,
        rounds: u64,
        queues: u64,
    ) -> Result<Race, RaceUsage>
        ensures value { IfOk result (λ r. numbers_of r ≡ (hosts, workers, slots, rounds, queues)) }
        ensures accepted { OnOk result (usage_of hosts workers slots rounds queues ≡ None) }
        ensures fault { IfErr result (λ f. usage_of hosts workers slots rounds queues ≡ Some f) }
    {
        if hosts < 1 || hosts > 16 {
            return Err(RaceUsage::Hosts);
        }
        if workers < 1 || workers > 16 {
            return Err(RaceUsage::Workers);
        }
        if slots < 1 || slots > 64 {
            return Err(RaceUsage::Slots);
        }
        if rounds < 1 || rounds > 1000 {
            return Err(RaceUsage::Rounds);
        }
        if queues < 1 || queues > 16 {
            return Err(RaceUsage::Queues);
        }
        if hosts * queues > 16 {
            return Err(RaceUsage::TooManyQueues);
        }
        Ok(Race {
            hosts: hosts as u16,
            workers: workers as u16,
            slots: slots as u32,
            rounds: rounds as u32,
            queues: queues as u16,
        })
    }

    /// The configuration of its controller: 64 blocks, units and pairs of at most two, 8 slots in each queue, 16
    /// tickets in flight, a completion queue for each host, and the hosts' submission queues.
    pub fn config(&self) -> Config
        ensures value { result ≡ race_config self.now }
    {
        let pairs = self.hosts * self.queues;
        Config::with_cqs(64, 1, 1, 0, 0, pairs, 8, 8, 16, self.hosts).unwrap()
    }
}
