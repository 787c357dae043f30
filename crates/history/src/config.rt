//! A configuration that is accepted.

ghost use Rattle.std.specs.Prelude.{◌≡◌, ◌≤◌, ℕ, IfErr, IfOk, OnOk, None, Some};
ghost use Rattle.nvme_model.specs.Config.{config_fault, completion_queue};
ghost use Rattle.nvme_model.specs.declared.config.ConfigNumbers.{ConfigNumbers};
ghost use Rattle.history.specs.Config.{config_numbers, queue_fault};

use atomic_units::Units;
use nvme_model::config::{AtomicParameters, ConfigFault, ConfigNumbers};
use std::marker::Model;

/// The numbers of a configuration, without a fault.
#[derive(Clone, Copy, Debug, PartialEq, Eq)]
pub struct Config {
    blocks: u32,
    units: Units,
    pairs: u16,
    sq_size: u16,
    cq_size: u16,
    jobs: u16,
    cqs: u16,
}

impl Model for Config {
    ghost use Rattle.std.specs.Prelude.{◌≡◌, None};
    ghost use Rattle.nvme_model.specs.Config.{config_fault};
    ghost use Rattle.nvme_model.specs.declared.config.ConfigNumbers.{ConfigNumbers};

    ghost Value = { ConfigNumbers };

    ghost view = { λ c. record {
      blocks = c.blocks;
      atomic = c.units;
      pairs = c.pairs;
      sq_size = c.sq_size;
      cq_size = c.cq_size;
      jobs = c.jobs;
      cqs = c.cqs;
    } };

    ghost invariant = { λ c. config_fault (record {
      blocks = c.blocks;
      atomic = c.units;
      pairs = c.pairs;
      sq_size = c.sq_size;
      cq_size = c.cq_size;
      jobs = c.jobs;
      cqs = c.cqs;
    }) ≡ None };

    ghost inverse = { λ c. record {
      blocks = c.blocks;
      units = c.atomic;
      pairs = c.pairs;
      sq_size = c.sq_size;
      cq_size = c.cq_size;
      jobs = c.jobs;
      cqs = c.cqs;
    } };
}

impl Config {
    /// As many completion queues as submission queues, each used by the one of its number.
    ///
    /// `awun`, `acwu` and `nabsn` are 0's based counts of blocks, and a `nabsn` of 0 is for no boundary; `sq` and
    /// `cq` are slots of a queue.
    ///
    /// # Errors
    ///
    /// The first fault that holds, in the order of their numbers, 21 to 29.
    pub fn new(
        blocks: u32,
        awun: u16,
        acwu: u16,
        nabsn: u16,
        nabo: u16,
        pairs: u16,
        sq: u16,
        cq: u16,
        jobs: u16,
    ) -> Result<Config, ConfigFault>
        ensures value { IfOk result (λ c. c ≡ config_numbers blocks awun acwu nabsn nabo pairs sq cq jobs pairs) }
        ensures accepted { OnOk result
            (config_fault (config_numbers blocks awun acwu nabsn nabo pairs sq cq jobs pairs) ≡ None) }
        ensures fault { IfErr result
            (λ f. config_fault (config_numbers blocks awun acwu nabsn nabo pairs sq cq jobs pairs) ≡ Some f) }
    {
        Config::with_cqs(blocks, awun, acwu, nabsn, nabo, pairs, sq, cq, jobs, pairs)
    }

    /// The same with `cqs` completion queues: submission queue q uses completion queue `1 + (q - 1) mod cqs`.
    ///
    /// # Errors
    ///
    /// The first fault that holds, in the order of their numbers, 21 to 30.
    pub fn with_cqs(
        blocks: u32,
        awun: u16,
        acwu: u16,
        nabsn: u16,
        nabo: u16,
        pairs: u16,
        sq: u16,
        cq: u16,
        jobs: u16,
        cqs: u16,
    ) -> Result<Config, ConfigFault>
        ensures value { IfOk result (λ c. c ≡ config_numbers blocks awun acwu nabsn nabo pairs sq cq jobs cqs) }
        ensures accepted { OnOk result
            (config_fault (config_numbers blocks awun acwu nabsn nabo pairs sq cq jobs cqs) ≡ None) }
        ensures fault { IfErr result
            (λ f. config_fault (config_numbers blocks awun acwu nabsn nabo pairs sq cq jobs cqs) ≡ Some f) }
    {
        let numbers = ConfigNumbers {
            blocks,
            atomic: AtomicParameters {
                awun,
                acwu,
                nabsn,
                nabo,
            },
            pairs,
            sq_size: sq,
            cq_size: cq,
            jobs,
            cqs,
        };
        Config::from_numbers(&numbers)
    }

    /// The configuration with these numbers, accepted or refused as by `with_cqs`.
    pub fn from_numbers(numbers: &ConfigNumbers) -> Result<Config, ConfigFault>
        ensures value { IfOk result (λ c. c ≡ numbers.now) }
        ensures accepted { OnOk result (config_fault numbers.now ≡ None) }
        ensures fault { IfErr result (λ f. config_fault numbers.now ≡ Some f) }
    {
        let atomic = &numbers.atomic;
        let units = Units::new(atomic.awun, atomic.acwu, atomic.nabsn, atomic.nabo)?;
        if let Some(fault) = queue_fault(numbers) {
            return Err(fault);
        }
        Ok(Config {
            blocks: numbers.blocks,
            units,
            pairs: numbers.pairs,
            sq_size: numbers.sq_size,
            cq_size: numbers.cq_size,
            jobs: numbers.jobs,
            cqs: numbers.cqs,
        })
    }

    /// All its numbers.
    pub fn numbers(&self) -> ConfigNumbers
        ensures value { result ≡ self.now }
        ensures accepted { config_fault result ≡ None }
    {
        ConfigNumbers {
            blocks: self.blocks,
            atomic: AtomicParameters {
                awun: self.units.awun(),
                acwu: self.units.acwu(),
                nabsn: self.units.nabsn(),
                nabo: self.units.nabo(),
            },
            pairs: self.pairs,
            sq_size: self.sq_size,
            cq_size: self.cq_size,
            jobs: self.jobs,
            cqs: self.cqs,
        }
    }

    /// How commands are cut into units.
    pub fn units(&self) -> Units
        ensures { result ≡ self.now.atomic }
    {
        self.units
    }
}

// The first fault behind those of the cut.
fn queue_fault(numbers: &ConfigNumbers) -> Option<ConfigFault>
    ensures { result ≡ queue_fault numbers.now }
{
    let c = numbers;
    if c.blocks < 1 || c.blocks > 65_536 {
        return Some(ConfigFault::Blocks);
    }
    if c.pairs < 1 || c.pairs > 16 {
        return Some(ConfigFault::Pairs);
    }
    if c.sq_size < 2 || c.sq_size > 1024 {
        return Some(ConfigFault::SqSize);
    }
    if c.cq_size < 2 || c.cq_size > 1024 {
        return Some(ConfigFault::CqSize);
    }
    if c.jobs < 1 || c.jobs > 256 {
        return Some(ConfigFault::Jobs);
    }
    if c.cqs == 0 || c.cqs > c.pairs {
        return Some(ConfigFault::CqCount);
    }
    None
}
