//! Configurations as they lie in C.

ghost use Rattle.std.specs.Prelude.{◌≡◌, IfErr, IfOk, None, OnOk, Some};
ghost use Rattle.nvme_model.specs.Config.{config_fault};
ghost use Rattle.c_handles.specs.Configurations.{given_numbers};

use history::Config;
use nvme_model::config::{AtomicParameters, ConfigFault, ConfigNumbers};

/// The numbers of a configuration, as they lie in C.
#[repr(C)]
#[derive(Clone, Copy)]
pub struct GivenConfig {
    pub blocks: u32,
    pub awun: u16,
    pub acwu: u16,
    pub nabsn: u16,
    pub nabo: u16,
    pub pairs: u16,
    pub sq_size: u16,
    pub cq_size: u16,
    pub jobs: u16,
    pub cqs: u16,
}

// The same numbers.
fn numbers_in(numbers: &GivenConfig) -> ConfigNumbers
    ensures { result ≡ given_numbers numbers.now }
{
    ConfigNumbers {
        blocks: numbers.blocks,
        atomic: AtomicParameters {
            awun: numbers.awun,
            acwu: numbers.acwu,
            nabsn: numbers.nabsn,
            nabo: numbers.nabo,
        },
        pairs: numbers.pairs,
        sq_size: numbers.sq_size,
        cq_size: numbers.cq_size,
        jobs: numbers.jobs,
        cqs: numbers.cqs,
    }
}

/// The configuration of these numbers.
pub fn config_of(numbers: &GivenConfig) -> Result<Config, ConfigFault>
    ensures value { IfOk result (λ c. c ≡ given_numbers numbers.now) }
    ensures accepted { OnOk result (config_fault (given_numbers numbers.now) ≡ None) }
    ensures fault { IfErr result (λ f. config_fault (given_numbers numbers.now) ≡ Some f) }
{
    Config::from_numbers(&numbers_in(numbers))
}
