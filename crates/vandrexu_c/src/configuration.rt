//! What is wrong with a configuration.

ghost use Rattle.std.specs.Prelude.{◌≡◌};
ghost use Rattle.c_handles.specs.Configurations.{given_numbers};
ghost use Rattle.nvme_model.specs.Config.{config_fault};
ghost use Rattle.vandrexu_c.specs.FaultNumbers.{fault_number};

use c_handles::{GivenConfig, config_of};

/// 0 where the configuration is accepted, else its first fault, 21 to 30.
#[unsafe(no_mangle)]
pub extern "C" fn vandrexu_config_fault(config: &GivenConfig) -> u32
    ensures { result ≡ fault_number (config_fault (given_numbers config.now)) }
{
    match config_of(config) {
        Ok(_) => 0,
        Err(fault) => u32::from(fault.number()),
    }
}
