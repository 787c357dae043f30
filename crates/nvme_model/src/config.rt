//! The numbers of a configuration, and why one is refused.

ghost use Rattle.std.specs.Prelude.{◌≡◌, ◌<◌, ◌⊎◌, IfNone, IfSome};

use thiserror::Error;

/// How commands are cut into units (NVM Command Set 1.0, Atomic Operation).
#[derive(Clone, Copy, Debug, PartialEq, Eq)]
pub struct AtomicParameters {
    /// Atomic Write Unit Normal: the most blocks of a unit, 0's based.
    pub awun: u16,
    /// Atomic Compare and Write Unit: the most blocks of a fused pair, 0's based.
    pub acwu: u16,
    /// Namespace Atomic Boundary Size Normal: blocks from a boundary to the next, 0's based; 0 for no boundary.
    pub nabsn: u16,
    /// Namespace Atomic Boundary Offset: the block of the first boundary.
    pub nabo: u16,
}

/// The numbers of a configuration, accepted or not.
#[derive(Clone, Copy, Debug, PartialEq, Eq)]
pub struct ConfigNumbers {
    /// Blocks of the volume.
    pub blocks: u32,
    pub atomic: AtomicParameters,
    /// Submission queues, numbered from 1.
    pub pairs: u16,
    /// Slots of a submission queue.
    pub sq_size: u16,
    /// Slots of a completion queue.
    pub cq_size: u16,
    /// The most tickets in flight.
    pub jobs: u16,
    /// Completion queues, numbered from 1.
    pub cqs: u16,
}

/// Why a configuration is refused.
#[derive(Clone, Copy, Debug, Drop, Error, PartialEq, Eq)]
pub enum ConfigFault {
    /// AWUN is above 255.
    #[error("AWUN is above 255")]
    AwunTooLarge,
    /// ACWU is above 255.
    #[error("ACWU is above 255")]
    AcwuTooLarge,
    /// There are boundaries, and a unit may be longer than from one to the next.
    #[error("NABSN isn't 0, and AWUN or ACWU is above it")]
    BoundaryBelowUnit,
    /// The first boundary lies above NABSN.
    #[error("NABO is above NABSN")]
    OffsetPastBoundary,
    /// Not 1 to 65,536 blocks.
    #[error("BLOCKS isn't 1 to 65536")]
    Blocks,
    /// Not 1 to 16 submission queues.
    #[error("PAIRS isn't 1 to 16")]
    Pairs,
    /// Not 2 to 1,024 slots of a submission queue.
    #[error("SQ isn't 2 to 1024")]
    SqSize,
    /// Not 2 to 1,024 slots of a completion queue.
    #[error("CQ isn't 2 to 1024")]
    CqSize,
    /// Not 1 to 256 tickets in flight.
    #[error("JOBS isn't 1 to 256")]
    Jobs,
    /// No completion queue, or more than submission queues.
    #[error("CQS is 0 or above PAIRS")]
    CqCount,
}

impl ConfigFault {
    ghost use Rattle.nvme_model.specs.Config.{config_fault_number};

    /// The number that texts give it, 21 to 30.
    pub fn number(&self) -> u8
        ensures { result ≡ config_fault_number self.now }
    {
        match self {
            ConfigFault::AwunTooLarge => 21,
            ConfigFault::AcwuTooLarge => 22,
            ConfigFault::BoundaryBelowUnit => 23,
            ConfigFault::OffsetPastBoundary => 24,
            ConfigFault::Blocks => 25,
            ConfigFault::Pairs => 26,
            ConfigFault::SqSize => 27,
            ConfigFault::CqSize => 28,
            ConfigFault::Jobs => 29,
            ConfigFault::CqCount => 30,
        }
    }

    /// The fault of this number, where one has it.
    pub fn of_number(number: u8) -> Option<ConfigFault>
        ensures value { IfSome result (λ fault. config_fault_number fault ≡ number) }
        ensures none { IfNone result ((number < 21) ⊎ (30 < number)) }
    {
        match number {
            21 => Some(ConfigFault::AwunTooLarge),
            22 => Some(ConfigFault::AcwuTooLarge),
            23 => Some(ConfigFault::BoundaryBelowUnit),
            24 => Some(ConfigFault::OffsetPastBoundary),
            25 => Some(ConfigFault::Blocks),
            26 => Some(ConfigFault::Pairs),
            27 => Some(ConfigFault::SqSize),
            28 => Some(ConfigFault::CqSize),
            29 => Some(ConfigFault::Jobs),
            30 => Some(ConfigFault::CqCount),
            _ => None,
        }
    }
}
