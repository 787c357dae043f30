//! What a host has begun, from one turn to the next.

ghost use Rattle.std.specs.Prelude.{◌≡◌};

use driver_cas::SharedPort;
use slot_alloc::{Claiming, KeptClaim, Releasing};

/// How far a host's round has come.
#[derive(Drop)]
pub enum RoundStage<'a> {
    /// It isn't begun.
    Ready,
    /// Its claim of any slot hasn't ended.
    Claiming(Claiming<SharedPort<'a>>),
    /// It holds a slot, and is to begin its release.
    Holding(KeptClaim),
    /// The release hasn't ended.
    Releasing(Releasing<SharedPort<'a>>),
}

/// The rounds of a host that aren't begun, and the one that is.
#[derive(Drop)]
pub struct Rounds<'a> {
    pub left: u32,
    pub stage: RoundStage<'a>,
}

impl<'a> Rounds<'a> {
    ghost use Rattle.race_hosts.specs.Stages.{are_over};
    ghost use Rattle.race_hosts.specs.declared.stage.RoundStage.{RoundStage};

    /// So many, none of them begun.
    pub fn of(count: u32) -> Rounds<'a>
        ensures left { result.left ≡ count }
        ensures stage { result.stage ≡ RoundStage.Ready }
    {
        Rounds {
            left: count,
            stage: RoundStage::Ready,
        }
    }

    /// Whether all have ended.
    pub fn are_over(&self) -> bool
        ensures value { result ≡ are_over self.now.left self.now.stage }
    {
        match &self.stage {
            RoundStage::Ready => self.left == 0,
            RoundStage::Claiming(_) | RoundStage::Holding(_) | RoundStage::Releasing(_) => false,
        }
    }
}
