//! What the handle of a controller owns.

ghost use Rattle.std.specs.Prelude.{◌≡◌};
ghost use Rattle.nvme_model.specs.declared.step.Step.{Step as TheStep};
ghost use Rattle.vandrexu_c.specs.Steps.{GivesReap, GivesStep, TellsBlocked, TellsFetched, TellsGranted, TellsPosted};

use crate::answers::{
    BlockedStep, FetchedWork, GrantedUnit, blocked_in, granted_in, refused_in, work_in,
};
use nvme_model::submission::Submissions;
use std::marker::Model;
use step_core::Core;

/// A controller, and the data of the completion that was reaped last.
#[derive(Drop)]
pub struct OwnedController {
    pub(crate) core: Core,
    pub(crate) payload: Vec<u8>,
}

impl Model for OwnedController {
    ghost use Rattle.vandrexu_c.specs.OwnedStates.{OwnedState};

    ghost Value = { OwnedState };

    ghost view = { λ m. record { core = m.core; payload = m.payload.items } };
}

impl OwnedController {
    /// Publishes; a refusal by its number.
    pub(crate) fn publish(&mut self, queue: u16, batch: Submissions) -> Result<(), u32>
        ensures gives { GivesStep self.old (TheStep.Publish queue batch) (λ _ _. Unit {0}) result self.new }
    {
        match self.core.publish(queue, batch) {
            Ok(()) => Ok(()),
            Err(back) => Err(refused_in(back.0)),
        }
    }

    /// Fetches; a refusal by its number.
    pub(crate) fn fetch(&mut self, queue: u16) -> Result<FetchedWork, u32>
        ensures gives { GivesStep self.old (TheStep.Fetch queue) TellsFetched result self.new }
    {
        match self.core.fetch(queue) {
            Ok(work) => Ok(work_in(&work)),
            Err(why) => Err(refused_in(why)),
        }
    }

    /// Grants; a refusal by its number.
    pub(crate) fn grant(&mut self, ticket: u64) -> Result<GrantedUnit, u32>
        ensures gives { GivesStep self.old (TheStep.Grant ticket) TellsGranted result self.new }
    {
        match self.core.grant(ticket) {
            Ok(granted) => Ok(granted_in(granted)),
            Err(why) => Err(refused_in(why)),
        }
    }

    /// Makes a block; a refusal by its number.
    pub(crate) fn block(&mut self, ticket: u64) -> Result<BlockedStep, u32>
        ensures gives { GivesStep self.old (TheStep.Block ticket) TellsBlocked result self.new }
    {
        match self.core.block(ticket) {
            Ok(done) => Ok(blocked_in(&done)),
            Err(why) => Err(refused_in(why)),
        }
    }

    /// Posts; a refusal by its number.
    pub(crate) fn post(&mut self, ticket: u64) -> Result<[u8; 16], u32>
        ensures gives { GivesStep self.old (TheStep.Post ticket) TellsPosted result self.new }
    {
        match self.core.post(ticket) {
            Ok(cqe) => Ok(cqe),
            Err(why) => Err(refused_in(why)),
        }
    }

    /// Reaps, and keeps what was read; a refusal by its number.
    pub(crate) fn reap(&mut self, queue: u16) -> Result<[u8; 16], u32>
        ensures gives { GivesReap self.old (TheStep.Reap queue) result self.new }
    {
        match self.core.reap(queue) {
            Ok(completion) => {
                let cqe = completion.cqe;
                self.payload = completion.payload.into_vec();
                Ok(cqe)
            }
            Err(why) => Err(refused_in(why)),
        }
    }
}
