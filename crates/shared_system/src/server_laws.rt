//! What is known of the pass of a server.

ghost use Rattle.std.specs.Prelude.{[], true, ℕ, ◌≡◌};
ghost use Rattle.nvme_model.specs.Kept.{ControllerInvariant};
ghost use Rattle.nvme_model.specs.Passes.{IsBeginning, SharedPast};
ghost use Rattle.nvme_model.specs.declared.step.Step.{Step};
ghost use Rattle.controller_interface.specs.State.{Accepts, Refuses};
ghost use Rattle.controller_interface.specs.declared.answer.Answer.{Answer};
ghost use Rattle.meet_lock.specs.Lock.{AreOfPasses, ExtendsByPasses};
ghost use Rattle.meet_lock.specs.Passes.{Accepted, Declines, IsSame, Knows, mine, number, passes_of, seen};
ghost use Rattle.meet_lock.specs.declared.pass.Declined.{Declined};
ghost use Rattle.work_queue.specs.Engines.{EnginePass};
ghost use Rattle.shared_system.specs.Servers.{IsServing, is_served, serves};

/// A pass that has seen nothing serves, and goes on to serve by Fetches, Grants, Blocks and Posts, and by whatever else
/// it comes to see.
pub fn a_server_goes_on()
    ensures fresh { (p : EnginePass) → seen p ≡ [] → IsServing p }
    ensures stepped { (p q : EnginePass) (step : Step) (a : Answer) → IsSame p q → Knows ControllerInvariant p q →
        is_served step ≡ true → Accepted Accepts p q step a → IsServing p → IsServing q }
    ensures declined { (p q : EnginePass) (step : Step) (d : Declined) → IsSame p q → Knows ControllerInvariant p q →
        Declines Refuses p q step d → IsServing p → IsServing q }
    ensures noted { (p q : EnginePass) → IsSame p q → seen q ≡ seen p → IsServing p → IsServing q }
    ensures saw { (p q : EnginePass) → IsSame p q → mine q ≡ mine p → ExtendsByPasses (passes_of p) (seen p) (seen q) →
        IsServing p → IsServing q }
{}

/// Of each beginning of what a server has seen: passes alone made it, and what the server made there serves.
pub fn what_a_server_has_seen()
    ensures { (p : EnginePass) (met : SharedPast) → IsServing p → IsBeginning met (seen p) →
        AreOfPasses (passes_of p) met × (serves (number p) met ≡ true) }
{}
