//! The port of one completion queue of a controller that callers share.

ghost use Rattle.std.specs.Arc.{arc_value};
ghost use Rattle.std.specs.Prelude.{◌≡◌, ◌≢◌, ◌≤◌, ◌⊎◌, IfErr, IfOk, None, Ok, Some, length};
ghost use Rattle.nvme_model.specs.Kept.{ControllerInvariant};
ghost use Rattle.nvme_model.specs.Legal.{IsLegal};
ghost use Rattle.nvme_model.specs.Passes.{entries};
ghost use Rattle.meet_lock.specs.Passes.{IsSame, Knows, config_of, mine, passes_of, seen};
ghost use Rattle.work_queue.specs.Engines.{IsPassOfEngine};
ghost use Rattle.driver_cas.specs.Made.{after_reap};
ghost use Rattle.driver_cas.specs.Parts.{engine_in};
ghost use Rattle.driver_cas.specs.Passes.{log_at, view_at};
ghost use Rattle.driver_cas.specs.Reaps.{IsCounted, IsReapAnswered, IsReapFault, IsReapUnmade, cause_of, steps_with};

use crate::engine_part::EnginePart;
use crate::fault::PortFault;
use crate::port::{Port, Reaped};
use meet_lock::{Pass, Unmade};
use nvme_model::refusal::Why;
use nvme_model::submission::Submissions;
use std::sync::Arc;
use step_core::{Completion, Core, ReapCall};
use work_queue::Engine;

/// The port of one completion queue of an engine's controller and the submission queues that use it.
#[derive(Drop)]
pub struct SharedPort<'a> {
    pub(crate) part: EnginePart<'a>,
    pub(crate) pass: Pass<Core>,
    pub(crate) queue: u16,
    // How many notices were counted whose completions aren't reaped; None where each Reap asks the controller.
    pub(crate) counted: Option<u64>,
    ghost own: { pass.seat.table_id ≡ (engine_in part).shared.table.shared.table_id },
    ghost legal: { IsLegal pass.seat.me.0.config (entries pass.seat.me.0.seen) },
    ghost there: { (1 ≤ queue) × (queue ≤ pass.seat.me.0.config.cqs) },
}

// A port with this part of its engine, which counts notices from this number on, or asks.
fn made(part: EnginePart<'_>, pass: Pass<Core>, queue: u16, counted: Option<u64>) -> SharedPort<'_>
    requires own { IsPassOfEngine (engine_in part) pass }
    requires there { (1 ≤ queue) × (queue ≤ (config_of pass).cqs) }
    ensures engine { engine_in result.part ≡ engine_in part.entry }
    ensures pass { IsSame pass result.pass × (seen result.pass ≡ seen pass) }
    ensures queue { result.queue ≡ queue }
    ensures counted { result.counted ≡ counted }
{
    let mut pass = pass;
    part.engine().recall(&mut pass);
    SharedPort {
        part,
        pass,
        queue,
        counted,
    }
}

impl<'a> SharedPort<'a> {
    ghost use Rattle.driver_cas.specs.Ports.{counted_of, engine_of, pass_of, queue_of};

    /// The port of this completion queue, with a pass of the engine. It asks for a completion where a notice told it of
    /// one.
    pub fn new(engine: &'a Engine, pass: Pass<Core>, queue: u16) -> SharedPort<'a>
        requires own { IsPassOfEngine engine.now pass }
        requires there { (1 ≤ queue) × (queue ≤ (config_of pass).cqs) }
        ensures pass { IsSame pass (pass_of result) × (seen (pass_of result) ≡ seen pass) }
        ensures queue { queue_of result ≡ queue }
        ensures engine { engine_of result ≡ engine.entry.now }
        ensures counted { counted_of result ≡ Some 0 }
    {
        made(EnginePart::Lent(engine), pass, queue, Some(0))
    }

    /// The port of this completion queue, with a pass of the engine, of which it has a part. Each of its Reaps asks the
    /// controller, so that nobody has to listen.
    pub fn own(engine: Arc<Engine>, pass: Pass<Core>, queue: u16) -> SharedPort<'static>
        requires own { IsPassOfEngine (arc_value engine) pass }
        requires there { (1 ≤ queue) × (queue ≤ (config_of pass).cqs) }
        ensures pass { IsSame pass (pass_of result) × (seen (pass_of result) ≡ seen pass) }
        ensures queue { queue_of result ≡ queue }
        ensures engine { engine_of result ≡ arc_value engine }
        ensures counted { counted_of result ≡ None }
    {
        made(EnginePart::Own(engine), pass, queue, None)
    }

    /// The pass, given back.
    pub fn into_pass(self) -> Pass<Core>
        ensures { result ≡ pass_of self.entry }
    {
        self.pass
    }
}

// What is answered where the table refuses a batch so that its port may publish.
fn publish_fault(why: Why) -> PortFault
    requires { (why ≡ Why.NoRoom) ⊎ (why ≡ Why.NoMemory) }
    ensures { cause_of result ≡ why }
{
    if why == Why::NoRoom {
        return PortFault::RingFull;
    }
    PortFault::NoMemory
}

// Why a Reap isn't made; None where there is no completion.
fn reap_fault(unmade: &Unmade<ReapCall, Why>) -> Option<PortFault>
    requires { IsReapUnmade unmade.now }
    ensures { IsReapFault unmade.now result }
{
    match unmade {
        Unmade::Busy(_) => Some(PortFault::Busy),
        Unmade::Refused(Why::NoCompletion) => None,
        Unmade::Refused(_) => Some(PortFault::NoMemory),
    }
}

// Reaps the next completion of this completion queue.
fn try_reap(engine: &Engine, pass: &mut Pass<Core>, queue: u16) -> Result<Option<Reaped>, PortFault>
    requires own { IsPassOfEngine engine.now pass.old }
    requires there { (1 ≤ queue) × (queue ≤ (config_of pass.old).cqs) }
    ensures same { IsSame pass.old pass.new }
    ensures knows { Knows ControllerInvariant pass.old pass.new }
    ensures got { IfOk result (λ o. log_at queue pass.new ≡ after_reap o (log_at queue pass.old)) }
    ensures steps { IfOk result (λ o. length (mine pass.new) ≡ steps_with o (length (mine pass.old))) }
    ensures fault { IfErr result (λ f. (log_at queue pass.new ≡ log_at queue pass.old) × (f ≢ PortFault.RingFull)) }
    ensures none { IfErr result (λ _. mine pass.new ≡ mine pass.old) }
    ensures cause { IsReapAnswered (passes_of pass.old) (view_at queue pass.old) (view_at queue pass.new) result }
{
    match engine.reap(pass, queue) {
        Ok(completion) => {
            let Completion { cqe, payload } = completion;
            Ok(Some(Reaped { cqe, payload }))
        }
        Err(unmade) => match reap_fault(&unmade) {
            Some(fault) => Err(fault),
            None => Ok(None),
        },
    }
}

// How many notices are counted after a Reap that asked. One that found no completion forgets those that were counted:
// none was unreaped at that moment, so one that is told of twice isn't asked for twice.
fn count_after(counted: Option<u64>, reaped: &Option<Reaped>) -> Option<u64>
    requires { counted ≢ Some 0 }
    ensures { IsCounted counted result (Ok reaped.now) }
{
    let count = counted?;
    Some(if reaped.is_some() { count - 1 } else { 0 })
}

impl<'a> SharedPort<'a> {
    ghost use Rattle.driver_calls.specs.Views.{log_of};
    ghost use Rattle.driver_cas.specs.Ports.{PortFollows, view_of};

    // Reaps the next completion; where notices are counted and none is whose completion isn't reaped, it asks nothing.
    fn reap_counted(&mut self) -> Result<Option<Reaped>, PortFault>
        ensures later { PortFollows self.old self.new }
        ensures got { IfOk result (λ o. log_of (view_of self.new) ≡ after_reap o (log_of (view_of self.old))) }
        ensures fault { IfErr result (λ f. (log_of (view_of self.new) ≡ log_of (view_of self.old))
            × (f ≢ PortFault.RingFull)) }
        ensures cause { self.old.counted ≢ Some 0 →
            IsReapAnswered (passes_of self.old.pass) (view_of self.old) (view_of self.new) result }
        ensures idle { self.old.counted ≡ Some 0 → (result ≡ Ok None) × (self.new ≡ self.old) }
        ensures counted { IsCounted self.old.counted self.new.counted result }
    {
        if let Some(0) = self.counted {
            return Ok(None);
        }
        let reaped = try_reap(self.part.engine(), &mut self.pass, self.queue)?;
        self.counted = count_after(self.counted, &reaped);
        Ok(reaped)
    }
}

impl<'a> Port for SharedPort<'a> {
    ghost use Rattle.driver_calls.proofs.Views.{follows_on, follows_self, owns_same, view_tells};
    ghost use Rattle.driver_calls.specs.Views.{AnswerSays, log_of, owns as view_owns};
    ghost use Rattle.driver_cas.specs.Ports.{PortFollows, IsPublished, IsReapAnswer, IsRefused, steps_of, view_of};
    ghost use Rattle.meet_lock.proofs.Beginnings.{begins-more, begins-same};
    ghost use Rattle.meet_lock.specs.Lock.{ExtendsByPasses};
    ghost use Rattle.std.proofs.Common.{arith, refl, subst, ℕ, ◌∙◌};

    ghost log = { λ p. log_of (view_of p) };

    ghost steps = { steps_of };

    ghost owns = { λ p. view_owns (view_of p) };

    ghost follows = { PortFollows };

    ghost accepts = { IsPublished };

    ghost refuses = { λ a b q batch fault.
        IsRefused (passes_of a.pass) (view_of a) (view_of b) q batch fault × (b.counted ≡ a.counted) };

    ghost reaps = { IsReapAnswer };

    ghost says = { λ before start now. AnswerSays before (view_of start) (view_of now) };

    fn publish(&mut self, queue: u16, batch: Submissions) -> Result<(), (PortFault, Submissions)> {
        match self.part.engine().publish(&mut self.pass, queue, batch) {
            Ok(()) => Ok(()),
            Err(Unmade::Busy(call)) => Err((PortFault::Busy, call.batch)),
            Err(Unmade::Refused((why, batch))) => Err((publish_fault(why), batch)),
        }
    }

    fn reap(&mut self) -> Result<Option<Reaped>, PortFault> {
        self.reap_counted()
    }

    ghost stays = { λ a. record {
      same_lock = refl;
      same_passes = refl;
      view = follows_self (view_of a);
      of_passes = begins-same (passes_of a.pass) (seen a.pass);
      sole = refl;
      asks = λ x. x;
    } };

    ghost goes_on = { λ a b c x y. record {
      same_lock = y.same_lock ∙ x.same_lock;
      same_passes = y.same_passes ∙ x.same_passes;
      view = follows_on (view_of a) (view_of b) (view_of c) x.view y.view;
      of_passes = begins-more (passes_of a.pass) (seen a.pass) (seen b.pass) (seen c.pass) x.of_passes
          (subst (λ (n : ℕ). ExtendsByPasses n (seen b.pass) (seen c.pass)) x.same_passes y.of_passes);
      sole = let h = x.sole in let k = y.sole in omega arith;
      asks = λ h. y.asks (x.asks h);
    } };

    ghost sole = { λ a b x. x.sole };

    ghost keeps_own = { λ a b q x. owns_same (view_of a) (view_of b) q x.view };

    ghost tells = { λ before start now q j first second o on own tidy number call.
        view_tells before (view_of start) (view_of now) q j first second o now.legal on.view own tidy number call };
}
