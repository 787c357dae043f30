//! A controller that callers share, each ticket stepped only with its Work.

ghost use Rattle.std.specs.Prelude.{◌≡◌, ◌<◌, ◌+◌, All, None, Some, ℕ, IfErr, IfOk, IfSome, IsOk, IsSome, OnErr, OnOk};
ghost use Rattle.std.specs.Prelude.{[], slice_get, vec_len};
ghost use Rattle.nvme_model.specs.Passes.{IsBeginning, SharedPast, entries, places};
ghost use Rattle.nvme_model.specs.Kept.{ControllerInvariant};
ghost use Rattle.work_queue.specs.Engines.{fetch_declined, publish_declined, reap_declined};

use crate::stages::{stage_after, start_of};
use crate::task::Task;
use crate::work::Work;
use history::Config;
use meet_lock::{Busy, Declined, Glance, Pass, Shared, TicketOwner, Unmade};
use nvme_model::refusal::Why;
use nvme_model::submission::{Payload, Submissions};
use std::alloc::{AllocError as NoMemory, Global};
use step_core::{Answer, Completion, Core, FetchCall, PublishCall, ReapCall, Refused, Step};

/// A step that names a queue.
#[derive(Drop)]
pub enum Open {
    /// Put these entries at the end of a submission queue.
    Publish(u16, Submissions),
    /// Take the next command, or the next fused pair, of a submission queue, as a Work.
    Fetch(u16),
    /// Take the next completion of a completion queue.
    Reap(u16),
}

/// The answer to an accepted one.
#[derive(Drop)]
pub enum Opened {
    Published,
    Fetched(Work),
    /// The completion queue entry, and what a successful Read read.
    Reaped { cqe: [u8; 16], payload: Payload },
}

// Why a Publish isn't made, as it is said of all steps.
fn publish_declined(unmade: Unmade<PublishCall, (Why, Submissions)>) -> Declined
    ensures value { result ≡ publish_declined unmade }
{
    match unmade {
        Unmade::Busy(PublishCall { queue, batch }) => Declined::Busy(Step::Publish(queue, batch)),
        Unmade::Refused((why, batch)) => Declined::Refused(Refused::Publish(why, batch)),
    }
}

// Why a Fetch isn't made.
fn fetch_declined(unmade: Unmade<FetchCall, Why>) -> Declined
    ensures value { result ≡ fetch_declined unmade }
{
    match unmade {
        Unmade::Busy(FetchCall { queue }) => Declined::Busy(Step::Fetch(queue)),
        Unmade::Refused(why) => Declined::Refused(Refused::Step(why)),
    }
}

// Why a Reap isn't made.
fn reap_declined(unmade: Unmade<ReapCall, Why>) -> Declined
    ensures value { result ≡ reap_declined unmade }
{
    match unmade {
        Unmade::Busy(ReapCall { queue }) => Declined::Busy(Step::Reap(queue)),
        Unmade::Refused(why) => Declined::Refused(Refused::Step(why)),
    }
}

/// A controller that callers share.
#[derive(Drop)]
pub struct Engine {
    pub(crate) shared: Shared<Core, TicketOwner>,
}

impl Engine {
    ghost use Rattle.controller_interface.specs.State.{Accepts, Refuses};
    ghost use Rattle.nvme_model.specs.declared.step.Step.{Step as TheStep};
    ghost use Rattle.controller_interface.specs.declared.answer.Answer.{Answer as TheAnswer};
    ghost use Rattle.meet_lock.specs.Passes.{Accepted, Declines, IsCallMade, IsNew, IsNotBusy, IsSame, Knows, Met, Saw};
    ghost use Rattle.meet_lock.specs.Passes.{IsSeenWhole, Worked, config_of, mine, number, passes_of, seen};
    ghost use Rattle.step_core.specs.Answers.{reaped_answer};
    ghost use Rattle.meet_lock.specs.Lock.{AreOfPasses, ExtendsByPasses, unmade};
    ghost use Rattle.meet_lock.specs.declared.pass.Pass.{Pass};
    ghost use Rattle.controller_interface.specs.State.{ControllerState};
    ghost use Rattle.ticket_laws.specs.Entries.{of_ticket};
    ghost use Rattle.ticket_laws.specs.Tasks.{task_fault};
    ghost use Rattle.work_queue.specs.Duties.{duty_of, task_step};
    ghost use Rattle.work_queue.specs.Posted.{IsAnswerPosted};
    ghost use Rattle.work_queue.specs.Engines.{FetchedAs, ForgotAt, GlancedAt, IsFreshPass, IsNoTaskFault};
    ghost use Rattle.work_queue.specs.Engines.{IsPassOfEngine, IsWorkOf, OpenedAs, its, open_step, opening_of};

    /// The controller with a lock round it, and as many passes as asked for, numbered from 1 in order.
    ///
    /// # Errors
    ///
    /// The controller, where a growth is refused.
    pub fn new(
        alloc: Global,
        core: Core,
        passes: usize,
    ) -> Result<(Engine, Vec<Pass<Core>>), (Core, NoMemory)>
        requires some { 0 < passes }
        requires legal { ControllerInvariant core.config core.past }
        ensures count { IfOk result (λ e. vec_len e.1 ≡ passes) }
        ensures own { IfOk result (λ e. All (IsPassOfEngine e.0) e.1.items) }
        ensures each { IfOk result (λ e. (k : ℕ) (p : Pass ControllerState) → slice_get e.1.items k ≡ Some p
            → IsPassOfEngine e.0 p × IsNew passes core.config core.past (k + 1) p) }
        ensures opening { IfOk result (λ e. opening_of e.0 ≡ core.past) }
        ensures err { IfErr result (λ e. e.0 ≡ core) }
    {
        let (shared, passes) = Shared::new(alloc, core, passes)?;
        Ok((Engine { shared }, passes))
    }

    /// An engine of a new controller, and as many passes as asked for, numbered from 1 in order, which have seen
    /// nothing.
    ///
    /// # Errors
    ///
    /// `NoMemory` where a growth is refused.
    pub fn of_config(
        alloc: Global,
        config: Config,
        count: usize,
    ) -> Result<(Engine, Vec<Pass<Core>>), NoMemory>
        requires { 0 < count }
        ensures count { IfOk result (λ e. vec_len e.1 ≡ count) }
        ensures each { IfOk result (λ e. (k : ℕ) (p : Pass ControllerState) → slice_get e.1.items k ≡ Some p
            → IsPassOfEngine e.0 p × IsNew count config [] (k + 1) p) }
        ensures fresh { IfOk result (λ e. All (IsFreshPass e.0 config) e.1.items) }
        ensures opening { IfOk result (λ e. opening_of e.0 ≡ []) }
    {
        let core = Core::new(alloc, config)?;
        let Ok((engine, passes)) = Engine::new(alloc, core, count) else {
            return Err(NoMemory);
        };
        Ok((engine, passes))
    }

    /// Puts a batch at the end of a submission queue, if no other caller has the lock.
    ///
    /// # Errors
    ///
    /// The batch comes back: `Busy` where another caller had the lock; nothing has changed. `Refused` by the refusals
    /// at what the pass has seen then.
    pub fn publish(
        &self,
        pass: &mut Pass<Core>,
        queue: u16,
        batch: Submissions,
    ) -> Result<(), Unmade<PublishCall, (Why, Submissions)>>
        requires { IsPassOfEngine self.now pass.old }
        ensures same { IsSame pass.old pass.new }
        ensures knows { Knows ControllerInvariant pass.old pass.new }
        ensures accepted { OnOk result
            (Accepted Accepts pass.old pass.new (TheStep.Publish queue batch) TheAnswer.Published) }
        ensures declined { IfErr result
            (λ u. Declines Refuses pass.old pass.new (TheStep.Publish queue batch) (publish_declined u)) }
        ensures alone { passes_of pass.old ≡ 1 → IsCallMade result }
    {
        match self.shared.attempt_open(pass, PublishCall { queue, batch }) {
            Ok(_) => Ok(()),
            Err(unmade) => Err(unmade),
        }
    }

    /// Takes the next command, or the next fused pair, of a submission queue, if no other caller has the lock.
    ///
    /// # Errors
    ///
    /// As `publish`.
    pub fn fetch(&self, pass: &mut Pass<Core>, queue: u16) -> Result<Work, Unmade<FetchCall, Why>>
        requires { IsPassOfEngine self.now pass.old }
        ensures same { IsSame pass.old pass.new }
        ensures knows { Knows ControllerInvariant pass.old pass.new }
        ensures accepted { IfOk result (FetchedAs self.now pass.old pass.new queue) }
        ensures declined { IfErr result
            (λ u. Declines Refuses pass.old pass.new (TheStep.Fetch queue) (fetch_declined u)) }
        ensures alone { passes_of pass.old ≡ 1 → IsCallMade result }
    {
        match self.shared.attempt_open(pass, FetchCall { queue }) {
            Ok((work, owner)) => {
                let stage = start_of(&work);
                Ok(Work {
                    work,
                    queue,
                    owner,
                    stage,
                })
            }
            Err(unmade) => Err(unmade),
        }
    }

    /// Takes the next completion of a completion queue, if no other caller has the lock.
    ///
    /// # Errors
    ///
    /// As `publish`.
    pub fn reap(
        &self,
        pass: &mut Pass<Core>,
        queue: u16,
    ) -> Result<Completion, Unmade<ReapCall, Why>>
        requires { IsPassOfEngine self.now pass.old }
        ensures same { IsSame pass.old pass.new }
        ensures knows { Knows ControllerInvariant pass.old pass.new }
        ensures accepted { IfOk result
            (λ c. Accepted Accepts pass.old pass.new (TheStep.Reap queue) (reaped_answer c)) }
        ensures declined { IfErr result
            (λ u. Declines Refuses pass.old pass.new (TheStep.Reap queue) (reap_declined u)) }
        ensures alone { passes_of pass.old ≡ 1 → IsCallMade result }
    {
        match self.shared.attempt_open(pass, ReapCall { queue }) {
            Ok((completion, _)) => Ok(completion),
            Err(unmade) => Err(unmade),
        }
    }

    /// Makes a Publish, a Fetch or a Reap, if no other caller has the lock.
    ///
    /// # Errors
    ///
    /// `Busy` with the step, where another caller had the lock; nothing has changed. `Refused` by the refusals at what
    /// the pass has seen then.
    pub fn attempt_open(&self, pass: &mut Pass<Core>, request: Open) -> Result<Opened, Declined>
        requires { IsPassOfEngine self.now pass.old }
        ensures same { IsSame pass.old pass.new }
        ensures knows { Knows ControllerInvariant pass.old pass.new }
        ensures accepted { IfOk result (OpenedAs self.now pass.old pass.new request) }
        ensures declined { IfErr result (Declines Refuses pass.old pass.new (open_step request)) }
        ensures alone { passes_of pass.old ≡ 1 → IsNotBusy result }
    {
        match request {
            Open::Publish(queue, batch) => match self.publish(pass, queue, batch) {
                Ok(()) => Ok(Opened::Published),
                Err(unmade) => Err(publish_declined(unmade)),
            },
            Open::Fetch(queue) => match self.fetch(pass, queue) {
                Ok(work) => Ok(Opened::Fetched(work)),
                Err(unmade) => Err(fetch_declined(unmade)),
            },
            Open::Reap(queue) => match self.reap(pass, queue) {
                Ok(completion) => {
                    let Completion { cqe, payload } = completion;
                    Ok(Opened::Reaped { cqe, payload })
                }
                Err(unmade) => Err(reap_declined(unmade)),
            },
        }
    }

    /// Makes a Grant, a Block or a Post of the Work's ticket, if no other caller has the lock.
    ///
    /// # Errors
    ///
    /// As `attempt_open`; never because the ticket isn't in flight or because it isn't the task's turn.
    pub fn attempt_work(
        &self,
        pass: &mut Pass<Core>,
        work: &mut Work,
        task: Task,
    ) -> Result<Answer, Declined>
        requires own { IsPassOfEngine self.now pass.old × IsWorkOf self.now work.old }
        requires allowed { task_fault (duty_of work.old.work) work.old.work.ticket (its work.old)
            (task_step task work.old.work.ticket) ≡ None }
        ensures same { IsSame pass.old pass.new × IsWorkOf self.now work.new × (work.new.work ≡ work.old.work)
            × (work.new.queue ≡ work.old.queue) }
        ensures knows { Knows ControllerInvariant pass.old pass.new }
        ensures accepted { IfOk result (Worked Accepts pass.old pass.new work.old.owner work.new.owner
            (task_step task work.old.work.ticket)) }
        ensures posted { IfOk result (IsAnswerPosted (config_of pass.new) (entries (seen pass.new)) work.old.queue) }
        ensures declined { IfErr result (λ d. Declines Refuses pass.old pass.new (task_step task work.old.work.ticket) d
            × (its work.new ≡ its work.old)) }
        ensures in_place { IfErr result IsNoTaskFault }
        ensures whole { IsNotBusy result → of_ticket work.new.work.ticket (entries (seen pass.new)) ≡ its work.new }
        ensures saw { Saw pass.new work.old.owner work.new.owner result }
        ensures alone { passes_of pass.old ≡ 1 → IsNotBusy result }
    {
        let step = task.step_of(work.work.ticket());
        match self.shared.attempt_work(pass, &mut work.owner, step) {
            Ok(answer) => {
                work.stage = stage_after(work.stage, &answer);
                Ok(answer)
            }
            Err(declined) => Err(declined),
        }
    }

    /// Both passes see the whole history so far, if no other caller has the lock. Takes no memory.
    ///
    /// # Errors
    ///
    /// `Busy` where another caller had the lock; nothing has changed.
    pub fn meet(&self, first: &mut Pass<Core>, second: &mut Pass<Core>) -> Result<(), Busy>
        requires first { IsPassOfEngine self.now first.old }
        requires second { IsPassOfEngine self.now second.old }
        ensures first { IsSame first.old first.new × (mine first.new ≡ mine first.old) }
        ensures second { IsSame second.old second.new × (mine second.new ≡ mine second.old) }
        ensures met { IfOk result (λ _. Met ControllerInvariant first.old second.old first.new second.new) }
        ensures busy { IfErr result (λ _. (seen first.new ≡ seen first.old)
            × (seen second.new ≡ seen second.old)) }
    {
        self.shared.meet(first, second)
    }

    /// The controller forgets the entries of its history before this place, from 0, the oldest first, if no other
    /// caller has the lock. What passes have seen stays, and this one sees the whole history so far, with what is
    /// forgotten. Takes no memory.
    ///
    /// # Errors
    ///
    /// `Busy` where another caller had the lock; nothing has changed.
    pub fn forget(&self, pass: &mut Pass<Core>, place: usize) -> Result<(), Busy>
        requires { IsPassOfEngine self.now pass.old }
        ensures same { IsSame pass.old pass.new × (mine pass.new ≡ mine pass.old) }
        ensures knows { Knows ControllerInvariant pass.old pass.new }
        ensures forgot { OnOk result (ForgotAt place pass.new) }
        ensures busy { OnErr result (seen pass.new ≡ seen pass.old) }
        ensures alone { passes_of pass.old ≡ 1 → IsOk result }
    {
        self.shared.forget(pass, place)
    }

    /// Looks at the controller, if no other caller has the lock: the pass sees the whole history so far, and what is
    /// told is of a controller with that history. It takes no memory but what the look takes.
    ///
    /// # Errors
    ///
    /// `Busy` where another caller had the lock; nothing has changed.
    pub fn glance<G: Glance<Core>>(&self, pass: &mut Pass<Core>, glance: G) -> Result<G::Told, Busy>
        requires { IsPassOfEngine self.now pass.old }
        ensures same { IsSame pass.old pass.new × (mine pass.new ≡ mine pass.old) }
        ensures knows { Knows ControllerInvariant pass.old pass.new }
        ensures told { IfOk result (GlancedAt (G.tells glance) pass.new) }
        ensures busy { IfErr result (λ _. seen pass.new ≡ seen pass.old) }
        ensures alone { passes_of pass.old ≡ 1 → OnErr result ⊥ }
    {
        self.shared.glance(pass, glance)
    }

    /// Tells what holds of whatever the pass has seen: it is what a controller keeps of its history, and goes on from
    /// what the controller had when the engine was made, by entries of passes alone. Takes neither lock nor memory.
    pub fn recall(&self, pass: &mut Pass<Core>)
        requires { IsPassOfEngine self.now pass.old }
        ensures same { IsSame pass.old pass.new × (seen pass.new ≡ seen pass.old) }
        ensures kept { ControllerInvariant (config_of pass.new) (entries (seen pass.new)) }
        ensures opens { ExtendsByPasses (passes_of pass.new) (unmade (opening_of self.now)) (seen pass.new) }
    {
        self.shared.recall(pass);
    }

    /// The controller, where no pass had the lock.
    pub fn close(self, pass: Pass<Core>) -> Option<Core>
        requires { IsPassOfEngine self pass }
        ensures config { IfSome result (λ core. core.config ≡ config_of pass) }
        ensures legal { IfSome result (λ core. ControllerInvariant core.config core.past) }
        ensures begins { IfSome result (λ core. (whole : SharedPast) × (core.past ≡ entries whole)
            × (b : IsBeginning (seen pass) whole) × AreOfPasses (passes_of pass) b.0
            × (places (number pass) whole ≡ mine pass)) }
        ensures alone { passes_of pass ≡ 1 → IsSome result }
        ensures whole { passes_of pass ≡ 1 → IfSome result (λ core. core.past ≡ entries (seen pass)) }
    {
        self.shared.close(pass)
    }

    /// The controller, closed with all its passes, in the order in which `new` gave them: its history is what one of
    /// them has seen.
    ///
    /// None where no pass is given.
    pub fn close_all(self, passes: Vec<Pass<Core>>) -> Option<Core>
        requires all { (k : ℕ) (p : Pass ControllerState) → slice_get passes.items k ≡ Some p
            → IsPassOfEngine self p × (number p ≡ k + 1) × (passes_of p ≡ vec_len passes) }
        ensures config { IfSome result (λ core. (k : ℕ) (p : Pass ControllerState) → slice_get passes.items k ≡ Some p
            → core.config ≡ config_of p) }
        ensures legal { IfSome result (λ core. ControllerInvariant core.config core.past) }
        ensures whole { IfSome result (λ core. IsSeenWhole passes.items core.past) }
        ensures some { 0 < vec_len passes → IsSome result }
    {
        self.shared.close_all(passes)
    }
}
