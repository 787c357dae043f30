//! What a port learns of others: by meeting another, and by notices.

ghost use Rattle.std.specs.Prelude.{◌≡◌, IfErr, IfOk};
ghost use Rattle.nvme_model.specs.Legal.{IsLegal};
ghost use Rattle.nvme_model.specs.Passes.{IsBeginning, entries};
ghost use Rattle.meet_lock.specs.Lock.{ExtendsByPasses};
ghost use Rattle.meet_lock.specs.Passes.{config_of, passes_of, seen};
ghost use Rattle.work_queue.specs.Engines.{IsPassOfEngine};
ghost use Rattle.work_queue.specs.Notices.{IsNoticeOf, ReapFinds, notice_seen};
ghost use Rattle.driver_cas.specs.Listening.{IsOfSameEngine, IsNoticeFor, IsPassBeside, SawMore, counted_with};
ghost use Rattle.driver_cas.specs.Listening.{one_more};
ghost use Rattle.driver_cas.specs.Passes.{SawOn};
ghost use Rattle.driver_cas.specs.Ports.{view_of};

use crate::shared_port::SharedPort;
use meet_lock::{Busy, Pass};
use std::sync::Wait;
use std::thread::yield_now;
use step_core::Core;
use work_queue::{Engine, Notice};

// Both passes see the whole history so far, if no other caller has the controller.
fn meet_passes(engine: &Engine, first: &mut Pass<Core>, second: &mut Pass<Core>) -> Result<(), Busy>
    requires own { IsPassOfEngine engine.now first.old × IsPassOfEngine engine.now second.old }
    requires first { IsLegal (config_of first.old) (entries (seen first.old)) }
    ensures first { SawOn first.old first.new }
    ensures second { SawOn second.old second.new }
    ensures legal { IsLegal (config_of first.new) (entries (seen first.new)) }
    ensures other { IsLegal (config_of second.old) (entries (seen second.old))
        → IsLegal (config_of second.new) (entries (seen second.new)) }
    ensures met { IfOk result (λ _. seen first.new ≡ seen second.new) }
    ensures goes_on { IfOk result (λ _. ExtendsByPasses (passes_of first.old) (seen first.old) (seen first.new)
        × ExtendsByPasses (passes_of second.old) (seen second.old) (seen second.new)) }
    ensures busy { IfErr result (λ _. (seen first.new ≡ seen first.old) × (seen second.new ≡ seen second.old)) }
{
    engine.meet(first, second)?;
    Ok(())
}

// The pass sees what the notice had seen, too. It asks again while another caller has the controller.
fn learn_notice<R: Wait>(rt: &R, engine: &Engine, pass: &mut Pass<Core>, notice: &mut Notice)
    requires pass { IsPassOfEngine engine.now pass.old }
    requires notice { IsNoticeOf engine.now notice.old }
    ensures on { SawOn pass.old pass.new }
    ensures legal { IsLegal (config_of pass.new) (entries (seen pass.new)) }
    ensures learned { IsBeginning (notice_seen notice.old) (seen pass.new) }
    ensures reaps { ReapFinds (notice_seen notice.old) notice.old.queue pass.new }
{
    for _ in rt.forever() {
        if let Ok(()) = engine.learn(pass, notice) {
            return;
        }
        yield_now();
    }
    // The loop ends by its return alone.
    unreachable!()
}

// How many notices are counted after one more, if they are.
fn count_one(counted: Option<u64>) -> Option<u64>
    ensures { result ≡ one_more counted }
{
    Some(counted?.saturating_add(1))
}

impl<'a> SharedPort<'a> {
    /// Both ports' passes see the whole history so far, if no other caller has the controller. Takes no memory.
    ///
    /// # Errors
    ///
    /// `Busy` where another caller had the controller; nothing has changed.
    pub fn meet(&mut self, other: &mut SharedPort<'_>) -> Result<(), Busy>
        requires { IsOfSameEngine self.old other.old }
        ensures first { SawMore self.old self.new }
        ensures second { SawMore other.old other.new }
        ensures counted { (self.new.counted ≡ self.old.counted) × (other.new.counted ≡ other.old.counted) }
        ensures met { IfOk result (λ _. seen self.new.pass ≡ seen other.new.pass) }
        ensures goes_on { IfOk result
            (λ _. ExtendsByPasses (passes_of self.old.pass) (seen self.old.pass) (seen self.new.pass)
            × ExtendsByPasses (passes_of other.old.pass) (seen other.old.pass) (seen other.new.pass)) }
        ensures busy { IfErr result
            (λ _. (view_of self.new ≡ view_of self.old) × (view_of other.new ≡ view_of other.old)) }
    {
        meet_passes(self.part.engine(), &mut self.pass, &mut other.pass)
    }

    /// The port's pass and this one of its engine see the whole history so far, if no other caller has the controller.
    /// Takes no memory.
    ///
    /// # Errors
    ///
    /// `Busy` where another caller had the controller; nothing has changed.
    pub fn meet_pass(&mut self, pass: &mut Pass<Core>) -> Result<(), Busy>
        requires own { IsPassBeside self.old pass.old }
        ensures saw { SawMore self.old self.new }
        ensures pass { SawOn pass.old pass.new }
        ensures legal { IsLegal (config_of pass.old) (entries (seen pass.old))
            → IsLegal (config_of pass.new) (entries (seen pass.new)) }
        ensures counted { self.new.counted ≡ self.old.counted }
        ensures met { IfOk result (λ _. seen self.new.pass ≡ seen pass.new) }
        ensures goes_on { IfOk result
            (λ _. ExtendsByPasses (passes_of self.old.pass) (seen self.old.pass) (seen self.new.pass)
            × ExtendsByPasses (passes_of pass.old) (seen pass.old) (seen pass.new)) }
        ensures busy { IfErr result (λ _. (view_of self.new ≡ view_of self.old) × (seen pass.new ≡ seen pass.old)) }
    {
        meet_passes(self.part.engine(), &mut self.pass, pass)
    }

    /// Learns a notice, again while another caller has the controller. It is counted where notices are, and it is of
    /// this completion queue.
    pub(crate) fn hear<R: Wait>(&mut self, rt: &R, notice: Notice)
        requires { IsNoticeFor self.old notice }
        ensures saw { SawMore self.old self.new }
        ensures learned { IsBeginning (notice_seen notice) (seen self.new.pass) }
        ensures reaps { ReapFinds (notice_seen notice) notice.queue self.new.pass }
        ensures counted { self.new.counted ≡ counted_with notice.queue self.old }
    {
        let mut notice = notice;
        let queue = notice.queue();
        learn_notice(rt, self.part.engine(), &mut self.pass, &mut notice);
        if queue == self.queue {
            self.counted = count_one(self.counted);
        }
    }
}
