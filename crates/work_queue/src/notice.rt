//! The word that a completion was posted.

ghost use Rattle.std.specs.Prelude.{◌≡◌, IfErr, IfOk, IsOk};
ghost use Rattle.nvme_model.specs.Passes.{IsBeginning, entries};
ghost use Rattle.nvme_model.specs.Kept.{ControllerInvariant};
ghost use Rattle.meet_lock.specs.Passes.{message_seen, message_config};
ghost use Rattle.work_queue.specs.Posted.{IsPostedTo};

use crate::engine::Engine;
use meet_lock::{Busy, NoteSeat, Pass};
use std::alloc::AllocError as NoMemory;
use step_core::Core;

/// The word that this completion was posted to this completion queue, beside what had been seen, where it is posted.
#[derive(Drop)]
pub struct Notice {
    queue: u16,
    cqe: [u8; 16],
    pub(crate) note: NoteSeat<Core>,
    ghost there: { IsPostedTo (message_config note) (entries (message_seen note)) queue cqe },
}

impl Notice {
    ghost use Rattle.meet_lock.specs.Passes.{IsSame, config_of, seen};
    ghost use Rattle.work_queue.specs.Engines.{IsPassOfEngine};
    ghost use Rattle.work_queue.specs.Notices.{IsNoticeOf, notice_config, notice_seen};

    /// What the pass has seen, where this completion is posted to this completion queue. It takes no memory, and never
    /// fails.
    ///
    /// # Errors
    ///
    /// `NoMemory` stands in the signature alone: no call answers it.
    pub fn new(
        engine: &Engine,
        pass: &mut Pass<Core>,
        queue: u16,
        cqe: [u8; 16],
    ) -> Result<Notice, NoMemory>
        requires own { IsPassOfEngine engine.now pass.old }
        requires there { IsPostedTo (config_of pass.old) (entries (seen pass.old)) queue cqe }
        ensures same { IsSame pass.old pass.new × (seen pass.new ≡ seen pass.old) }
        ensures notice { IfOk result (λ n. IsNoticeOf engine.now n × (notice_seen n ≡ seen pass.old)
            × (notice_config n ≡ config_of pass.old) × (n.queue ≡ queue) × (n.cqe ≡ cqe)) }
        ensures always { IsOk result }
    {
        let note = engine.shared.note(pass);
        Ok(Notice { queue, cqe, note })
    }

    /// The completion queue.
    pub fn queue(&self) -> u16
        ensures value { result ≡ self.now.queue }
    {
        self.queue
    }

    /// The completion queue entry.
    pub fn cqe(&self) -> [u8; 16]
        ensures value { result ≡ self.now.cqe }
    {
        self.cqe
    }
}

impl Engine {
    ghost use Rattle.meet_lock.specs.Passes.{IsSame, Knows, config_of, mine, seen};
    ghost use Rattle.work_queue.specs.Engines.{IsPassOfEngine};
    ghost use Rattle.work_queue.specs.Notices.{IsNoticeOf, ReapFinds, notice_config, notice_seen};

    /// The pass sees what the notice had seen, too. It takes neither lock nor memory, and is never Busy.
    ///
    /// # Errors
    ///
    /// `Busy` stands in the signature alone: no call answers it.
    pub fn learn(&self, pass: &mut Pass<Core>, notice: &mut Notice) -> Result<(), Busy>
        requires pass { IsPassOfEngine self.now pass.old }
        requires notice { IsNoticeOf self.now notice.old }
        ensures same { IsSame pass.old pass.new × (mine pass.new ≡ mine pass.old) }
        ensures knows { IfOk result (λ _. Knows ControllerInvariant pass.old pass.new) }
        ensures learned { IfOk result (λ _. IsBeginning (notice_seen notice.old) (seen pass.new)) }
        ensures config { notice_config notice.old ≡ config_of pass.old }
        ensures reaps { IfOk result (λ _. ReapFinds (notice_seen notice.old) notice.old.queue pass.new) }
        ensures busy { IfErr result (λ _. seen pass.new ≡ seen pass.old) }
        ensures notice { IsNoticeOf self.now notice.new × (notice_seen notice.new ≡ notice_seen notice.old)
            × (notice.new.queue ≡ notice.old.queue) × (notice.new.cqe ≡ notice.old.cqe) }
        ensures always { IsOk result }
    {
        self.shared.learn(pass, &mut notice.note);
        Ok(())
    }
}
