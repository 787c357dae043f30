//! The word that a completion was posted.

ghost use Rattle.std.specs.Prelude.{◌≡◌, ◌<◌, ◌+◌, IfErr, IfOk, vec_len};
ghost use Rattle.nvme_model.specs.Config.{completion_queue};
ghost use Rattle.nvme_model.specs.Passes.{entries};
ghost use Rattle.meet_lock.specs.Passes.{config_of, seen};
ghost use Rattle.work_queue.specs.Notices.{IsNoticeOf};
ghost use Rattle.work_queue.specs.Posted.{IsPostedTo};
ghost use Rattle.work_queue.specs.QueuePasses as queue;
ghost use Rattle.shared_system.specs.Callers.{Continues, IsCallerOf, IsPlaceAt, IsWordOf};
ghost use Rattle.hosts.specs.Stages.{HasNotices, IsPushableNotice};

use crate::gate::Gate;
use shared_system::{CallerPasses, System, completion_place, notice_of};
use std::alloc::AllocError as NoMemory;
use std::sync::Wait;
use work_queue::{Notice, QueuePass};

/// The notice that this completion was posted for a submission queue, to the completion queue that it uses.
///
/// # Errors
///
/// `NoMemory` where a growth is refused. The stop flag is set then.
pub(crate) fn word_of<G: Gate>(
    system: &System<G>,
    caller: &mut CallerPasses,
    queue: u16,
    cqe: [u8; 16],
) -> Result<Notice, NoMemory>
    requires own { IsCallerOf system.now caller.old }
    requires queues { HasNotices system.now (config_of caller.old.pass).cqs }
    requires there { IsPostedTo (config_of caller.old.pass) (entries (seen caller.old.pass))
        (completion_queue (config_of caller.old.pass) queue) cqe }
    ensures goes { Continues system.now caller.old caller.new }
    ensures notice { IfOk result (IsPushableNotice system.now) }
{
    let place = completion_place(queue, system.notices.len());
    match notice_of(system, caller, place + 1, cqe) {
        Ok(notice) => Ok(notice),
        Err(why) => {
            system.stop.set();
            Err(why)
        }
    }
}

/// Pushes the notice to the queue at this place, that of its completion queue. It comes back where that is full.
pub(crate) fn put<R: Wait, G: Gate>(
    rt: &R,
    system: &System<G>,
    place: usize,
    pass: &mut QueuePass<Notice>,
    notice: Notice,
) -> Result<(), Notice>
    requires place { place < vec_len system.now.notices }
    requires own { IsPlaceAt system.now place pass.old }
    requires notice { IsNoticeOf system.now.engine notice × IsWordOf (place + 1) notice }
    ensures same { queue.IsSameQueuePass pass.old pass.new }
    ensures back { IfErr result (λ n. n ≡ notice) }
{
    system.notices[place].push(rt, pass, notice)
}
