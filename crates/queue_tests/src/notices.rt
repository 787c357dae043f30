//! Queues of one notice and of 1,024, and a batch of no entry.

ghost use Rattle.std.specs.Prelude.{◌≡◌, IfErr, IfSome};
ghost use Rattle.meet_lock.specs.Passes.{config_of, seen};
ghost use Rattle.nvme_model.specs.Passes.{entries};
ghost use Rattle.work_queue.specs.Notices.{IsNoticeOf};
ghost use Rattle.work_queue.specs.Posted.{IsAnswerPosted};
ghost use Rattle.shared_system.specs.Plain.{IsPlainCallerOf};

use lock_testing::{ONE_QUEUE, attempt, begun, config_of, crewed, flush, noted, opens};
use nvme_model::submission::Submissions;
use shared_system::{PlainCaller, PlainSystem, plain_system_of, take_caller};
use std::alloc::Global;
use std::process::Abort;
use std::sync::Wait;
use std::test::Fail;
use step_core::Answer;
use work_queue::{Notice, Open, Opened, Work};

/// The notice of a Flush with this CID, which is published, fetched and posted.
fn posts<R: Wait>(
    rt: &R,
    alloc: Global,
    system: &PlainSystem,
    caller: &mut PlainCaller,
    cid: u16,
) -> Option<Notice>
    requires { IsPlainCallerOf system.now caller.old }
    ensures same { IsPlainCallerOf system.now caller.new }
    ensures notice { IfSome result (IsNoticeOf system.now.engine) }
{
    let mut work = begun(rt, alloc, system, caller, flush(1, cid)).ok()?;
    let task = work.next_task()?;
    let answer = attempt(system, caller, &mut work, task).ok()?;
    noted(system, caller, &work, &answer).ok()?
}

/// The notice, put at the back; or it comes back.
fn tells<R: Wait>(
    rt: &R,
    system: &PlainSystem,
    caller: &mut PlainCaller,
    notice: Notice,
) -> Result<(), Notice>
    requires { IsPlainCallerOf system.now caller.old × IsNoticeOf system.now.engine notice }
    ensures same { IsPlainCallerOf system.now caller.new }
    ensures back { IfErr result (IsNoticeOf system.now.engine) }
    ensures pass { caller.new.pass ≡ caller.old.pass }
{
    system.notices.push(rt, &mut caller.notices, notice)
}

/// The CID of the command that a notice names.
fn cid_of(notice: &Notice) -> u16 {
    let cqe = notice.cqe();
    u16::from_le_bytes([cqe[12], cqe[13]])
}

/// The next notice's CID, once it is learnt and the completion that it names was reaped; 0 where there is none.
fn hears<R: Abort + Wait>(rt: &R, system: &PlainSystem, caller: &mut PlainCaller) -> u16
    requires { IsPlainCallerOf system.now caller.old }
    ensures { IsPlainCallerOf system.now caller.new }
{
    let Some(mut notice) = system.notices.pop(rt, &mut caller.notices) else {
        return 0;
    };
    assert!(rt; system.engine.learn(&mut caller.pass, &mut notice).is_ok());
    let Ok(Opened::Reaped { cqe, .. }) = opens(rt, system, caller, Open::Reap(notice.queue()))
    else {
        panic!(rt; "a completion")
    };
    assert_eq!(rt; cqe, notice.cqe());
    cid_of(&notice)
}

/// Two notices, of which there is room for one; the one that comes back.
fn overfills<R: Wait>(
    rt: &R,
    alloc: Global,
    system: &PlainSystem,
    caller: &mut PlainCaller,
) -> Option<Notice>
    requires { IsPlainCallerOf system.now caller.old }
    ensures same { IsPlainCallerOf system.now caller.new }
    ensures notice { IfSome result (IsNoticeOf system.now.engine) }
{
    let first = posts(rt, alloc, system, caller, 1)?;
    if let Err(back) = tells(rt, system, caller, first) {
        return Some(back);
    }
    let second = posts(rt, alloc, system, caller, 2)?;
    tells(rt, system, caller, second).err()
}

/// That this notice is the only one.
fn hears_one<R: Abort + Wait>(rt: &R, system: &PlainSystem, caller: &mut PlainCaller, cid: u16)
    requires { IsPlainCallerOf system.now caller.old }
    ensures { IsPlainCallerOf system.now caller.new }
{
    assert_eq!(rt; hears(rt, system, caller), cid);
    assert_eq!(rt; hears(rt, system, caller), 0);
}

/// That the second notice comes back, and an empty queue gives none.
fn holds_one<R: Abort + Wait>(rt: &R, alloc: Global, system: &PlainSystem, caller: &mut PlainCaller)
    requires { IsPlainCallerOf system.now caller.old }
    ensures { IsPlainCallerOf system.now caller.new }
{
    let Some(back) = overfills(rt, alloc, system, caller) else {
        panic!(rt; "a notice that comes back")
    };
    assert_eq!(rt; cid_of(&back), 2);
    hears_one(rt, system, caller, 1);
    assert!(rt; tells(rt, system, caller, back).is_ok());
    hears_one(rt, system, caller, 2);
}

/// That a batch of no entry is refused; it has no script.
fn refuses_none<R: Abort + Wait>(
    rt: &R,
    alloc: Global,
    system: &PlainSystem,
    caller: &mut PlainCaller,
)
    requires { IsPlainCallerOf system.now caller.old }
    ensures { IsPlainCallerOf system.now caller.new }
{
    let batch = Submissions::new(Vec::new(alloc));
    let Err(why) = opens(rt, system, caller, Open::Publish(1, batch)) else {
        panic!(rt; "a refusal")
    };
    assert_eq!(rt; why, 10);
}

/// How many notices of one completion there is room for, up to this number.
fn room_for<R: Wait>(
    rt: &R,
    system: &PlainSystem,
    caller: &mut PlainCaller,
    work: &Work,
    answer: &Answer,
    most: u16,
) -> u16
    requires own { IsPlainCallerOf system.now caller.old }
    requires posted { IsAnswerPosted (config_of caller.old.pass) (entries (seen caller.old.pass)) work.now.queue
        answer.now }
{
    for told in 0..most {
        let Ok(Some(notice)) = noted(system, caller, work, answer) else {
            return 0;
        };
        if tells(rt, system, caller, notice).is_err() {
            return told;
        }
    }
    most
}

/// The same of a Flush that is published, fetched and posted.
fn room_of_a_flush<R: Wait>(
    rt: &R,
    alloc: Global,
    system: &PlainSystem,
    caller: &mut PlainCaller,
    most: u16,
) -> Option<u16>
    requires { IsPlainCallerOf system.now caller.old }
{
    let mut work = begun(rt, alloc, system, caller, flush(1, 1)).ok()?;
    let task = work.next_task()?;
    let answer = attempt(system, caller, &mut work, task).ok()?;
    Some(room_for(rt, system, caller, &work, &answer, most))
}

#[test]
fn a_thousand_places_and_three_hundred_passes_are_given(rt: HostRuntime) -> Result<(), Fail> {
    let config = config_of(rt.alloc(), ONE_QUEUE).ok_or("no configuration")?;
    let (system, mut callers) = plain_system_of(rt.alloc(), config, 1_024, 300)?;
    let mut caller = take_caller(&system, &mut callers).ok_or("no caller")?;
    assert_eq!(rt; callers.passes.len(), 299);
    assert_eq!(rt;
        room_of_a_flush(&rt, rt.alloc(), &system, &mut caller, 2_000),
        Some(1_024)
    );
    Ok(())
}

#[test]
fn one_place_holds_one_notice_and_an_empty_batch_is_refused(rt: HostRuntime) -> Result<(), Fail> {
    let config = config_of(rt.alloc(), ONE_QUEUE).ok_or("no configuration")?;
    let (system, mut crew) = crewed(rt.alloc(), config, 1).ok_or("three callers")?;
    holds_one(&rt, rt.alloc(), &system, &mut crew.host);
    refuses_none(&rt, rt.alloc(), &system, &mut crew.host);
    Ok(())
}
