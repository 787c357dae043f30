//! Writes that one caller makes on its own queue, and its account of them.

ghost use Rattle.meet_lock.specs.Passes.{IsPassOfLock, IsSame};

use history::{
    BlockLine, Entry, FetchLine, GrantLine, PostLine, PublishLine, ReapLine, UnitRange, write_line,
};
use lock_testing::{Command, LATE, NO_MEMORY, STRANGE, items_of, number};
use meet_lock::{Declined, Pass, Shared};
use nvme_model::status::Verdict;
use nvme_model::submission::{Batch, Payload};
use std::alloc::Global;
use std::thread::yield_now;
use step_core::{Answer, Core, Step, Submissions};

/// How often a caller asks before it gives up.
pub(crate) const TRIES: u32 = 1_000_000;

/// The number of a Grant that an open unit of another caller refuses.
const CONFLICT: u8 = 6;

/// What a caller made on its queue.
#[derive(Drop)]
pub(crate) struct Account {
    pub write: Command,
    /// Of its last Fetch.
    ticket: u64,
    /// Of its last Grant.
    unit: u64,
    /// The lines of its accepted steps, as it asked for them and was told.
    pub lines: Vec<u8>,
}

impl Account {
    /// No step on this Write's queue.
    pub(crate) fn new(alloc: Global, write: Command) -> Account {
        Account {
            write,
            ticket: 0,
            unit: 0,
            lines: Vec::new(alloc),
        }
    }

    /// The entry of a Publish of its Write.
    fn published(&self, alloc: Global) -> Result<Entry, u8> {
        match items_of(alloc, self.write) {
            Ok(items) => Ok(Entry::Publish(PublishLine {
                queue: self.write.queue,
                batch: Batch::new(items),
            })),
            Err(_) => Err(NO_MEMORY),
        }
    }

    /// The entry of the step that had this answer.
    fn entry_of(&mut self, alloc: Global, answer: &Answer) -> Result<Entry, u8> {
        let queue = self.write.queue;
        let ticket = self.ticket;
        Ok(match answer {
            Answer::Published => return self.published(alloc),
            Answer::Fetched(work) => {
                self.ticket = work.ticket();
                Entry::Fetch(FetchLine {
                    queue,
                    ticket: work.ticket(),
                    verdict: Verdict::Single,
                })
            }
            Answer::Granted(unit, range, mode) => {
                self.unit = *unit;
                let Ok(blocks) = u16::try_from(range.blocks) else {
                    return Err(STRANGE);
                };
                Entry::Grant(GrantLine {
                    ticket,
                    unit: *unit,
                    range: UnitRange::new(range.slba, blocks),
                    mode: *mode,
                })
            }
            Answer::Blocked(done) => Entry::Block(BlockLine {
                ticket,
                unit: self.unit,
                lba: done.lba,
                found: done.found,
                effect: done.effect,
            }),
            Answer::Posted(cqe) => Entry::Post(PostLine {
                ticket,
                cqe: *cqe,
                payload: Payload::new(Vec::new(alloc)),
            }),
            Answer::Reaped { cqe, .. } => Entry::Reap(ReapLine { queue, cqe: *cqe }),
        })
    }

    fn note(&mut self, alloc: Global, answer: &Answer) -> Result<(), u8> {
        let entry = self.entry_of(alloc, answer)?;
        if write_line(&entry, &mut self.lines).is_err() || self.lines.push(b'\n').is_err() {
            return Err(NO_MEMORY);
        }
        Ok(())
    }
}

/// The step, asked for again while another caller has the lock.
fn insist(shared: &Shared<Core>, pass: &mut Pass<Core>, step: Step) -> Result<Answer, u8>
    requires { IsPassOfLock shared.now pass.old }
    ensures { IsSame pass.old pass.new }
{
    let mut next = step;
    for _ in 0..TRIES {
        match shared.attempt(pass, next) {
            Ok(answer) => return Ok(answer),
            Err(Declined::Busy(same)) => next = same,
            Err(Declined::Refused(refused)) => return Err(number(refused)),
        }
        yield_now();
    }
    Err(LATE)
}

/// The step, and its entry.
fn makes(
    alloc: Global,
    shared: &Shared<Core>,
    pass: &mut Pass<Core>,
    account: &mut Account,
    step: Step,
) -> Result<(), u8>
    requires { IsPassOfLock shared.now pass.old }
    ensures { IsSame pass.old pass.new }
{
    let answer = insist(shared, pass, step)?;
    account.note(alloc, &answer)
}

/// The Grant, asked for again while an open unit of another caller has the block, too.
fn grants(
    alloc: Global,
    shared: &Shared<Core>,
    pass: &mut Pass<Core>,
    account: &mut Account,
) -> Result<(), u8>
    requires { IsPassOfLock shared.now pass.old }
    ensures { IsSame pass.old pass.new }
{
    let ticket = account.ticket;
    for _ in 0..TRIES {
        match makes(alloc, shared, pass, account, Step::Grant(ticket)) {
            Err(CONFLICT) => yield_now(),
            end => return end,
        }
    }
    Err(LATE)
}

/// Makes the account's Write, from its Publish to its Reap.
pub(crate) fn writes_one(
    alloc: Global,
    shared: &Shared<Core>,
    pass: &mut Pass<Core>,
    account: &mut Account,
) -> Result<(), u8>
    requires { IsPassOfLock shared.now pass.old }
    ensures { IsSame pass.old pass.new }
{
    let queue = account.write.queue;
    let Ok(items) = items_of(alloc, account.write) else {
        return Err(NO_MEMORY);
    };
    let publish = Step::Publish(queue, Submissions::new(items));
    makes(alloc, shared, pass, account, publish)?;
    makes(alloc, shared, pass, account, Step::Fetch(queue))?;
    let ticket = account.ticket;
    grants(alloc, shared, pass, account)?;
    makes(alloc, shared, pass, account, Step::Block(ticket))?;
    makes(alloc, shared, pass, account, Step::Post(ticket))?;
    makes(alloc, shared, pass, account, Step::Reap(queue))
}
