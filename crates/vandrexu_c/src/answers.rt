//! What steps are answered, as it lies in C.

ghost use Rattle.std.specs.Prelude.{◌≡◌};
ghost use Rattle.vandrexu_c.specs.Answers.{blocked_of, found_number, granted_of, mode_number, op_number};
ghost use Rattle.nvme_model.specs.Refusals.{refusal_number};
ghost use Rattle.vandrexu_c.specs.Answers.{fetched_work_of, next_step_of};

use controller_interface::{Judged, Step, UnitGranted, Work};
use nvme_model::array::Mode;
use nvme_model::operation::{Found, Op};
use nvme_model::refusal::Why;
use step_core::Done;

/// What a fetched ticket has to do; what a kind doesn't have is 0.
#[repr(C)]
#[derive(Clone, Copy)]
pub struct FetchedWork {
    pub ticket: u64,
    pub slba: u64,
    pub blocks: u32,
    /// 1 for commands whose checks failed, 2 for a Flush, 3 for units, 4 for a pair.
    pub kind: u32,
    /// Of units: 1 for a Read, 2 for a Compare, 3 for a Write, 4 for a Write Zeroes.
    pub op: u32,
    /// Of commands whose checks failed: how many.
    pub statuses: u32,
}

/// The unit that was granted.
#[repr(C)]
#[derive(Clone, Copy)]
pub struct GrantedUnit {
    pub unit: u64,
    pub slba: u64,
    pub blocks: u32,
    /// 1 for shared, 2 for exclusive.
    pub mode: u32,
}

/// What a Block found and did.
#[repr(C)]
#[derive(Clone, Copy)]
pub struct BlockedStep {
    pub lba: u64,
    /// 1 for read, 2 for equal, 3 for differs, 4 for written.
    pub found: u32,
    /// 1 where the unit takes effect by this step.
    pub effect: u8,
    /// 1 where the unit has ended.
    pub ended: u8,
    pub zeros: [u8; 2],
}

/// A Grant, a Block or a Post of a ticket.
#[repr(C)]
#[derive(Clone, Copy)]
pub struct NextStep {
    pub ticket: u64,
    /// 2 for a Grant, 3 for a Block, 4 for a Post.
    pub kind: u32,
}

fn op_in(op: Op) -> u32
    ensures { result ≡ op_number op }
{
    match op {
        Op::Read => 1,
        Op::Compare => 2,
        Op::Write => 3,
        Op::WriteZeroes => 4,
        Op::Pair => 5,
    }
}

/// The number of how a unit holds its blocks.
pub(crate) fn mode_in(mode: Mode) -> u32
    ensures { result ≡ mode_number mode }
{
    match mode {
        Mode::Shared => 1,
        Mode::Exclusive => 2,
    }
}

/// The number of what a Block found.
pub(crate) fn found_in(found: Found) -> u32
    ensures { result ≡ found_number found }
{
    match found {
        Found::Read => 1,
        Found::Equal => 2,
        Found::Differs => 3,
        Found::Written => 4,
    }
}

/// The work of a ticket.
pub(crate) fn work_in(work: &Work) -> FetchedWork
    ensures { result ≡ fetched_work_of work.now }
{
    let none = FetchedWork {
        ticket: work.ticket(),
        slba: 0,
        blocks: 0,
        kind: 0,
        op: 0,
        statuses: 0,
    };
    match work.judged() {
        Judged::SingleFailed(_) => FetchedWork {
            kind: 1,
            statuses: 1,
            ..none
        },
        Judged::PairFailed(_, _) => FetchedWork {
            kind: 1,
            statuses: 2,
            ..none
        },
        Judged::Flush => FetchedWork { kind: 2, ..none },
        Judged::Single(op, range) => FetchedWork {
            slba: range.slba,
            blocks: range.blocks,
            kind: 3,
            op: op_in(op),
            ..none
        },
        Judged::Pair(range) => FetchedWork {
            slba: range.slba,
            blocks: range.blocks,
            kind: 4,
            ..none
        },
    }
}

/// A granted unit.
pub(crate) fn granted_in(granted: UnitGranted) -> GrantedUnit
    ensures { result ≡ granted_of granted.unit granted.range granted.mode }
{
    GrantedUnit {
        unit: granted.unit,
        slba: granted.range.slba,
        blocks: granted.range.blocks,
        mode: mode_in(granted.mode),
    }
}

/// What a Block did.
pub(crate) fn blocked_in(done: &Done) -> BlockedStep
    ensures { result ≡ blocked_of done.now }
{
    BlockedStep {
        lba: done.lba,
        found: found_in(done.found),
        effect: u8::from(done.effect),
        ended: u8::from(done.ended),
        zeros: [0, 0],
    }
}

/// The step that is ready, None where it is none of a ticket.
pub(crate) fn step_in(step: &Step) -> Option<NextStep>
    ensures { result ≡ next_step_of step.now }
{
    match step {
        Step::Grant(ticket) => Some(NextStep {
            ticket: *ticket,
            kind: 2,
        }),
        Step::Block(ticket) => Some(NextStep {
            ticket: *ticket,
            kind: 3,
        }),
        Step::Post(ticket) => Some(NextStep {
            ticket: *ticket,
            kind: 4,
        }),
        Step::Publish(_, _) | Step::Fetch(_) | Step::Reap(_) => None,
    }
}

/// The number of a refusal.
pub(crate) fn refused_in(why: Why) -> u32
    ensures { result ≡ refusal_number why }
{
    u32::from(why.number())
}
