//! How far a ticket has come: its units, their Block steps, and the completions that it owes.

ghost use Rattle.std.specs.Prelude.{◌≡◌, ◌≢◌, ◌<◌, ◌≤◌, ◌+◌, ◌↔◌, IfSome, IsTrue, List, None, Some, if◌then◌else◌};
ghost use Rattle.std.specs.Prelude.{length, slice_get, true, ℕ};
ghost use Rattle.std.specs.Option.{option_map};
ghost use Rattle.nvme_model.specs.Verdict.{taken_entries};
ghost use Rattle.ticket_laws.specs.Standing.{on_differs, on_success};
ghost use Rattle.fused_match.specs.Judged.{IsSound, verdict_by};
ghost use Rattle.block_exec.specs.Course.{done_by};
ghost use Rattle.nvme_model.specs.Array.{IsRange};
ghost use Rattle.nvme_model.specs.Open.{is_differs};
ghost use Rattle.nvme_model.specs.Operations.{command_count};
ghost use Rattle.job_table.specs.Stages.{IsTicketProgress, between, first_ticket_stage, mode_by};
ghost use Rattle.job_table.specs.declared.progress.TicketStage.TheVariants.{Owing};

use crate::cids::OwedCids;
use atomic_units::Units;
use block_exec::{Done, Run};
use completions::Owed;
use fused_match::Judged;
use nvme_model::array::{Mode, Range};
use nvme_model::operation::{Found, Op};
use nvme_model::status::Status;
use std::marker::Model;

/// Where a ticket stands.
#[derive(Clone, Copy, Debug, PartialEq, Eq)]
pub enum TicketStage {
    /// No unit is open. It does this, its next unit has this number, and these blocks are left.
    Waiting(Op, u64, Range),
    /// This unit, of this number, is open, and these blocks are left behind it.
    Open(Run, u64, Range),
    /// Nothing is left to do, and these completions are owed.
    Owing(Owed),
}

/// How far a ticket has come. It has no data and takes no memory.
#[derive(Clone, Copy, Debug, PartialEq, Eq)]
pub struct TicketProgress {
    stage: TicketStage,
    cids: OwedCids,
}

impl Model for TicketProgress {
    ghost use Rattle.job_table.specs.Stages.{IsTicketProgress, Ticking};

    ghost Value = { Ticking };

    ghost view = { λ c. record { stage = c.stage; cids = c.cids } };

    ghost invariant = { λ c. IsTicketProgress c.stage c.cids };

    ghost inverse = { λ v. record { stage = v.stage; cids = v.cids } };
}

impl TicketProgress {
    ghost use Rattle.job_table.specs.Stages.{IfOpen, IsTicketProgress, IsFirstUnit, first_ticket_stage};
    ghost use Rattle.job_table.specs.Stages.{is_open};
    ghost use Rattle.job_table.specs.Stages.{stage_mode};
    ghost use Rattle.job_table.specs.Stages.{next_in, noted_in, opened_in, owed_in, posted_in, unit_in};

    /// How far a ticket has come that was judged so, with the CIDs of its commands.
    #[tactic(auto, using(crate::proofs::StageLemmas::first_is))]
    pub fn new(judged: &Judged, cids: OwedCids) -> TicketProgress
        requires cids { length cids ≡ taken_entries (verdict_by judged.now) }
        requires sound { IsSound judged.now }
        ensures value { result ≡ record { stage = first_ticket_stage judged.now; cids = cids } }
    {
        TicketProgress {
            stage: first_stage(judged),
            cids,
        }
    }

    /// The CIDs of its commands whose completions aren't posted yet.
    pub fn cids(&self) -> OwedCids
        ensures value { result ≡ self.now.cids }
    {
        self.cids
    }

    /// How its units hold their blocks.
    pub fn mode(&self) -> Mode
        ensures value { result ≡ stage_mode self.now.stage }
    {
        match self.stage {
            TicketStage::Waiting(op, _, _) => mode_of(op),
            TicketStage::Open(run, _, _) => mode_of(run.op()),
            TicketStage::Owing(_) => Mode::Shared,
        }
    }

    /// The number of the unit that is open or, where none is, of the next one; 0 where there is none.
    pub fn unit(&self) -> u64
        ensures value { result ≡ unit_in self.now.stage }
    {
        match self.stage {
            TicketStage::Waiting(_, unit, _) | TicketStage::Open(_, unit, _) => unit,
            TicketStage::Owing(_) => 0,
        }
    }

    /// The unit that is opened next; None where one is open, or none is left.
    pub fn next_unit(&self, units: Units) -> Option<Range>
        ensures value { result ≡ next_in units self.now.stage }
        ensures first { IfSome result (IsFirstUnit self.now.stage) }
        ensures range { IfSome result IsRange }
    {
        match self.stage {
            TicketStage::Waiting(Op::Pair, _, left) => Some(left),
            TicketStage::Waiting(_, _, left) => units.cut(left.slba, left.blocks).next(),
            TicketStage::Open(_, _, _) | TicketStage::Owing(_) => None,
        }
    }

    /// Opens the next unit, of these blocks.
    pub fn open(&mut self, range: Range)
        requires first { IsFirstUnit self.old.stage range }
        ensures opened { self.new ≡ record self.old { stage = opened_in self.old.stage range } }
    {
        // Only a ticket that waits has a first unit.
        let TicketStage::Waiting(op, unit, left) = self.stage else {
            unreachable!();
        };
        let left = Range {
            slba: left.slba + u64::from(range.blocks),
            blocks: left.blocks - range.blocks,
        };
        self.stage = TicketStage::Open(Run::new(op, range), unit, left);
    }

    /// The unit that is open.
    pub fn run(&self) -> Option<Run>
        ensures open { IsTrue (is_open self.now.stage) ↔ (result ≢ None) }
        ensures value { IfOpen self.now.stage (λ run. result ≡ Some run) }
        ensures law { IsTicketProgress self.now.stage self.now.cids }
    {
        match self.stage {
            TicketStage::Open(run, _, _) => Some(run),
            TicketStage::Waiting(_, _, _) | TicketStage::Owing(_) => None,
        }
    }

    /// Counts the Block step that is due, which found this, whoever made it.
    pub fn note(&mut self, found: Found) -> Done
        requires open { is_open self.old.stage ≡ true }
        ensures done { IfOpen self.old.stage (λ run. result ≡ done_by run found) }
        ensures noted { self.new ≡ record self.old { stage = noted_in self.old.stage found } }
    {
        // A unit is open, as the caller has to know.
        let TicketStage::Open(run, unit, left) = &mut self.stage else {
            unreachable!();
        };
        let done = run.note(found);
        if done.ended {
            self.stage = stage_behind(run.op(), *unit, *left, found);
        }
        done
    }

    /// The completion that is owed next: its status, and the CID that it is for.
    pub fn due(&self) -> Option<(Status, u16)>
        ensures status { option_map (λ d. d.0) result ≡ slice_get (owed_in self.now.stage) 0 }
        ensures cid { IfSome result (λ d. slice_get self.now.cids 0 ≡ Some d.1) }
    {
        let TicketStage::Owing(owed) = self.stage else {
            return None;
        };
        let status = owed.front()?;
        let cid = self.cids.front().unwrap();
        Some((status, cid))
    }

    /// Takes the completion that is owed next off what is owed, and says whether it was the last.
    pub fn post(&mut self) -> bool
        requires owes { 0 < length (owed_in self.old.stage) }
        ensures posted { self.new ≡ posted_in self.old }
        ensures last { IsTrue result ↔ (length self.old.cids ≡ 1) }
    {
        let stage = self.stage;
        // Only a ticket that owes has completions left to post.
        let TicketStage::Owing(mut owed) = stage else {
            unreachable!();
        };
        let _status = owed.pop();
        let _cid = self.cids.pop();
        self.stage = TicketStage::Owing(owed);
        self.cids.is_empty()
    }
}

// Where a ticket stands behind the last Block step of this unit, which found this.
fn stage_behind(op: Op, unit: u64, left: Range, found: Found) -> TicketStage
    requires few { unit + 1 + left.blocks ≤ 65536 }
    requires range { left.slba + left.blocks ≤ 65536 }
    ensures law { (cids : List ℕ) → length cids ≡ command_count op → IsTicketProgress result cids }
    ensures value { result ≡ (if is_differs found then Owing (on_differs op) else between op (unit + 1) left) }
{
    if found == Found::Differs {
        TicketStage::Owing(owed_on_differs(op))
    } else if left.blocks == 0 {
        TicketStage::Owing(owed_on_success(op))
    } else {
        TicketStage::Waiting(op, unit + 1, left)
    }
}

// Where a ticket stands that was judged so and just fetched.
fn first_stage(judged: &Judged) -> TicketStage
    ensures value { result ≡ first_ticket_stage judged.now }
{
    match judged {
        Judged::Flush => TicketStage::Owing(Owed::one(Status::SUCCESS)),
        Judged::Single(op, range) => TicketStage::Waiting(*op, 0, *range),
        Judged::Pair(range) => TicketStage::Waiting(Op::Pair, 0, *range),
        Judged::SingleFailed(status) => TicketStage::Owing(Owed::one(*status)),
        Judged::PairFailed(first, second) => TicketStage::Owing(Owed::two(*first, *second)),
    }
}

// How a unit of this operation holds its blocks.
fn mode_of(op: Op) -> Mode
    ensures value { result ≡ mode_by op }
{
    match op {
        Op::Write | Op::WriteZeroes | Op::Pair => Mode::Exclusive,
        Op::Read | Op::Compare => Mode::Shared,
    }
}

// What a ticket owes after a difference.
fn owed_on_differs(op: Op) -> Owed
    ensures value { result ≡ on_differs op }
{
    match op {
        Op::Pair => Owed::two(Status::COMPARE_FAILURE, Status::FAILED_FUSED),
        Op::Read | Op::Compare | Op::Write | Op::WriteZeroes => Owed::one(Status::COMPARE_FAILURE),
    }
}

// What it owes once all its units have ended without one.
fn owed_on_success(op: Op) -> Owed
    ensures value { result ≡ on_success op }
{
    match op {
        Op::Pair => Owed::two(Status::SUCCESS, Status::SUCCESS),
        Op::Read | Op::Compare | Op::Write | Op::WriteZeroes => Owed::one(Status::SUCCESS),
    }
}
